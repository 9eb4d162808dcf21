//! The arguments of the command line.

/// The usage.
pub const USAGE: &str = "usage: example_bloom [--one-in N] LIST..

For each line of standard input, prints 'maybe LINE' if it may be in a LIST,
or 'no LINE' if it definitely is not. At most about one in N lines that are in
no LIST is reported as 'maybe' (default: 100).";

/// An error in the arguments.
#[derive(Debug, Clone, Copy, thiserror::Error, Drop)]
pub enum OptionsError<'a> {
    /// No list is named.
    #[error("missing LIST argument")]
    NoList,
    /// No number, or one out of range, follows `--one-in`.
    #[error("--one-in requires a number from 2 to 4294967295")]
    OneIn,
    /// There is no such option.
    #[error("unknown option '{0}'")]
    Unknown(&'a str),
}

/// The request in the arguments.
#[derive(Clone, Copy)]
pub enum Request<'a> {
    /// To print the usage.
    Help,
    /// To look lines up.
    LookUp {
        /// At most one in this many other lines should be reported as `maybe`.
        one_in: u32,
        /// The names of the lists.
        lists: &'a [String],
    },
}

// The default of `--one-in`.
const ONE_IN: u32 = 100;

/// Returns the request in the arguments after the program's name.
pub fn parse_words<'a>(words: &'a [String]) -> Result<Request<'a>, OptionsError<'a>> {
    let mut lists = words;
    let mut one_in = ONE_IN;
    if let [option, others @ ..] = lists
        && option.as_str() == "--one-in"
    {
        let [number, others @ ..] = others else {
            return Err(OptionsError::OneIn);
        };
        one_in = match number.as_str().parse::<u32>() {
            Ok(number) if number >= 2 => number,
            _ => return Err(OptionsError::OneIn),
        };
        lists = others;
    }
    match lists.first() {
        None => Err(OptionsError::NoList),
        Some(word) if word.as_str() == "--help" => Ok(Request::Help),
        Some(word) if word.as_str().starts_with("--") => Err(OptionsError::Unknown(word.as_str())),
        Some(_) => Ok(Request::LookUp { one_in, lists }),
    }
}
