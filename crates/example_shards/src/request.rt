//! The arguments of the command line.

use std::num::NonZeroU32;

/// The usage.
pub const USAGE: &str = "usage: example_shards shard|bucket COUNT [NEW]

Prints the shard or bucket, and a tab, before each line of standard input. With
NEW, prints only the lines that move when COUNT changes to NEW, after both
numbers. Shards are for tables, buckets for servers that come one by one.";

/// An error in the arguments.
#[derive(Debug, Clone, Copy, thiserror::Error, Drop)]
pub enum RequestError<'a> {
    /// The first argument is neither `shard` nor `bucket`.
    #[error("the first argument must be 'shard' or 'bucket'")]
    NoWay,
    /// The count is missing.
    #[error("missing COUNT argument")]
    NoCount,
    /// An argument is not a count.
    #[error("'{0}' is not a number from 1 to 4294967295")]
    Count(&'a str),
    /// There are too many arguments.
    #[error("unexpected argument '{0}'")]
    LeftOver(&'a str),
}

/// How lines are spread.
#[derive(Clone, Copy)]
pub enum Way {
    Shard,
    Bucket,
}

/// The request in the arguments.
#[derive(Clone, Copy)]
pub struct Request {
    pub way: Way,
    /// The number of shards or buckets.
    pub count: NonZeroU32,
    /// Their number after a change.
    pub new: Option<NonZeroU32>,
}

// Returns the count in an argument.
fn parse_count<'a>(word: &'a String) -> Result<NonZeroU32, RequestError<'a>> {
    let word = word.as_str();
    word.parse().map_err(|_| RequestError::Count(word))
}

/// Returns the request in the arguments after the program's name.
pub fn parse_words<'a>(words: &'a [String]) -> Result<Request, RequestError<'a>> {
    let (way, counts) = match words {
        [way, counts @ ..] if way.as_str() == "shard" => (Way::Shard, counts),
        [way, counts @ ..] if way.as_str() == "bucket" => (Way::Bucket, counts),
        _ => return Err(RequestError::NoWay),
    };
    let (count, new) = match counts {
        [] => return Err(RequestError::NoCount),
        [count] => (parse_count(count)?, None),
        [count, new] => (parse_count(count)?, Some(parse_count(new)?)),
        [_, _, more, ..] => return Err(RequestError::LeftOver(more.as_str())),
    };
    Ok(Request { way, count, new })
}
