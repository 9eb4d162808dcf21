//! Cases of secrets, seeds and random words that are derived from numbers.

use crate::rules::{number, numbers};
use anyhow::{Result, bail};
use rapidhash::rng::{RapidRng, rapidrng_fast, rapidrng_fast_not_portable, rapidrng_time};
use rapidhash_portable::seeding::{GlobalSecrets, SeedSource};
use rapidhash_portable::{v1, v2, v3};
use std::alloc::{AllocError, Global};

/// A seed, and then secrets.
fn listed(alloc: Global, seed: u64, secrets: &[u64]) -> Result<Vec<u64>, AllocError> {
    let mut words = Vec::new(alloc);
    words.push(seed)?;
    words.extend_from_slice(secrets)?;
    Ok(words)
}

/// The secrets that V1's call makes of a number.
fn of_v1(call: &str, number: u64) -> Result<v1::RapidSecrets> {
    Ok(match call {
        "make" => v1::RapidSecrets::seed(number),
        "reseed" => v1::RapidSecrets::seed(number).reseed(),
        "word" => {
            let made = v1::RapidSecrets::seed_cpp(number);
            if v1::RapidSecrets::seed_of_word(number) != made.seed {
                bail!("two seeds");
            }
            made
        }
        _ => bail!("no call {call} of V1"),
    })
}

/// The secrets that a call of V2 or V3 makes of a number.
fn of_others(version: &str, call: &str, number: u64) -> Result<v3::RapidSecrets> {
    Ok(match (version, call) {
        ("v2", "make") => v2::RapidSecrets::seed(number),
        ("v2", "word") => v2::RapidSecrets::seed_cpp(number),
        ("v2", "reseed") => v2::RapidSecrets::seed(number).reseed(),
        ("v3", "make") => v3::RapidSecrets::seed(number),
        ("v3", "reseed") => v3::RapidSecrets::seed(number).reseed(),
        ("v3", "word") => {
            let made = v3::RapidSecrets::seed_cpp(number);
            if v3::RapidSecrets::seed_of_word(number) != made.seed {
                bail!("two seeds");
            }
            made
        }
        _ => bail!("no call {call} of {version}"),
    })
}

/// Replays a rule of secrets: a call and its number.
pub fn replay_secrets(alloc: Global, version: &str, rule: &str, expected: &str) -> Result<bool> {
    let Some((call, of)) = rule.split_once(":") else {
        bail!("no secrets by the rule {rule}");
    };
    let words = if version == "v1" {
        let made = of_v1(call, number(of)?)?;
        listed(alloc, made.seed, &made.secrets)?
    } else {
        let made = of_others(version, call, number(of)?)?;
        listed(alloc, made.seed, &made.secrets)?
    };
    Ok(words.as_slice() == numbers(alloc, expected)?.as_slice())
}

/// A global seed, and four seeds of its source.
fn seeds(alloc: Global, random: u64, second: u64) -> Result<Vec<u64>, AllocError> {
    let global = GlobalSecrets::new(random);
    let mut source = SeedSource::new(&global, second);
    let mut answers = [global.get_global_seed(); 5];
    for answer in &mut answers[1..] {
        *answer = source.next();
    }
    Ok(answers.to_vec(alloc)?)
}

/// Words, the state that is left, and the words that are not portable.
fn words(alloc: Global, seed: u64, count: u64) -> Result<Vec<u64>, AllocError> {
    let mut all = Vec::new(alloc);
    let mut state = seed;
    for _ in 0..count {
        all.push(rapidrng_fast(&mut state))?;
    }
    all.push(state)?;
    let mut state = seed;
    for _ in 0..count {
        all.push(rapidrng_fast_not_portable(&mut state))?;
    }
    Ok(all)
}

/// The word for a time, and the seed that it leaves.
fn at_time(seed: u64, secs: u64, nanos: u64) -> Result<[u64; 2]> {
    let nanos = u32::try_from(nanos)?;
    if nanos >= 1_000_000_000 {
        bail!("{nanos} nanoseconds are more than a second");
    }
    let mut left = seed;
    let word = rapidrng_time(&mut left, secs, nanos);
    Ok([word, left])
}

/// Returns what the calls of a kind return for up to three numbers.
pub fn computed(alloc: Global, kind: &str, numbers: &[u64]) -> Result<Vec<u64>> {
    let mut all = [0; 3];
    for (place, number) in all.iter_mut().zip(numbers) {
        *place = *number;
    }
    let [first, second, third] = all;
    Ok(match kind {
        "made" => GlobalSecrets::new(first).get().to_vec(alloc)?,
        "source" => seeds(alloc, first, second)?,
        "draws" => words(alloc, first, second)?,
        "time" => at_time(first, second, third)?.to_vec(alloc)?,
        "steps" => {
            let end = RapidRng::new(second);
            [RapidRng::new(first).steps_to(&end)].to_vec(alloc)?
        }
        _ => bail!("no kind {kind}"),
    })
}
