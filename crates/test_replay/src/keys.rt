//! Cases of keys of several fields.

use crate::rules::secrets_of;
use anyhow::Result;
use rapidhash::key::{Field, rapidhash_v3_key, rapidhash_v3_key_seeded};
use std::alloc::Global;

/// A field whose bytes are its own.
#[derive(Drop)]
enum Part {
    Nothing,
    Integer(u64),
    Bytes(Vec<u8>),
}

impl Part {
    fn new(alloc: Global, text: &str) -> Result<Part> {
        if text == "-" {
            return Ok(Part::Nothing);
        }
        match text.strip_prefix("x") {
            Some(digits) => Ok(Part::Bytes(hex::decode(alloc, digits)?)),
            None => Ok(Part::Integer(text.parse::<i64>()?.cast_unsigned())),
        }
    }

    fn field(&self) -> Field<'_> {
        match self {
            Part::Nothing => Field::Nothing,
            Part::Integer(value) => Field::Integer(*value),
            Part::Bytes(bytes) => Field::Bytes(bytes.as_slice()),
        }
    }
}

/// Replays the hash of a key, whose fields are between spaces, or `()` for none.
pub fn replay(alloc: Global, rule: &str, key: &str, expected: u64) -> Result<bool> {
    let mut parts = Vec::new(alloc);
    for text in key.split_whitespace().filter(|text| *text != "()") {
        parts.push(Part::new(alloc, text)?)?;
    }
    let mut fields = Vec::new(alloc);
    for part in &parts {
        fields.push(part.field())?;
    }
    let secrets = secrets_of(rule)?.seven;
    let default = rule != "default" || rapidhash_v3_key(fields.as_slice()) == expected;
    Ok(default && rapidhash_v3_key_seeded(fields.as_slice(), &secrets) == expected)
}
