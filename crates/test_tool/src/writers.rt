//! Writers that fail on purpose. Each counts its calls, and its contract states the bytes that it
//! accepted.

ghost use Rattle.std.specs.Prelude.{[], Some};

use std::io::{Error, ErrorKind, Result, Write};

/// Accepts one byte per write, and fails at the write with a number.
#[derive(Drop)]
pub struct OneByteWriter {
    /// The bytes that it accepted.
    pub held: Vec<u8>,
    /// The number of writes, with the failing one.
    pub writes: u64,
    /// The number of the write that fails, from 1 on, or 0 for none. A failing write accepts no
    /// byte, and the next one goes on.
    pub fails_at: u64,
    /// The number of flushes. Each of them fails.
    pub flushes: u64,
}

impl Write for OneByteWriter {
    ghost contents = { λ writer. Some writer.held.items };

    fn write(&mut self, buf: &[u8]) -> Result<usize> {
        self.writes = self.writes.saturating_add(1);
        if self.writes == self.fails_at {
            return Err(Error::from(ErrorKind::Other));
        }
        let Some(byte) = buf.first() else {
            return Ok(0);
        };
        self.held.push(*byte)?;
        Ok(1)
    }

    fn flush(&mut self) -> Result<()> {
        self.flushes = self.flushes.saturating_add(1);
        Err(Error::from(ErrorKind::Other))
    }
}

/// Accepts no byte, and returns 0 without an error.
#[derive(Drop)]
pub struct FullWriter;

impl Write for FullWriter {
    ghost contents = { λ writer. Some [] };

    fn write(&mut self, _buf: &[u8]) -> Result<usize> {
        Ok(0)
    }

    fn flush(&mut self) -> Result<()> {
        Ok(())
    }
}
