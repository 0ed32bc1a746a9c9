//! A writer that discards all.

ghost use Rattle.std.specs.Prelude.{None};

use cq_devices::{Failed, Sink};

/// Takes all that is written, and discards it. It never fails.
#[derive(Drop)]
pub(crate) struct Discard;

impl Sink for Discard {
    ghost taken = { λ _. None };

    ghost write_failures = { λ _. 0 };

    fn write(&mut self, bytes: &[u8]) -> Result<usize, Failed> {
        Ok(bytes.len())
    }

    fn flush(&mut self) -> Result<(), Failed> {
        Ok(())
    }

    fn failures(&self) -> u64 {
        0
    }
}
