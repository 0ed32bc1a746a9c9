//! A source and a sink over std's devices.

ghost use Rattle.std.specs.Prelude.{◌≡◌};
ghost use Rattle.cq_devices.specs.Device.{CountedRecord};

use crate::sink::Sink;
use crate::source::{Failed, Source};
use std::io::{Read, Write};
use std::marker::Model;

/// A device, with the numbers of its reads and of its calls that failed.
///
/// It holds nothing back: each call is passed on to the device as it is.
#[derive(Drop)]
pub struct Counted<D> {
    device: D,
    reads: u64,
    failures: u64,
}

impl<D> Model for Counted<D> {
    ghost Value = { CountedRecord D };

    ghost view = { λ c. record { device = c.device; reads = c.reads; failures = c.failures } };
}

impl<D> Counted<D> {
    /// The device, of which nothing has been asked yet.
    pub fn new(device: D) -> Self
        ensures { result ≡ record { device = device; reads = 0; failures = 0 } }
    {
        Counted {
            device,
            reads: 0,
            failures: 0,
        }
    }

    /// The device again, without its numbers.
    pub fn into_inner(self) -> D
        ensures { result ≡ self.device }
    {
        let Counted {
            device,
            reads: _,
            failures: _,
        } = self;
        device
    }
}

impl<D: Read> Source for Counted<D> {
    ghost left = { λ s. D.remaining s.device };

    ghost reads_made = { λ s. s.reads };

    ghost failures_met = { λ s. s.failures };

    fn read(&mut self, buf: &mut [u8]) -> Result<usize, Failed> {
        self.reads += 1;
        match self.device.read(buf) {
            Ok(n) => Ok(n),
            Err(_) => {
                self.failures += 1;
                Err(Failed)
            }
        }
    }

    fn reads(&self) -> u64 {
        self.reads
    }

    fn failures(&self) -> u64 {
        self.failures
    }
}

impl<D: Write> Sink for Counted<D> {
    ghost taken = { λ s. D.contents s.device };

    ghost write_failures = { λ s. s.failures };

    fn write(&mut self, bytes: &[u8]) -> Result<usize, Failed> {
        match self.device.write(bytes) {
            Ok(n) if n > 0 || bytes.is_empty() => Ok(n),
            _ => {
                self.failures += 1;
                Err(Failed)
            }
        }
    }

    fn flush(&mut self) -> Result<(), Failed> {
        match self.device.flush() {
            Ok(()) => Ok(()),
            Err(_) => {
                self.failures += 1;
                Err(Failed)
            }
        }
    }

    fn failures(&self) -> u64 {
        self.failures
    }
}
