//! A source that is looked at before it is read.

ghost use Rattle.std.specs.Prelude.{◌≡◌, ◌<◌, ◌≤◌, ◌⊎◌, true, false, [], min, take, drop, length, OnOk};
ghost use Rattle.std.specs.Io.KnownBytes.{Keeps};
ghost use Rattle.cq_cli.specs.Devices.{AheadRecord, left_of};
ghost use Rattle.cq_cli.specs.Steps.Ahead.{IsFilled, may_begin_mark};

use cq_devices::{Failed, Source};
use std::io::Read;
use std::marker::Model;

/// How many bytes are held at most: as many as a script is read by.
const MOST: usize = 4_096;

/// A byte order mark.
const MARK: [u8; 3] = [0xef, 0xbb, 0xbf];

/// A source of which is known whether a byte order mark comes next, before that is read.
pub(crate) trait LookAhead: Source {
    ghost use Rattle.std.specs.Prelude.{◌≡◌, ◌<◌, ◌+◌, ◌^◌, ◌-◌, [], IfOk, IfSome, MatchResult};
    ghost use Rattle.std.specs.Io.KnownBytes.{Keeps};
    ghost use Rattle.cq_why.specs.Why.{is_mark};

    /// Whether a byte order mark comes next. It is left to be read.
    ///
    /// # Errors
    /// `Failed` where the device fails, which counts as a read.
    fn has_mark(&mut self) -> Result<bool, Failed>
        requires reads { Self.reads_made self.old < 2 ^ 64 - 1 }
        requires failures { Self.failures_met self.old < 2 ^ 64 - 1 }
        ensures mark { IfOk result (λ marked. IfSome (Self.left self.old) (λ input. marked ≡ is_mark [] input)) }
        ensures bytes { Keeps (Self.left self.old) (Self.left self.new) }
        ensures reads { MatchResult result (λ _. Self.reads_made self.new ≡ Self.reads_made self.old) (λ _. Self.reads_made self.new ≡ Self.reads_made self.old + 1) }
        ensures failures { MatchResult result (λ _. Self.failures_met self.new ≡ Self.failures_met self.old) (λ _. Self.failures_met self.new ≡ Self.failures_met self.old + 1) };
}

/// A source over a device of std, of which bytes are held that were looked at and are still to be read. A device that was at its end is asked no more, so that the
/// end of what is typed at a terminal need not be given twice.
#[derive(Drop)]
pub(crate) struct Ahead<D: Read> {
    device: D,
    bytes: [u8; MOST],
    held: usize,
    is_ended: bool,
    reads: u64,
    failures: u64,
}

impl<D: Read> Model for Ahead<D> {
    ghost use Rattle.std.specs.Prelude.{◌≡◌, ◌≤◌, true, take};
    ghost use Rattle.std.specs.Io.KnownBytes.{IsAtEnd};
    ghost use Rattle.cq_cli.specs.Devices.{AheadRecord};

    ghost Value = { AheadRecord D };

    ghost view = { λ a. record { device = a.device; held = take a.held a.bytes; reads = a.reads; failures = a.failures } };

    ghost invariant = { λ a. (a.held ≤ 4096) × (a.is_ended ≡ true → IsAtEnd (D.remaining a.device)) };
}

impl<D: Read> Ahead<D> {
    /// The device, of which nothing has been asked yet.
    pub(crate) fn new(device: D) -> Self
        ensures { result ≡ record { device = device; held = []; reads = 0; failures = 0 } }
    {
        Ahead {
            device,
            bytes: [0; MOST],
            held: 0,
            is_ended: false,
            reads: 0,
            failures: 0,
        }
    }

    /// The bytes that are held.
    fn held(&self) -> &[u8]
        ensures value { result.now ≡ self.now.held }
        ensures few { length result.now ≤ 4096 }
    {
        &self.bytes[..self.held]
    }

    /// Whether more bytes are to be held, to know whether a byte order mark comes next.
    fn is_short(&self) -> bool
        ensures short { result ≡ true → length self.now.held < 3 }
        ensures told { result ≡ false → (3 ≤ length self.now.held) ⊎ (may_begin_mark self.now.held ≡ false) }
    {
        let held = self.held();
        held.len() < 3 && may_begin_mark(held)
    }

    /// Gives of the bytes that are held as many as there is room for.
    fn give(&mut self, buf: &mut [u8]) -> usize
        ensures count { result ≡ min (length self.old.held) (length buf.old) }
        ensures bytes { take result buf.new ≡ take result self.old.held }
        ensures room { length buf.new ≡ length buf.old }
        ensures rest { self.new ≡ record self.old { held = drop result self.old.held } }
    {
        let mut rest = self.held();
        let Ok(count) = rest.read(buf) else {
            return 0;
        };
        let mut bytes = [0; MOST];
        bytes[..rest.len()].copy_from_slice(rest);
        self.held = rest.len();
        self.bytes = bytes;
        count
    }
}

/// Whether the bytes may begin a byte order mark.
fn may_begin_mark(bytes: &[u8]) -> bool
    ensures { result ≡ may_begin_mark bytes.now }
{
    match bytes.first() {
        Some(byte) => *byte == MARK[0],
        None => true,
    }
}

impl<D: Read> Ahead<D> {
    /// Reads until as many bytes are held as tell whether a byte order mark comes next.
    fn fill(&mut self) -> Result<(), Failed>
        ensures filled { OnOk result (IsFilled self.new.held (D.remaining self.new.device)) }
        ensures bytes { Keeps (left_of D.remaining self.old) (left_of D.remaining self.new) }
        ensures counts { (self.new.reads ≡ self.old.reads) × (self.new.failures ≡ self.old.failures) }
    {
        while !self.is_ended && self.is_short() {
            let Ok(count) = self.device.read(&mut self.bytes[self.held..]) else {
                return Err(Failed);
            };
            if count == 0 {
                self.is_ended = true;
                return Ok(());
            }
            self.held += count;
        }
        Ok(())
    }
}

impl<D: Read> Source for Ahead<D> {
    ghost use Rattle.cq_cli.specs.Devices.{left_of};

    ghost left = { λ a. left_of D.remaining a };

    ghost reads_made = { λ a. a.reads };

    ghost failures_met = { λ a. a.failures };

    fn read(&mut self, buf: &mut [u8]) -> Result<usize, Failed> {
        self.reads += 1;
        if self.held > 0 {
            return Ok(self.give(buf));
        }
        if self.is_ended {
            return Ok(0);
        }
        match self.device.read(buf) {
            Ok(count) => Ok(count),
            Err(_) => {
                self.failures += 1;
                Err(Failed)
            }
        }
    }

    fn reads(&self) -> u64 {
        self.reads
    }

    fn failures(&self) -> u64 {
        self.failures
    }
}

impl<D: Read> LookAhead for Ahead<D> {
    fn has_mark(&mut self) -> Result<bool, Failed> {
        let Ok(()) = self.fill() else {
            self.reads += 1;
            self.failures += 1;
            return Err(Failed);
        };
        let held = self.held();
        let front = &held[..held.len().min(3)];
        Ok(front == MARK.as_slice())
    }
}
