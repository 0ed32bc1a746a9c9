//! Readers and writers that cut their bytes, and that fail.

use std::io::{self, ErrorKind, Read, Write};

/// Gives at most so many bytes at a read.
#[derive(Drop)]
pub struct Pieces<'a> {
    pub rest: &'a [u8],
    pub most: usize,
}

impl<'a> Read for Pieces<'a> {
    fn read(&mut self, buf: &mut [u8]) -> io::Result<usize> {
        let count = self.rest.len().min(buf.len()).min(self.most);
        let (front, rest) = self.rest.split_at(count);
        buf[..count].copy_from_slice(front);
        self.rest = rest;
        Ok(count)
    }
}

/// Gives its pieces at so many reads, and then fails.
#[derive(Drop)]
pub struct Failing<'a> {
    pieces: Pieces<'a>,
    good: u32,
}

impl<'a> Failing<'a> {
    /// Gives the bytes so many at a read.
    pub fn new(bytes: &'a [u8], most: usize, good: u32) -> Failing<'a> {
        Failing {
            pieces: Pieces { rest: bytes, most },
            good,
        }
    }
}

impl<'a> Read for Failing<'a> {
    fn read(&mut self, buf: &mut [u8]) -> io::Result<usize> {
        if self.good == 0 {
            return Err(ErrorKind::TimedOut.into());
        }
        self.good -= 1;
        self.pieces.read(buf)
    }
}

/// Gives a line feed at each read.
#[derive(Drop)]
pub struct Endless;

impl Read for Endless {
    fn read(&mut self, buf: &mut [u8]) -> io::Result<usize> {
        if buf.is_empty() {
            return Ok(0);
        }
        buf[0] = b'\n';
        Ok(1)
    }
}

/// Gives up to one line at a read.
#[derive(Drop)]
pub struct OneLine<'a>(pub &'a [u8]);

impl<'a> Read for OneLine<'a> {
    fn read(&mut self, buf: &mut [u8]) -> io::Result<usize> {
        let line = match self.0.iter().position(|byte| *byte == b'\n') {
            Some(end) => end + 1,
            None => self.0.len(),
        };
        let count = line.min(buf.len());
        let (front, rest) = self.0.split_at(count);
        buf[..count].copy_from_slice(front);
        self.0 = rest;
        Ok(count)
    }
}

/// Takes the bytes that are expected, at most so many at a write, and fails at others; and counts how often it is flushed. It takes no
/// memory.
#[derive(Drop)]
pub struct Expecting<'a> {
    pub rest: &'a [u8],
    pub most: usize,
    pub flushes: u32,
}

impl<'a> Expecting<'a> {
    pub fn new(bytes: &'a [u8], most: usize) -> Expecting<'a> {
        Expecting {
            rest: bytes,
            most,
            flushes: 0,
        }
    }
}

impl<'a> Write for Expecting<'a> {
    fn write(&mut self, buf: &[u8]) -> io::Result<usize> {
        let count = self.rest.len().min(buf.len()).min(self.most);
        let (front, rest) = self.rest.split_at(count);
        if front.is_empty() || front != &buf[..count] {
            return Err(ErrorKind::WriteZero.into());
        }
        self.rest = rest;
        Ok(count)
    }

    fn flush(&mut self) -> io::Result<()> {
        self.flushes = self.flushes.saturating_add(1);
        Ok(())
    }
}

/// Counts the bytes that it takes, and fails where it is flushed.
#[derive(Drop)]
pub struct Holding {
    pub taken: usize,
}

impl Write for Holding {
    fn write(&mut self, buf: &[u8]) -> io::Result<usize> {
        self.taken = self.taken.saturating_add(buf.len());
        Ok(buf.len())
    }

    fn flush(&mut self) -> io::Result<()> {
        Err(ErrorKind::BrokenPipe.into())
    }
}
