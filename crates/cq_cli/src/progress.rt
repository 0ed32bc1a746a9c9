//! A reader that tells how far it is.

ghost use Rattle.std.specs.Prelude.{◌≡◌, ◌==◌, ◌+◌, ◌-◌, ◌*◌, ◌/◌, ◌^◌, length, is_some, max, min, IfSome};
ghost use Rattle.std.specs.Duration.{as_nanos};
ghost use Rattle.std.specs.List.{count_by};

use std::fmt::{self, Display, Formatter};
use std::io::{self, Read};
use std::rt::Clock;
use std::time::{Duration, Instant};

/// After how many bytes it is told again.
const STEP: u64 = 65_536;

/// A number with a comma before each three of its digits but the first.
#[derive(Clone, Copy)]
struct Grouped(u64);

/// What stands before the last three digits of a number, and these.
fn put_grouped<W: fmt::Write>(number: u64, f: &mut Formatter<W>) -> fmt::Result {
    if number < 1_000 {
        return write!(f, "{number}");
    }
    put_grouped(number / 1_000, f)?;
    let digits = number % 1_000;
    write!(f, ",{digits:03}")
}

impl Display for Grouped {
    fn fmt<W: fmt::Write>(&self, f: &mut Formatter<W>) -> fmt::Result {
        put_grouped(self.0, f)
    }
}

/// How many lines the piece ends.
fn line_ends(piece: &[u8]) -> usize
    ensures { result ≡ count_by (λ byte. byte == 10) piece.now }
{
    piece.iter().filter(|byte| **byte == b'\n').count()
}

/// What was read so far.
#[derive(Clone, Copy)]
struct Progress {
    lines: u64,
    bytes: u64,
    /// Whether the last line has no line feed yet.
    is_in_line: bool,
}

impl Progress {
    /// Counts what was read.
    fn add(&mut self, piece: &[u8])
        ensures lines { self.new.lines ≡ min (self.old.lines + count_by (λ byte. byte == 10) piece.now) (2 ^ 64 - 1) }
        ensures bytes { self.new.bytes ≡ min (self.old.bytes + length piece.now) (2 ^ 64 - 1) }
    {
        self.lines = self.lines.saturating_add(line_ends(piece) as u64);
        self.bytes = self.bytes.saturating_add(piece.len() as u64);
        if let Some(last) = piece.last() {
            self.is_in_line = *last != b'\n';
        }
    }
}

impl Display for Progress {
    fn fmt<W: fmt::Write>(&self, f: &mut Formatter<W>) -> fmt::Result {
        let lines = Grouped(self.lines.saturating_add(u64::from(self.is_in_line)));
        let bytes = Grouped(self.bytes);
        write!(f, "board: {lines} lines, {bytes} bytes")
    }
}

/// How many bytes come in a second, where so many came in that time.
fn rate_of(bytes: u64, time: Duration) -> u64
    ensures { result ≡ min (bytes * 1000000000 / max (as_nanos time) 1) (2 ^ 64 - 1) }
{
    let rate = u128::from(bytes) * 1_000_000_000 / time.as_nanos().max(1);
    u64::try_from(rate).unwrap_or(u64::MAX)
}

/// What was read so far, and how fast.
#[derive(Clone, Copy)]
struct Told {
    progress: Progress,
    rate: u64,
}

impl Display for Told {
    fn fmt<W: fmt::Write>(&self, f: &mut Formatter<W>) -> fmt::Result {
        let progress = self.progress;
        let rate = Grouped(self.rate);
        write!(f, "{progress}, {rate} bytes a second")
    }
}

/// A reader that tells on standard error how many lines and bytes it gave, and how fast, if it is to: over what it told before, each so many bytes, and at its
/// end. What cannot be written is left out, and a time that the clock does not tell counts as none.
#[derive(Drop)]
pub(crate) struct Watching<'a, R, H> {
    input: R,
    host: Option<&'a H>,
    began: Option<Instant>,
    progress: Progress,
    told: u64,
}

/// Where it is told, if it is to be.
pub(crate) fn watched_on<H>(host: &H, is_watched: bool) -> Option<&H>
    ensures some { is_some result ≡ is_watched }
    ensures host { IfSome result (λ it. it.now ≡ host.now) }
{
    if is_watched { Some(host) } else { None }
}

impl<'a, R, H: Clock> Watching<'a, R, H> {
    /// Nothing was read yet.
    pub(crate) fn new(input: R, host: Option<&'a H>) -> Self
        ensures { result.input ≡ input }
    {
        Watching {
            input,
            began: host.and_then(|host| Instant::now(host).ok()),
            host,
            progress: Progress {
                lines: 0,
                bytes: 0,
                is_in_line: false,
            },
            told: 0,
        }
    }

    /// How long it has been reading.
    fn time(&self, host: &H) -> Duration {
        match self.began {
            Some(began) => began.elapsed(host).unwrap_or(Duration::ZERO),
            None => Duration::ZERO,
        }
    }
}

impl<'a, R, H: Clock + Eprint> Watching<'a, R, H> {
    /// What was read so far, and how fast.
    fn so_far(&self, host: &H) -> Told
        ensures { result.progress ≡ self.now.progress }
    {
        Told {
            progress: self.progress,
            rate: rate_of(self.progress.bytes, self.time(host)),
        }
    }

    /// Counts what was read, and tells of it from time to time.
    fn count(&mut self, host: &H, piece: &[u8])
        ensures { self.new.input ≡ self.old.input }
    {
        self.progress.add(piece);
        if piece.is_empty() {
            let told = self.so_far(host);
            let _ = eprint!(host; "\r{told}\x1b[K\n");
            self.host = None;
        } else if self.progress.bytes.saturating_sub(self.told) >= STEP {
            let told = self.so_far(host);
            let _ = eprint!(host; "\r{told}\x1b[K");
            self.told = self.progress.bytes;
        }
    }
}

impl<'a, R: Read, H: Clock + Eprint> Read for Watching<'a, R, H> {
    ghost remaining = { λ w. R.remaining w.input };

    fn read(&mut self, buf: &mut [u8]) -> io::Result<usize> {
        let count = self.input.read(buf)?;
        if let (Some(host), false) = (self.host, buf.is_empty()) {
            self.count(host, &buf[..count]);
        }
        Ok(count)
    }
}
