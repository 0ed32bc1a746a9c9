//! Texts for the two sinks.

ghost use Rattle.std.specs.Prelude.{◌≡◌, ◌<◌, ◌+◌, ◌^◌, ◌++◌, string_bytes, IfOk, OnOk, OnErr, MatchResult};
ghost use Rattle.std.specs.Io.KnownBytes.{Appends};
ghost use Rattle.cq_devices.specs.Device.{TakesFront};
ghost use Rattle.cq_cli.specs.Views.{mark_note};

use cq_devices::{Failed, Sink, write_all};
use std::alloc::{AllocError, Allocator, Global};
use std::fmt::Display;

/// Writes a text, and passes on what the sink holds back.
pub(crate) fn write_text<W: Sink>(sink: &mut W, text: &str) -> Result<(), Failed>
    requires { W.write_failures sink.old < 2 ^ 62 }
    ensures ok { OnOk result (Appends (W.taken sink.old) (W.taken sink.new) text.now) }
    ensures err { OnErr result (TakesFront (W.taken sink.old) (W.taken sink.new) text.now) }
    ensures failures { MatchResult result (λ _. W.write_failures sink.new ≡ W.write_failures sink.old) (λ _. W.write_failures sink.new ≡ W.write_failures sink.old + 1) }
{
    write_all(sink, text.as_bytes())?;
    sink.flush()
}

/// Tells a text on the sink of errors, and passes over one that fails: there is nobody left to tell.
pub(crate) fn tell<E: Sink>(errors: &mut E, text: &str)
    requires { E.write_failures errors.old < 2 ^ 62 }
    ensures { E.write_failures errors.new ≡ E.write_failures errors.old → Appends (E.taken errors.old) (E.taken errors.new) text.now }
{
    let _ = write_text(errors, text);
}

/// Tells a fault in one line on the sink of errors, behind the name of the file that it is of, if it is of one.
pub(crate) fn tell_fault<F: Display, E: Sink>(
    alloc: Global,
    origin: &str,
    fault: &F,
    errors: &mut E,
)
    requires { E.write_failures errors.old < 2 ^ 62 }
{
    match format!(in alloc; "board: {origin}{fault}\n") {
        Ok(text) => tell(errors, &text),
        Err(_) => tell(errors, "board: out of memory\n"),
    }
}

/// That a byte order mark stands in front of the script, if one does, in a line, and these lines behind it.
pub(crate) fn marked_notes<A: Allocator + Copy>(
    heap: A,
    origin: &str,
    is_marked: bool,
    lines: String<A>,
) -> Result<String<A>, AllocError>
    ensures { IfOk result (λ text. string_bytes text ≡ mark_note origin.now is_marked ++ string_bytes lines) }
{
    if is_marked {
        format!(in heap; "board: {origin}a byte order mark, with which no script begins\n{lines}")
    } else {
        Ok(lines)
    }
}
