//! The board that a script leaves.

ghost use Rattle.std.specs.Prelude.{◌≡◌, ◌<◌, ◌≤◌, ◌+◌, ◌^◌, List, OnOk, IfOk, IfErr, IfSome, MatchResult};
ghost use Rattle.cq_devices.specs.Device.{FailedAtTurn, IfAtTurn, IsAtTurn, write_failures_of};
ghost use Rattle.cq_report.specs.Lines.{lines_of};
ghost use Rattle.cq_report.specs.Reading.{Reading};
ghost use Rattle.cq_report.specs.Output.{AreReadings, left_after};
ghost use Rattle.cq_report.specs.Steps.Playing.{IsPlayed};

use crate::discard::Discard;
use crate::left::Played;
use crate::line_buffer::LineBuffer;
use crate::manner::Manner;
use crate::numbering::Numbering;
use crate::output::Output;
use crate::script::Script;
use crate::serving::serve;
use cq_devices::{MAX_PIECE, MAX_READS, Source, Stop};
use cq_text::one_reading;
use std::alloc::Allocator;
use std::mem;

/// Returns the floor after a run that ended so. It opens if the setup lasts.
fn left_by<A: Allocator + Copy>(
    script: Script<A>,
    ended: Result<(), Stop>,
) -> Result<Played<A>, Stop>
    ensures { IsPlayed ended script result }
{
    match ended {
        Ok(()) => {
            let played = script.into_played()?;
            Ok(played)
        }
        Err(fault) => {
            mem::drop(script);
            Err(fault)
        }
    }
}

/// Reads a script to its end, and gives the board that it leaves: the one that a `show` after its last line would print.
///
/// The script is cut into lines and served as `run` does, and no reply is written. Lines that are refused leave nothing after.
/// Where no line ends the setup, the board is the one that the setup opens.
///
/// # Errors
/// `Read` has the number, from 1, of the read that failed, or 1,048,577 if no read failed and none came to the end;
/// `NoMemory` says that an allocation failed. No board is left with either.
pub fn read_script<A: Allocator + Copy, R: Source>(
    alloc: A,
    reader: &mut R,
) -> Result<Played<A>, Stop>
    requires reads { R.reads_made reader.old < 2 ^ 62 }
    requires failures { R.failures_met reader.old < 2 ^ 62 }

    // Where all went well, it is what the lines leave, however they are read.
    ensures left { IfOk result (λ played. IfSome (R.left reader.old) (λ input. (readings : List Reading) → AreReadings (lines_of input) readings → played ≡ left_after readings)) }

    // And they can be read.
    ensures readings { OnOk result (IfSome (R.left reader.old) (λ input. (readings : List Reading) × AreReadings (lines_of input) readings)) }

    // Whose fault it was.
    ensures turn { IfErr result (λ fault. IfAtTurn fault (λ turn. FailedAtTurn turn (R.reads_made reader.old) (R.reads_made reader.new) (R.failures_met reader.old) (R.failures_met reader.new))) }
    ensures reads { R.reads_made reader.new ≤ R.reads_made reader.old + MAX_READS }
    ensures read_failures { MatchResult result (λ _. R.failures_met reader.new ≡ R.failures_met reader.old) (λ fault. (IsAtTurn fault → ⊥) → R.failures_met reader.new ≡ R.failures_met reader.old) }
    ensures no_write { IfErr result (λ fault. write_failures_of fault ≡ 0) }
{
    one_reading();
    let mut line = LineBuffer::begin(alloc)?;
    let mut discard = Discard;
    let mut room = Vec::new(alloc);
    let mut output = Output::new(&mut discard, &mut room);
    let mut script = Script::begin(alloc, Numbering::Plain);
    let mut piece = [0u8; MAX_PIECE];
    let manner = Manner::Script { is_strict: false };
    let ended = serve(
        &mut script,
        manner,
        &mut line,
        &mut piece,
        reader,
        &mut output,
    );
    mem::drop(line);
    left_by(script, ended)
}
