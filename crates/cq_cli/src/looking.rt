//! Reads a script, and writes what is reported about the board that it leaves.

ghost use Rattle.std.specs.Prelude.{◌≡◌, ◌≢◌, ◌<◌, ◌+◌, ◌^◌, ◌++◌, ℕ, List, [], map, false, string_bytes, IfOk, IfErr, IfSome, OnErr, MatchResult};
ghost use Rattle.std.specs.List.{list_all};
ghost use Rattle.cq_atom.specs.Text.{is_name};
ghost use Rattle.cq_devices.specs.Device.{IsAtTurn, write_failures_of};
ghost use Rattle.cq_report.specs.Lines.{lines_of};
ghost use Rattle.cq_report.specs.Reading.{Reading};
ghost use Rattle.cq_report.specs.Output.{AreReadings, left_after};
ghost use Rattle.cq_report.specs.Summary.{warning};
ghost use Rattle.cq_cli.specs.declared.status.Status.{Status};
ghost use Rattle.cq_cli.specs.Status.{ended, IsTold};
ghost use Rattle.cq_cli.specs.Devices.{counts, EndsRun, HaveRoom, LeavesRefused, ReportsFailures};
ghost use Rattle.cq_cli.specs.Views.{told_line, ToldOn, IsShown, IsSought, IsJudgedShown};
ghost use Rattle.cq_ask.specs.Choices.{StandForNone};
ghost use Rattle.cq_why.specs.Why.{is_mark};

use crate::ahead::LookAhead;
use crate::choices::{read_choices, read_names};
use crate::status::Status;
use crate::views::{Choose, Dump, Explain, Graph, Groups, Json, Judge, View};
use crate::wanted::Look;
use crate::writing::{marked_notes, tell, tell_fault, write_text};
use cq_devices::{Sink, Stop};
use cq_report::{Played, put_warning, read_script};
use std::alloc::{AllocError, Allocator, Global};

/// What is to be known of a script by somebody who looks at its board, in a line, and these lines behind it.
fn notes_on<A: Allocator + Copy>(
    heap: A,
    origin: &str,
    script: &Played<A>,
    lines: &str,
) -> Result<String<A>, AllocError>
    ensures { IfOk result (λ text. string_bytes text ≡ told_line origin.now (warning script.now) ++ lines.now) }
{
    let mut words = String::new(heap);
    put_warning(script, &mut words)?;
    if words.as_str().is_empty() {
        return String::from_str(heap, lines);
    }
    format!(in heap; "board: {origin}{words}\n{lines}")
}

/// Writes what is asked of what the script leaves, and tells what there is to tell beside it.
fn write_seen<A: Allocator + Copy, V: View<A>, W: Sink, E: Sink>(
    heap: A,
    origin: &str,
    is_marked: bool,
    view: &V,
    script: &Played<A>,
    sink: &mut W,
    errors: &mut E,
) -> Result<Status, Stop>
    requires sink { W.write_failures sink.old < 2 ^ 62 }
    requires errors { E.write_failures errors.old < 2 ^ 62 }
    ensures ok { IfOk result (λ status. IsShown (V.tells view.now) origin.now is_marked script.now status (W.taken sink.old) (W.taken sink.new) (ToldOn (E.write_failures errors.old) (E.write_failures errors.new) (E.taken errors.old) (E.taken errors.new))) }
    ensures status { IfOk result IsTold }
    ensures errors { OnErr result (errors.new ≡ errors.old) }
    ensures failures { MatchResult result (λ _. W.write_failures sink.new ≡ W.write_failures sink.old) (λ fault. W.write_failures sink.new ≡ W.write_failures sink.old + write_failures_of fault) }
    ensures no_read { IfErr result (λ fault. IsAtTurn fault → ⊥) }
{
    let seen = view.look(heap, script)?;
    let notes = notes_on(heap, origin, script, &seen.notes)?;
    let notes = marked_notes(heap, origin, is_marked, notes)?;
    write_text(sink, &seen.text)?;
    tell(errors, &notes);
    Ok(seen.status)
}

/// Reads the script that the source gives, and writes what is asked of what it leaves.
fn show<A: Allocator + Copy, V: View<A>, R: LookAhead, W: Sink, E: Sink>(
    heap: A,
    origin: &str,
    view: &V,
    source: &mut R,
    sink: &mut W,
    errors: &mut E,
) -> Result<Status, Stop>
    requires devices { HaveRoom (counts R.reads_made R.failures_met W.write_failures source.old sink.old) }
    requires errors { E.write_failures errors.old < 2 ^ 62 }
    ensures told { IfOk result (λ status. IfSome (R.left source.old) (λ input. (readings : List Reading) → AreReadings (lines_of input) readings → IsShown (V.tells view.now) origin.now (is_mark [] input) (left_after readings) status (W.taken sink.old) (W.taken sink.new) (ToldOn (E.write_failures errors.old) (E.write_failures errors.new) (E.taken errors.old) (E.taken errors.new)))) }
    ensures status { IfOk result IsTold }
    ensures errors { OnErr result (errors.new ≡ errors.old) }
    ensures failures { EndsRun (counts R.reads_made R.failures_met W.write_failures source.old sink.old) (counts R.reads_made R.failures_met W.write_failures source.new sink.new) result }
{
    let Ok(is_marked) = source.has_mark() else {
        return Err(Stop::Read { turn: 1 });
    };
    let script = read_script(heap, source)?;
    let status = write_seen(heap, origin, is_marked, view, &script, sink, errors)?;
    Ok(status)
}

/// Tells a fault, where there is one, and how the program ends.
fn end_with<E: Sink>(
    alloc: Global,
    origin: &str,
    told: Result<Status, Stop>,
    errors: &mut E,
) -> Status
    requires { IfErr told (λ _. E.write_failures errors.old < 2 ^ 62) }
    ensures ended { result ≡ ended told }
    ensures silent { IfOk told (λ _. errors.new ≡ errors.old) }
{
    match told {
        Ok(status) => status,
        Err(fault) => {
            tell_fault(alloc, origin, &fault, errors);
            Status::of_run(fault)
        }
    }
}

/// Reads the script that the source gives, and writes what is asked of what it leaves, or tells a fault.
fn answer_view<A: Allocator + Copy, V: View<A>, R: LookAhead, W: Sink, E: Sink>(
    alloc: Global,
    heap: A,
    origin: &str,
    view: &V,
    source: &mut R,
    sink: &mut W,
    errors: &mut E,
) -> Status
    requires devices { HaveRoom (counts R.reads_made R.failures_met W.write_failures source.old sink.old) }
    requires errors { E.write_failures errors.old < 2 ^ 62 }
    ensures told { IsTold result → IfSome (R.left source.old) (λ input. (readings : List Reading) → AreReadings (lines_of input) readings → IsShown (V.tells view.now) origin.now (is_mark [] input) (left_after readings) result (W.taken sink.old) (W.taken sink.new) (ToldOn (E.write_failures errors.old) (E.write_failures errors.new) (E.taken errors.old) (E.taken errors.new))) }
    ensures usage { result ≢ Status.Usage }
    ensures failures { ReportsFailures (counts R.reads_made R.failures_met W.write_failures source.old sink.old) (counts R.reads_made R.failures_met W.write_failures source.new sink.new) result }
    ensures refused { LeavesRefused source.old source.new sink.old sink.new result }
{
    let shown = show(heap, origin, view, source, sink, errors);
    end_with(alloc, origin, shown, errors)
}

/// Reads choices from words, and says whether they coordinate on the board that the script leaves, or tells what is wrong with the words.
fn answer_choice<A: Allocator + Copy, R: LookAhead, W: Sink, E: Sink>(
    alloc: Global,
    heap: A,
    origin: &str,
    words: &[&str],
    source: &mut R,
    sink: &mut W,
    errors: &mut E,
) -> Status
    requires devices { HaveRoom (counts R.reads_made R.failures_met W.write_failures source.old sink.old) }
    requires errors { E.write_failures errors.old < 2 ^ 62 }
    ensures told { IsTold result → IfSome (R.left source.old) (λ input. (readings : List Reading) → AreReadings (lines_of input) readings → IsJudgedShown (map (λ word. word.now) words.now) origin.now (is_mark [] input) (left_after readings) result (W.taken sink.old) (W.taken sink.new) (ToldOn (E.write_failures errors.old) (E.write_failures errors.new) (E.taken errors.old) (E.taken errors.new))) }
    ensures bad { result ≡ Status.Usage → StandForNone (map (λ word. word.now) words.now) }
    ensures failures { ReportsFailures (counts R.reads_made R.failures_met W.write_failures source.old sink.old) (counts R.reads_made R.failures_met W.write_failures source.new sink.new) result }
    ensures refused { LeavesRefused source.old source.new sink.old sink.new result }
{
    match read_choices(heap, words) {
        Ok(choices) => {
            let judge = Judge { choices: &choices };
            answer_view(alloc, heap, origin, &judge, source, sink, errors)
        }
        Err(fault) => {
            tell_fault(alloc, "", &fault, errors);
            Status::of_choices(fault)
        }
    }
}

/// Reads names from words, and looks for a coordinating choice on the board that the script leaves which has the queries of these names; or tells what is
/// wrong with the words.
fn answer_choose<A: Allocator + Copy, R: LookAhead, W: Sink, E: Sink>(
    alloc: Global,
    heap: A,
    origin: &str,
    words: &[&str],
    steps: u64,
    source: &mut R,
    sink: &mut W,
    errors: &mut E,
) -> Status
    requires devices { HaveRoom (counts R.reads_made R.failures_met W.write_failures source.old sink.old) }
    requires errors { E.write_failures errors.old < 2 ^ 62 }
    ensures told { IsTold result → IfSome (R.left source.old) (λ input. (readings : List Reading) → AreReadings (lines_of input) readings → IsShown (IsSought (map (λ word. word.now) words.now)) origin.now (is_mark [] input) (left_after readings) result (W.taken sink.old) (W.taken sink.new) (ToldOn (E.write_failures errors.old) (E.write_failures errors.new) (E.taken errors.old) (E.taken errors.new))) }
    ensures bad { result ≡ Status.Usage → list_all is_name (map (λ word. word.now) words.now) ≡ false }
    ensures failures { ReportsFailures (counts R.reads_made R.failures_met W.write_failures source.old sink.old) (counts R.reads_made R.failures_met W.write_failures source.new sink.new) result }
    ensures refused { LeavesRefused source.old source.new sink.old sink.new result }
{
    match read_names(heap, words) {
        Ok(names) => {
            let choose = Choose {
                names: &names,
                steps,
            };
            answer_view(alloc, heap, origin, &choose, source, sink, errors)
        }
        Err(bad) => {
            tell_fault(alloc, "", &bad, errors);
            Status::of_choices(bad)
        }
    }
}

/// Reads the script that the source gives, and writes what is wanted of the board that it leaves, or tells a fault.
pub(crate) fn answer_look<A: Allocator + Copy, R: LookAhead, W: Sink, E: Sink>(
    alloc: Global,
    heap: A,
    origin: &str,
    wanted: &Look<'_>,
    source: &mut R,
    sink: &mut W,
    errors: &mut E,
) -> Status
    requires devices { HaveRoom (counts R.reads_made R.failures_met W.write_failures source.old sink.old) }
    requires errors { E.write_failures errors.old < 2 ^ 62 }
    ensures failures { ReportsFailures (counts R.reads_made R.failures_met W.write_failures source.old sink.old) (counts R.reads_made R.failures_met W.write_failures source.new sink.new) result }
    ensures refused { LeavesRefused source.old source.new sink.old sink.new result }
{
    match wanted {
        Look::Graph { names, is_boxed } => {
            let graph = Graph {
                names,
                is_boxed: *is_boxed,
            };
            answer_view(alloc, heap, origin, &graph, source, sink, errors)
        }
        Look::Json => answer_view(alloc, heap, origin, &Json, source, sink, errors),
        Look::Dump => answer_view(alloc, heap, origin, &Dump, source, sink, errors),
        Look::Groups { steps } => {
            let groups = Groups { steps: *steps };
            answer_view(alloc, heap, origin, &groups, source, sink, errors)
        }
        Look::Explain {
            names,
            is_tree,
            extent,
        } => {
            let explain = Explain {
                names,
                is_tree: *is_tree,
                extent: *extent,
            };
            answer_view(alloc, heap, origin, &explain, source, sink, errors)
        }
        Look::Choice { words } => answer_choice(alloc, heap, origin, words, source, sink, errors),
        Look::Choose { words, steps } => {
            answer_choose(alloc, heap, origin, words, *steps, source, sink, errors)
        }
    }
}
