//! What is reported about the board that a script leaves.

ghost use Rattle.std.specs.Prelude.{◌≡◌, ◌⊎◌, [], true, false, codes, map, string_bytes, IfOk};
ghost use Rattle.json.specs.Print.{print};
ghost use Rattle.json.specs.Tree.{json_tokens};
ghost use Rattle.cq_board.specs.Choice.{IsCoordinating};
ghost use Rattle.cq_render.specs.Report.{line};
ghost use Rattle.cq_render.specs.Json.{json_of};
ghost use Rattle.cq_cli.specs.Status.{IsTold};
ghost use Rattle.cq_cli.specs.Explained.{absent_lines, absent_names, status_of_absent};
ghost use Rattle.cq_cli.specs.Views.{IsJudged, IsWhy};

use crate::absent::{put_absent, status_of_absent};
use crate::drawing::draw;
use crate::noting::put_notes;
use crate::status::Status;
use cq_atom::Name;
use cq_board::{Board, Choice};
use cq_going::{groups, tell_choice};
use cq_render::{Extent, dump, explain_named, explain_once, explain_these, json};
use cq_report::Played;
use std::alloc::{AllocError, Allocator};

/// What is reported: how the program ends, what it writes, and what it tells beside that, in lines.
#[derive(Drop)]
pub(crate) struct Seen<A: Allocator> {
    pub(crate) status: Status,
    pub(crate) text: String<A>,
    pub(crate) notes: String<A>,
}

/// What is asked of what a script leaves.
pub(crate) trait View<A: Allocator + Copy> {
    ghost use Rattle.std.specs.Prelude.{List, ℕ, IfOk, string_bytes};
    ghost use Rattle.cq_cli.specs.declared.status.Status.{Status};
    ghost use Rattle.cq_cli.specs.Status.{IsTold};
    ghost use Rattle.cq_report.specs.Output.{Left};

    // This is reported of it: how the program ends, what it writes, and what it tells beside that.
    ghost tells: { Self → Left → Status → List ℕ → List ℕ → Type 0 };

    /// Looks at what the script leaves.
    fn look(&self, heap: A, script: &Played<A>) -> Result<Seen<A>, AllocError>
        ensures seen { IfOk result (λ seen. tells self.now script.now seen.status (string_bytes seen.text) (string_bytes seen.notes)) }
        ensures told { IfOk result (λ seen. IsTold seen.status) };
}

/// What is reported where all was done, and nothing is to be told beside it.
fn done<A: Allocator + Copy>(heap: A, text: String<A>) -> Seen<A>
    ensures { (result.status ≡ Status.Done) × (string_bytes result.text ≡ string_bytes text) × (string_bytes result.notes ≡ []) }
{
    Seen {
        status: Status::Done,
        text,
        notes: String::new(heap),
    }
}

/// A text, and beside it which of the names are those of no pending query.
fn with_absent<A: Allocator + Copy>(
    heap: A,
    board: &Board<A>,
    names: &[&str],
    text: String<A>,
) -> Result<Seen<A>, AllocError>
    ensures status { IfOk result (λ seen. seen.status ≡ status_of_absent (absent_names board.now (map (λ name. name.now) names.now))) }
    ensures text { IfOk result (λ seen. string_bytes seen.text ≡ string_bytes text) }
    ensures notes { IfOk result (λ seen. string_bytes seen.notes ≡ absent_lines board.now (map (λ name. name.now) names.now)) }
    ensures told { IfOk result (λ seen. IsTold seen.status) }
{
    let mut notes = String::new(heap);
    put_absent(heap, board, names, &mut notes)?;
    Ok(Seen {
        status: status_of_absent(&notes),
        text,
        notes,
    })
}

/// The graph of who can supply whom: of the queries of these names and those on which they hang, or of all; with groups in boxes or without.
#[derive(Drop)]
pub(crate) struct Graph<'a> {
    pub(crate) names: &'a [&'a str],
    pub(crate) is_boxed: bool,
}

impl<'a, A: Allocator + Copy> View<A> for Graph<'a> {
    ghost use Rattle.std.specs.Prelude.{map};
    ghost use Rattle.cq_cli.specs.Views.{IsGraph};

    ghost tells = { λ graph. IsGraph graph.is_boxed (map (λ name. name.now) graph.names.now) };

    fn look(&self, heap: A, script: &Played<A>) -> Result<Seen<A>, AllocError> {
        let board = script.board();
        let text = draw(heap, board, self.names, self.is_boxed)?;
        with_absent(heap, board, self.names, text)
    }
}

/// What the report tells, in JSON.
#[derive(Drop)]
pub(crate) struct Json;

/// The board as JSON, in a line.
fn json_line<A: Allocator + Copy>(
    heap: A,
    entries: u64,
    board: &Board<A>,
) -> Result<String<A>, AllocError>
    ensures { IfOk result (λ text. string_bytes text ≡ line (print (json_tokens (json_of entries board.now)))) }
{
    let mut text = json(heap, entries, board)?;
    text.push('\n')?;
    Ok(text)
}

impl<A: Allocator + Copy> View<A> for Json {
    ghost use Rattle.cq_cli.specs.Views.{IsJson};

    ghost tells = { λ _. IsJson };

    fn look(&self, heap: A, script: &Played<A>) -> Result<Seen<A>, AllocError> {
        let text = json_line(heap, script.entries(), script.board())?;
        Ok(done(heap, text))
    }
}

/// A script that makes the board.
#[derive(Drop)]
pub(crate) struct Dump;

impl<A: Allocator + Copy> View<A> for Dump {
    ghost use Rattle.cq_cli.specs.Views.{IsDump};

    ghost tells = { λ _. IsDump };

    fn look(&self, heap: A, script: &Played<A>) -> Result<Seen<A>, AllocError> {
        let text = dump(heap, script.form(), script.journal_limit(), script.board())?;
        Ok(done(heap, text))
    }
}

/// Which queries hang together, and whether they can go, each group within so many steps.
#[derive(Drop)]
pub(crate) struct Groups {
    pub(crate) steps: u64,
}

impl<A: Allocator + Copy> View<A> for Groups {
    ghost use Rattle.cq_cli.specs.Views.{AreGroups};

    ghost tells = { λ _. AreGroups };

    fn look(&self, heap: A, script: &Played<A>) -> Result<Seen<A>, AllocError> {
        let text = groups(heap, script.board(), self.steps)?;
        Ok(done(heap, text))
    }
}

/// A coordinating choice that has the queries of some names, sought within so many steps.
#[derive(Drop)]
pub(crate) struct Choose<'a, A: Allocator> {
    pub(crate) names: &'a [Name<A>],
    pub(crate) steps: u64,
}

impl<'a, A: Allocator + Copy> View<A> for Choose<'a, A> {
    ghost use Rattle.cq_cli.specs.Views.{IsSought};

    ghost tells = { λ choose. IsSought choose.names.now };

    fn look(&self, heap: A, script: &Played<A>) -> Result<Seen<A>, AllocError> {
        let told = tell_choice(heap, script.board(), self.names, self.steps)?;
        Ok(Seen {
            status: Status::of_outcome(told.outcome),
            text: told.text,
            notes: String::new(heap),
        })
    }
}

/// Whether choices coordinate.
#[derive(Drop)]
pub(crate) struct Judge<'a, A: Allocator> {
    pub(crate) choices: &'a [Choice<A>],
}

/// What is said of choices that coordinate, or that do not.
fn verdict(is_coordinating: bool) -> (Status, &'static str)
    ensures { (is_coordinating ≡ true) × (result.0 ≡ Status.Done) × (result.1.now ≡ codes "coordinating\n") ⊎ (is_coordinating ≡ false) × (result.0 ≡ Status.NotSo) × (result.1.now ≡ codes "not coordinating\n") }
{
    if is_coordinating {
        (Status::Done, "coordinating\n")
    } else {
        (Status::NotSo, "not coordinating\n")
    }
}

impl<'a, A: Allocator + Copy> View<A> for Judge<'a, A> {
    ghost use Rattle.cq_cli.specs.Views.{IsJudged};

    ghost tells = { λ judge. IsJudged judge.choices.now };

    fn look(&self, heap: A, script: &Played<A>) -> Result<Seen<A>, AllocError> {
        let board = script.board();
        let (status, text) = verdict(board.check_choice(self.choices));
        let mut notes = String::new(heap);
        put_notes(heap, board, self.choices, &mut notes)?;
        Ok(Seen {
            status,
            text: String::from_str(heap, text)?,
            notes,
        })
    }
}

/// Why the queries of these names wait, or all that do.
fn why<A: Allocator + Copy>(
    heap: A,
    board: &Board<A>,
    is_tree: bool,
    extent: Extent,
    names: &[&str],
) -> Result<String<A>, AllocError>
    ensures { IfOk result (λ text. IsWhy is_tree extent (map (λ name. name.now) names.now) board.now (string_bytes text)) }
{
    if is_tree {
        explain_these(heap, board, extent, names)
    } else if names.is_empty() {
        explain_once(heap, board, extent)
    } else {
        explain_named(heap, board, extent, names)
    }
}

/// Why the queries of these names wait, or all that do.
#[derive(Drop)]
pub(crate) struct Explain<'a> {
    pub(crate) names: &'a [&'a str],
    /// Whether each is told of with all on which it rests, also where there is no name.
    pub(crate) is_tree: bool,
    pub(crate) extent: Extent,
}

impl<'a, A: Allocator + Copy> View<A> for Explain<'a> {
    ghost use Rattle.std.specs.Prelude.{map};
    ghost use Rattle.cq_cli.specs.Views.{AreExplained};

    ghost tells = { λ explain. AreExplained explain.is_tree explain.extent (map (λ name. name.now) explain.names.now) };

    fn look(&self, heap: A, script: &Played<A>) -> Result<Seen<A>, AllocError> {
        let board = script.board();
        let text = why(heap, board, self.is_tree, self.extent, self.names)?;
        with_absent(heap, board, self.names, text)
    }
}
