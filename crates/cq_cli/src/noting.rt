//! What is wrong with choices by themselves.

ghost use Rattle.std.specs.Prelude.{◌≡◌, ◌==◌, ◌++◌, codes, if◌then◌else◌, ℕ, [], List, Some, map, string_bytes, IfOk, OnOk};
ghost use Rattle.cq_render.specs.Explain.{ArePieces};
ghost use Rattle.cq_cli.specs.Noted.{variables_line, rows_line, IsNotedBy, IsNoted};

use crate::absent::absent_line;
use cq_board::{Board, Choice, PendingView};
use std::alloc::{AllocError, Allocator};

/// The word for one value or that for more, and what stands before the variables.
fn values_word(count: usize) -> &'static str
    ensures { result.now ≡ (if count == 1 then codes "value: (" else codes "values: (") }
{
    if count == 1 { "value: (" } else { "values: (" }
}

/// How many values the query of that name takes, and for which variables.
fn variables_line<A: Allocator + Copy>(
    heap: A,
    name: &str,
    variables: &[String<A>],
) -> Result<String<A>, AllocError>
    ensures { IfOk result (λ text. string_bytes text ≡ variables_line name.now (map string_bytes variables.now)) }
{
    let listed = variables.join(heap, ", ")?;
    let count = variables.len();
    let values = values_word(count);
    format!(in heap; "board: {name} has {count} {values}{listed})\n")
}

fn rows_line<A: Allocator>(heap: A, name: &str) -> Result<String<A>, AllocError>
    ensures { IfOk result (λ text. string_bytes text ≡ rows_line name.now) }
{
    format!(in heap; "board: no rows give {name} these values\n")
}

/// What is wrong with a choice of a pending query; nothing where its values are a grounding.
fn note_on<A: Allocator + Copy>(
    heap: A,
    view: &PendingView<'_, A>,
    choice: &Choice<A>,
) -> Result<String<A>, AllocError>
    ensures { IfOk result (λ text. IsNotedBy (Some view.now.query.now) (Some view.now.groundings.now) choice.now (string_bytes text)) }
{
    let variables = view.query.variables();
    if choice.values.len() != variables.len() {
        return variables_line(heap, choice.name.as_str(), variables);
    }
    if view.groundings.has(&choice.values) {
        return Ok(String::new(heap));
    }
    rows_line(heap, choice.name.as_str())
}

/// What is wrong with a choice, if anything is.
fn note_of<A: Allocator + Copy>(
    heap: A,
    board: &Board<A>,
    choice: &Choice<A>,
) -> Result<String<A>, AllocError>
    ensures { IfOk result (λ text. IsNoted board.now choice.now (string_bytes text)) }
{
    match board.view(&choice.name) {
        Some(view) => note_on(heap, &view, choice),
        None => absent_line(heap, choice.name.as_str()),
    }
}

/// Puts what is wrong with a choice, if anything is.
fn put_note<A: Allocator + Copy>(
    heap: A,
    board: &Board<A>,
    choice: &Choice<A>,
    page: &mut String<A>,
) -> Result<(), AllocError>
    ensures { OnOk result ((note : List ℕ) × IsNoted board.now choice.now note × (string_bytes page.new ≡ string_bytes page.old ++ note)) }
{
    let note = note_of(heap, board, choice)?;
    page.push_str(&note)?;
    Ok(())
}

/// Puts what is wrong with each of the choices by itself on an empty page, in lines.
pub(crate) fn put_notes<A: Allocator + Copy>(
    heap: A,
    board: &Board<A>,
    choices: &[Choice<A>],
    page: &mut String<A>,
) -> Result<(), AllocError>
    ensures { string_bytes page.old ≡ [] → OnOk result (ArePieces (IsNoted board.now) choices.now (string_bytes page.new)) }
{
    for choice in choices {
        put_note(heap, board, choice, page)?;
    }
    Ok(())
}
