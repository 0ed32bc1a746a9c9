//! Choices, as they are printed.

ghost use Rattle.std.specs.Prelude.{◌≡◌, ◌++◌, codes, map, string_bytes, OnOk};
ghost use Rattle.std.specs.List.{flat_map, join_by};
ghost use Rattle.cq_atom.specs.Valuation.{under};
ghost use Rattle.cq_board.specs.Choice.{bound};
ghost use Rattle.cq_going.specs.Going.{choice_word, offer_line, offer_lines, choice_lines};

use crate::printing::{put_atom, put_separator};
use cq_atom::{Atom, Name, Query, Value};
use cq_board::{Board, Choice};
use cq_text::push_values;
use std::alloc::{AllocError, Allocator};

/// The query that is chosen for.
pub(crate) fn name_of<A: Allocator>(choice: &Choice<A>) -> &Name<A>
    ensures { result.now ≡ choice.now.name }
{
    &choice.name
}

/// The values that are chosen.
pub(crate) fn values_of<A: Allocator>(choice: &Choice<A>) -> &[Value<A>]
    ensures { result.now ≡ choice.now.values }
{
    choice.values.as_slice()
}

/// Puts a choice as it is read after `choice`.
fn put_word<A: Allocator>(page: &mut String<A>, choice: &Choice<A>) -> Result<(), AllocError>
    ensures { OnOk result (string_bytes page.new ≡ string_bytes page.old ++ choice_word choice.now) }
{
    page.push_str(name_of(choice).as_str())?;
    push_values(page, values_of(choice))
}

/// Puts the choices with a space between two.
fn put_words<A: Allocator>(page: &mut String<A>, choices: &[Choice<A>]) -> Result<(), AllocError>
    ensures { OnOk result (string_bytes page.new ≡ string_bytes page.old ++ join_by choice_word (codes " ") choices.now) }
{
    for (place, choice) in choices.iter().enumerate() {
        put_separator(page, " ", place)?;
        put_word(page, choice)?;
    }
    Ok(())
}

/// Puts an atom that is offered for a choice.
fn put_offer<A: Allocator>(
    page: &mut String<A>,
    name: &Name<A>,
    query: &Query<A>,
    values: &[Value<A>],
    head: &Atom<A>,
) -> Result<(), AllocError>
    ensures { OnOk result (string_bytes page.new ≡ string_bytes page.old ++ offer_line name.now (under (bound query.now values.now) head.now)) }
{
    page.push_str("  ")?;
    page.push_str(name.as_str())?;
    page.push_str(": ")?;
    put_atom(page, query, values, head)?;
    page.push('\n')?;
    Ok(())
}

/// Puts the heads of the query under the values.
fn put_heads<A: Allocator>(
    page: &mut String<A>,
    name: &Name<A>,
    query: &Query<A>,
    values: &[Value<A>],
) -> Result<(), AllocError>
    ensures { OnOk result (string_bytes page.new ≡ string_bytes page.old ++ flat_map (offer_line name.now) (map (under (bound query.now values.now)) query.now.heads)) }
{
    for head in query.heads() {
        put_offer(page, name, query, values, head)?;
    }
    Ok(())
}

/// Puts what the choice offers.
fn put_offers<A: Allocator + Copy>(
    page: &mut String<A>,
    board: &Board<A>,
    choice: &Choice<A>,
) -> Result<(), AllocError>
    ensures { OnOk result (string_bytes page.new ≡ string_bytes page.old ++ offer_lines board.now.pending choice.now) }
{
    let name = name_of(choice);
    match board.query(name) {
        Some(query) => put_heads(page, name, query, values_of(choice)),
        None => Ok(()),
    }
}

/// Puts what each of the choices offers.
fn put_all_offers<A: Allocator + Copy>(
    page: &mut String<A>,
    board: &Board<A>,
    choices: &[Choice<A>],
) -> Result<(), AllocError>
    ensures { OnOk result (string_bytes page.new ≡ string_bytes page.old ++ flat_map (offer_lines board.now.pending) choices.now) }
{
    for choice in choices {
        put_offers(page, board, choice)?;
    }
    Ok(())
}

/// Puts the choices in one line, and then what each of them offers.
pub(crate) fn put_choices<A: Allocator + Copy>(
    page: &mut String<A>,
    board: &Board<A>,
    choices: &[Choice<A>],
) -> Result<(), AllocError>
    ensures { OnOk result (string_bytes page.new ≡ string_bytes page.old ++ choice_lines board.now.pending choices.now) }
{
    put_words(page, choices)?;
    page.push('\n')?;
    put_all_offers(page, board, choices)?;
    Ok(())
}
