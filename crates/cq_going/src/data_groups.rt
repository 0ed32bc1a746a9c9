//! Groups of matched queries, and whether each of them can go, as JSON.

ghost use Rattle.std.specs.Prelude.{◌≡◌, ◌++◌, ◌∷◌, [], codes, map, OnOk};
ghost use Rattle.std.specs.List.{enumerate_from};
ghost use Rattle.json.specs.Json as values;
ghost use Rattle.json.specs.Tree.{json_tokens};
ghost use Rattle.cq_render.specs.Explain.{ArePieces};
ghost use Rattle.cq_render.specs.Json.{array_of, object_of};
ghost use Rattle.cq_render.specs.Data.{IsPut};
ghost use Rattle.cq_going.specs.Grouping.{names_labelled};
ghost use Rattle.cq_going.specs.Data.{IsGroupJson, AreGroupsJson};
ghost use Rattle.cq_going.specs.Steps.Tokens.{ArePut};

use crate::grouping::{Grouped, group_all, names_labelled, verdict};
use cq_atom::Name;
use cq_board::Board;
use cq_render::JsonText;
use std::alloc::{AllocError, Allocator};

/// Puts the names.
fn put_names<A: Allocator>(sheet: &mut JsonText<A>, names: &[Name<A>]) -> Result<(), AllocError>
    ensures { OnOk result (sheet.new ≡ sheet.old ++ json_tokens (array_of (map values.string names.now))) }
{
    sheet.begin_array()?;
    for name in names {
        sheet.string(name.as_str())?;
    }
    sheet.end_array()
}

/// Puts the names of the queries of a group, and its verdict.
fn put_told<A: Allocator>(
    sheet: &mut JsonText<A>,
    names: &[Name<A>],
    words: &str,
) -> Result<(), AllocError>
    ensures { OnOk result (sheet.new ≡ sheet.old ++ json_tokens (object_of ((codes "queries", array_of (map values.string names.now)) ∷ (codes "verdict", values.string words.now) ∷ []))) }
{
    sheet.begin_object()?;
    sheet.key("queries")?;
    put_names(sheet, names)?;
    sheet.text_member("verdict", words)?;
    sheet.end_object()
}

/// Puts a group; nothing where it has no query.
fn put_group<A: Allocator + Copy>(
    alloc: A,
    sheet: &mut JsonText<A>,
    board: &Board<A>,
    names: &[Name<A>],
    budget: u64,
) -> Result<(), AllocError>
    ensures { OnOk result (ArePut (IsGroupJson board.now names.now) sheet.old sheet.new) }
{
    if names.is_empty() {
        return Ok(());
    }
    let words = verdict(alloc, board, names, budget)?;
    put_told(sheet, names, words)
}

/// Puts the group of that label.
fn put_labelled<A: Allocator + Copy>(
    alloc: A,
    sheet: &mut JsonText<A>,
    board: &Board<A>,
    grouped: &Grouped<'_, A>,
    budget: u64,
    label: usize,
) -> Result<(), AllocError>
    ensures { OnOk result (ArePut (IsGroupJson board.now (names_labelled grouped.now.matched.items grouped.now.labels.items (map (λ name. name.now) grouped.now.names.items) label)) sheet.old sheet.new) }
{
    let names = names_labelled(alloc, grouped, label)?;
    put_group(alloc, sheet, board, &names, budget)
}

/// Puts each group.
fn put_each<A: Allocator + Copy>(
    alloc: A,
    sheet: &mut JsonText<A>,
    board: &Board<A>,
    grouped: &Grouped<'_, A>,
    budget: u64,
) -> Result<(), AllocError>
    ensures { OnOk result (ArePut (ArePieces (λ p. IsGroupJson board.now (names_labelled grouped.now.matched.items grouped.now.labels.items (map (λ name. name.now) grouped.now.names.items) p.0)) (enumerate_from 0 grouped.now.names.items)) sheet.old sheet.new) }
{
    for label in 0..grouped.names.len() {
        put_labelled(alloc, sheet, board, grouped, budget, label)?;
    }
    Ok(())
}

/// Puts the matched queries in groups that hang together by edges, as an array: of each group its queries in posting order, and whether some coordinating
/// choice has them all, in the words of `groups`, with its time and its budget.
///
/// # Errors
/// `AllocError` where an allocation failed; then a part of the array may stand on the sheet.
pub fn put_groups<A: Allocator + Copy>(
    alloc: A,
    sheet: &mut JsonText<A>,
    board: &Board<A>,
    budget: u64,
) -> Result<(), AllocError>
    ensures { OnOk result (IsPut (AreGroupsJson board.now) sheet.old sheet.new) }
{
    let grouped = group_all(alloc, board)?;
    sheet.begin_array()?;
    put_each(alloc, sheet, board, &grouped, budget)?;
    sheet.end_array()
}
