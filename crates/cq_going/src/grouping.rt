//! Groups of matched queries, and whether each of them can go.

ghost use Rattle.std.specs.Prelude.{◌≡◌, ◌++◌, [], codes, length, map, slice_index_or, string_bytes, IfOk, OnOk};
ghost use Rattle.std.specs.List.{enumerate_from, join_by};
ghost use Rattle.cq_groups.specs.Groups.{AreLabels};
ghost use Rattle.cq_board.specs.Edges.{edges_of};
ghost use Rattle.cq_board.specs.Named.{matched_named};
ghost use Rattle.cq_board.specs.Pool.{name_of};
ghost use Rattle.cq_render.specs.Explain.{ArePieces};
ghost use Rattle.cq_going.specs.Reasons.{is_yes};
ghost use Rattle.cq_going.specs.Grouping.{matched_flags, is_flagged, links_between, name_if, names_labelled, IsVerdict, IsGroupTold, AreGroupsTold};

use crate::printing::put_separator;
use cq_atom::{Edge, Name};
use cq_board::Board;
use cq_choose::{Answer, choose};
use cq_groups::group_labels;
use std::alloc::{AllocError, Allocator};

/// What is known of the pending queries, by their places in posting order.
#[derive(Drop)]
pub(crate) struct Grouped<'b, A: Allocator> {
    pub(crate) names: Vec<&'b Name<A>, A>,
    pub(crate) matched: Vec<bool, A>,
    pub(crate) labels: Vec<usize, A>,
}

/// Whether a query of that name is pending and matched.
pub(crate) fn is_matched<A: Allocator + Copy>(board: &Board<A>, name: &Name<A>) -> bool
    ensures { result ≡ is_yes (matched_named name.now board.now) }
{
    match board.is_matched(name) {
        Some(matched) => matched,
        None => false,
    }
}

/// Which of the queries of these names are matched.
fn matched_of<A: Allocator + Copy>(
    alloc: A,
    board: &Board<A>,
    names: &[&Name<A>],
) -> Result<Vec<bool, A>, AllocError>
    ensures { IfOk result (λ flags. flags.items ≡ map (λ name. is_yes (matched_named name board.now)) (map (λ name. name.now) names.now)) }
{
    let mut flags = Vec::with_capacity(alloc, names.len())?;
    for name in names {
        flags.push(is_matched(board, name))?;
    }
    Ok(flags)
}

pub(crate) fn is_flagged(flags: &[bool], place: usize) -> bool
    ensures { result ≡ is_flagged flags.now place }
{
    match flags.get(place) {
        Some(flag) => *flag,
        None => false,
    }
}

/// The ends of the edges between flagged places.
fn links_between<A: Allocator>(
    alloc: A,
    flags: &[bool],
    edges: &[Edge],
) -> Result<Vec<(usize, usize), A>, AllocError>
    ensures { IfOk result (λ links. links.items ≡ links_between flags.now edges.now) }
{
    let mut links = Vec::new(alloc);
    for edge in edges {
        if is_flagged(flags, edge.provider) && is_flagged(flags, edge.waiter) {
            links.push((edge.provider, edge.waiter))?;
        }
    }
    Ok(links)
}

/// The label of the place.
pub(crate) fn label_at(labels: &[usize], place: usize) -> usize
    ensures { result ≡ slice_index_or labels.now place 0 }
{
    match labels.get(place) {
        Some(label) => *label,
        None => 0,
    }
}

/// Adds the name at the place, where that is flagged and has the label.
fn add_name<A: Allocator + Copy>(
    found: &mut Vec<Name<A>, A>,
    grouped: &Grouped<'_, A>,
    label: usize,
    place: usize,
    name: &Name<A>,
) -> Result<(), AllocError>
    ensures { OnOk result (found.new.items ≡ found.old.items ++ name_if grouped.now.matched.items grouped.now.labels.items label (place, name.now)) }
{
    if is_flagged(&grouped.matched, place) && label_at(&grouped.labels, place) == label {
        found.push(name.copy()?)?;
    }
    Ok(())
}

/// The names of the queries of a group.
pub(crate) fn names_labelled<A: Allocator + Copy>(
    alloc: A,
    grouped: &Grouped<'_, A>,
    label: usize,
) -> Result<Vec<Name<A>, A>, AllocError>
    ensures { IfOk result (λ names. names.items ≡ names_labelled grouped.now.matched.items grouped.now.labels.items (map (λ name. name.now) grouped.now.names.items) label) }
{
    let mut found = Vec::new(alloc);
    for (place, name) in grouped.names.iter().enumerate() {
        add_name(&mut found, grouped, label, place, name)?;
    }
    Ok(found)
}

/// Whether some coordinating choice has all of the queries, in words.
pub(crate) fn verdict<A: Allocator + Copy>(
    alloc: A,
    board: &Board<A>,
    names: &[Name<A>],
    budget: u64,
) -> Result<&'static str, AllocError>
    ensures { IfOk result (λ words. IsVerdict board.now names.now words.now) }
{
    let sought = choose(alloc, board, names, budget)?;
    match sought.answer {
        Answer::Found(_) => Ok("can go"),
        Answer::Impossible => Ok("cannot"),
        Answer::Undecided => Ok("undecided"),
    }
}

/// Puts the names with a space between two.
fn put_names<A: Allocator>(page: &mut String<A>, names: &[Name<A>]) -> Result<(), AllocError>
    ensures { OnOk result (string_bytes page.new ≡ string_bytes page.old ++ join_by (λ n. n) (codes " ") names.now) }
{
    for (place, name) in names.iter().enumerate() {
        put_separator(page, " ", place)?;
        page.push_str(name.as_str())?;
    }
    Ok(())
}

/// The line for a group; nothing where it has no query.
fn group_line<A: Allocator + Copy>(
    alloc: A,
    board: &Board<A>,
    names: &[Name<A>],
    budget: u64,
) -> Result<String<A>, AllocError>
    ensures { IfOk result (λ text. IsGroupTold board.now names.now (string_bytes text)) }
{
    let mut line = String::new(alloc);
    if names.is_empty() {
        return Ok(line);
    }
    let words = verdict(alloc, board, names, budget)?;
    put_names(&mut line, names)?;
    line.push_str(": ")?;
    line.push_str(words)?;
    line.push('\n')?;
    Ok(line)
}

/// Puts a line for each group on an empty page.
fn put_groups<A: Allocator + Copy>(
    alloc: A,
    board: &Board<A>,
    grouped: &Grouped<'_, A>,
    budget: u64,
    page: &mut String<A>,
) -> Result<(), AllocError>
    ensures { string_bytes page.old ≡ [] → OnOk result (ArePieces (λ p. IsGroupTold board.now (names_labelled grouped.now.matched.items grouped.now.labels.items (map (λ name. name.now) grouped.now.names.items) p.0)) (enumerate_from 0 grouped.now.names.items) (string_bytes page.new)) }
{
    for label in 0..grouped.names.len() {
        let names = names_labelled(alloc, grouped, label)?;
        let line = group_line(alloc, board, &names, budget)?;
        page.push_str(line.as_str())?;
    }
    Ok(())
}

/// The pending queries, with the label of the group of each.
pub(crate) fn group_all<A: Allocator + Copy>(
    alloc: A,
    board: &Board<A>,
) -> Result<Grouped<'_, A>, AllocError>
    ensures names { IfOk result (λ grouped. map (λ name. name.now) grouped.names.items ≡ map name_of board.now.pending) }
    ensures matched { IfOk result (λ grouped. grouped.matched.items ≡ matched_flags board.now) }
    ensures labels { IfOk result (λ grouped. AreLabels (links_between (matched_flags board.now) (edges_of board.now.pending)) (length board.now.pending) grouped.labels.items) }
{
    let names = board.names()?;
    let matched = matched_of(alloc, board, &names)?;
    let links = links_between(alloc, &matched, &board.edges_by_place()?)?;
    let labels = group_labels(alloc, names.len(), &links)?;
    Ok(Grouped {
        names,
        matched,
        labels,
    })
}

/// The matched queries in groups that hang together by edges, a line for each: its queries in posting order, and whether some coordinating
/// choice has them all: `can go`, `cannot`, or `undecided` where that was not found out within the budget, which each group has anew.
///
/// Groups are told apart in time in proportion to the edges and to the product of queries and groups; then comes the time of
/// `choose` for each group.
///
/// # Errors
/// `AllocError` where an allocation failed.
pub fn groups<A: Allocator + Copy>(
    alloc: A,
    board: &Board<A>,
    budget: u64,
) -> Result<String<A>, AllocError>
    ensures { IfOk result (λ text. AreGroupsTold board.now (string_bytes text)) }
{
    let grouped = group_all(alloc, board)?;
    let mut page = String::new(alloc);
    put_groups(alloc, board, &grouped, budget, &mut page)?;
    Ok(page)
}
