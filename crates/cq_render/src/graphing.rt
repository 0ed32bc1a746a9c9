//! The graph of a board, put on a page line by line.

ghost use Rattle.std.specs.Prelude.{◌≡◌, ◌++◌, string_bytes, IfOk, OnOk};
ghost use Rattle.std.specs.List.{flat_map, enumerate_from};
ghost use Rattle.cq_text.specs.Print.{escaped, printed_atom};
ghost use Rattle.cq_render.specs.Graph.{border, query_box, crowd_mark, arrow, gap_box, gap_arrow, supply, supplies, is_drawn, if_drawn, graph_of, graph};
ghost use Rattle.cq_render.specs.Steps.Walking.{shown_box, shown_if, shown_read, shown_supplies};

use crate::drawn::Drawn;
use crate::page::put;
use crate::quoting::quoted_atom;
use crate::walking::{Listing, Shown, providers, walk};
use crate::words::state_word;
use cq_atom::{Atom, Edge};
use cq_board::Board;
use cq_match::is_crowd;
use std::alloc::{AllocError, Allocator};

fn border(matched: bool) -> &'static str
    ensures { result.now ≡ border matched }
{
    if matched { "" } else { ", style=dashed" }
}

fn query_box<A: Allocator>(alloc: A, shown: &Shown<'_, A>) -> Result<String<A>, AllocError>
    ensures { IfOk result (λ text. string_bytes text ≡ shown_box (shown_read shown.now)) }
{
    let number = shown.number;
    let name = shown.name.as_str();
    let state = state_word(shown.matched);
    let border = border(shown.matched);
    format!(in alloc; "  q{number} [label=\"{name}\\n{state}\", shape=box{border}];\n")
}

fn crowd_mark(crowded: bool) -> &'static str
    ensures { result.now ≡ crowd_mark crowded }
{
    if crowded {
        " crowded\", style=bold"
    } else {
        "\""
    }
}

fn arrow<A: Allocator>(alloc: A, crowded: bool, edge: &Edge) -> Result<String<A>, AllocError>
    ensures { IfOk result (λ text. string_bytes text ≡ arrow crowded edge.now) }
{
    let provider = edge.provider;
    let waiter = edge.waiter;
    let head = edge.head;
    let post = edge.post;
    let mark = crowd_mark(crowded);
    format!(in alloc; "  q{provider} -> q{waiter} [label=\"head {head}, post {post}{mark}];\n")
}

fn gap_box<A: Allocator>(alloc: A, waiter: usize, post: usize) -> Result<String<A>, AllocError>
    ensures { IfOk result (λ text. string_bytes text ≡ gap_box waiter post) }
{
    format!(in alloc; "  n{waiter}_{post} [label=\"no provider\", shape=plaintext];\n")
}

fn gap_arrow<A: Allocator + Copy>(
    alloc: A,
    waiter: usize,
    post: usize,
    wanted: &Atom<A>,
) -> Result<String<A>, AllocError>
    ensures { IfOk result (λ text. string_bytes text ≡ gap_arrow waiter post (escaped (printed_atom wanted.now))) }
{
    let atom = quoted_atom(alloc, wanted)?;
    let atom = atom.as_str();
    format!(in alloc;
        "  n{waiter}_{post} -> q{waiter} [label=\"post {post} {atom}\", style=dotted];\n"
    )
}

/// Puts an edge for each provider.
fn put_arrows<A: Allocator + Copy>(
    alloc: A,
    crowded: bool,
    providers: &[Edge],
    page: &mut String<A>,
) -> Result<(), AllocError>
    ensures { OnOk result (string_bytes page.new ≡ string_bytes page.old ++ flat_map (arrow crowded) providers.now) }
{
    for edge in providers {
        put(page, arrow(alloc, crowded, edge))?;
    }
    Ok(())
}

/// Puts what tells that a postcondition has no provider.
fn put_gap<A: Allocator + Copy>(
    alloc: A,
    waiter: usize,
    post: usize,
    wanted: &Atom<A>,
    page: &mut String<A>,
) -> Result<(), AllocError>
    ensures { OnOk result (string_bytes page.new ≡ string_bytes page.old ++ (gap_box waiter post ++ gap_arrow waiter post (escaped (printed_atom wanted.now)))) }
{
    put(page, gap_box(alloc, waiter, post))?;
    put(page, gap_arrow(alloc, waiter, post, wanted))
}

/// Puts what supplies a postcondition, to which these edges lead.
fn put_supply<A: Allocator + Copy>(
    alloc: A,
    waiter: usize,
    post: usize,
    wanted: &Atom<A>,
    providers: &[Edge],
    page: &mut String<A>,
) -> Result<(), AllocError>
    ensures { OnOk result (string_bytes page.new ≡ string_bytes page.old ++ supply waiter (post, wanted.now) providers.now) }
{
    if providers.is_empty() {
        put_gap(alloc, waiter, post, wanted, page)
    } else {
        put_arrows(alloc, is_crowd(providers.len()), providers, page)
    }
}

/// Puts what supplies each postcondition of the query.
fn put_supplies<A: Allocator + Copy>(
    alloc: A,
    listing: &Listing<'_, A>,
    shown: &Shown<'_, A>,
    page: &mut String<A>,
) -> Result<(), AllocError>
    ensures { OnOk result (string_bytes page.new ≡ string_bytes page.old ++ shown_supplies listing.now.board.now.pending (shown_read shown.now)) }
{
    let waiter = shown.number;
    for (post, wanted) in shown.query.posts().iter().enumerate() {
        let providers = providers(listing, waiter, post);
        put_supply(alloc, waiter, post, wanted, providers, page)?;
    }
    Ok(())
}

/// Puts the box of the query, where it is drawn.
fn put_box<A: Allocator + Copy>(
    alloc: A,
    drawn: Drawn<'_>,
    shown: &Shown<'_, A>,
    page: &mut String<A>,
) -> Result<(), AllocError>
    ensures { OnOk result (string_bytes page.new ≡ string_bytes page.old ++ shown_if (is_drawn drawn.entry) shown_box (shown_read shown.now)) }
{
    if drawn.has(shown.number) {
        put(page, query_box(alloc, shown))
    } else {
        Ok(())
    }
}

/// Puts what supplies the postconditions of the query, where it is drawn.
fn put_drawn<A: Allocator + Copy>(
    alloc: A,
    drawn: Drawn<'_>,
    listing: &Listing<'_, A>,
    shown: &Shown<'_, A>,
    page: &mut String<A>,
) -> Result<(), AllocError>
    ensures { OnOk result (string_bytes page.new ≡ string_bytes page.old ++ shown_if (is_drawn drawn.entry) (shown_supplies listing.now.board.now.pending) (shown_read shown.now)) }
{
    if drawn.has(shown.number) {
        put_supplies(alloc, listing, shown, page)
    } else {
        Ok(())
    }
}

/// Puts what supplies the postconditions of each query that is drawn.
fn put_each<A: Allocator + Copy>(
    alloc: A,
    drawn: Drawn<'_>,
    listing: &Listing<'_, A>,
    page: &mut String<A>,
) -> Result<(), AllocError>
    ensures { OnOk result (string_bytes page.new ≡ string_bytes page.old ++ flat_map (if_drawn (is_drawn drawn.entry) (supplies listing.now.board.now.pending)) (enumerate_from 0 listing.now.board.now.pending)) }
{
    for shown in &listing.queries {
        put_drawn(alloc, drawn, listing, shown, page)?;
    }
    Ok(())
}

/// Puts the box of each query that is drawn.
fn put_boxes<A: Allocator + Copy>(
    alloc: A,
    drawn: Drawn<'_>,
    listing: &Listing<'_, A>,
    page: &mut String<A>,
) -> Result<(), AllocError>
    ensures { OnOk result (string_bytes page.new ≡ string_bytes page.old ++ flat_map (if_drawn (is_drawn drawn.entry) (query_box listing.now.board.now)) (enumerate_from 0 listing.now.board.now.pending)) }
{
    for shown in &listing.queries {
        put_box(alloc, drawn, shown, page)?;
    }
    Ok(())
}

/// Puts the queries of a board that are drawn, and what supplies them.
fn put_board<A: Allocator + Copy>(
    alloc: A,
    board: &Board<A>,
    drawn: Drawn<'_>,
    page: &mut String<A>,
) -> Result<(), AllocError>
    ensures { OnOk result (string_bytes page.new ≡ string_bytes page.old ++ (flat_map (if_drawn (is_drawn drawn.entry) (query_box board.now)) (enumerate_from 0 board.now.pending) ++ flat_map (if_drawn (is_drawn drawn.entry) (supplies board.now.pending)) (enumerate_from 0 board.now.pending))) }
{
    let listing = walk(alloc, board)?;
    put_boxes(alloc, drawn, &listing, page)?;
    put_each(alloc, drawn, &listing, page)
}

/// The board as a graph in the language of Graphviz: a box for each pending query, and an edge for each pair of
/// a head and a postcondition that unify, from the provider to who waits. It has the report's time, without that of
/// the groundings.
///
/// # Errors
/// `AllocError` where an allocation failed.
pub fn graph<A: Allocator + Copy>(alloc: A, board: &Board<A>) -> Result<String<A>, AllocError>
    ensures { IfOk result (λ text. string_bytes text ≡ graph board.now) }
{
    graph_of(alloc, board, Drawn::All, "")
}

/// The graph of the queries that are drawn, with more lines behind it. Those that supply them are to be drawn too, as
/// [`kept_with`](crate::kept_with) has it: an edge from one that is not would draw a box without a name.
///
/// # Errors
/// `AllocError` where an allocation failed.
pub fn graph_of<A: Allocator + Copy>(
    alloc: A,
    board: &Board<A>,
    drawn: Drawn<'_>,
    more: &str,
) -> Result<String<A>, AllocError>
    ensures { IfOk result (λ text. string_bytes text ≡ graph_of (is_drawn drawn.entry) more.now board.now) }
{
    let mut text = String::new(alloc);
    text.push_str("digraph board {\n")?;
    put_board(alloc, board, drawn, &mut text)?;
    text.push_str(more)?;
    text.push_str("}\n")?;
    Ok(text)
}
