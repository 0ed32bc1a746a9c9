//! The report on a board, put on a page line by line.

ghost use Rattle.std.specs.Prelude.{◌≡◌, ◌++◌, length, string_bytes, IfOk, OnOk};
ghost use Rattle.std.specs.List.{flat_map, enumerate_from};
ghost use Rattle.cq_atom.specs.Query.{variables_of};
ghost use Rattle.cq_rel.specs.Tables.{declaration};
ghost use Rattle.cq_render.specs.Report.{relation_line, name_line, text_line, provider_line, crowd_word, count_line, post_lines, groundings_line, values_line, query_lines, block_of, report};
ghost use Rattle.cq_render.specs.Steps.Walking.{shown_lines, shown_block, shown_read};

use crate::walking::{Listing, Shown, name_or_none, providers, walk};
use crate::words::{row_count, state_word};
use cq_atom::{Edge, Name, Query, Value};
use cq_board::Board;
use cq_ground::Groundings;
use cq_match::is_crowd;
use cq_rel::Tables;
use cq_text::{push_query, push_values};
use std::alloc::{AllocError, Allocator};

fn put_relation<A: Allocator>(
    tables: &Tables<A>,
    relation: &str,
    arity: usize,
    page: &mut String<A>,
) -> Result<(), AllocError>
    ensures { OnOk result (string_bytes page.new ≡ string_bytes page.old ++ relation_line tables.now (declaration relation.now arity)) }
{
    let count = row_count(tables, relation);
    write!(page, "relation {relation} {arity} rows {count}\n")
}

fn put_name<A: Allocator>(name: &str, matched: bool, page: &mut String<A>) -> Result<(), AllocError>
    ensures { OnOk result (string_bytes page.new ≡ string_bytes page.old ++ name_line name.now matched) }
{
    let state = state_word(matched);
    write!(page, "query {name} {state}\n")
}

fn put_text<A: Allocator>(query: &Query<A>, page: &mut String<A>) -> Result<(), AllocError>
    ensures { OnOk result (string_bytes page.new ≡ string_bytes page.old ++ text_line query.now) }
{
    page.push_str("  text ")?;
    push_query(page, query)?;
    page.push('\n')
}

fn put_provider<A: Allocator>(
    listing: &Listing<'_, A>,
    edge: &Edge,
    page: &mut String<A>,
) -> Result<(), AllocError>
    ensures { OnOk result (string_bytes page.new ≡ string_bytes page.old ++ provider_line listing.now.board.now.pending edge.now) }
{
    let name = name_or_none(listing, edge.provider);
    let head = edge.head;
    write!(page, "    {name} head {head}\n")
}

fn crowd_word(count: usize) -> &'static str
    ensures { result.now ≡ crowd_word count }
{
    if is_crowd(count) { " crowded" } else { "" }
}

fn put_count<A: Allocator>(
    post: usize,
    count: usize,
    page: &mut String<A>,
) -> Result<(), AllocError>
    ensures { OnOk result (string_bytes page.new ≡ string_bytes page.old ++ count_line post count) }
{
    let crowd = crowd_word(count);
    write!(page, "  post {post} providers {count}{crowd}\n")
}

fn put_variables<A: Allocator + Copy>(
    alloc: A,
    query: &Query<A>,
    count: usize,
    page: &mut String<A>,
) -> Result<(), AllocError>
    ensures { OnOk result (string_bytes page.new ≡ string_bytes page.old ++ groundings_line (variables_of query.now.body) count) }
{
    let names = query.variables().join(alloc, ", ")?;
    let names = names.as_str();
    write!(page, "  groundings {count} ({names})\n")
}

fn put_grounding<A: Allocator>(values: &[Value<A>], page: &mut String<A>) -> Result<(), AllocError>
    ensures { OnOk result (string_bytes page.new ≡ string_bytes page.old ++ values_line values.now) }
{
    page.push_str("    ")?;
    push_values(page, values)?;
    page.push('\n')
}

/// Puts a line for each declared relation.
fn put_relations<A: Allocator>(tables: &Tables<A>, page: &mut String<A>) -> Result<(), AllocError>
    ensures { OnOk result (string_bytes page.new ≡ string_bytes page.old ++ flat_map (relation_line tables.now) tables.now.catalog) }
{
    let catalog = tables.catalog();
    for place in 0..catalog.len() {
        let (relation, arity) = match catalog.entry(place) {
            Some(entry) => entry,
            None => unreachable!(),
        };
        put_relation(tables, relation, arity, page)?;
    }
    Ok(())
}

/// Puts the providers of a postcondition.
fn put_providers<A: Allocator>(
    listing: &Listing<'_, A>,
    providers: &[Edge],
    page: &mut String<A>,
) -> Result<(), AllocError>
    ensures { OnOk result (string_bytes page.new ≡ string_bytes page.old ++ flat_map (provider_line listing.now.board.now.pending) providers.now) }
{
    for edge in providers {
        put_provider(listing, edge, page)?;
    }
    Ok(())
}

/// Puts how many providers a postcondition has, and each of them.
fn put_post<A: Allocator>(
    listing: &Listing<'_, A>,
    post: usize,
    providers: &[Edge],
    page: &mut String<A>,
) -> Result<(), AllocError>
    ensures { OnOk result (string_bytes page.new ≡ string_bytes page.old ++ (count_line post (length providers.now) ++ flat_map (provider_line listing.now.board.now.pending) providers.now)) }
{
    put_count(post, providers.len(), page)?;
    put_providers(listing, providers, page)
}

/// Puts what is reported about each postcondition of the query.
fn put_posts<A: Allocator>(
    listing: &Listing<'_, A>,
    shown: &Shown<'_, A>,
    page: &mut String<A>,
) -> Result<(), AllocError>
    ensures { OnOk result (string_bytes page.new ≡ string_bytes page.old ++ flat_map (λ post. post_lines listing.now.board.now.pending shown.now.number post.0) (enumerate_from 0 shown.now.query.now.posts)) }
{
    for post in 0..shown.query.posts().len() {
        put_post(listing, post, providers(listing, shown.number, post), page)?;
    }
    Ok(())
}

/// Puts a line for each list of values.
fn put_values<A: Allocator>(
    groundings: &Groundings<A>,
    page: &mut String<A>,
) -> Result<(), AllocError>
    ensures { OnOk result (string_bytes page.new ≡ string_bytes page.old ++ flat_map values_line groundings.now) }
{
    for values in groundings.list() {
        put_grounding(values, page)?;
    }
    Ok(())
}

/// Puts the groundings of a query.
fn put_groundings<A: Allocator + Copy>(
    alloc: A,
    query: &Query<A>,
    groundings: &Groundings<A>,
    page: &mut String<A>,
) -> Result<(), AllocError>
    ensures { OnOk result (string_bytes page.new ≡ string_bytes page.old ++ (groundings_line (variables_of query.now.body) (length groundings.now) ++ flat_map values_line groundings.now)) }
{
    put_variables(alloc, query, groundings.count(), page)?;
    put_values(groundings, page)
}

/// Puts the name of a query, whether it is matched, and its printed form.
fn put_heading<A: Allocator>(
    name: &Name<A>,
    matched: bool,
    query: &Query<A>,
    page: &mut String<A>,
) -> Result<(), AllocError>
    ensures { OnOk result (string_bytes page.new ≡ string_bytes page.old ++ (name_line name.now matched ++ text_line query.now)) }
{
    put_name(name.as_str(), matched, page)?;
    put_text(query, page)
}

/// Puts what is reported about the query.
fn put_query<A: Allocator + Copy>(
    alloc: A,
    listing: &Listing<'_, A>,
    shown: &Shown<'_, A>,
    page: &mut String<A>,
) -> Result<(), AllocError>
    ensures { OnOk result (string_bytes page.new ≡ string_bytes page.old ++ shown_lines listing.now.board.now.pending (shown_read shown.now)) }
{
    put_heading(shown.name, shown.matched, shown.query, page)?;
    put_posts(listing, shown, page)?;
    put_groundings(alloc, shown.query, shown.groundings, page)
}

/// Puts what is reported about each pending query.
fn put_each<A: Allocator + Copy>(
    alloc: A,
    listing: &Listing<'_, A>,
    page: &mut String<A>,
) -> Result<(), AllocError>
    ensures { OnOk result (string_bytes page.new ≡ string_bytes page.old ++ flat_map (query_lines listing.now.board.now) (enumerate_from 0 listing.now.board.now.pending)) }
{
    for shown in &listing.queries {
        put_query(alloc, listing, shown, page)?;
    }
    Ok(())
}

/// Puts what is reported about the query, where it has that name.
fn put_if_named<A: Allocator + Copy>(
    alloc: A,
    listing: &Listing<'_, A>,
    shown: &Shown<'_, A>,
    name: &str,
    page: &mut String<A>,
) -> Result<(), AllocError>
    ensures { OnOk result (string_bytes page.new ≡ string_bytes page.old ++ shown_block listing.now.board.now.pending name.now (shown_read shown.now)) }
{
    if shown.name.as_str() != name {
        return Ok(());
    }
    put_query(alloc, listing, shown, page)
}

/// Puts what is reported about each pending query that has that name.
fn put_named<A: Allocator + Copy>(
    alloc: A,
    listing: &Listing<'_, A>,
    name: &str,
    page: &mut String<A>,
) -> Result<(), AllocError>
    ensures { OnOk result (string_bytes page.new ≡ string_bytes page.old ++ block_of listing.now.board.now name.now) }
{
    for shown in &listing.queries {
        put_if_named(alloc, listing, shown, name, page)?;
    }
    Ok(())
}

/// Puts the lines of the query of that name after the page; nothing, where none is pending. It takes a walk over the board.
///
/// # Errors
/// `AllocError` where an allocation failed. The page may then have a part of the lines.
pub fn put_block<A: Allocator + Copy>(
    alloc: A,
    board: &Board<A>,
    name: &str,
    page: &mut String<A>,
) -> Result<(), AllocError>
    ensures { OnOk result (string_bytes page.new ≡ string_bytes page.old ++ block_of board.now name.now) }
{
    let listing = walk(alloc, board)?;
    put_named(alloc, &listing, name, page)
}

/// Puts what is reported about each pending query of a board.
fn put_queries<A: Allocator + Copy>(
    alloc: A,
    board: &Board<A>,
    page: &mut String<A>,
) -> Result<(), AllocError>
    ensures { OnOk result (string_bytes page.new ≡ string_bytes page.old ++ flat_map (query_lines board.now) (enumerate_from 0 board.now.pending)) }
{
    let listing = walk(alloc, board)?;
    put_each(alloc, &listing, page)
}

/// Puts the report on a board after the page. What is made beside it are the lists of the names, of the queries and of the edges,
/// and the names of the variables of one query at a time. Its time is that of sorting the edges, and of what it puts.
///
/// # Errors
/// `AllocError` where an allocation failed. The page may then have a part of the report.
pub fn put_report<A: Allocator + Copy>(
    alloc: A,
    board: &Board<A>,
    page: &mut String<A>,
) -> Result<(), AllocError>
    ensures { OnOk result (string_bytes page.new ≡ string_bytes page.old ++ report board.now) }
{
    put_relations(board.tables(), page)?;
    put_queries(alloc, board, page)
}

/// The report on a board as one text, as [`put_report`] puts it.
///
/// # Errors
/// `AllocError` where an allocation failed.
pub fn report<A: Allocator + Copy>(alloc: A, board: &Board<A>) -> Result<String<A>, AllocError>
    ensures { IfOk result (λ text. string_bytes text ≡ report board.now) }
{
    let mut text = String::new(alloc);
    put_report(alloc, board, &mut text)?;
    Ok(text)
}
