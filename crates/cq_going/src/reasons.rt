//! Why there is no coordinating choice, as far as it is told.

ghost use Rattle.std.specs.Prelude.{◌≡◌, ◌++◌, ℕ, List, map, option_map, string_bytes, OnOk};
ghost use Rattle.std.specs.List.{slice_get};
ghost use Rattle.std.specs.Option.{option_copied};
ghost use Rattle.cq_atom.specs.Valuation.{under};
ghost use Rattle.cq_board.specs.Choice.{bound};
ghost use Rattle.cq_render.specs.Explain.{atom_or_none};
ghost use Rattle.cq_board.specs.Named.{groundings_named, link_read, matched_named, query_named};
ghost use Rattle.cq_going.specs.Reasons.{is_yes, barred_line, barred_lines, leads_there, first_words, offer_words, near_words, post_words, lack_line, IsDisagreementTold};

use crate::printing::put_atom;
use cq_atom::{Atom, Name, Query, Value};
use cq_board::{Board, Link};
use cq_choose::disagreement;
use cq_text::push_values;
use std::alloc::{AllocError, Allocator};

/// Puts a line where nothing can be chosen for the name: no query is pending under it, or it waits.
fn put_barred<A: Allocator>(
    page: &mut String<A>,
    name: &Name<A>,
    matched: Option<bool>,
) -> Result<(), AllocError>
    ensures { OnOk result (string_bytes page.new ≡ string_bytes page.old ++ barred_line name.now matched) }
{
    let name = name.as_str();
    match matched {
        None => write!(page, "  {name} is absent\n"),
        Some(false) => write!(page, "  {name} waits\n"),
        Some(true) => Ok(()),
    }
}

/// Puts a line for each of the names for which nothing can be chosen.
pub(crate) fn put_all_barred<A: Allocator + Copy>(
    page: &mut String<A>,
    board: &Board<A>,
    names: &[Name<A>],
) -> Result<(), AllocError>
    ensures { OnOk result (string_bytes page.new ≡ string_bytes page.old ++ barred_lines board.now names.now) }
{
    for name in names {
        put_barred(page, name, board.is_matched(name))?;
    }
    Ok(())
}

/// Whether the link leads from a matched query to that postcondition of the query of that name.
pub(crate) fn leads_there<A: Allocator + Copy>(
    board: &Board<A>,
    name: &Name<A>,
    post: usize,
    link: &Link<&Name<A>>,
) -> bool
    ensures { result ≡ leads_there board.now name.now post (link_read (λ n. n.now) link.now) }
{
    link.waiter.as_str() == name.as_str()
        && usize::from(link.post) == post
        && board.is_matched(link.provider) == Some(true)
}

/// Puts the atom of the query under the values; nothing where there is none.
fn put_if_there<A: Allocator>(
    page: &mut String<A>,
    query: &Query<A>,
    values: &[Value<A>],
    atom: Option<&Atom<A>>,
) -> Result<(), AllocError>
    ensures { OnOk result (string_bytes page.new ≡ string_bytes page.old ++ atom_or_none (option_map (under (bound query.now values.now)) (option_copied atom.entry))) }
{
    match atom {
        Some(atom) => put_atom(page, query, values, atom),
        None => Ok(()),
    }
}

/// The head of that number.
pub(crate) fn head_of<'a, A: Allocator>(query: &'a Query<A>, head: u8) -> Option<&'a Atom<A>>
    ensures { option_copied result ≡ slice_get query.now.heads head }
{
    query.heads().get(usize::from(head))
}

/// The postcondition of that number.
pub(crate) fn post_of<'a, A: Allocator>(query: &'a Query<A>, post: usize) -> Option<&'a Atom<A>>
    ensures { option_copied result ≡ slice_get query.now.posts post }
{
    query.posts().get(post)
}

/// Puts a choice for the provider of the link, of its first grounding, and the head from which the link leads.
fn put_first<A: Allocator>(
    page: &mut String<A>,
    link: &Link<&Name<A>>,
    query: &Query<A>,
    values: &[Value<A>],
) -> Result<(), AllocError>
    ensures { OnOk result (string_bytes page.new ≡ string_bytes page.old ++ first_words (link_read (λ n. n.now) link.now) query.now values.now) }
{
    page.push_str("; ")?;
    page.push_str(link.provider.as_str())?;
    push_values(page, values)?;
    page.push_str(" offers ")?;
    put_if_there(page, query, values, head_of(query, link.head))?;
    Ok(())
}

/// Puts what the provider of the link offers.
fn put_offer<A: Allocator + Copy>(
    page: &mut String<A>,
    board: &Board<A>,
    link: &Link<&Name<A>>,
) -> Result<(), AllocError>
    ensures { OnOk result (string_bytes page.new ≡ string_bytes page.old ++ offer_words (link_read (λ n. n.now) link.now) (query_named link.now.provider.now board.now.pending) (groundings_named link.now.provider.now board.now)) }
{
    let Some(view) = board.view(link.provider) else {
        return Ok(());
    };
    let mut groundings = view.groundings.list();
    match groundings.next() {
        Some(values) => put_first(page, link, view.query, values),
        None => Ok(()),
    }
}

/// Puts what is offered for that postcondition of the query of that name: by the first of the links that leads there.
fn put_near<A: Allocator + Copy>(
    page: &mut String<A>,
    board: &Board<A>,
    links: &[Link<&Name<A>>],
    name: &Name<A>,
    post: usize,
) -> Result<(), AllocError>
    ensures { OnOk result (string_bytes page.new ≡ string_bytes page.old ++ near_words board.now name.now post (map (link_read (λ n. n.now)) links.now)) }
{
    for link in links {
        if leads_there(board, name, post, link) {
            return put_offer(page, board, link);
        }
    }
    Ok(())
}

/// Puts the postcondition of that number under the values; nothing where the query has none of it.
fn put_post<A: Allocator>(
    page: &mut String<A>,
    query: Option<&Query<A>>,
    values: &[Value<A>],
    post: usize,
) -> Result<(), AllocError>
    ensures { OnOk result (string_bytes page.new ≡ string_bytes page.old ++ post_words (option_copied query.entry) values.now post) }
{
    let Some(query) = query else {
        return Ok(());
    };
    put_if_there(page, query, values, post_of(query, post))
}

/// Puts what a query awaits under the values and nobody offers, and what is offered instead.
fn put_lack<A: Allocator + Copy>(
    page: &mut String<A>,
    board: &Board<A>,
    name: &Name<A>,
    values: &[Value<A>],
    post: usize,
) -> Result<(), AllocError>
    ensures { OnOk result (string_bytes page.new ≡ string_bytes page.old ++ lack_line board.now name.now values.now post) }
{
    page.push_str("  ")?;
    page.push_str(name.as_str())?;
    push_values(page, values)?;
    page.push_str(" awaits ")?;
    put_post(page, board.query(name), values, post)?;
    page.push_str(", which none offers")?;
    put_near(page, board, &board.edges()?, name, post)?;
    page.push('\n')?;
    Ok(())
}

/// Puts the first concerned query of which no grounding has everything offered that it awaits.
pub(crate) fn put_disagreement<A: Allocator + Copy>(
    alloc: A,
    board: &Board<A>,
    names: &[Name<A>],
    page: &mut String<A>,
) -> Result<(), AllocError>
    ensures { OnOk result ((lack : List ℕ) × IsDisagreementTold board.now names.now lack × (string_bytes page.new ≡ string_bytes page.old ++ lack)) }
{
    match disagreement(alloc, board, names)? {
        Some(lack) => put_lack(page, board, lack.name, lack.values, lack.post),
        None => Ok(()),
    }
}
