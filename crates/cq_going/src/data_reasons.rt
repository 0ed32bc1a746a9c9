//! Why there is no coordinating choice, as JSON, as far as it is told.

ghost use Rattle.std.specs.Prelude.{◌≡◌, ◌++◌, ◌∷◌, [], codes, filter, map, OnOk};
ghost use Rattle.std.specs.List.{slice_get};
ghost use Rattle.std.specs.Option.{option_copied};
ghost use Rattle.json.specs.Token.{end_object, key};
ghost use Rattle.json.specs.Tree.{json_tokens};
ghost use Rattle.cq_board.specs.Board.{links_of};
ghost use Rattle.cq_board.specs.Named.{groundings_named, link_read, matched_named, query_named};
ghost use Rattle.cq_render.specs.Json.{object_of, count};
ghost use Rattle.cq_render.specs.Data.{IsPut};
ghost use Rattle.cq_going.specs.Reasons.{leads_there};
ghost use Rattle.cq_going.specs.Data.{valued_members, barred_if, barred_json, under_members, offer_json, first_json, post_members, lack_json, IsDisagreementJson};
ghost use Rattle.cq_going.specs.Steps.Tokens.{items_alone, members_alone};

use crate::data_atoms::{begin_valued, put_if_there};
use crate::grouping::is_matched;
use crate::reasons::{head_of, leads_there, post_of};
use cq_atom::{Name, Query, Value};
use cq_board::{Board, Link};
use cq_choose::disagreement;
use cq_render::{JsonText, put_standing};
use std::alloc::{AllocError, Allocator};

/// Puts the name, where nothing can be chosen under it: no query is pending, or it waits.
fn put_barred<A: Allocator + Copy>(
    sheet: &mut JsonText<A>,
    board: &Board<A>,
    name: &Name<A>,
) -> Result<(), AllocError>
    ensures { OnOk result (sheet.new ≡ sheet.old ++ items_alone (barred_if board.now name.now (matched_named name.now board.now))) }
{
    if is_matched(board, name) {
        return Ok(());
    }
    put_standing(sheet, board, name)
}

/// Puts those of the names for which nothing can be chosen.
pub(crate) fn put_all_barred<A: Allocator + Copy>(
    sheet: &mut JsonText<A>,
    board: &Board<A>,
    names: &[Name<A>],
) -> Result<(), AllocError>
    ensures { OnOk result (sheet.new ≡ sheet.old ++ json_tokens (barred_json board.now names.now)) }
{
    sheet.begin_array()?;
    for name in names {
        put_barred(sheet, board, name)?;
    }
    sheet.end_array()
}

/// Puts a choice for the provider of the link, of its first grounding, and the head from which the link leads.
fn put_first<A: Allocator>(
    sheet: &mut JsonText<A>,
    link: &Link<&Name<A>>,
    query: &Query<A>,
    values: &[Value<A>],
) -> Result<(), AllocError>
    ensures { OnOk result (sheet.new ≡ sheet.old ++ json_tokens (object_of (valued_members link.now.provider.now values.now ++ (codes "head", count link.now.head) ∷ under_members query.now values.now (slice_get query.now.heads link.now.head)))) }
{
    begin_valued(sheet, link.provider, values)?;
    sheet.count_member("head", link.head as usize)?;
    put_if_there(sheet, query, values, head_of(query, link.head))?;
    sheet.end_object()
}

/// Puts what the provider of the link offers.
fn put_offer<A: Allocator + Copy>(
    sheet: &mut JsonText<A>,
    board: &Board<A>,
    link: &Link<&Name<A>>,
) -> Result<(), AllocError>
    ensures { OnOk result (sheet.new ≡ sheet.old ++ json_tokens (offer_json (link_read (λ n. n.now) link.now) (query_named link.now.provider.now board.now.pending) (groundings_named link.now.provider.now board.now))) }
{
    let Some(view) = board.view(link.provider) else {
        return sheet.null();
    };
    let mut groundings = view.groundings.list();
    match groundings.next() {
        Some(values) => put_first(sheet, link, view.query, values),
        None => sheet.null(),
    }
}

/// Puts what is offered for that postcondition of the query of that name: by the first of the links that leads there.
fn put_near<A: Allocator + Copy>(
    sheet: &mut JsonText<A>,
    board: &Board<A>,
    links: &[Link<&Name<A>>],
    name: &Name<A>,
    post: usize,
) -> Result<(), AllocError>
    ensures { OnOk result (sheet.new ≡ sheet.old ++ json_tokens (first_json board.now (filter (leads_there board.now name.now post) (map (link_read (λ n. n.now)) links.now)))) }
{
    for link in links {
        if leads_there(board, name, post, link) {
            return put_offer(sheet, board, link);
        }
    }
    sheet.null()
}

/// Puts what is offered for that postcondition of the query of that name, as the last member of an object.
fn end_lack<A: Allocator + Copy>(
    sheet: &mut JsonText<A>,
    board: &Board<A>,
    name: &Name<A>,
    post: usize,
) -> Result<(), AllocError>
    ensures { OnOk result (sheet.new ≡ sheet.old ++ key (codes "offered") ∷ (json_tokens (first_json board.now (filter (leads_there board.now name.now post) (links_of board.now.pending))) ++ end_object ∷ [])) }
{
    let links = board.edges()?;
    sheet.key("offered")?;
    put_near(sheet, board, &links, name, post)?;
    sheet.end_object()
}

/// Puts the members of the postcondition of that number under the values; nothing where the query has none of it.
fn put_post<A: Allocator>(
    sheet: &mut JsonText<A>,
    query: Option<&Query<A>>,
    values: &[Value<A>],
    post: usize,
) -> Result<(), AllocError>
    ensures { OnOk result (sheet.new ≡ sheet.old ++ members_alone (post_members (option_copied query.entry) values.now post)) }
{
    match query {
        Some(query) => put_if_there(sheet, query, values, post_of(query, post)),
        None => Ok(()),
    }
}

/// Puts what a query awaits under the values and nobody offers, and what is offered instead.
fn put_lack<A: Allocator + Copy>(
    sheet: &mut JsonText<A>,
    board: &Board<A>,
    name: &Name<A>,
    values: &[Value<A>],
    post: usize,
) -> Result<(), AllocError>
    ensures { OnOk result (sheet.new ≡ sheet.old ++ json_tokens (lack_json board.now name.now values.now post)) }
{
    begin_valued(sheet, name, values)?;
    sheet.count_member("post", post)?;
    put_post(sheet, board.query(name), values, post)?;
    end_lack(sheet, board, name, post)
}

/// Puts the first concerned query of which no grounding has everything offered that it awaits.
pub(crate) fn put_disagreement<A: Allocator + Copy>(
    alloc: A,
    sheet: &mut JsonText<A>,
    board: &Board<A>,
    names: &[Name<A>],
) -> Result<(), AllocError>
    ensures { OnOk result (IsPut (IsDisagreementJson board.now names.now) sheet.old sheet.new) }
{
    match disagreement(alloc, board, names)? {
        Some(lack) => put_lack(sheet, board, lack.name, lack.values, lack.post),
        None => sheet.null(),
    }
}
