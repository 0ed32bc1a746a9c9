//! Why the queries of a board wait, as JSON, put on a sheet member by member.

ghost use Rattle.std.specs.Prelude.{◌≡◌, ◌<◌, ◌++◌, ◌∷◌, length, map, decimal, codes, true, [], Some, IfOk, OnOk};
ghost use Rattle.std.specs.List.{All};
ghost use Rattle.std.specs.Option.{option_copied};
ghost use Rattle.json.specs.Json as values;
ghost use Rattle.json.specs.Token.{key, string, number};
ghost use Rattle.json.specs.Tree.{json_tokens};
ghost use Rattle.cq_board.specs.Board.{place_of};
ghost use Rattle.cq_board.specs.Near.{miss_read, post_named};
ghost use Rattle.cq_board.specs.Waiting.{is_waiting, IsReasonPart};
ghost use Rattle.cq_render.specs.Explain.{name_of_number, waiting_names};
ghost use Rattle.cq_render.specs.Json.{array_of, object_of};
ghost use Rattle.cq_render.specs.Data.{IsPut, IsArray, standing_members, members_or_none, near_json, IsNearOf, IsUnmetJson, IsReasonJson, IsStepJson, IsWaitJson, IsWhyJson, AreReasonsJson};
ghost use Rattle.cq_render.specs.Steps.Falls.{AreFalls};
ghost use Rattle.cq_render.specs.Steps.Telling.{member_tokens, ArePut, AreUnmet, IsPartJson};

use crate::data::put_atom_members;
use crate::explaining::{
    Fallen, fallen_of, head_of, is_waiting, look, names_of, number_of, part_of, post_of,
    providers_of, waiting,
};
use crate::json_text::JsonText;
use crate::naming::{put_standing, put_state};
use cq_atom::{Atom, Name};
use cq_board::{Board, NearMiss};
use cq_match::{Fall, Reason};
use std::alloc::{AllocError, Allocator};

/// Puts the members of an atom; none where there is no atom.
fn put_members<A: Allocator>(
    sheet: &mut JsonText<A>,
    atom: Option<&Atom<A>>,
) -> Result<(), AllocError>
    ensures { OnOk result (sheet.new ≡ sheet.old ++ member_tokens (members_or_none (option_copied atom.entry))) }
{
    match atom {
        Some(atom) => put_atom_members(sheet, atom),
        None => Ok(()),
    }
}

/// Puts a head that nearly supplies.
fn put_head<A: Allocator + Copy>(
    sheet: &mut JsonText<A>,
    board: &Board<A>,
    near: &NearMiss<&Name<A>>,
) -> Result<(), AllocError>
    ensures { OnOk result (sheet.new ≡ sheet.old ++ json_tokens (near_json board.now.pending (miss_read (λ name. name.now) near.now))) }
{
    sheet.begin_object()?;
    sheet.text_member("query", near.provider.as_str())?;
    sheet.count_member("head", near.head as usize)?;
    put_members(sheet, head_of(board, near.provider, near.head))?;
    sheet.end_object()
}

/// Puts heads that nearly supply.
fn put_heads<A: Allocator + Copy>(
    sheet: &mut JsonText<A>,
    board: &Board<A>,
    near: &[NearMiss<&Name<A>>],
) -> Result<(), AllocError>
    ensures { OnOk result (sheet.new ≡ sheet.old ++ json_tokens (array_of (map (near_json board.now.pending) (map (miss_read (λ name. name.now)) near.now)))) }
{
    sheet.begin_array()?;
    for miss in near {
        put_head(sheet, board, miss)?;
    }
    sheet.end_array()
}

/// Puts a name, and these heads.
fn put_near_heads<A: Allocator + Copy>(
    sheet: &mut JsonText<A>,
    board: &Board<A>,
    name: &Name<A>,
    near: &[NearMiss<&Name<A>>],
) -> Result<(), AllocError>
    ensures { OnOk result (sheet.new ≡ sheet.old ++ json_tokens (object_of (standing_members board.now name.now ++ (codes "heads", array_of (map (near_json board.now.pending) (map (miss_read (λ name. name.now)) near.now))) ∷ []))) }
{
    sheet.begin_object()?;
    put_state(sheet, board, name)?;
    sheet.key("heads")?;
    put_heads(sheet, board, near)?;
    sheet.end_object()
}

/// Puts a name, what became of it, and the heads that are nearest to a postcondition of its query, counted from 0, as
/// [`Board::near_misses`] tells them; none where there is no such postcondition.
///
/// # Errors
/// `AllocError` where an allocation failed. The sheet may then have a part of it.
pub fn put_near<A: Allocator + Copy>(
    sheet: &mut JsonText<A>,
    board: &Board<A>,
    name: &Name<A>,
    post: u8,
) -> Result<(), AllocError>
    ensures { OnOk result (IsPut (IsNearOf board.now post name.now) sheet.old sheet.new) }
{
    let near = board.near_misses(name, post)?;
    put_near_heads(sheet, board, name, &near)
}

/// Puts the heads that are near to a postcondition without a provider.
fn put_missing<A: Allocator + Copy>(
    sheet: &mut JsonText<A>,
    fallen: &Fallen<'_, '_, A>,
    name: &Name<A>,
    post: u8,
) -> Result<(), AllocError>
    ensures { OnOk result (IsPut (IsUnmetJson fallen.now.listing.now.board.now.pending name.now post []) sheet.old sheet.new) }
{
    let near = fallen.heads.near_misses(name, post)?;
    put_heads(sheet, fallen.listing.board, &near)
}

/// Puts an array of nothing.
fn put_nothing<A: Allocator>(sheet: &mut JsonText<A>) -> Result<(), AllocError>
    ensures { OnOk result (sheet.new ≡ sheet.old ++ json_tokens (array_of [])) }
{
    sheet.begin_array()?;
    sheet.end_array()
}

/// Puts the heads that are near to an unmet postcondition, whose providers have these names.
fn put_unmet<A: Allocator + Copy>(
    sheet: &mut JsonText<A>,
    fallen: &Fallen<'_, '_, A>,
    name: &Name<A>,
    post: u8,
    providers: &[&str],
) -> Result<(), AllocError>
    ensures { OnOk result (IsPut (IsUnmetJson fallen.now.listing.now.board.now.pending name.now post (map (λ name. name.now) providers.now)) sheet.old sheet.new) }
{
    if providers.is_empty() {
        put_missing(sheet, fallen, name, post)
    } else {
        put_nothing(sheet)
    }
}

/// Puts names.
fn put_names<A: Allocator>(sheet: &mut JsonText<A>, names: &[&str]) -> Result<(), AllocError>
    ensures { OnOk result (sheet.new ≡ sheet.old ++ json_tokens (array_of (map values.string (map (λ name. name.now) names.now)))) }
{
    sheet.begin_array()?;
    for name in names {
        sheet.string(name)?;
    }
    sheet.end_array()
}

/// Puts that a postcondition is unmet: its place, and its atom.
fn put_post<A: Allocator + Copy>(
    sheet: &mut JsonText<A>,
    board: &Board<A>,
    name: &Name<A>,
    post: u8,
) -> Result<(), AllocError>
    ensures { OnOk result (sheet.new ≡ sheet.old ++ key (codes "reason") ∷ string (codes "unmet") ∷ key (codes "post") ∷ number (decimal post) ∷ member_tokens (members_or_none (post_named name.now post board.now.pending))) }
{
    sheet.text_member("reason", "unmet")?;
    sheet.count_member("post", post as usize)?;
    put_members(sheet, post_of(board, name, post))
}

/// Puts an unmet postcondition, whose providers have these names.
fn put_unmet_post<A: Allocator + Copy>(
    sheet: &mut JsonText<A>,
    fallen: &Fallen<'_, '_, A>,
    name: &Name<A>,
    post: u8,
    providers: &[&str],
) -> Result<(), AllocError>
    ensures { OnOk result (ArePut (AreUnmet fallen.now.listing.now.board.now.pending name.now post (map (λ name. name.now) providers.now)) sheet.old sheet.new) }
{
    put_post(sheet, fallen.listing.board, name, post)?;
    sheet.key("providers")?;
    put_names(sheet, providers)?;
    sheet.key("near")?;
    put_unmet(sheet, fallen, name, post, providers)
}

/// Puts an unmet postcondition, whose providers have these numbers.
fn put_unmet_by<A: Allocator + Copy>(
    alloc: A,
    sheet: &mut JsonText<A>,
    fallen: &Fallen<'_, '_, A>,
    name: &Name<A>,
    post: u8,
    providers: &[usize],
) -> Result<(), AllocError>
    ensures { OnOk result (ArePut (AreUnmet fallen.now.listing.now.board.now.pending name.now post (map (name_of_number fallen.now.listing.now.board.now.pending) providers.now)) sheet.old sheet.new) }
{
    let names = names_of(alloc, fallen.listing, providers)?;
    put_unmet_post(sheet, fallen, name, post, &names)
}

/// Puts that the query of that name and number waits for a postcondition.
fn put_post_reason<A: Allocator + Copy>(
    alloc: A,
    sheet: &mut JsonText<A>,
    fallen: &Fallen<'_, '_, A>,
    name: &Name<A>,
    waiter: usize,
    post: u8,
) -> Result<(), AllocError>
    ensures { OnOk result (ArePut (IsReasonJson fallen.now.listing.now.board.now.pending name.now waiter (Reason.Unmet post)) sheet.old sheet.new) }
{
    let providers = providers_of(alloc, fallen, waiter, post)?;
    put_unmet_by(alloc, sheet, fallen, name, post, &providers)
}

/// Puts the reason of a fall.
fn put_reason<A: Allocator + Copy>(
    alloc: A,
    sheet: &mut JsonText<A>,
    fallen: &Fallen<'_, '_, A>,
    name: &Name<A>,
    fall: &Fall,
) -> Result<(), AllocError>
    ensures { OnOk result (ArePut (IsReasonJson fallen.now.listing.now.board.now.pending name.now fall.now.node fall.now.reason) sheet.old sheet.new) }
{
    match fall.reason {
        Reason::NotAble => sheet.text_member("reason", "no row"),
        Reason::Unmet(post) => put_post_reason(alloc, sheet, fallen, name, fall.node, post),
    }
}

/// Puts a query, and the reason of its fall.
fn put_step<A: Allocator + Copy>(
    alloc: A,
    sheet: &mut JsonText<A>,
    fallen: &Fallen<'_, '_, A>,
    fall: &Fall,
) -> Result<(), AllocError>
    requires { fall.now.node < length fallen.now.listing.now.queries.items }
    ensures { OnOk result (IsPut (IsStepJson fallen.now.listing.now.board.now.pending fall.now) sheet.old sheet.new) }
{
    let name = fallen.listing.queries[fall.node].name;
    sheet.begin_object()?;
    sheet.text_member("query", name.as_str())?;
    put_reason(alloc, sheet, fallen, name, fall)?;
    sheet.end_object()
}

/// Puts a step for each of the falls.
fn put_steps<A: Allocator + Copy>(
    alloc: A,
    sheet: &mut JsonText<A>,
    fallen: &Fallen<'_, '_, A>,
    part: &[Fall],
) -> Result<(), AllocError>
    requires { All (λ fall. fall.node < length fallen.now.listing.now.queries.items) part.now }
    ensures { OnOk result (IsPut (IsArray (IsStepJson fallen.now.listing.now.board.now.pending) part.now) sheet.old sheet.new) }
{
    sheet.begin_array()?;
    for fall in part {
        put_step(alloc, sheet, fallen, fall)?;
    }
    sheet.end_array()
}

/// Puts why the query of that name waits, which this part of the falls tells.
fn put_part<A: Allocator + Copy>(
    alloc: A,
    sheet: &mut JsonText<A>,
    fallen: &Fallen<'_, '_, A>,
    name: &Name<A>,
    part: &[Fall],
) -> Result<(), AllocError>
    requires { All (λ fall. fall.node < length fallen.now.listing.now.queries.items) part.now }
    ensures { OnOk result (IsPut (IsPartJson fallen.now.listing.now.board.now name.now part.now) sheet.old sheet.new) }
{
    sheet.begin_object()?;
    put_state(sheet, fallen.listing.board, name)?;
    sheet.key("steps")?;
    put_steps(alloc, sheet, fallen, part)?;
    sheet.end_object()
}

/// Puts why the query of that name and number waits.
fn put_waiting<A: Allocator + Copy>(
    alloc: A,
    sheet: &mut JsonText<A>,
    fallen: &Fallen<'_, '_, A>,
    name: &Name<A>,
    number: usize,
) -> Result<(), AllocError>
    requires fell { AreFalls fallen.now.listing.now.board.now fallen.now.parts.now.falls }
    requires there { place_of name.now fallen.now.listing.now.board.now.pending ≡ Some number }
    requires waits { is_waiting name.now fallen.now.listing.now.board.now ≡ true }
    ensures { OnOk result (IsPut (IsWaitJson fallen.now.listing.now.board.now name.now) sheet.old sheet.new) }
{
    let part = part_of(fallen, number)?;
    put_part(alloc, sheet, fallen, name, &part)
}

/// Puts why the query of a name waits, or that it does not.
fn put_why<A: Allocator + Copy>(
    alloc: A,
    sheet: &mut JsonText<A>,
    fallen: &Fallen<'_, '_, A>,
    name: &Name<A>,
) -> Result<(), AllocError>
    requires fell { AreFalls fallen.now.listing.now.board.now fallen.now.parts.now.falls }
    ensures { OnOk result (IsPut (IsWhyJson fallen.now.listing.now.board.now name.now) sheet.old sheet.new) }
{
    if !is_waiting(fallen.listing.board, name) {
        return put_standing(sheet, fallen.listing.board, name);
    }
    match number_of(fallen, name) {
        Some(number) => put_waiting(alloc, sheet, fallen, name, number),
        None => unreachable!(),
    }
}

/// Puts for each of the names why its query waits, or that it does not.
fn put_whys<A: Allocator + Copy>(
    alloc: A,
    sheet: &mut JsonText<A>,
    fallen: &Fallen<'_, '_, A>,
    names: &[&Name<A>],
) -> Result<(), AllocError>
    requires fell { AreFalls fallen.now.listing.now.board.now fallen.now.parts.now.falls }
    ensures { OnOk result (IsPut (IsArray (IsWhyJson fallen.now.listing.now.board.now) (map (λ name. name.now) names.now)) sheet.old sheet.new) }
{
    sheet.begin_array()?;
    for name in names {
        put_why(alloc, sheet, fallen, name)?;
    }
    sheet.end_array()
}

/// The same over a board.
fn put_each<A: Allocator + Copy>(
    alloc: A,
    sheet: &mut JsonText<A>,
    board: &Board<A>,
    names: &[&Name<A>],
) -> Result<(), AllocError>
    ensures { OnOk result (IsPut (IsArray (IsWhyJson board.now) (map (λ name. name.now) names.now)) sheet.old sheet.new) }
{
    let looked = look(alloc, board)?;
    let parts = looked.parts(alloc)?;
    put_whys(alloc, sheet, &fallen_of(&looked, &parts), names)
}

/// Puts why each query that waits does so.
fn put_all<A: Allocator + Copy>(
    alloc: A,
    sheet: &mut JsonText<A>,
    board: &Board<A>,
) -> Result<(), AllocError>
    ensures { OnOk result (IsPut (IsArray (IsWhyJson board.now) (waiting_names board.now)) sheet.old sheet.new) }
{
    let names = board.names()?;
    let waiting = waiting(alloc, board, &names)?;
    put_each(alloc, sheet, board, &waiting)
}

/// The names, each by a reference.
fn each_of<A: Allocator>(alloc: A, names: &[Name<A>]) -> Result<Vec<&Name<A>, A>, AllocError>
    ensures { IfOk result (λ each. map (λ name. name.now) each.items ≡ names.now) }
{
    let mut each = Vec::with_capacity(alloc, names.len())?;
    for name in names {
        each.push(name)?;
    }
    Ok(each)
}

/// Puts for each of the names why its query waits, or that it does not.
fn put_given<A: Allocator + Copy>(
    alloc: A,
    sheet: &mut JsonText<A>,
    board: &Board<A>,
    names: &[Name<A>],
) -> Result<(), AllocError>
    ensures { OnOk result (IsPut (IsArray (IsWhyJson board.now) names.now) sheet.old sheet.new) }
{
    let each = each_of(alloc, names)?;
    put_each(alloc, sheet, board, &each)
}

/// Puts why the queries of these names wait, each in an object of an array; where there is no name, of all queries that wait, in
/// posting order. What [`explain_these`](crate::explain_these) tells in words, and in its time; but of a name under which no query
/// waits it is also told what became of it.
///
/// # Errors
/// `AllocError` where an allocation failed. The sheet may then have a part of it.
pub fn put_reasons<A: Allocator + Copy>(
    alloc: A,
    sheet: &mut JsonText<A>,
    board: &Board<A>,
    names: &[Name<A>],
) -> Result<(), AllocError>
    ensures { OnOk result (IsPut (AreReasonsJson board.now names.now) sheet.old sheet.new) }
{
    if names.is_empty() {
        put_all(alloc, sheet, board)
    } else {
        put_given(alloc, sheet, board, names)
    }
}
