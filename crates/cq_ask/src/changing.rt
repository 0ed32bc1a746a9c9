//! Changes of the last publish.

ghost use Rattle.std.specs.Prelude.{◌≡◌, ◌++◌, map, string_bytes, OnOk, option_map};
ghost use Rattle.std.specs.List.{flat_map};
ghost use Rattle.cq_board.specs.Pool.{name_of};
ghost use Rattle.cq_board.specs.Named.{matched_named};
ghost use Rattle.cq_ask.specs.Answer.{published_pool, went_line, change_words, change_line, changes};

use cq_atom::Name;
use cq_board::Board;
use cq_desk::Floor;
use std::alloc::{AllocError, Allocator};

/// Appends a line if no query is pending under the name now.
fn put_if_gone<A: Allocator + Copy>(
    now: &Board<A>,
    name: &Name<A>,
    page: &mut String<A>,
) -> Result<(), AllocError>
    ensures { OnOk result (string_bytes page.new ≡ string_bytes page.old ++ went_line name.now (matched_named name.now now.now)) }
{
    if now.is_matched(name).is_some() {
        return Ok(());
    }
    let text = name.as_str();
    write!(page, "{text} went\n")
}

/// Appends a line for each of these names under which no query is pending now.
fn put_gone<A: Allocator + Copy>(
    now: &Board<A>,
    names: &[&Name<A>],
    page: &mut String<A>,
) -> Result<(), AllocError>
    ensures { OnOk result (string_bytes page.new ≡ string_bytes page.old ++ flat_map (λ name. went_line name (matched_named name now.now)) (map (λ name. name.now) names.now)) }
{
    for name in names {
        put_if_gone(now, name, page)?;
    }
    Ok(())
}

/// Returns how a query that is pending now changed, if it did.
fn change_words(before: Option<bool>, now: Option<bool>) -> Option<&'static str>
    ensures { option_map (λ words. words.now) result ≡ change_words before now }
{
    match (before, now) {
        (None, Some(true)) => Some("came matched"),
        (None, Some(false)) => Some("came waiting"),
        (Some(true), Some(false)) => Some("turned waiting"),
        (Some(false), Some(true)) => Some("turned matched"),
        _ => None,
    }
}

/// Appends a line if the query that is pending under the name now changed.
fn put_change<A: Allocator + Copy>(
    before: &Board<A>,
    now: &Board<A>,
    name: &Name<A>,
    page: &mut String<A>,
) -> Result<(), AllocError>
    ensures { OnOk result (string_bytes page.new ≡ string_bytes page.old ++ change_line name.now (change_words (matched_named name.now before.now) (matched_named name.now now.now))) }
{
    let Some(words) = change_words(before.is_matched(name), now.is_matched(name)) else {
        return Ok(());
    };
    let text = name.as_str();
    write!(page, "{text} {words}\n")
}

/// Appends a line for each query of these names that changed.
fn put_each<A: Allocator + Copy>(
    before: &Board<A>,
    now: &Board<A>,
    names: &[&Name<A>],
    page: &mut String<A>,
) -> Result<(), AllocError>
    ensures { OnOk result (string_bytes page.new ≡ string_bytes page.old ++ flat_map (λ name. change_line name (change_words (matched_named name before.now) (matched_named name now.now))) (map (λ name. name.now) names.now)) }
{
    for name in names {
        put_change(before, now, name, page)?;
    }
    Ok(())
}

/// Appends the changes between two boards.
fn put_changes<A: Allocator + Copy>(
    before: &Board<A>,
    now: &Board<A>,
    page: &mut String<A>,
) -> Result<(), AllocError>
    ensures { OnOk result (string_bytes page.new ≡ string_bytes page.old ++ changes before.now now.now) }
{
    put_gone(now, &before.names()?, page)?;
    put_each(before, now, &now.names()?, page)
}

/// Appends the changes of the last publish.
pub(crate) fn put_last_changes<A: Allocator + Copy>(
    floor: &Floor<Board<A>, A>,
    page: &mut String<A>,
) -> Result<(), AllocError>
    ensures { OnOk result (string_bytes page.new ≡ string_bytes page.old ++ changes floor.now.earlier (published_pool floor.now)) }
{
    put_changes(floor.earlier(), floor.board(), page)
}
