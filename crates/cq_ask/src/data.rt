//! Answers to lines that ask, as JSON.

ghost use Rattle.std.specs.Prelude.{◌≡◌, ◌++◌, Bool, Option, codes, map, option_map, string_bytes, IfOk, OnOk};
ghost use Rattle.std.specs.List.{flat_map};
ghost use Rattle.json.specs.Json as values;
ghost use Rattle.json.specs.Tree.{json_tokens};
ghost use Rattle.json.specs.Print.{print};
ghost use Rattle.cq_board.specs.Named.{matched_named};
ghost use Rattle.cq_render.specs.Graph.{graph};
ghost use Rattle.cq_render.specs.Json.{array_of, json_of};
ghost use Rattle.cq_render.specs.Dump.{dump};
ghost use Rattle.cq_render.specs.Data.{IsPut, IsArray, IsNearOf, AreReasonsJson, standing_json, named_json};
ghost use Rattle.cq_going.specs.Data.{IsSoughtJson, AreGroupsJson};
ghost use Rattle.cq_ask.specs.Answer.{published_pool, IsVerdict};
ghost use Rattle.cq_ask.specs.Data.{change_json, went_json, change_word, changed_json, changes_json, verdict_json, IsToldAs, IsMember};
ghost use Rattle.cq_ask.specs.Steps.Several.{all_tokens};
ghost use Rattle.cq_ask.specs.Choices.{choice_words};

use crate::answering::{help, standing_word, verdict};
use crate::ask::{Ask, AskKind};
use crate::choices::choice_words;
use crate::counts::{count_members, counts_of, parts_text};
use cq_atom::Name;
use cq_board::Board;
use cq_desk::Floor;
use cq_going::{MOST_STEPS, put_groups, put_sought};
use cq_render::{JsonText, dump, graph, json, put_named, put_near, put_reasons, put_standing};
use cq_text::Form;
use std::alloc::{AllocError, Allocator};

/// A floor over a board.
type BoardFloor<A> = Floor<Board<A>, A>;

/// A member of a JSON object that has others before it.
fn member<A: Allocator + Copy>(
    alloc: A,
    name: &str,
    sheet: JsonText<A>,
) -> Result<String<A>, AllocError>
    ensures { IfOk result (λ text. string_bytes text ≡ codes ",\"" ++ (name.now ++ (codes "\":" ++ print sheet))) }
{
    let text = sheet.into_text();
    let text = text.as_str();
    format!(in alloc; ",\"{name}\":{text}")
}

/// A member that is a text.
fn text_member<A: Allocator + Copy>(
    alloc: A,
    name: &str,
    text: &str,
) -> Result<String<A>, AllocError>
    ensures { IfOk result (λ member. IsToldAs (λ told. told ≡ (name.now, values.string text.now)) (string_bytes member)) }
{
    let mut sheet = JsonText::begin(alloc);
    sheet.string(text)?;
    member(alloc, name, sheet)
}

/// A member that is true or false.
fn flag_member<A: Allocator + Copy>(
    alloc: A,
    name: &str,
    flag: bool,
) -> Result<String<A>, AllocError>
    ensures { IfOk result (λ member. IsToldAs (λ told. told ≡ (name.now, values.boolean flag)) (string_bytes member)) }
{
    let mut sheet = JsonText::begin(alloc);
    sheet.boolean(flag)?;
    member(alloc, name, sheet)
}

// ---- names

/// Appends an object for each of these names: matched, waiting or absent.
fn put_standings<A: Allocator + Copy>(
    sheet: &mut JsonText<A>,
    board: &Board<A>,
    names: &[Name<A>],
) -> Result<(), AllocError>
    ensures { OnOk result (sheet.new ≡ sheet.old ++ json_tokens (array_of (map (standing_json board.now) names.now))) }
{
    sheet.begin_array()?;
    for name in names {
        put_standing(sheet, board, name)?;
    }
    sheet.end_array()
}

fn status_member<A: Allocator + Copy>(
    alloc: A,
    board: &Board<A>,
    names: &[Name<A>],
) -> Result<String<A>, AllocError>
    ensures { IfOk result (λ text. IsToldAs (λ told. told ≡ (codes "status", array_of (map (standing_json board.now) names.now))) (string_bytes text)) }
{
    let mut sheet = JsonText::begin(alloc);
    put_standings(&mut sheet, board, names)?;
    member(alloc, "status", sheet)
}

/// Appends the queries of these names.
fn put_queries<A: Allocator + Copy>(
    alloc: A,
    sheet: &mut JsonText<A>,
    board: &Board<A>,
    names: &[Name<A>],
) -> Result<(), AllocError>
    ensures { OnOk result (sheet.new ≡ sheet.old ++ json_tokens (array_of (map (named_json board.now) names.now))) }
{
    sheet.begin_array()?;
    for name in names {
        put_named(alloc, sheet, board, name)?;
    }
    sheet.end_array()
}

fn query_member<A: Allocator + Copy>(
    alloc: A,
    board: &Board<A>,
    names: &[Name<A>],
) -> Result<String<A>, AllocError>
    ensures { IfOk result (λ text. IsToldAs (λ told. told ≡ (codes "query", array_of (map (named_json board.now) names.now))) (string_bytes text)) }
{
    let mut sheet = JsonText::begin(alloc);
    put_queries(alloc, &mut sheet, board, names)?;
    member(alloc, "query", sheet)
}

fn explain_member<A: Allocator + Copy>(
    alloc: A,
    board: &Board<A>,
    names: &[Name<A>],
) -> Result<String<A>, AllocError>
    ensures { IfOk result (λ text. IsToldAs (λ told. (reasons : values.Json) × AreReasonsJson board.now names.now reasons × (told ≡ (codes "explain", reasons))) (string_bytes text)) }
{
    let mut sheet = JsonText::begin(alloc);
    put_reasons(alloc, &mut sheet, board, names)?;
    member(alloc, "explain", sheet)
}

/// Appends the heads that are nearest to this postcondition of the queries of these names.
fn put_nears<A: Allocator + Copy>(
    sheet: &mut JsonText<A>,
    board: &Board<A>,
    post: u8,
    names: &[Name<A>],
) -> Result<(), AllocError>
    ensures { OnOk result (IsPut (IsArray (IsNearOf board.now post) names.now) sheet.old sheet.new) }
{
    sheet.begin_array()?;
    for name in names {
        put_near(sheet, board, name, post)?;
    }
    sheet.end_array()
}

fn near_member<A: Allocator + Copy>(
    alloc: A,
    board: &Board<A>,
    post: u8,
    names: &[Name<A>],
) -> Result<String<A>, AllocError>
    ensures { IfOk result (λ text. IsToldAs (λ told. (near : values.Json) × IsArray (IsNearOf board.now post) names.now near × (told ≡ (codes "near", near))) (string_bytes text)) }
{
    let mut sheet = JsonText::begin(alloc);
    put_nears(&mut sheet, board, post, names)?;
    member(alloc, "near", sheet)
}

// ---- choices

fn verdict_member<A: Allocator + Copy>(
    alloc: A,
    verdict: Option<bool>,
) -> Result<String<A>, AllocError>
    ensures { IfOk result (λ text. IsToldAs (λ told. told ≡ verdict_json verdict) (string_bytes text)) }
{
    match verdict {
        Some(coordinates) => flag_member(alloc, "coordinating", coordinates),
        None => text_member(alloc, "refused", "Words"),
    }
}

fn choice_member<A: Allocator + Copy>(
    alloc: A,
    board: &Board<A>,
    choices: &[u8],
) -> Result<String<A>, AllocError>
    ensures { IfOk result (λ text. IsToldAs (λ told. (verdict : Option Bool) × IsVerdict board.now (choice_words choices.now) verdict × (told ≡ verdict_json verdict)) (string_bytes text)) }
{
    let words = choice_words(alloc, choices)?;
    let verdict = verdict(alloc, board, &words)?;
    verdict_member(alloc, verdict)
}

fn choose_member<A: Allocator + Copy>(
    alloc: A,
    board: &Board<A>,
    names: &[Name<A>],
) -> Result<String<A>, AllocError>
    ensures { IfOk result (λ text. IsToldAs (λ told. (sought : values.Json) × IsSoughtJson board.now names.now sought × (told ≡ (codes "choose", sought))) (string_bytes text)) }
{
    let mut sheet = JsonText::begin(alloc);
    put_sought(alloc, &mut sheet, board, names, MOST_STEPS)?;
    member(alloc, "choose", sheet)
}

fn groups_member<A: Allocator + Copy>(alloc: A, board: &Board<A>) -> Result<String<A>, AllocError>
    ensures { IfOk result (λ text. IsToldAs (λ told. (groups : values.Json) × AreGroupsJson board.now groups × (told ≡ (codes "groups", groups))) (string_bytes text)) }
{
    let mut sheet = JsonText::begin(alloc);
    put_groups(alloc, &mut sheet, board, MOST_STEPS)?;
    member(alloc, "groups", sheet)
}

// ---- changes

/// Appends a name, the state of its query, and how that changed.
fn put_change<A: Allocator + Copy>(
    sheet: &mut JsonText<A>,
    now: &Board<A>,
    name: &Name<A>,
    word: &str,
) -> Result<(), AllocError>
    ensures { OnOk result (sheet.new ≡ sheet.old ++ json_tokens (change_json now.now name.now word.now)) }
{
    sheet.begin_object()?;
    sheet.text_member("name", name.as_str())?;
    sheet.text_member("state", standing_word(now.is_matched(name)))?;
    sheet.text_member("change", word)?;
    sheet.end_object()
}

/// Appends that the query of the name was removed, if none is pending under it now.
fn put_if_gone<A: Allocator + Copy>(
    sheet: &mut JsonText<A>,
    now: &Board<A>,
    name: &Name<A>,
) -> Result<(), AllocError>
    ensures { OnOk result (sheet.new ≡ sheet.old ++ all_tokens (went_json now.now name.now (matched_named name.now now.now))) }
{
    if now.is_matched(name).is_some() {
        return Ok(());
    }
    put_change(sheet, now, name, "went")
}

/// Appends which of these queries were removed.
fn put_gone<A: Allocator + Copy>(
    sheet: &mut JsonText<A>,
    now: &Board<A>,
    names: &[&Name<A>],
) -> Result<(), AllocError>
    ensures { OnOk result (sheet.new ≡ sheet.old ++ all_tokens (flat_map (λ name. went_json now.now name (matched_named name now.now)) (map (λ name. name.now) names.now))) }
{
    for name in names {
        put_if_gone(sheet, now, name)?;
    }
    Ok(())
}

/// Returns how a pending query changed, if it did.
fn change_word(before: Option<bool>, now: Option<bool>) -> Option<&'static str>
    ensures { option_map (λ word. word.now) result ≡ change_word before now }
{
    match (before, now) {
        (None, Some(_)) => Some("came"),
        (Some(true), Some(false)) => Some("turned"),
        (Some(false), Some(true)) => Some("turned"),
        _ => None,
    }
}

/// Appends how the query that is pending under the name changed, if it did.
fn put_if_changed<A: Allocator + Copy>(
    sheet: &mut JsonText<A>,
    before: &Board<A>,
    now: &Board<A>,
    name: &Name<A>,
) -> Result<(), AllocError>
    ensures { OnOk result (sheet.new ≡ sheet.old ++ all_tokens (changed_json now.now name.now (change_word (matched_named name.now before.now) (matched_named name.now now.now)))) }
{
    match change_word(before.is_matched(name), now.is_matched(name)) {
        Some(word) => put_change(sheet, now, name, word),
        None => Ok(()),
    }
}

/// Appends which of these queries changed, and how.
fn put_each_change<A: Allocator + Copy>(
    sheet: &mut JsonText<A>,
    before: &Board<A>,
    now: &Board<A>,
    names: &[&Name<A>],
) -> Result<(), AllocError>
    ensures { OnOk result (sheet.new ≡ sheet.old ++ all_tokens (flat_map (λ name. changed_json now.now name (change_word (matched_named name before.now) (matched_named name now.now))) (map (λ name. name.now) names.now))) }
{
    for name in names {
        put_if_changed(sheet, before, now, name)?;
    }
    Ok(())
}

/// Appends the changes between two boards.
fn put_changes<A: Allocator + Copy>(
    sheet: &mut JsonText<A>,
    before: &Board<A>,
    now: &Board<A>,
) -> Result<(), AllocError>
    ensures { OnOk result (sheet.new ≡ sheet.old ++ json_tokens (changes_json before.now now.now)) }
{
    sheet.begin_array()?;
    put_gone(sheet, now, &before.names()?)?;
    put_each_change(sheet, before, now, &now.names()?)?;
    sheet.end_array()
}

fn changes_member<A: Allocator + Copy>(
    alloc: A,
    floor: &BoardFloor<A>,
) -> Result<String<A>, AllocError>
    ensures { IfOk result (λ text. IsToldAs (λ told. told ≡ (codes "changes", changes_json floor.now.earlier (published_pool floor.now))) (string_bytes text)) }
{
    let mut sheet = JsonText::begin(alloc);
    put_changes(&mut sheet, floor.earlier(), floor.board())?;
    member(alloc, "changes", sheet)
}

// ---- all kinds

fn graph_member<A: Allocator + Copy>(alloc: A, board: &Board<A>) -> Result<String<A>, AllocError>
    ensures { IfOk result (λ text. IsToldAs (λ told. told ≡ (codes "graph", values.string (graph board.now))) (string_bytes text)) }
{
    let text = graph(alloc, board)?;
    text_member(alloc, "graph", text.as_str())
}

fn dump_member<A: Allocator + Copy>(
    alloc: A,
    form: Form,
    floor: &BoardFloor<A>,
) -> Result<String<A>, AllocError>
    ensures { IfOk result (λ text. IsToldAs (λ told. told ≡ (codes "dump", values.string (dump form floor.now.limit (published_pool floor.now)))) (string_bytes text)) }
{
    let text = dump(alloc, form, floor.limit(), floor.board())?;
    text_member(alloc, "dump", text.as_str())
}

fn board_member<A: Allocator + Copy>(
    alloc: A,
    entries: u64,
    board: &Board<A>,
) -> Result<String<A>, AllocError>
    ensures { IfOk result (λ text. IsToldAs (λ told. told ≡ (codes "board", json_of entries board.now)) (string_bytes text)) }
{
    let text = json(alloc, entries, board)?;
    let text = text.as_str();
    format!(in alloc; ",\"board\":{text}")
}

/// Returns the answer to a question about the board that the floor publishes, as a member that follows others in a JSON object. Its time is that of
/// [`tell`](crate::tell).
///
/// # Errors
/// `AllocError` if an allocation fails.
pub fn tell_data<A: Allocator + Copy>(
    alloc: A,
    form: Form,
    floor: &Floor<Board<A>, A>,
    ask: &Ask<A>,
) -> Result<String<A>, AllocError>
    ensures { IfOk result (λ text. IsMember form floor.now ask.now (string_bytes text)) }
{
    let board = floor.board();
    let names = ask.names();
    match ask.kind() {
        AskKind::Count => parts_text(alloc, &count_members(&counts_of(floor))),
        AskKind::Status => status_member(alloc, board, names),
        AskKind::Query => query_member(alloc, board, names),
        AskKind::Explain => explain_member(alloc, board, names),
        AskKind::Near { post } => near_member(alloc, board, post, names),
        AskKind::Choice => choice_member(alloc, board, ask.text()),
        AskKind::Choose => choose_member(alloc, board, names),
        AskKind::Groups => groups_member(alloc, board),
        AskKind::Changes => changes_member(alloc, floor),
        AskKind::Graph => graph_member(alloc, board),
        AskKind::Json => board_member(alloc, floor.published_count(), board),
        AskKind::Dump => dump_member(alloc, form, floor),
        AskKind::Find { .. } => flag_member(alloc, "find", true),
        AskKind::Checkpoint => flag_member(alloc, "checkpoint", true),
        AskKind::Help => text_member(alloc, "help", help()),
        AskKind::Quit => flag_member(alloc, "quit", true),
        AskKind::Unfit => text_member(alloc, "refused", "Words"),
    }
}
