//! Answers lines that ask, of the board that a floor publishes.

ghost use Rattle.std.specs.Prelude.{◌≡◌, ◌++◌, [], map, string_bytes, IfOk, OnOk};
ghost use Rattle.std.specs.List.{flat_map};
ghost use Rattle.cq_board.specs.Named.{matched_named};
ghost use Rattle.cq_render.specs.Report.{block_of};
ghost use Rattle.cq_render.specs.Explain.{ArePieces, IsNearTold};
ghost use Rattle.cq_render.specs.Data.{standing_word};
ghost use Rattle.cq_ask.specs.Answer.{published_pool, changes, status_line, absent_line, absent_lines, help_text, IsWhyTold, IsNearAnswer, IsVerdict, verdict_line, IsChoiceTold, IsSoughtAnswer, IsTold, ending};
ghost use Rattle.cq_ask.specs.Choices.{choice_words};

use crate::ask::{Ask, AskKind};
use crate::changing::put_last_changes;
use crate::choices::{ChoiceFault, choice_words, read_choices};
use crate::counts::{count_parts, counts_of, parts_text};
use cq_atom::Name;
use cq_board::Board;
use cq_desk::Floor;
use cq_going::{MOST_STEPS, groups, tell_choice};
use cq_render::{Extent, dump, explain_these, graph, json, near, put_block};
use cq_text::Form;
use std::alloc::{AllocError, Allocator};

/// A floor over a board.
type BoardFloor<A> = Floor<Board<A>, A>;

/// The answer to words that do not fit.
const UNFIT: &str = "refused Words\n";

pub(crate) fn standing_word(matched: Option<bool>) -> &'static str
    ensures { result.now ≡ standing_word matched }
{
    match matched {
        None => "absent",
        Some(true) => "matched",
        Some(false) => "waiting",
    }
}

fn put_status<A: Allocator + Copy>(
    board: &Board<A>,
    name: &Name<A>,
    page: &mut String<A>,
) -> Result<(), AllocError>
    ensures { OnOk result (string_bytes page.new ≡ string_bytes page.old ++ status_line board.now name.now) }
{
    let text = name.as_str();
    let word = standing_word(board.is_matched(name));
    write!(page, "{text} {word}\n")
}

/// Appends a line for each of these names: matched, waiting or absent.
fn put_statuses<A: Allocator + Copy>(
    board: &Board<A>,
    names: &[Name<A>],
    page: &mut String<A>,
) -> Result<(), AllocError>
    ensures { OnOk result (string_bytes page.new ≡ string_bytes page.old ++ flat_map (status_line board.now) names.now) }
{
    for name in names {
        put_status(board, name, page)?;
    }
    Ok(())
}

/// Appends a line if no query is pending under the name.
fn put_if_absent<A: Allocator + Copy>(
    board: &Board<A>,
    name: &Name<A>,
    page: &mut String<A>,
) -> Result<(), AllocError>
    ensures { OnOk result (string_bytes page.new ≡ string_bytes page.old ++ absent_line name.now (matched_named name.now board.now)) }
{
    if board.is_matched(name).is_some() {
        return Ok(());
    }
    let text = name.as_str();
    write!(page, "{text} is absent\n")
}

/// Appends a line for each of the names under which no query is pending.
fn put_absent<A: Allocator + Copy>(
    board: &Board<A>,
    names: &[Name<A>],
    page: &mut String<A>,
) -> Result<(), AllocError>
    ensures { OnOk result (string_bytes page.new ≡ string_bytes page.old ++ absent_lines board.now names.now) }
{
    for name in names {
        put_if_absent(board, name, page)?;
    }
    Ok(())
}

/// Appends the blocks of the queries of these names.
fn put_blocks<A: Allocator + Copy>(
    alloc: A,
    board: &Board<A>,
    names: &[Name<A>],
    page: &mut String<A>,
) -> Result<(), AllocError>
    ensures { OnOk result (string_bytes page.new ≡ string_bytes page.old ++ flat_map (block_of board.now) names.now) }
{
    for name in names {
        put_block(alloc, board, name.as_str(), page)?;
    }
    Ok(())
}

fn status_text<A: Allocator + Copy>(
    alloc: A,
    board: &Board<A>,
    names: &[Name<A>],
) -> Result<String<A>, AllocError>
    ensures { IfOk result (λ text. string_bytes text ≡ flat_map (status_line board.now) names.now) }
{
    let mut page = String::new(alloc);
    put_statuses(board, names, &mut page)?;
    Ok(page)
}

fn query_text<A: Allocator + Copy>(
    alloc: A,
    board: &Board<A>,
    names: &[Name<A>],
) -> Result<String<A>, AllocError>
    ensures { IfOk result (λ text. string_bytes text ≡ flat_map (block_of board.now) names.now ++ absent_lines board.now names.now) }
{
    let mut page = String::new(alloc);
    put_blocks(alloc, board, names, &mut page)?;
    put_absent(board, names, &mut page)?;
    Ok(page)
}

/// The names as words.
fn words_of<A: Allocator>(alloc: A, names: &[Name<A>]) -> Result<Vec<&str, A>, AllocError>
    ensures { IfOk result (λ words. map (λ word. word.now) words.items ≡ names.now) }
{
    let mut words = Vec::with_capacity(alloc, names.len())?;
    for name in names {
        words.push(name.as_str())?;
    }
    Ok(words)
}

fn explain_text<A: Allocator + Copy>(
    alloc: A,
    board: &Board<A>,
    names: &[Name<A>],
) -> Result<String<A>, AllocError>
    ensures { IfOk result (λ text. IsWhyTold board.now names.now (string_bytes text)) }
{
    let words = words_of(alloc, names)?;
    let mut page = explain_these(alloc, board, Extent::All, &words)?;
    put_absent(board, names, &mut page)?;
    Ok(page)
}

/// Appends to an empty page the heads that are nearest to this postcondition of the queries of these names.
fn put_nears<A: Allocator + Copy>(
    alloc: A,
    board: &Board<A>,
    post: u8,
    names: &[Name<A>],
    page: &mut String<A>,
) -> Result<(), AllocError>
    ensures { string_bytes page.old ≡ [] → OnOk result (ArePieces (λ name. IsNearTold board.now.pending name post) names.now (string_bytes page.new)) }
{
    for name in names {
        let text = near(alloc, board, name, post)?;
        page.push_str(text.as_str())?;
    }
    Ok(())
}

fn near_text<A: Allocator + Copy>(
    alloc: A,
    board: &Board<A>,
    post: u8,
    names: &[Name<A>],
) -> Result<String<A>, AllocError>
    ensures { IfOk result (λ text. IsNearAnswer board.now post names.now (string_bytes text)) }
{
    let mut page = String::new(alloc);
    put_nears(alloc, board, post, names, &mut page)?;
    put_absent(board, names, &mut page)?;
    Ok(page)
}

/// Returns whether the words denote choices that coordinate, or nothing if they denote none.
pub(crate) fn verdict<A: Allocator + Copy>(
    alloc: A,
    board: &Board<A>,
    words: &[&[u8]],
) -> Result<Option<bool>, AllocError>
    ensures { IfOk result (λ verdict. IsVerdict board.now (map (λ word. word.now) words.now) verdict) }
{
    if words.is_empty() {
        return Ok(None);
    }
    match read_choices(alloc, words) {
        Ok(choices) => Ok(Some(board.check_choice(&choices))),
        Err(ChoiceFault::Bad { place: _ }) => Ok(None),
        Err(ChoiceFault::NoMemory) => Err(AllocError),
    }
}

fn verdict_line(verdict: Option<bool>) -> &'static str
    ensures { result.now ≡ verdict_line verdict }
{
    match verdict {
        Some(true) => "coordinating\n",
        Some(false) => "not coordinating\n",
        None => UNFIT,
    }
}

fn choice_text<A: Allocator + Copy>(
    alloc: A,
    board: &Board<A>,
    choices: &[u8],
) -> Result<String<A>, AllocError>
    ensures { IfOk result (λ text. IsChoiceTold board.now (choice_words choices.now) (string_bytes text)) }
{
    let words = choice_words(alloc, choices)?;
    let verdict = verdict(alloc, board, &words)?;
    String::from_str(alloc, verdict_line(verdict))
}

/// Returns the text about a coordinating choice that includes these queries.
fn choose_text<A: Allocator + Copy>(
    alloc: A,
    board: &Board<A>,
    names: &[Name<A>],
) -> Result<String<A>, AllocError>
    ensures { IfOk result (λ text. IsSoughtAnswer board.now names.now (string_bytes text)) }
{
    let told = tell_choice(alloc, board, names, MOST_STEPS)?;
    Ok(told.text)
}

fn changes_text<A: Allocator + Copy>(
    alloc: A,
    floor: &BoardFloor<A>,
) -> Result<String<A>, AllocError>
    ensures { IfOk result (λ text. string_bytes text ≡ changes floor.now.earlier (published_pool floor.now)) }
{
    let mut page = String::new(alloc);
    put_last_changes(floor, &mut page)?;
    Ok(page)
}

/// Which lines ask.
pub(crate) fn help() -> &'static str
    ensures { result.now ≡ help_text }
{
    "count                queries, rows and entries\nstatus NAME..        whether queries are matched, waiting or absent\nquery NAME           its block of the report\nexplain [NAME..]     why queries wait\nnear NAME POST       which heads nearly supply a postcondition\nchoice CHOICE..      whether a choice coordinates, as in choice a(1) b(1)\nchoose [NAME..]      a coordinating choice that has the queries\ngroups               groups of queries, and whether each can go\nchanges              queries that came, went or turned at the last publish\ngraph                who can supply whom, for Graphviz\njson                 the board as JSON\ndump                 a script that makes the board\nfind BODY [first N]  groundings of a body, as in find F(x, Paris) first 3\ncheckpoint           begins a new journal over what is published\nhelp                 these lines\nquit                 ends; no later line is answered\nAll other lines are those of a script.\n"
}

/// Returns the text that ends an answer to a question of this kind.
pub fn ending(kind: AskKind) -> &'static str
    ensures { result.now ≡ ending kind }
{
    match kind {
        AskKind::Count
        | AskKind::Choice
        | AskKind::Find { .. }
        | AskKind::Checkpoint
        | AskKind::Quit
        | AskKind::Unfit => "",
        AskKind::Json => "\n",
        AskKind::Status
        | AskKind::Query
        | AskKind::Explain
        | AskKind::Near { .. }
        | AskKind::Choose
        | AskKind::Groups
        | AskKind::Changes
        | AskKind::Graph
        | AskKind::Dump
        | AskKind::Help => "end\n",
    }
}

/// Returns the answer to a question about the board that the floor publishes, without its [end](ending). It takes the time of its text:
/// for `count`, `status` and `help` that of the names, for a query's block that of a walk over the board, for `changes` that of
/// [`Floor::earlier`]. The script of a `dump` is in this form. For a checkpoint, which changes the floor, and for `find`, whose groundings are written
/// one by one, the text is empty.
///
/// # Errors
/// `AllocError` if an allocation fails.
pub fn tell<A: Allocator + Copy>(
    alloc: A,
    form: Form,
    floor: &Floor<Board<A>, A>,
    ask: &Ask<A>,
) -> Result<String<A>, AllocError>
    ensures { IfOk result (λ text. IsTold form floor.now ask.now (string_bytes text)) }
{
    let board = floor.board();
    let names = ask.names();
    match ask.kind() {
        AskKind::Count => parts_text(alloc, &count_parts(&counts_of(floor))),
        AskKind::Status => status_text(alloc, board, names),
        AskKind::Query => query_text(alloc, board, names),
        AskKind::Explain => explain_text(alloc, board, names),
        AskKind::Near { post } => near_text(alloc, board, post, names),
        AskKind::Choice => choice_text(alloc, board, ask.text()),
        AskKind::Choose => choose_text(alloc, board, names),
        AskKind::Groups => groups(alloc, board, MOST_STEPS),
        AskKind::Changes => changes_text(alloc, floor),
        AskKind::Graph => graph(alloc, board),
        AskKind::Json => json(alloc, floor.published_count(), board),
        AskKind::Dump => dump(alloc, form, floor.limit(), board),
        AskKind::Help => Ok(String::from_str(alloc, help())?),
        AskKind::Find { .. } | AskKind::Checkpoint | AskKind::Quit => Ok(String::new(alloc)),
        AskKind::Unfit => Ok(String::from_str(alloc, UNFIT)?),
    }
}
