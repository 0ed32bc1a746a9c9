//! Answers to `find`, grounding by grounding.

ghost use Rattle.std.specs.Prelude.{◌≡◌, ◌<◌, ◌++◌, ◌^◌, true, false, map, option_map, string_bytes, IfErr, IfOk, OnErr, OnOk};
ghost use Rattle.cq_ask.specs.Answer.{published_pool};
ghost use Rattle.cq_ask.specs.Find.{wanted};
ghost use Rattle.cq_devices.specs.declared.stop.Stop.TheVariants.{Write};
ghost use Rattle.cq_ground.specs.Finder.{Gives};
ghost use Rattle.cq_ground.specs.Grounding.{groundings_of};
ghost use Rattle.cq_report.specs.declared.numbering.Numbering.TheVariants.{Json};
ghost use Rattle.cq_report.specs.Find.{IsFindTold, IsFound, find_head, find_piece, find_pieces, find_tail, place_of};
ghost use Rattle.cq_report.specs.Machine.{serving_of};
ghost use Rattle.cq_report.specs.Steps.Finds.{BreaksReply, IsFindOf, IsFoundAfter, IsNoSearch, IsSearch, PutsFound, PutsReply, answer_end, answer_front, end_after, is_enough, one_less};
ghost use Rattle.cq_report.specs.Steps.Written.{Breaks, Puts};

use crate::floors::{BoardFloor, open};
use crate::numbering::Numbering;
use crate::outcome::{Outcome, Turn};
use crate::output::Output;
use crate::refusal::Refusal;
use crate::said::Said;
use crate::setup::Setup;
use crate::stage::Stage;
use cq_ask::{
    Ask, AskKind, Search, fault_place, found_line, found_text, read_find, variables_text,
};
use cq_atom::{Query, Value};
use cq_board::Board;
use cq_devices::{Failed, Sink};
use cq_ground::Finder;
use cq_text::{Command, Form, TextFault};
use std::alloc::{AllocError, Allocator};

// ---- what is asked

/// Returns the question, if the line asks for groundings.
pub(crate) fn find_of<A: Allocator + Copy>(said: &Said<Ask<A>, Command<A>>) -> Option<&Ask<A>>
    ensures { IsFindOf (option_map (λ ask. ask.now) result) said.now }
{
    let Said::Asks(ask) = said else {
        return None;
    };
    if ask.is_find() { Some(ask) } else { None }
}

/// Returns the byte of the line at which the body begins.
fn place_of(kind: AskKind) -> usize
    ensures { result ≡ place_of kind }
{
    match kind {
        AskKind::Find { place } => place,
        _ => 0,
    }
}

/// Reads what the line asks for, or returns why the line is refused.
fn search_of<A: Allocator + Copy>(
    alloc: A,
    form: Form,
    board: &Board<A>,
    place: usize,
    text: &[u8],
) -> Result<Result<Search<A>, Refusal>, AllocError>
    ensures found { IfOk result (λ read. IfOk read (λ search. IsSearch form board.now text.now search)) }
    ensures refused { IfOk result (λ read. IfErr read (λ refusal. IsNoSearch form board.now place text.now refusal)) }
{
    match read_find(alloc, form, text) {
        Ok(search) => match board.body_why(search.query()) {
            None => Ok(Ok(search)),
            Some(why) => Ok(Err(Refusal::Pool(why))),
        },
        Err(TextFault::At { kind, offset }) => {
            let at = fault_place(place, offset);
            Ok(Err(Refusal::Text { kind, at }))
        }
        Err(TextFault::NoMemory) => Err(AllocError),
    }
}

// ---- pieces of the answer

/// Returns what comes before the groundings.
fn head_of<A: Allocator + Copy>(
    alloc: A,
    numbering: Numbering,
    query: &Query<A>,
) -> Result<String<A>, AllocError>
    ensures { IfOk result (λ text. string_bytes text ≡ find_head numbering query.now) }
{
    match numbering {
        Numbering::Json => variables_text(alloc, query),
        Numbering::Plain | Numbering::Numbered => Ok(String::new(alloc)),
    }
}

/// Returns a grounding as JSON, with a comma before it.
fn next_text<A: Allocator + Copy>(alloc: A, values: &[&Value<A>]) -> Result<String<A>, AllocError>
    ensures { IfOk result (λ text. string_bytes text ≡ find_piece Json false (map (λ value. value.now) values.now)) }
{
    let text = found_text(alloc, values)?;
    let text = text.as_str();
    format!(in alloc; ",{text}")
}

/// Returns a grounding in a line, or as JSON with a comma before it unless it is the first.
fn piece_of<A: Allocator + Copy>(
    alloc: A,
    numbering: Numbering,
    is_first: bool,
    values: &[&Value<A>],
) -> Result<String<A>, AllocError>
    ensures { IfOk result (λ text. string_bytes text ≡ find_piece numbering is_first (map (λ value. value.now) values.now)) }
{
    match (numbering, is_first) {
        (Numbering::Json, true) => found_text(alloc, values),
        (Numbering::Json, false) => next_text(alloc, values),
        (Numbering::Plain | Numbering::Numbered, _) => found_line(alloc, values),
    }
}

/// Returns what comes after the groundings: after all of them, or after some if an allocation failed.
fn tail_of(numbering: Numbering, is_whole: bool) -> &'static str
    ensures { result.now ≡ find_tail numbering ++ end_after is_whole numbering }
{
    match (numbering, is_whole) {
        (Numbering::Json, true) => "]}",
        (Numbering::Json, false) => "]},\"refused\":\"Memory\"",
        (Numbering::Plain | Numbering::Numbered, true) => "end\n",
        (Numbering::Plain | Numbering::Numbered, false) => "refused Memory\n",
    }
}

/// Returns what comes after an answer.
fn end_of(numbering: Numbering) -> &'static str
    ensures { result.now ≡ answer_end numbering }
{
    match numbering {
        Numbering::Json => "}\n",
        Numbering::Plain | Numbering::Numbered => "",
    }
}

// ---- groundings

/// Returns how many groundings are wanted after one more, if a number is wanted.
fn one_less(left: Option<u64>) -> Option<u64>
    ensures { result ≡ one_less left }
{
    match left {
        Some(left) => Some(left.saturating_sub(1)),
        None => None,
    }
}

/// Returns true if no more groundings are wanted.
fn is_enough(left: Option<u64>) -> bool
    ensures { result ≡ is_enough left }
{
    match left {
        Some(left) => left == 0,
        None => false,
    }
}

/// Finds the next grounding. Returns false if there is none, or no more are wanted.
fn find_next<A: Allocator>(left: Option<u64>, finder: &mut Finder<'_, A>) -> bool
    ensures { Gives result finder.new.values (wanted (one_less left) finder.new.to_come) (wanted left finder.old.to_come) }
{
    if is_enough(left) {
        return false;
    }
    finder.advance()
}

/// Puts groundings, as many as are wanted. Returns false if an allocation fails; some first ones are put then.
fn put_found<W: Sink, A: Allocator + Copy>(
    alloc: A,
    numbering: Numbering,
    most: Option<u64>,
    finder: &mut Finder<'_, A>,
    output: &mut Output<'_, W, A>,
) -> Result<bool, Failed>
    requires { W.write_failures output.old.sink.now < 2 ^ 62 }
    ensures ok { IfOk result (λ is_whole. PutsFound W.taken W.write_failures numbering output.old output.new (wanted most finder.old.to_come) is_whole) }
    ensures err { OnErr result (Breaks W.taken W.write_failures output.old output.new (find_pieces numbering true (wanted most finder.old.to_come)) Write) }
{
    let mut left = most;
    let mut is_first = true;
    while find_next(left, finder) {
        let Ok(text) = piece_of(alloc, numbering, is_first, finder.values()) else {
            return Ok(false);
        };
        output.put(text.as_str().as_bytes())?;
        is_first = false;
        left = one_less(left);
    }
    Ok(true)
}

// ---- the answer

/// Puts what comes before an answer to a line after that many others.
fn put_front<W: Sink, A: Allocator>(
    numbering: Numbering,
    before: u128,
    output: &mut Output<'_, W, A>,
) -> Result<(), Failed>
    requires before { before < 2 ^ 100 }
    requires failures { W.write_failures output.old.sink.now < 2 ^ 62 }
    ensures ok { OnOk result (Puts W.taken W.write_failures output.old output.new (answer_front numbering before)) }
    ensures err { OnErr result (Breaks W.taken W.write_failures output.old output.new (answer_front numbering before) Write) }
{
    match numbering {
        Numbering::Plain => output.put(b""),
        Numbering::Numbered => output.put_part("", Some(before + 1), ": "),
        Numbering::Json => output.put_part("{\"line\":", Some(before + 1), ""),
    }
}

/// Puts the answer to a line after that many others: a head, the groundings that are wanted, and an end.
fn put_answer<W: Sink, A: Allocator + Copy>(
    alloc: A,
    numbering: Numbering,
    before: u128,
    head: &str,
    most: Option<u64>,
    finder: &mut Finder<'_, A>,
    output: &mut Output<'_, W, A>,
) -> Result<(), Failed>
    requires before { before < 2 ^ 100 }
    requires failures { W.write_failures output.old.sink.now < 2 ^ 62 }
    ensures ok { OnOk result (PutsReply W.taken W.write_failures numbering before (IsFoundAfter numbering head.now (wanted most finder.old.to_come)) output.old output.new) }
    ensures err { OnErr result (BreaksReply W.taken W.write_failures numbering before (IsFoundAfter numbering head.now (wanted most finder.old.to_come)) output.old output.new) }
{
    put_front(numbering, before, output)?;
    output.put(head.as_bytes())?;
    let is_whole = put_found(alloc, numbering, most, finder, output)?;
    output.put_part(tail_of(numbering, is_whole), None, end_of(numbering))
}

/// Puts the answer to a line after that many others, which asks for this. If an allocation fails before, nothing is put.
fn put_search<W: Sink, A: Allocator + Copy>(
    alloc: A,
    numbering: Numbering,
    before: u128,
    board: &Board<A>,
    search: &Search<A>,
    output: &mut Output<'_, W, A>,
) -> Result<Result<(), Failed>, AllocError>
    requires before { before < 2 ^ 100 }
    requires failures { W.write_failures output.old.sink.now < 2 ^ 62 }
    ensures ok { IfOk result (λ put. OnOk put (PutsReply W.taken W.write_failures numbering before (IsFound numbering search.now.query (wanted search.now.most (groundings_of search.now.query.body board.now.tables.rows))) output.old output.new)) }
    ensures breaks { IfOk result (λ put. OnErr put (BreaksReply W.taken W.write_failures numbering before (IsFound numbering search.now.query (wanted search.now.most (groundings_of search.now.query.body board.now.tables.rows))) output.old output.new)) }
    ensures err { OnErr result (output.new ≡ output.old) }
{
    let query = search.query();
    let head = head_of(alloc, numbering, query)?;
    let mut finder = Finder::begin(alloc, query.body(), query.variables(), board.tables())?;
    let most = search.most();
    Ok(put_answer(
        alloc,
        numbering,
        before,
        head.as_str(),
        most,
        &mut finder,
        output,
    ))
}

/// Puts the reply of a board to a line after that many others, which asks for groundings. If an allocation fails before, nothing is put.
fn put_reply_of<W: Sink, A: Allocator + Copy>(
    alloc: A,
    form: Form,
    numbering: Numbering,
    before: u128,
    board: &Board<A>,
    ask: &Ask<A>,
    output: &mut Output<'_, W, A>,
) -> Result<Result<(), Failed>, AllocError>
    requires before { before < 2 ^ 100 }
    requires failures { W.write_failures output.old.sink.now < 2 ^ 62 }
    ensures ok { IfOk result (λ put. OnOk put (PutsReply W.taken W.write_failures numbering before (IsFindTold form (place_of ask.now.kind) numbering board.now ask.now.text) output.old output.new)) }
    ensures breaks { IfOk result (λ put. OnErr put (BreaksReply W.taken W.write_failures numbering before (IsFindTold form (place_of ask.now.kind) numbering board.now ask.now.text) output.old output.new)) }
    ensures err { OnErr result (output.new ≡ output.old) }
{
    let place = place_of(ask.kind());
    match search_of(alloc, form, board, place, ask.text())? {
        Ok(search) => put_search(alloc, numbering, before, board, &search, output),
        Err(refusal) => {
            let turn = Turn::plain(alloc, Outcome::Refused(refusal));
            Ok(output.put_reply(numbering, before, &turn))
        }
    }
}

/// Puts the reply to a line after that many others, which asks for groundings of the published board. A setup opens a floor for it, and drops it.
/// If an allocation fails before, nothing is put.
pub(crate) fn put_find<W: Sink, A: Allocator + Copy>(
    alloc: A,
    form: Form,
    numbering: Numbering,
    before: u128,
    stage: &Stage<Setup<A>, BoardFloor<A>>,
    ask: &Ask<A>,
    output: &mut Output<'_, W, A>,
) -> Result<Result<(), Failed>, AllocError>
    requires before { before < 2 ^ 100 }
    requires failures { W.write_failures output.old.sink.now < 2 ^ 62 }
    ensures ok { IfOk result (λ put. OnOk put (PutsReply W.taken W.write_failures numbering before (IsFindTold form (place_of ask.now.kind) numbering (published_pool (serving_of stage.now)) ask.now.text) output.old output.new)) }
    ensures breaks { IfOk result (λ put. OnErr put (BreaksReply W.taken W.write_failures numbering before (IsFindTold form (place_of ask.now.kind) numbering (published_pool (serving_of stage.now)) ask.now.text) output.old output.new)) }
    ensures err { OnErr result (output.new ≡ output.old) }
{
    match stage {
        Stage::Setup(setup) => {
            let floor = open(alloc, setup.copy()?)?;
            put_reply_of(alloc, form, numbering, before, floor.board(), ask, output)
        }
        Stage::Serving(floor) => {
            let board = floor.board();
            put_reply_of(alloc, form, numbering, before, board, ask, output)
        }
    }
}
