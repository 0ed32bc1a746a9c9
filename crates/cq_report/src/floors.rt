//! The floor of a script.

ghost use Rattle.std.specs.Prelude.{◌≡◌, ◌≢◌, Err, string_bytes, IfOk, OnOk, OnErr};
ghost use Rattle.cq_desk.specs.declared.event.StepFault.TheVariants.{NoMemory};
ghost use Rattle.cq_desk.specs.declared.event.Event.TheVariants.{Look};
ghost use Rattle.cq_desk.specs.Standing.{checkpointed, replied};
ghost use Rattle.cq_render.specs.Report.{report};
ghost use Rattle.cq_report.specs.declared.stage.Stage.TheVariants.{Serving};
ghost use Rattle.cq_report.specs.Machine.{opened, after, outcome, board_page};
ghost use Rattle.cq_report.specs.Reply.{event_outcome, fault_outcome};
ghost use Rattle.cq_report.specs.Steps.Turns.{turn_after};

use crate::numbering::Numbering;
use crate::outcome::{Outcome, Turn};
use crate::refusal::Refusal;
use crate::setup::Setup;
use cq_board::{Board, Why};
use cq_desk::{Floor, Reply, StepFault};
use cq_render::{json, put_report};
use std::alloc::{AllocError, Allocator};

/// A floor over a board.
pub(crate) type BoardFloor<A> = Floor<Board<A>, A>;

/// How many sessions a script has.
const SESSIONS: usize = 1;

/// The number of its one session.
pub(crate) const SESSION: usize = 0;

/// Returns the floor that the setup opens. There may be one session, so a floor that does not begin is out of
/// memory.
pub(crate) fn open<A: Allocator + Copy>(
    alloc: A,
    setup: Setup<A>,
) -> Result<BoardFloor<A>, AllocError>
    ensures { IfOk result (λ floor. floor ≡ opened setup) }
{
    let (catalog, limits) = setup.into_parts();
    let board = Board::begin(alloc, catalog, limits)?;
    match Floor::begin(alloc, board, limits.journal, SESSIONS) {
        Ok(floor) => Ok(floor),
        Err(_) => Err(AllocError),
    }
}

/// Returns the report on a board.
fn report_page<A: Allocator + Copy>(alloc: A, board: &Board<A>) -> Result<String<A>, AllocError>
    ensures { IfOk result (λ page. string_bytes page ≡ report board.now) }
{
    let mut page = String::new(alloc);
    put_report(alloc, board, &mut page)?;
    Ok(page)
}

/// Returns the page of a look at a board after that many entries.
fn board_page<A: Allocator + Copy>(
    alloc: A,
    numbering: Numbering,
    count: u64,
    board: &Board<A>,
) -> Result<String<A>, AllocError>
    ensures { IfOk result (λ page. string_bytes page ≡ board_page numbering count board.now) }
{
    match numbering {
        Numbering::Json => json(alloc, count, board),
        Numbering::Plain | Numbering::Numbered => report_page(alloc, board),
    }
}

/// Shows the board to the session. The page is made before the session looks.
pub(crate) fn look<A: Allocator + Copy>(
    alloc: A,
    numbering: Numbering,
    floor: &mut BoardFloor<A>,
) -> Result<Turn<A>, AllocError>
    ensures state { IfOk result (λ turn. floor.new ≡ after floor.old (Look 0)) }
    ensures turn { IfOk result (λ turn. turn ≡ turn_after numbering (Serving (after floor.old (Look 0)), outcome floor.old (Look 0))) }
    ensures err { OnErr result (floor.new ≡ floor.old) }
{
    if floor.seen(SESSION).is_none() {
        return Ok(Turn::plain(alloc, Outcome::Silent));
    }
    let count = floor.published_count();
    let page = board_page(alloc, numbering, count, floor.board())?;
    let _count = floor.look(SESSION);
    Ok(Turn::of_text(Outcome::Shown(count), page))
}

/// Returns the outcome of an event that has no answer, unless an allocation failed.
fn unanswered(fault: StepFault) -> Result<Outcome, AllocError>
    ensures outcome { IfOk result (λ outcome. outcome ≡ fault_outcome fault) }
    ensures some { OnOk result (fault ≢ NoMemory) }
    ensures none { OnErr result (fault ≡ NoMemory) }
{
    match fault {
        StepFault::NoMemory => Err(AllocError),
        StepFault::Unpublished => Ok(Outcome::Refused(Refusal::Unpublished)),
        StepFault::NoSession | StepFault::Ahead => Ok(Outcome::Silent),
    }
}

/// Returns the outcome of an edit that the session enters. The session exists, so an edit without a reply is out of memory.
pub(crate) fn entered(reply: Result<Reply<Why>, StepFault>) -> Result<Outcome, AllocError>
    ensures outcome { IfOk result (λ outcome. outcome ≡ event_outcome (replied reply)) }
    ensures some { OnOk result (reply ≢ Err NoMemory) }
    ensures none { OnErr result (reply ≡ Err NoMemory) }
{
    match reply {
        Ok(reply) => Ok(Outcome::of_reply(&reply)),
        Err(fault) => unanswered(fault),
    }
}

/// Returns the outcome of a checkpoint, unless an allocation failed.
pub(crate) fn checkpointed(count: Result<u64, StepFault>) -> Result<Outcome, AllocError>
    ensures outcome { IfOk result (λ outcome. outcome ≡ event_outcome (checkpointed count)) }
    ensures some { OnOk result (count ≢ Err NoMemory) }
    ensures none { OnErr result (count ≡ Err NoMemory) }
{
    match count {
        Ok(count) => Ok(Outcome::Checkpointed(count)),
        Err(fault) => unanswered(fault),
    }
}
