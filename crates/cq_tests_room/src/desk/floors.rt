//! Floors over a tally and over a board.

use crate::desk::desks;
use crate::lines::Line;
use crate::states::{Shared, Sight};
use crate::tally::{Full, Tally};
use cq_board::{Board, Why, published_board, working_board};
use cq_desk::{
    Answer, Event, Floor, FloorFault, Live, ReopenFault, Reply, StepFault,
    checkpoints_lose_nothing, looks_never_fall,
};
use cq_refusing::{Outcome, Tried, refusals};
use std::alloc::{Allocator, Global};

/// What is done on a floor, by the session of that number.
enum Turn<Q> {
    Enter(usize, Q),
    Publish,
    Look(usize),
    /// It hears of so many entries.
    Hear(usize, u64),
    Checkpoint,
}

type Told<W> = Result<Answer<W>, StepFault>;

/// What is done, what is answered to it, what the working state and the published one show then, and how many entries each
/// session has seen.
type Step<Q, W> = (Turn<Q>, Told<W>, Sight, Sight, &'static [u64]);

fn event<L: Shared<A>, A: Allocator + Copy>(
    alloc: A,
    turn: &Turn<L::Asked>,
) -> Option<Event<L::Edit>> {
    match turn {
        Turn::Enter(author, asked) => Some(Event::Enter {
            author: *author,
            edit: L::edit(alloc, asked)?,
        }),
        Turn::Publish => Some(Event::Publish),
        Turn::Look(session) => Some(Event::Look { session: *session }),
        Turn::Hear(session, count) => Some(Event::Hear {
            session: *session,
            count: *count,
        }),
        Turn::Checkpoint => Some(Event::Checkpoint),
    }
}

fn told<L: Shared<A>, A: Allocator + Copy>(
    alloc: A,
    floor: &mut Floor<L, A>,
    turn: &Turn<L::Asked>,
) -> Told<L::Why> {
    match event::<L, A>(alloc, turn) {
        Some(event) => floor.step(event),
        None => Err(StepFault::NoMemory),
    }
}

/// Whether that is told.
fn is_told<L: Shared<A>, A: Allocator + Copy>(told: &Told<L::Why>, wanted: &Told<L::Why>) -> bool {
    match (told, wanted) {
        (Ok(answer), Ok(wanted)) => L::is_answer(answer, wanted),
        (Err(fault), Err(wanted)) => *fault == *wanted,
        _ => false,
    }
}

/// Whether the sessions have seen so many entries, and there are no others.
fn have_seen<L: Live, A: Allocator + Copy>(floor: &Floor<L, A>, seen: &[u64]) -> bool {
    for (session, count) in seen.iter().enumerate() {
        if floor.seen(session) != Some(*count) {
            return false;
        }
    }
    floor.seen(seen.len()).is_none()
}

/// Whether the floor stands as it is to after the step.
fn stands<L: Shared<A>, A: Allocator + Copy>(
    floor: &Floor<L, A>,
    step: &Step<L::Asked, L::Why>,
) -> bool {
    let (_, _, working, published, seen) = step;
    floor.working().shows(*working) && floor.board().shows(*published) && have_seen(floor, seen)
}

/// Whether the floor stands as it is to before the step at that place.
fn stands_before<L: Shared<A>, A: Allocator + Copy>(
    floor: &Floor<L, A>,
    steps: &[Step<L::Asked, L::Why>],
    place: usize,
) -> bool {
    match place.checked_sub(1) {
        Some(last) => match steps.get(last) {
            Some(step) => stands(floor, step),
            None => false,
        },
        None => floor.journal().is_empty() && floor.published_count() == 0,
    }
}

/// What comes of the step.
fn stepped<L: Shared<A>, A: Allocator + Copy>(
    alloc: A,
    floor: &mut Floor<L, A>,
    step: &Step<L::Asked, L::Why>,
) -> Outcome {
    let (turn, wanted, _, _, _) = step;
    match told(alloc, floor, turn) {
        Err(StepFault::NoMemory) => Outcome::Refused,
        told => Outcome::done_if(is_told::<L, A>(&told, wanted) && stands(floor, step)),
    }
}

/// The place of the first step that comes out otherwise, and whether one was refused an allocation. That one changes nothing, and then succeeds.
fn other_step<L: Shared<A>, A: Allocator + Copy>(
    alloc: A,
    floor: &mut Floor<L, A>,
    steps: &[Step<L::Asked, L::Why>],
) -> (Option<usize>, bool) {
    let mut refused = false;
    for (place, step) in steps.iter().enumerate() {
        let mut outcome = stepped(alloc, floor, step);
        if outcome == Outcome::Refused && stands_before(floor, steps, place) {
            refused = true;
            outcome = stepped(alloc, floor, step);
        }
        if outcome != Outcome::Done {
            return (Some(place), refused);
        }
    }
    (None, refused)
}

/// A floor over such a state.
fn floor_over<L: Shared<A>, A: Allocator + Copy>(
    alloc: A,
    pool: usize,
    journal: usize,
    sessions: usize,
) -> Result<Floor<L, A>, FloorFault> {
    match L::begun(alloc, pool) {
        Some(state) => Floor::begin(alloc, state, journal, sessions),
        None => Err(FloorFault::NoMemory),
    }
}

/// The place of the first step that comes out otherwise on such a floor.
fn other_of<L: Shared<Global>>(
    alloc: Global,
    pool: usize,
    journal: usize,
    sessions: usize,
    steps: &[Step<L::Asked, L::Why>],
) -> Result<Option<usize>, FloorFault> {
    let mut floor = floor_over::<L, Global>(alloc, pool, journal, sessions)?;
    let (other, _) = other_step(alloc, &mut floor, steps);
    Ok(other)
}

/// Two sessions see apart from each other, and a look shows no more than is published.
const APART: &[Step<u8, Full>] = &[
    (
        Turn::Enter(1, 5),
        Ok(Answer::Replied(Reply::Entered(1))),
        Sight::Bytes(&[5]),
        Sight::Bytes(&[]),
        &[0, 0],
    ),
    (
        Turn::Publish,
        Ok(Answer::Published(1)),
        Sight::Bytes(&[5]),
        Sight::Bytes(&[5]),
        &[0, 0],
    ),
    (
        Turn::Enter(0, 6),
        Ok(Answer::Replied(Reply::Entered(2))),
        Sight::Bytes(&[5, 6]),
        Sight::Bytes(&[5]),
        &[0, 0],
    ),
    (
        Turn::Look(1),
        Ok(Answer::Looked(1)),
        Sight::Bytes(&[5, 6]),
        Sight::Bytes(&[5]),
        &[0, 1],
    ),
    (
        Turn::Hear(0, 2),
        Err(StepFault::Ahead),
        Sight::Bytes(&[5, 6]),
        Sight::Bytes(&[5]),
        &[0, 1],
    ),
    (
        Turn::Hear(0, 1),
        Ok(Answer::Heard(1)),
        Sight::Bytes(&[5, 6]),
        Sight::Bytes(&[5]),
        &[1, 1],
    ),
    (
        Turn::Hear(1, 0),
        Ok(Answer::Heard(1)),
        Sight::Bytes(&[5, 6]),
        Sight::Bytes(&[5]),
        &[1, 1],
    ),
];

/// The tests in their order: the session, the count that is heard, the journal's limit, which is met before the state's.
const FULL_JOURNAL: &[Step<u8, Full>] = &[
    (
        Turn::Hear(1, 7),
        Err(StepFault::NoSession),
        Sight::Bytes(&[]),
        Sight::Bytes(&[]),
        &[0],
    ),
    (
        Turn::Enter(0, 1),
        Ok(Answer::Replied(Reply::Entered(1))),
        Sight::Bytes(&[1]),
        Sight::Bytes(&[]),
        &[0],
    ),
    (
        Turn::Enter(0, 2),
        Ok(Answer::Replied(Reply::Entered(2))),
        Sight::Bytes(&[1, 2]),
        Sight::Bytes(&[]),
        &[0],
    ),
    (
        Turn::Enter(0, 3),
        Ok(Answer::Replied(Reply::Entered(3))),
        Sight::Bytes(&[1, 2, 3]),
        Sight::Bytes(&[]),
        &[0],
    ),
    (
        Turn::Enter(1, 4),
        Err(StepFault::NoSession),
        Sight::Bytes(&[1, 2, 3]),
        Sight::Bytes(&[]),
        &[0],
    ),
    (
        Turn::Look(1),
        Err(StepFault::NoSession),
        Sight::Bytes(&[1, 2, 3]),
        Sight::Bytes(&[]),
        &[0],
    ),
    (
        Turn::Enter(0, 4),
        Ok(Answer::Replied(Reply::JournalFull)),
        Sight::Bytes(&[1, 2, 3]),
        Sight::Bytes(&[]),
        &[0],
    ),
];

/// The state's limit is met where the journal has room for more.
const FULL_STATE: &[Step<u8, Full>] = &[
    (
        Turn::Enter(0, 1),
        Ok(Answer::Replied(Reply::Entered(1))),
        Sight::Bytes(&[1]),
        Sight::Bytes(&[]),
        &[0],
    ),
    (
        Turn::Enter(0, 2),
        Ok(Answer::Replied(Reply::Entered(2))),
        Sight::Bytes(&[1, 2]),
        Sight::Bytes(&[]),
        &[0],
    ),
    (
        Turn::Enter(0, 3),
        Ok(Answer::Replied(Reply::Entered(3))),
        Sight::Bytes(&[1, 2, 3]),
        Sight::Bytes(&[]),
        &[0],
    ),
    (
        Turn::Enter(1, 4),
        Err(StepFault::NoSession),
        Sight::Bytes(&[1, 2, 3]),
        Sight::Bytes(&[]),
        &[0],
    ),
    (
        Turn::Enter(0, 4),
        Ok(Answer::Replied(Reply::Not(Full))),
        Sight::Bytes(&[1, 2, 3]),
        Sight::Bytes(&[]),
        &[0],
    ),
];

/// Numbers continue over checkpoints, and the journal's limit counts from the last one.
const LASTS: &[Step<u8, Full>] = &[
    (
        Turn::Enter(0, 1),
        Ok(Answer::Replied(Reply::Entered(1))),
        Sight::Bytes(&[1]),
        Sight::Bytes(&[]),
        &[0],
    ),
    (
        Turn::Enter(0, 2),
        Ok(Answer::Replied(Reply::Entered(2))),
        Sight::Bytes(&[1, 2]),
        Sight::Bytes(&[]),
        &[0],
    ),
    (
        Turn::Enter(0, 3),
        Ok(Answer::Replied(Reply::JournalFull)),
        Sight::Bytes(&[1, 2]),
        Sight::Bytes(&[]),
        &[0],
    ),
    (
        Turn::Checkpoint,
        Err(StepFault::Unpublished),
        Sight::Bytes(&[1, 2]),
        Sight::Bytes(&[]),
        &[0],
    ),
    (
        Turn::Publish,
        Ok(Answer::Published(2)),
        Sight::Bytes(&[1, 2]),
        Sight::Bytes(&[1, 2]),
        &[0],
    ),
    (
        Turn::Checkpoint,
        Ok(Answer::Checkpointed(2)),
        Sight::Bytes(&[1, 2]),
        Sight::Bytes(&[1, 2]),
        &[0],
    ),
    (
        Turn::Look(0),
        Ok(Answer::Looked(2)),
        Sight::Bytes(&[1, 2]),
        Sight::Bytes(&[1, 2]),
        &[2],
    ),
    (
        Turn::Enter(0, 3),
        Ok(Answer::Replied(Reply::Entered(3))),
        Sight::Bytes(&[1, 2, 3]),
        Sight::Bytes(&[1, 2]),
        &[2],
    ),
    (
        Turn::Enter(0, 4),
        Ok(Answer::Replied(Reply::Not(Full))),
        Sight::Bytes(&[1, 2, 3]),
        Sight::Bytes(&[1, 2]),
        &[2],
    ),
    (
        Turn::Publish,
        Ok(Answer::Published(3)),
        Sight::Bytes(&[1, 2, 3]),
        Sight::Bytes(&[1, 2, 3]),
        &[2],
    ),
    (
        Turn::Checkpoint,
        Ok(Answer::Checkpointed(3)),
        Sight::Bytes(&[1, 2, 3]),
        Sight::Bytes(&[1, 2, 3]),
        &[2],
    ),
    (
        Turn::Hear(0, 4),
        Err(StepFault::Ahead),
        Sight::Bytes(&[1, 2, 3]),
        Sight::Bytes(&[1, 2, 3]),
        &[2],
    ),
    (
        Turn::Hear(0, 3),
        Ok(Answer::Heard(3)),
        Sight::Bytes(&[1, 2, 3]),
        Sight::Bytes(&[1, 2, 3]),
        &[3],
    ),
];

/// Two publishes, and a checkpoint.
const RENEWED: &[Step<u8, Full>] = &[
    (
        Turn::Enter(0, 5),
        Ok(Answer::Replied(Reply::Entered(1))),
        Sight::Bytes(&[5]),
        Sight::Bytes(&[]),
        &[0],
    ),
    (
        Turn::Publish,
        Ok(Answer::Published(1)),
        Sight::Bytes(&[5]),
        Sight::Bytes(&[5]),
        &[0],
    ),
    (
        Turn::Enter(0, 6),
        Ok(Answer::Replied(Reply::Entered(2))),
        Sight::Bytes(&[5, 6]),
        Sight::Bytes(&[5]),
        &[0],
    ),
    (
        Turn::Publish,
        Ok(Answer::Published(2)),
        Sight::Bytes(&[5, 6]),
        Sight::Bytes(&[5, 6]),
        &[0],
    ),
    (
        Turn::Checkpoint,
        Ok(Answer::Checkpointed(2)),
        Sight::Bytes(&[5, 6]),
        Sight::Bytes(&[5, 6]),
        &[0],
    ),
];

/// An edit over another state.
const REOPENED: &[Step<u8, Full>] = &[(
    Turn::Enter(0, 8),
    Ok(Answer::Replied(Reply::Entered(3))),
    Sight::Bytes(&[8]),
    Sight::Bytes(&[]),
    &[0],
)];

/// Looks before a publish and behind it, and what is heard.
const LOOKS: &[Step<Line, Why>] = &[
    (
        Turn::Look(0),
        Ok(Answer::Looked(0)),
        Sight::Queries(0),
        Sight::Queries(0),
        &[0],
    ),
    (
        Turn::Enter(0, Line::Answer),
        Ok(Answer::Replied(Reply::Entered(1))),
        Sight::Queries(1),
        Sight::Queries(0),
        &[0],
    ),
    (
        Turn::Look(0),
        Ok(Answer::Looked(0)),
        Sight::Queries(1),
        Sight::Queries(0),
        &[0],
    ),
    (
        Turn::Publish,
        Ok(Answer::Published(1)),
        Sight::Queries(1),
        Sight::Queries(1),
        &[0],
    ),
    (
        Turn::Look(0),
        Ok(Answer::Looked(1)),
        Sight::Queries(1),
        Sight::Queries(1),
        &[1],
    ),
    (
        Turn::Hear(0, 2),
        Err(StepFault::Ahead),
        Sight::Queries(1),
        Sight::Queries(1),
        &[1],
    ),
    (
        Turn::Hear(0, 0),
        Ok(Answer::Heard(1)),
        Sight::Queries(1),
        Sight::Queries(1),
        &[1],
    ),
    (
        Turn::Look(1),
        Err(StepFault::NoSession),
        Sight::Queries(1),
        Sight::Queries(1),
        &[1],
    ),
];

/// The journal's limit is met before the name that is taken.
const JOURNAL_FULL: &[Step<Line, Why>] = &[
    (
        Turn::Enter(0, Line::Answer),
        Ok(Answer::Replied(Reply::Entered(1))),
        Sight::Queries(1),
        Sight::Queries(0),
        &[0],
    ),
    (
        Turn::Enter(0, Line::Other),
        Ok(Answer::Replied(Reply::Entered(2))),
        Sight::Queries(2),
        Sight::Queries(0),
        &[0],
    ),
    (
        Turn::Enter(0, Line::Answer),
        Ok(Answer::Replied(Reply::JournalFull)),
        Sight::Queries(2),
        Sight::Queries(0),
        &[0],
    ),
    (
        Turn::Publish,
        Ok(Answer::Published(2)),
        Sight::Queries(2),
        Sight::Queries(2),
        &[0],
    ),
];

/// The pool's limit is met before the name that is taken.
const POOL_FULL: &[Step<Line, Why>] = &[
    (
        Turn::Enter(0, Line::Answer),
        Ok(Answer::Replied(Reply::Entered(1))),
        Sight::Queries(1),
        Sight::Queries(0),
        &[0],
    ),
    (
        Turn::Enter(0, Line::Answer),
        Ok(Answer::Replied(Reply::Not(Why::PoolFull))),
        Sight::Queries(1),
        Sight::Queries(0),
        &[0],
    ),
];

/// A flight to Paris and a query for one are published. Then the flight goes to Rome, which is published too.
const FLIGHT: &[Step<Line, Why>] = &[
    (
        Turn::Enter(0, Line::Paris),
        Ok(Answer::Replied(Reply::Entered(1))),
        Sight::Queries(0),
        Sight::Queries(0),
        &[0],
    ),
    (
        Turn::Enter(0, Line::Asked),
        Ok(Answer::Replied(Reply::Entered(2))),
        Sight::Grounded(true),
        Sight::Queries(0),
        &[0],
    ),
    (
        Turn::Publish,
        Ok(Answer::Published(2)),
        Sight::Grounded(true),
        Sight::Grounded(true),
        &[0],
    ),
    (
        Turn::Enter(0, Line::NoParis),
        Ok(Answer::Replied(Reply::Entered(3))),
        Sight::Grounded(false),
        Sight::Grounded(true),
        &[0],
    ),
    (
        Turn::Enter(0, Line::Rome),
        Ok(Answer::Replied(Reply::Entered(4))),
        Sight::Grounded(false),
        Sight::Grounded(true),
        &[0],
    ),
    (
        Turn::Look(0),
        Ok(Answer::Looked(2)),
        Sight::Grounded(false),
        Sight::Grounded(true),
        &[2],
    ),
    (
        Turn::Publish,
        Ok(Answer::Published(4)),
        Sight::Grounded(false),
        Sight::Grounded(false),
        &[2],
    ),
    (
        Turn::Look(0),
        Ok(Answer::Looked(4)),
        Sight::Grounded(false),
        Sight::Grounded(false),
        &[4],
    ),
];

#[test]
fn floors_over_a_tally(rt: HostRuntime) {
    for (journal, sessions, steps) in [
        (9, 2, APART),
        (3, 1, FULL_JOURNAL),
        (4, 1, FULL_STATE),
        (2, 1, LASTS),
    ] {
        let other = other_of::<Tally>(rt.alloc(), 9, journal, sessions, steps);
        assert!(rt; other == Ok(None), "{journal}: {other:?}");
    }
}

/// Whether the state before the last publish of the floor shows these bytes.
fn showed<L: Shared<A>, A: Allocator + Copy>(floor: &Floor<L, A>, bytes: &'static [u8]) -> bool {
    floor.earlier().shows(Sight::Bytes(bytes))
}

/// What comes of having the floor begin over another state.
fn reopened<L: Shared<A>, A: Allocator + Copy>(
    alloc: A,
    floor: &mut Floor<L, A>,
) -> Result<(), ReopenFault> {
    match L::begun(alloc, 9) {
        Some(state) => floor.reopen(state, 1),
        None => Err(ReopenFault::NoMemory),
    }
}

/// Whether the floor begins over another state after a checkpoint, and not after an edit.
fn begins_anew<L: Shared<Global, Asked = u8, Why = Full>>(alloc: Global) -> bool {
    checkpoints_lose_nothing::<L>();
    let Ok(mut floor) = floor_over::<L, Global>(alloc, 9, 9, 1) else {
        return false;
    };
    let (other, _) = other_step(alloc, &mut floor, RENEWED);
    let kept = other.is_none() && showed(&floor, &[5]) && floor.limit() == 9;
    let first = reopened(alloc, &mut floor);
    let limits = floor.limit() == 1 && floor.unpublished_count() == 0;
    let (other, _) = other_step(alloc, &mut floor, REOPENED);
    let second = reopened(alloc, &mut floor);
    let stays = showed(&floor, &[]) && floor.unpublished_count() == 1;
    kept && first == Ok(())
        && limits
        && other.is_none()
        && second == Err(ReopenFault::Late)
        && stays
}

#[test]
fn floors_that_begin_anew(rt: HostRuntime) {
    assert!(rt; begins_anew::<Tally>(rt.alloc()));
}

/// The published board is behind the working one.
const BEHIND: &[Step<Line, Why>] = &[
    (
        Turn::Enter(0, Line::Answer),
        Ok(Answer::Replied(Reply::Entered(1))),
        Sight::Queries(1),
        Sight::Queries(0),
        &[0],
    ),
    (
        Turn::Publish,
        Ok(Answer::Published(1)),
        Sight::Queries(1),
        Sight::Queries(1),
        &[0],
    ),
    (
        Turn::Enter(0, Line::Other),
        Ok(Answer::Replied(Reply::Entered(2))),
        Sight::Queries(2),
        Sight::Queries(1),
        &[0],
    ),
];

/// A board, of which a floor has two.
trait Counted: Shared<Global, Asked = Line, Why = Why> {
    /// How many queries the working board and the published one have.
    fn counts(floor: &Floor<Self>) -> (usize, usize);
}

impl Counted for Board {
    fn counts(floor: &Floor<Board>) -> (usize, usize) {
        (working_board(floor).len(), published_board(floor).len())
    }
}

/// Whether the published board is seen to be behind, and looks of a session and of nobody are answered by their own call.
fn is_behind<L: Counted>(alloc: Global) -> bool {
    looks_never_fall::<L>();
    match floor_over::<L, Global>(alloc, 9, 9, 1) {
        Ok(mut floor) => {
            let (other, _) = other_step(alloc, &mut floor, BEHIND);
            let looked = floor.look(0) == Some(1) && floor.look(1).is_none();
            other.is_none() && looked && L::counts(&floor) == (2, 1)
        }
        Err(_) => false,
    }
}

/// What is done with boards.
#[derive(Clone, Copy)]
enum Work {
    Desk,
    Looks,
    JournalFull,
    PoolFull,
    Flight,
    Behind,
}

/// Whether it comes out right. There is one call for all, since what is known of a board makes each such call dear to prove.
fn is_right<L: Counted>(alloc: Global, work: Work) -> bool {
    match work {
        Work::Desk => desks::is_right::<L>(alloc),
        Work::Looks => other_of::<L>(alloc, 9, 9, 1, LOOKS) == Ok(None),
        Work::JournalFull => other_of::<L>(alloc, 10, 2, 1, JOURNAL_FULL) == Ok(None),
        Work::PoolFull => other_of::<L>(alloc, 1, 9, 1, POOL_FULL) == Ok(None),
        Work::Flight => other_of::<L>(alloc, 9, 9, 1, FLIGHT) == Ok(None),
        Work::Behind => is_behind::<L>(alloc),
    }
}

#[test]
fn desks_and_floors_over_a_board(rt: HostRuntime) {
    let works = [
        Work::Desk,
        Work::Looks,
        Work::JournalFull,
        Work::PoolFull,
        Work::Flight,
        Work::Behind,
    ];
    for (place, work) in works.iter().enumerate() {
        assert!(rt; is_right::<Board>(rt.alloc(), *work), "{place}");
    }
}

/// Whether a floor with so many sessions is refused for their number.
fn is_refused<L: Shared<Global>>(alloc: Global, sessions: usize) -> bool {
    match floor_over::<L, Global>(alloc, 9, 9, sessions) {
        Ok(_) => false,
        Err(fault) => fault == FloorFault::Sessions,
    }
}

#[test]
fn sessions_from_1_to_16(rt: HostRuntime) {
    for (sessions, refused) in [(0, true), (1, false), (16, false), (17, true)] {
        assert!(rt;
            is_refused::<Tally>(rt.alloc(), sessions) == refused,
            "{sessions}"
        );
    }
}

/// Two bytes, a publish, a look, a checkpoint and a byte more, a refused edit among them.
const TURNS: &[Step<u8, Full>] = &[
    (
        Turn::Enter(0, 5),
        Ok(Answer::Replied(Reply::Entered(1))),
        Sight::Bytes(&[5]),
        Sight::Bytes(&[]),
        &[0],
    ),
    (
        Turn::Enter(9, 7),
        Err(StepFault::NoSession),
        Sight::Bytes(&[5]),
        Sight::Bytes(&[]),
        &[0],
    ),
    (
        Turn::Enter(0, 6),
        Ok(Answer::Replied(Reply::Entered(2))),
        Sight::Bytes(&[5, 6]),
        Sight::Bytes(&[]),
        &[0],
    ),
    (
        Turn::Publish,
        Ok(Answer::Published(2)),
        Sight::Bytes(&[5, 6]),
        Sight::Bytes(&[5, 6]),
        &[0],
    ),
    (
        Turn::Look(0),
        Ok(Answer::Looked(2)),
        Sight::Bytes(&[5, 6]),
        Sight::Bytes(&[5, 6]),
        &[2],
    ),
    (
        Turn::Checkpoint,
        Ok(Answer::Checkpointed(2)),
        Sight::Bytes(&[5, 6]),
        Sight::Bytes(&[5, 6]),
        &[2],
    ),
    (
        Turn::Enter(0, 8),
        Ok(Answer::Replied(Reply::Entered(3))),
        Sight::Bytes(&[5, 6, 8]),
        Sight::Bytes(&[5, 6]),
        &[2],
    ),
];

fn is_begun<L: Shared<A>, A: Allocator + Copy>(alloc: A, state: L) -> Result<bool, FloorFault> {
    let floor = Floor::begin(alloc, state, 9, 2)?;
    let right = floor.working().shows(Sight::LeftBy(0)) && floor.board().shows(Sight::LeftBy(0));
    Ok(right && have_seen(&floor, &[0, 0]))
}

/// Whether a floor over such a state begins so; `None` where the state was refused an allocation.
fn begun<L: Shared<A>, A: Allocator + Copy>(alloc: A) -> Option<Result<bool, FloorFault>> {
    let state = L::begun(alloc, 9)?;
    Some(is_begun(alloc, state))
}

struct Begin;

impl Tried for Begin {
    fn tried<A: Allocator + Copy>(alloc: A) -> Outcome {
        match begun::<Tally<A>, A>(alloc) {
            Some(Ok(right)) => Outcome::done_if(right),
            Some(Err(FloorFault::NoMemory)) => {
                Outcome::refused_if(begun::<Tally<A>, A>(alloc) == Some(Ok(true)))
            }
            Some(Err(_)) => Outcome::Wrong,
            None => Outcome::Unready,
        }
    }
}

/// What comes of steps on a floor with one session.
fn steps<L: Shared<A>, A: Allocator + Copy>(alloc: A, steps: &[Step<L::Asked, L::Why>]) -> Outcome {
    match floor_over::<L, A>(alloc, 9, 9, 1) {
        Ok(mut floor) => match other_step(alloc, &mut floor, steps) {
            (None, false) => Outcome::Done,
            (None, true) => Outcome::Refused,
            _ => Outcome::Wrong,
        },
        Err(_) => Outcome::Unready,
    }
}

struct Stepping;

impl Tried for Stepping {
    fn tried<A: Allocator + Copy>(alloc: A) -> Outcome {
        steps::<Tally<A>, A>(alloc, TURNS)
    }
}

/// The events of the steps from that place on.
fn events<L: Shared<A>, A: Allocator + Copy>(
    alloc: A,
    steps: &[Step<L::Asked, L::Why>],
    from: usize,
) -> Option<Vec<Event<L::Edit>, A>> {
    let mut events = Vec::new(alloc);
    for (turn, _, _, _, _) in steps.get(from..)? {
        events.push(event::<L, A>(alloc, turn)?).ok()?;
    }
    Some(events)
}

/// Before which step the answers end, which are those to the steps from that place on.
fn answered<L: Shared<A>, A: Allocator + Copy>(
    answers: &[Told<L::Why>],
    steps: &[Step<L::Asked, L::Why>],
    from: usize,
) -> Option<usize> {
    let mut place = from;
    for told in answers {
        let (_, wanted, _, _, _) = steps.get(place)?;
        if !is_told::<L, A>(told, wanted) {
            return None;
        }
        place = place.saturating_add(1);
    }
    Some(place)
}

/// Before which step the floor stops where it plays the events of those from that place on, where it then stands as it is to. Where it
/// stops before the end, it says so.
fn plays<L: Shared<A>, A: Allocator + Copy>(
    floor: &mut Floor<L, A>,
    events: Vec<Event<L::Edit>, A>,
    steps: &[Step<L::Asked, L::Why>],
    from: usize,
) -> Option<usize> {
    let (answers, whole) = match floor.play(events) {
        Ok(answers) => (answers, true),
        Err(answers) => (answers, false),
    };
    let place = answered::<L, A>(&answers, steps, from)?;
    if whole == (place == steps.len()) && stands_before(floor, steps, place) {
        Some(place)
    } else {
        None
    }
}

/// Whether the events from that place on are played to the end.
fn goes_on<L: Shared<A>, A: Allocator + Copy>(
    alloc: A,
    floor: &mut Floor<L, A>,
    steps: &[Step<L::Asked, L::Why>],
    from: usize,
) -> bool {
    match events::<L, A>(alloc, steps, from) {
        Some(events) => plays(floor, events, steps, from) == Some(steps.len()),
        None => false,
    }
}

/// What comes of all events: all answers, or those of a front. The rest is then played.
fn played<L: Shared<A>, A: Allocator + Copy>(
    alloc: A,
    floor: &mut Floor<L, A>,
    steps: &[Step<L::Asked, L::Why>],
) -> Outcome {
    let Some(events) = events::<L, A>(alloc, steps, 0) else {
        return Outcome::Unready;
    };
    match plays(floor, events, steps, 0) {
        Some(place) if place == steps.len() => Outcome::Done,
        Some(place) => Outcome::refused_if(goes_on(alloc, floor, steps, place)),
        None => Outcome::Wrong,
    }
}

/// The same on a floor with one session.
fn plays_all<L: Shared<A>, A: Allocator + Copy>(
    alloc: A,
    steps: &[Step<L::Asked, L::Why>],
) -> Outcome {
    match floor_over::<L, A>(alloc, 9, 9, 1) {
        Ok(mut floor) => played(alloc, &mut floor, steps),
        Err(_) => Outcome::Unready,
    }
}

struct Playing;

impl Tried for Playing {
    fn tried<A: Allocator + Copy>(alloc: A) -> Outcome {
        plays_all::<Tally<A>, A>(alloc, TURNS)
    }
}

/// A floor after two publishes and a checkpoint.
fn renewed<L: Shared<A, Asked = u8, Why = Full>, A: Allocator + Copy>(
    alloc: A,
) -> Option<Floor<L, A>> {
    let Ok(mut floor) = floor_over::<L, A>(alloc, 9, 9, 1) else {
        return None;
    };
    match other_step(alloc, &mut floor, RENEWED) {
        (None, false) => Some(floor),
        _ => None,
    }
}

struct Reopening;

impl Tried for Reopening {
    fn tried<A: Allocator + Copy>(alloc: A) -> Outcome {
        let Some(mut floor) = renewed::<Tally<A>, A>(alloc) else {
            return Outcome::Unready;
        };
        if reopened(alloc, &mut floor).is_ok() {
            return Outcome::done_if(floor.board().shows(Sight::LeftBy(0)));
        }
        let stays = floor.board().shows(Sight::Bytes(&[5, 6])) && floor.limit() == 9;
        Outcome::refused_if(stays && reopened(alloc, &mut floor).is_ok())
    }
}

/// Whether some allocations of the call were refused, and nothing but what is right came of it.
fn is_borne(refused: Result<u64, u64>) -> bool {
    match refused {
        Ok(count) => count > 0,
        Err(_) => false,
    }
}

#[test]
fn each_allocation_of_a_floor_refused(rt: HostRuntime) {
    assert!(rt; is_borne(refusals::<Begin>(rt.alloc())));
    assert!(rt; is_borne(refusals::<Stepping>(rt.alloc())));
    assert!(rt; is_borne(refusals::<Playing>(rt.alloc())));
    assert!(rt; is_borne(refusals::<Reopening>(rt.alloc())));
}
