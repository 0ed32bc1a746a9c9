//! Desks over a tally and over a board.

use crate::desk::desking::{Desking, PlainDesk, plain_desk};
use crate::lines::Line;
use crate::states::{Shared, Sight, edits};
use crate::tally::{Full, Tally};
use cq_board::Why;
use cq_desk::{Answer, CheckpointFault, End, NoMemory, Reply};
use std::alloc::Global;

/// What is done on a desk.
#[derive(Clone, Copy)]
enum Call {
    /// The author enters the one edit.
    Enter(usize),
    Publish,
    /// A checkpoint is made. If it is refused, it tells how many entries are published.
    Checkpoint,
    /// The edits are submitted, with the replies.
    Submit,
}

/// A call, its edits, the replies of a submit, what is answered, and what the working state and the shown one show after it. What a
/// submit answers counts the published entries.
type Step<Q, W> = (
    Call,
    &'static [Q],
    &'static [Reply<W>],
    Answer<W>,
    Sight,
    Sight,
);

fn entered<L: Shared<Global>>(
    alloc: Global,
    desk: &mut PlainDesk<L>,
    author: usize,
    asked: &[L::Asked],
) -> Option<Answer<L::Why>> {
    let edit = L::edit(alloc, asked.first()?)?;
    match desk.enter(author, edit) {
        Ok(reply) => Some(Answer::Replied(reply)),
        Err(NoMemory) => None,
    }
}

/// How many entries are published by the submit, where these are its replies.
fn submitted<L: Shared<Global>>(
    alloc: Global,
    desk: &mut PlainDesk<L>,
    asked: &[L::Asked],
    replies: &[Reply<L::Why>],
) -> Option<u64> {
    let asked = edits::<L, Global>(alloc, asked)?;
    match desk.submit(7, asked, &()) {
        Ok(submitted) => match submitted.end {
            End::Published(count) if L::are_replies(&submitted.replies, replies) => Some(count),
            _ => None,
        },
        Err(NoMemory) => None,
    }
}

/// What the call answers, where its replies are right.
fn told<L: Shared<Global>>(
    alloc: Global,
    desk: &mut PlainDesk<L>,
    call: Call,
    asked: &[L::Asked],
    replies: &[Reply<L::Why>],
) -> Option<Answer<L::Why>> {
    match call {
        Call::Enter(author) => entered(alloc, desk, author, asked),
        Call::Publish => match desk.publish(&()) {
            Ok(count) => Some(Answer::Published(count)),
            Err(NoMemory) => None,
        },
        Call::Checkpoint => match desk.checkpoint() {
            Ok(count) => Some(Answer::Checkpointed(count)),
            Err(CheckpointFault::Unpublished) => Some(Answer::Published(desk.published_count())),
        },
        Call::Submit => {
            let count = submitted(alloc, desk, asked, replies)?;
            Some(Answer::Published(count))
        }
    }
}

/// Whether that is told.
fn is_told<L: Shared<Global>>(told: Option<Answer<L::Why>>, wanted: &Answer<L::Why>) -> bool {
    match told {
        Some(answer) => L::is_answer(&answer, wanted),
        None => false,
    }
}

/// Whether these are the working state and the shown one.
fn shows<L: Shared<Global>>(desk: &PlainDesk<L>, working: Sight, shown: Sight) -> bool {
    desk.working().shows(working) && desk.publisher().published().shows(shown)
}

/// The place of the first step on a desk over a tally that comes out otherwise.
fn other_step<L: Shared<Global, Asked = u8, Why = Full>>(
    alloc: Global,
    desk: &mut PlainDesk<L>,
    steps: &[Step<u8, Full>],
) -> Option<usize> {
    for (place, (call, asked, replies, wanted, working, shown)) in steps.iter().enumerate() {
        let told = told(alloc, desk, *call, asked, replies);
        if !is_told::<L>(told, wanted) || !shows(desk, *working, *shown) {
            return Some(place);
        }
    }
    None
}

/// The same over a board.
fn other_line<L: Shared<Global, Asked = Line, Why = Why>>(
    alloc: Global,
    desk: &mut PlainDesk<L>,
    steps: &[Step<Line, Why>],
) -> Option<usize> {
    for (place, (call, asked, replies, wanted, working, shown)) in steps.iter().enumerate() {
        let told = told(alloc, desk, *call, asked, replies);
        if !is_told::<L>(told, wanted) || !shows(desk, *working, *shown) {
            return Some(place);
        }
    }
    None
}

/// A desk over such a state.
fn desk_over<L: Shared<Global>>(
    alloc: Global,
    pool: usize,
    journal: usize,
) -> Result<PlainDesk<L>, NoMemory> {
    match L::begun(alloc, pool) {
        Some(state) => plain_desk(alloc, state, journal),
        None => Err(NoMemory),
    }
}

/// The place of the first step that comes out otherwise on a desk over a tally, and whether the journal then has the numbered edits under
/// these authors.
fn other_of<L: Shared<Global, Asked = u8, Why = Full>>(
    alloc: Global,
    journal: usize,
    steps: &[Step<u8, Full>],
    authors: &[usize],
) -> Result<(Option<usize>, bool), NoMemory> {
    let mut desk = desk_over::<L>(alloc, 9, journal)?;
    let other = other_step(alloc, &mut desk, steps);
    Ok((other, desk.has_entries(authors)))
}

/// Whether all steps come out right on a desk over a board.
pub fn is_right<L: Shared<Global, Asked = Line, Why = Why>>(alloc: Global) -> bool {
    match desk_over::<L>(alloc, 2, 9) {
        Ok(mut desk) => other_line(alloc, &mut desk, ROWS).is_none(),
        Err(NoMemory) => false,
    }
}

/// Two entries, a publish, a third entry that a second publish shows, and two refusals.
const ENTRIES: &[Step<u8, Full>] = &[
    (
        Call::Enter(4),
        &[1],
        &[],
        Answer::Replied(Reply::Entered(1)),
        Sight::Bytes(&[1]),
        Sight::Bytes(&[]),
    ),
    (
        Call::Enter(5),
        &[2],
        &[],
        Answer::Replied(Reply::Entered(2)),
        Sight::Bytes(&[1, 2]),
        Sight::Bytes(&[]),
    ),
    (
        Call::Publish,
        &[],
        &[],
        Answer::Published(2),
        Sight::Bytes(&[1, 2]),
        Sight::Bytes(&[1, 2]),
    ),
    (
        Call::Enter(4),
        &[3],
        &[],
        Answer::Replied(Reply::Entered(3)),
        Sight::Bytes(&[1, 2, 3]),
        Sight::Bytes(&[1, 2]),
    ),
    (
        Call::Enter(4),
        &[4],
        &[],
        Answer::Replied(Reply::Not(Full)),
        Sight::Bytes(&[1, 2, 3]),
        Sight::Bytes(&[1, 2]),
    ),
    (
        Call::Publish,
        &[],
        &[],
        Answer::Published(3),
        Sight::Bytes(&[1, 2, 3]),
        Sight::Bytes(&[1, 2, 3]),
    ),
    (
        Call::Publish,
        &[],
        &[],
        Answer::Published(3),
        Sight::Bytes(&[1, 2, 3]),
        Sight::Bytes(&[1, 2, 3]),
    ),
];

/// The limit of the journal, which holds three entries, is looked at before the state.
const LIMIT_FIRST: &[Step<u8, Full>] = &[
    (
        Call::Enter(0),
        &[1],
        &[],
        Answer::Replied(Reply::Entered(1)),
        Sight::Bytes(&[1]),
        Sight::Bytes(&[]),
    ),
    (
        Call::Enter(0),
        &[2],
        &[],
        Answer::Replied(Reply::Entered(2)),
        Sight::Bytes(&[1, 2]),
        Sight::Bytes(&[]),
    ),
    (
        Call::Enter(0),
        &[3],
        &[],
        Answer::Replied(Reply::Entered(3)),
        Sight::Bytes(&[1, 2, 3]),
        Sight::Bytes(&[]),
    ),
    (
        Call::Enter(0),
        &[4],
        &[],
        Answer::Replied(Reply::JournalFull),
        Sight::Bytes(&[1, 2, 3]),
        Sight::Bytes(&[]),
    ),
];

/// Two bytes, an empty submit, and three bytes of which two find no room.
const SUBMITS: &[Step<u8, Full>] = &[
    (
        Call::Submit,
        &[1, 2],
        &[Reply::Entered(1), Reply::Entered(2)],
        Answer::Published(2),
        Sight::Bytes(&[1, 2]),
        Sight::Bytes(&[1, 2]),
    ),
    (
        Call::Submit,
        &[],
        &[],
        Answer::Published(2),
        Sight::Bytes(&[1, 2]),
        Sight::Bytes(&[1, 2]),
    ),
    (
        Call::Submit,
        &[3, 8, 9],
        &[Reply::Entered(3), Reply::Not(Full), Reply::Not(Full)],
        Answer::Published(3),
        Sight::Bytes(&[1, 2, 3]),
        Sight::Bytes(&[1, 2, 3]),
    ),
];

/// The journal has room for two, and what was entered before is published with them.
const TO_THE_LIMIT: &[Step<u8, Full>] = &[
    (
        Call::Enter(0),
        &[1],
        &[],
        Answer::Replied(Reply::Entered(1)),
        Sight::Bytes(&[1]),
        Sight::Bytes(&[]),
    ),
    (
        Call::Submit,
        &[2, 6, 7],
        &[Reply::Entered(2), Reply::JournalFull, Reply::JournalFull],
        Answer::Published(2),
        Sight::Bytes(&[1, 2]),
        Sight::Bytes(&[1, 2]),
    ),
];

/// The journal has room for one. A checkpoint is refused before the publish. After each one there is room for one more, and numbers continue.
const RENEWED: &[Step<u8, Full>] = &[
    (
        Call::Enter(4),
        &[1],
        &[],
        Answer::Replied(Reply::Entered(1)),
        Sight::Bytes(&[1]),
        Sight::Bytes(&[]),
    ),
    (
        Call::Checkpoint,
        &[],
        &[],
        Answer::Published(0),
        Sight::Bytes(&[1]),
        Sight::Bytes(&[]),
    ),
    (
        Call::Publish,
        &[],
        &[],
        Answer::Published(1),
        Sight::Bytes(&[1]),
        Sight::Bytes(&[1]),
    ),
    (
        Call::Enter(5),
        &[2],
        &[],
        Answer::Replied(Reply::JournalFull),
        Sight::Bytes(&[1]),
        Sight::Bytes(&[1]),
    ),
    (
        Call::Checkpoint,
        &[],
        &[],
        Answer::Checkpointed(1),
        Sight::Bytes(&[1]),
        Sight::Bytes(&[1]),
    ),
    (
        Call::Enter(5),
        &[2],
        &[],
        Answer::Replied(Reply::Entered(2)),
        Sight::Bytes(&[1, 2]),
        Sight::Bytes(&[1]),
    ),
    (
        Call::Enter(6),
        &[3],
        &[],
        Answer::Replied(Reply::JournalFull),
        Sight::Bytes(&[1, 2]),
        Sight::Bytes(&[1]),
    ),
    (
        Call::Publish,
        &[],
        &[],
        Answer::Published(2),
        Sight::Bytes(&[1, 2]),
        Sight::Bytes(&[1, 2]),
    ),
    (
        Call::Checkpoint,
        &[],
        &[],
        Answer::Checkpointed(2),
        Sight::Bytes(&[1, 2]),
        Sight::Bytes(&[1, 2]),
    ),
    (
        Call::Submit,
        &[],
        &[],
        Answer::Published(2),
        Sight::Bytes(&[1, 2]),
        Sight::Bytes(&[1, 2]),
    ),
    (
        Call::Enter(6),
        &[3],
        &[],
        Answer::Replied(Reply::Entered(3)),
        Sight::Bytes(&[1, 2, 3]),
        Sight::Bytes(&[1, 2]),
    ),
];

/// A row that is there stops neither the edit before it nor the one after it. Then a flight to Paris comes, and a query for
/// one, and the flight goes to Rome.
const ROWS: &[Step<Line, Why>] = &[
    (
        Call::Submit,
        &[Line::RowOne, Line::RowOne, Line::RowTwo],
        &[
            Reply::Entered(1),
            Reply::Not(Why::RowPresent),
            Reply::Entered(2),
        ],
        Answer::Published(2),
        Sight::Rows(2),
        Sight::Rows(2),
    ),
    (
        Call::Submit,
        &[Line::Paris, Line::Asked],
        &[Reply::Entered(3), Reply::Entered(4)],
        Answer::Published(4),
        Sight::Grounded(true),
        Sight::Grounded(true),
    ),
    (
        Call::Submit,
        &[Line::NoParis, Line::Rome],
        &[Reply::Entered(5), Reply::Entered(6)],
        Answer::Published(6),
        Sight::Grounded(false),
        Sight::Grounded(false),
    ),
];

#[test]
fn desks_over_a_tally(rt: HostRuntime) {
    for (journal, steps, authors) in [
        (9, ENTRIES, [4, 5, 4].as_slice()),
        (3, LIMIT_FIRST, [0, 0, 0].as_slice()),
        (9, SUBMITS, [7, 7, 7].as_slice()),
        (2, TO_THE_LIMIT, [0, 7].as_slice()),
        (1, RENEWED, [4, 5, 6].as_slice()),
    ] {
        let other = other_of::<Tally>(rt.alloc(), journal, steps, authors);
        assert!(rt; other == Ok((None, true)), "{journal}: {other:?}");
    }
}
