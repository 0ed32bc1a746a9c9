//! Sessions in threads: a look while a checkpoint holds a submit, and what is seen after it.

ghost use Rattle.std.specs.Prelude.{◌≡◌, ◌∷◌, []};

use crate::lines::Line;
use crate::room::jobs::{Job, both};
use crate::room::seats::{Hall, PairRoom, Place, Seated, two_of};
use crate::states::{Shared, Sight};
use cq_atom::Edit;
use cq_board::{Board, Why};
use cq_desk::{Checkpoint, Desk, Live, Publisher, Reply};
use cq_room::{Front, OpenGate, Parts, Room, RoomName, Session};
use std::alloc::{Allocator, Global};
use std::hint::spin_loop;
use std::marker::Brand;
use std::sync::atomic::{AtomicBool, Ordering};
use std::sync::{Mutex, Wait};
use std::thread::Threads;

/// More turns than it takes a thread to look.
const TURNS: u64 = 100_000_000;

/// A gate that opens when another thread says so, or after so many turns.
#[derive(Drop)]
struct Held {
    reached: AtomicBool,
    open: AtomicBool,
    passed: AtomicBool,
}

impl Held {
    fn closed() -> Held {
        Held {
            reached: AtomicBool::new(false),
            open: AtomicBool::new(false),
            passed: AtomicBool::new(false),
        }
    }
}

/// Whether another thread says so within so many turns.
fn is_told(flag: &AtomicBool) -> bool {
    for _ in 0..TURNS {
        if flag.load(Ordering::SeqCst) {
            return true;
        }
        spin_loop();
    }
    false
}

/// A submit at the gate: how often it came, and how many entries were there and published when it came last.
#[derive(Drop)]
struct AtGate<'a> {
    gate: &'a Held,
    times: u8,
    entered: u64,
    published: u64,
}

impl<'a> Checkpoint for AtGate<'a> {
    ghost use Rattle.std.specs.Prelude.{◌≡◌};

    ghost passed = { λ old entries published new. (new.entered ≡ entries) × (new.published ≡ published) };

    fn let_pass<L: Live, P: Publisher<L>, A: Allocator + Copy>(&mut self, desk: &Desk<L, P, A>) {
        self.times = self.times.saturating_add(1);
        self.entered = desk.count();
        self.published = desk.published_count();
        self.gate.reached.store(true, Ordering::SeqCst);
        let told = is_told(&self.gate.open);
        self.gate.passed.store(told, Ordering::SeqCst);
    }
}

/// What the posting of `a` past the gate tells of. It passed once, when one entry was there and none was published.
fn posts_past<S: Seated, H: Hall<S, Asked = Line, Why = Why>>(
    hall: &H,
    mut session: S,
    gate: &Held,
) -> Option<S::Told> {
    let mut at = AtGate {
        gate,
        times: 0,
        entered: 0,
        published: 0,
    };
    let lines = [Line::Answer];
    let replies = [Reply::Entered(1)];
    let told = hall.submits_past(&mut session, &lines, &replies, 1, &mut at);
    if at.times != 1 || at.entered != 1 || at.published != 0 {
        return None;
    }
    told
}

/// The first session posts past the gate.
#[derive(Drop)]
struct Posting<'a, L: Shared<Global>, N: RoomName<L::Content>, R: Wait + Drop> {
    rt: &'a R,
    alloc: Global,
    room: &'a PairRoom<L, N, R>,
    first: Session<L, N>,
    gate: &'a Held,
}

impl<
    'a,
    L: Shared<Global, Edit = Edit, Asked = Line, Why = Why> + Send + Sync,
    N: RoomName<L::Content> + Send + Sync,
    R: Wait + Drop + Send + Sync,
> Job for Posting<'a, L, N, R> {
    type Told = Option<Front<L, N>>;

    fn run(self) -> Option<Front<L, N>> {
        let Posting {
            rt,
            alloc,
            room,
            first,
            gate,
        } = self;
        posts_past(&Place { rt, alloc, room }, first, gate)
    }
}

/// The second session looks while the gate holds, and opens it. It is taken from its seat for the look.
#[derive(Drop)]
struct Looking<'a, L: Shared<Global>, N: RoomName<L::Content>, R: Wait + Drop> {
    rt: &'a R,
    seat: &'a Mutex<Option<Session<L, N>>>,
    gate: &'a Held,
}

/// The session after a look while the gate holds, where nothing was seen. The gate opens then.
fn looks_meanwhile<S: Seated>(session: S, gate: &Held) -> Option<S> {
    let reached = is_told(&gate.reached);
    let (session, right) = session.looks(0, Sight::Queries(0));
    gate.open.store(reached, Ordering::SeqCst);
    if right { Some(session) } else { None }
}

/// The session in the seat looks so.
fn looks_from<S: Seated, R: Wait>(rt: &R, seat: &Mutex<Option<S>>, gate: &Held) {
    let taken = seat.lock(rt).take();
    if let Some(session) = taken {
        let session = looks_meanwhile(session, gate);
        *seat.lock(rt) = session;
    }
}

impl<
    'a,
    L: Shared<Global, Edit = Edit, Asked = Line, Why = Why> + Send + Sync,
    N: RoomName<L::Content> + Send + Sync,
    R: Wait + Drop + Send + Sync,
> Job for Looking<'a, L, N, R> {
    type Told = ();

    fn run(self) {
        let Looking { rt, seat, gate } = self;
        looks_from(rt, seat, gate);
    }
}

/// What the posting tells of, beside another job. That one stands as a parameter, since two types that hold a session are
/// more than the check of one call takes.
fn posts_beside<
    L: Shared<Global, Edit = Edit, Asked = Line, Why = Why> + Send + Sync,
    N: RoomName<L::Content> + Send + Sync,
    R: Wait + Drop + Send + Sync,
    J: Job,
    T: Threads,
>(threads: &T, posting: Posting<'_, L, N, R>, other: J) -> Option<Front<L, N>> {
    let (told, _) = both(threads, posting, other);
    told
}

/// What the first session's posting tells of, where the second one looks from its seat.
fn run_both<
    L: Shared<Global, Edit = Edit, Asked = Line, Why = Why> + Send + Sync,
    N: RoomName<L::Content> + Send + Sync,
    R: Wait + Drop + Send + Sync,
    T: Threads,
>(
    threads: &T,
    place: &Place<'_, L, N, R, Global>,
    first: Session<L, N>,
    seat: &Mutex<Option<Session<L, N>>>,
    gate: &Held,
) -> Option<Front<L, N>> {
    let looking = Looking {
        rt: place.rt,
        seat,
        gate,
    };
    let posting = Posting {
        rt: place.rt,
        alloc: place.alloc,
        room: place.room,
        first,
        gate,
    };
    posts_beside(threads, posting, looking)
}

/// Whether the second session sees what the first one posted, before it hears of it and afterwards, and can submit.
fn sees<S: Seated, H: Hall<S>>(hall: &H, second: S, told: &S::Told) -> bool {
    let (mut second, before) = second.looks(1, Sight::Queries(1));
    second.hears(told);
    let (mut second, after) = second.looks(1, Sight::Queries(1));
    before && after && hall.submits_more(&mut second, false, 1).is_some()
}

/// The same, where both are there.
fn sees_posted<S: Seated, H: Hall<S>>(hall: &H, second: Option<S>, told: Option<S::Told>) -> bool {
    match (second, told) {
        (Some(second), Some(told)) => sees(hall, second, &told),
        _ => false,
    }
}

/// Whether the second session opened the gate, saw nothing before it opened, and sees all afterwards.
fn watches<
    L: Shared<Global, Edit = Edit, Asked = Line, Why = Why> + Send + Sync,
    N: RoomName<L::Content> + Send + Sync,
    R: Wait + Drop + Send + Sync,
    T: Threads,
>(
    threads: &T,
    place: &Place<'_, L, N, R, Global>,
    first: Session<L, N>,
    second: Session<L, N>,
) -> bool {
    let gate = Held::closed();
    let seat = Mutex::new(Some(second));
    let told = run_both(threads, place, first, &seat, &gate);
    let seen = sees_posted(place, seat.into_inner(), told);
    seen && gate.passed.load(Ordering::SeqCst)
}

/// The same of the two sessions of the list.
fn watches_in<
    L: Shared<Global, Edit = Edit, Asked = Line, Why = Why> + Send + Sync,
    N: RoomName<L::Content> + Send + Sync,
    R: Wait + Drop + Send + Sync,
    T: Threads,
>(threads: &T, place: &Place<'_, L, N, R, Global>, sessions: &mut Vec<Session<L, N>>) -> bool {
    match two_of(sessions) {
        Some((first, second)) => watches(threads, place, first, second),
        None => false,
    }
}

/// A flight to Paris comes, and a query for one; the other session's look then shows the flight as a grounding. Then the flight goes to Rome,
/// and looks before and after that is heard show none.
fn moves<S: Seated, H: Hall<S, Asked = Line, Why = Why>>(
    hall: &H,
    mut first: S,
    second: S,
) -> bool {
    let asked = [Line::Paris, Line::Asked];
    let entered = [Reply::Entered(1), Reply::Entered(2)];
    let told = hall.submits_past(&mut first, &asked, &entered, 2, &mut OpenGate);
    let (second, grounded) = second.looks(2, Sight::Grounded(true));
    let goes = [Line::NoParis, Line::Rome];
    let moved = [Reply::Entered(3), Reply::Entered(4)];
    let gone = hall.submits_past(&mut first, &goes, &moved, 4, &mut OpenGate);
    let (mut second, before) = second.looks(4, Sight::Grounded(false));
    second.hears(&first.knows());
    let (second, after) = second.looks(4, Sight::Grounded(false));
    told.is_some() && gone.is_some() && grounded && before && after && second.is_at(1, 4)
}

/// What the sessions do.
#[derive(Clone, Copy)]
enum Scene {
    /// One looks while a gate holds the other one's posting, in threads.
    Watched,
    /// One moves a flight, and the other one sees it.
    Moved,
}

/// Whether the flight moves so between the two sessions of the list.
fn moves_in<S: Seated, H: Hall<S, Asked = Line, Why = Why>>(
    hall: &H,
    sessions: &mut Vec<S>,
) -> bool {
    match two_of(sessions) {
        Some((first, second)) => moves(hall, first, second),
        None => false,
    }
}

/// Whether the scene comes out right.
fn is_right<
    L: Shared<Global, Edit = Edit, Asked = Line, Why = Why> + Send + Sync,
    N: RoomName<L::Content> + Send + Sync,
    R: Wait + Drop + Send + Sync,
    T: Threads,
>(
    threads: &T,
    place: &Place<'_, L, N, R, Global>,
    sessions: &mut Vec<Session<L, N>>,
    scene: Scene,
) -> bool {
    match scene {
        Scene::Watched => watches_in(threads, place, sessions),
        Scene::Moved => moves_in(place, sessions),
    }
}

/// How many entries there are at the end in a room of these parts, where it comes out right.
fn in_room<
    L: Shared<Global, Edit = Edit, Asked = Line, Why = Why> + Send + Sync,
    N: RoomName<L::Content> + Send + Sync,
    R: Wait + Drop + Send + Sync,
    T: Threads,
>(threads: &T, rt: &R, alloc: Global, parts: Parts<L, R>, scene: Scene) -> Option<usize>
    requires book { parts.book ≡ N.book }
    requires opening { N.opening ≡ parts.opening ∷ [] }
    requires limit { N.limit ≡ parts.limit }
{
    match parts.open::<N>() {
        Ok((room, mut sessions)) => {
            let place = Place {
                rt,
                alloc,
                room: &room,
            };
            let right = is_right(threads, &place, &mut sessions, scene);
            let entries = room.close(rt, sessions).journal().len();
            if right { Some(entries) } else { None }
        }
        Err(_) => None,
    }
}

/// The same in a room over such a state.
fn in_room_over<
    L: Shared<Global, Edit = Edit, Asked = Line, Why = Why> + Send + Sync,
    R: Wait + Drop + Copy + Send + Sync,
    T: Threads,
>(threads: &T, rt: R, alloc: Global, scene: Scene) -> Option<usize> {
    let state = L::begun(alloc, 9)?;
    match Room::begin(rt, alloc, state, 9, 2) {
        Ok(parts) => in_room::<L, Brand, R, T>(threads, &rt, alloc, parts, scene),
        Err(_) => None,
    }
}

#[test]
fn rooms_over_a_board(rt: HostRuntime) {
    for (scene, entries) in [(Scene::Watched, 1), (Scene::Moved, 4)] {
        let met = in_room_over::<Board, _, _>(&rt, &rt, rt.alloc(), scene);
        assert!(rt; met == Some(entries), "{met:?}");
    }
}
