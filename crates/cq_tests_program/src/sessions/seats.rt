//! What each session does in its thread.

use crate::sessions::asked::{TURNS, WRITERS, edits};
use crate::sessions::boards::Posted;
use crate::sessions::jobs::Job;
use crate::sessions::record::Record;
use crate::sessions::rooms::{Hall, Heard, Place, Seated};
use cq_room::{Front, RoomName, Session};
use std::alloc::Global;
use std::sync::atomic::{AtomicUsize, Ordering};
use std::sync::{Mutex, Wait};

/// How often a reader looks at most.
const MOST_LOOKS: usize = 20_000;

/// How many entries a reader lets come between two looks that it keeps.
const APART: u64 = 300;

/// What sessions tell each other beside the room.
#[derive(Drop)]
pub struct Notice<F: Heard> {
    front: Mutex<Option<F>>,
    done: AtomicUsize,
}

impl<F: Heard> Notice<F> {
    pub fn empty() -> Notice<F> {
        Notice {
            front: Mutex::new(None),
            done: AtomicUsize::new(0),
        }
    }

    /// Puts up the front in place of the one that was there.
    fn put_up<R: Wait>(&self, rt: &R, front: F) {
        *self.front.lock(rt) = Some(front);
    }

    /// A copy of the front that is put up.
    fn read<R: Wait>(&self, rt: &R) -> Option<F> {
        match &*self.front.lock(rt) {
            Some(front) => Some(front.again()),
            None => None,
        }
    }

    /// A writer has come to its end.
    fn leave(&self) {
        self.done.fetch_add(1, Ordering::SeqCst);
    }

    /// Whether all writers have come to their end.
    fn is_over(&self) -> bool {
        self.done.load(Ordering::SeqCst) >= WRITERS
    }
}

/// What all threads share.
#[derive(Drop)]
pub struct Around<'a, F: Heard, H, R: Wait + Drop> {
    pub rt: &'a R,
    pub alloc: Global,
    pub hall: &'a H,
    pub notice: &'a Notice<F>,
}

impl<'a, F: Heard, H, R: Wait + Drop> Around<'a, F, H, R> {
    /// The submit of that turn, whose front is put up.
    fn writes<S: Seated<Told = F>>(&self, session: &mut S, record: &mut Record, turn: usize)
    where
        H: Hall<S>,
    {
        let writer = session.seat();
        let count = 1 + turn.saturating_add(writer) % 5;
        let told = match edits(self.alloc, writer, record.replies.len(), count) {
            Ok(asked) => self.hall.submits(session, record, asked),
            Err(_) => None,
        };
        match told {
            Some(front) => self.notice.put_up(self.rt, front),
            None => record.fails(),
        }
    }

    /// Hears the front that is put up.
    fn hears<S: Seated<Told = F>>(&self, session: &mut S, record: &mut Record) {
        if let Some(front) = self.notice.read(self.rt) {
            session.hears(&front);
            record.hears(front.entries());
        }
    }

    /// What a writer does. Each twelfth of its looks is kept.
    fn writer<S: Seated<Told = F>>(&self, mut session: S, record: &mut Record)
    where
        H: Hall<S>,
    {
        for turn in 0..TURNS {
            self.writes(&mut session, record, turn);
            self.hears(&mut session, record);
            session = session.looks(record, turn % 12 == 11);
        }
        self.notice.leave();
    }

    /// What a reader does until all writers have come to their end.
    fn reader<S: Seated<Told = F>>(&self, mut session: S, record: &mut Record) {
        for _ in 0..MOST_LOOKS {
            let over = self.notice.is_over();
            self.hears(&mut session, record);
            session = session.looks(record, record.is_due(APART));
            if over {
                break;
            }
        }
    }

    /// The record of the session, which goes with its thread.
    fn sits<S: Seated<Told = F>>(&self, session: S) -> Record
    where
        H: Hall<S>,
    {
        let mut record = Record::begin(self.alloc);
        if session.seat() < WRITERS {
            self.writer(session, &mut record);
        } else {
            self.reader(session, &mut record);
        }
        record
    }
}

/// A session that is to run in a thread.
#[derive(Drop)]
pub struct Seat<'a, L: Posted, N: RoomName<L::Content>, R: Wait + Drop> {
    pub around: &'a Around<'a, Front<L, N>, Place<'a, L, N, R>, R>,
    pub session: Session<L, N>,
}

impl<
    'a,
    L: Posted + Send + Sync,
    N: RoomName<L::Content> + Send + Sync,
    R: Wait + Drop + Send + Sync,
> Job for Seat<'a, L, N, R> {
    type Told = Record;

    fn run(self) -> Record {
        let Seat { around, session } = self;
        around.sits(session)
    }
}
