//! A floor: a desk that several sessions look at, each with what it has seen.

ghost use Rattle.std.specs.Prelude.{◌≡◌, ◌≤◌, ◌<◌, ◌-◌, ◌⊎◌, [], length, fold, replicate, take, drop, Ok, OnOk, OnErr, IfOk, IfErr, IfNone, IfSome, MatchOption, slice_get};
ghost use Rattle.cq_desk.specs.declared.floor.FloorFault.TheVariants as faults;
ghost use Rattle.cq_desk.specs.declared.floor.ReopenFault.TheVariants as reopens;
ghost use Rattle.cq_desk.specs.Machine.{opening_machine, answer_to, machine_after, machine_run, answers_to, moved, reopened, seen_by, published_count, working_content, published_content};
ghost use Rattle.cq_desk.specs.declared.event.Event.TheVariants.{Enter, Publish, Look, Hear, Checkpoint};
ghost use Rattle.cq_desk.specs.declared.event.Answer.TheVariants.{Published};
ghost use Rattle.cq_atom.specs.Answer.{Answers};
ghost use Rattle.cq_desk.specs.Standing.{IsTold, MayWant, StopsAt, replied, checkpointed, reopen_fault, sessions_fault};

use crate::event::{Answer, Event, StepFault};
use crate::journal::Entry;
use crate::live::{Live, NoMemory};
use crate::reply::Reply;
use crate::turns::Turns;
use std::alloc::{AllocError, Allocator, Global};
use std::marker::Model;
use thiserror::Error;

/// The answer to an event, or why it has none.
type Told<W> = Result<Answer<W>, StepFault>;

/// What was answered to events that came one after another.
type Answers<W, A> = Vec<Told<W>, A>;

/// Why a floor does not begin.
#[derive(Clone, Copy, Debug, PartialEq, Eq, Error)]
pub enum FloorFault {
    /// There are 1 to 16 sessions.
    #[error("there must be 1 to 16 sessions")]
    Sessions,
    /// An allocation failed.
    #[error("out of memory")]
    NoMemory,
}

/// The reason why a floor's journal does not begin over another state.
#[derive(Clone, Copy, Debug, PartialEq, Eq, Error)]
pub enum ReopenFault {
    /// The journal contains entries.
    #[error("the journal has entries")]
    Late,
    /// An allocation failed.
    #[error("out of memory")]
    NoMemory,
}

/// A journal with its three states, for each session how many entries it has seen or heard of, and whether a checkpoint was made. Contracts see the floor
/// machine. That no session has seen more than is published stands in this type.
#[derive(Drop)]
pub struct Floor<L: Live, A: Allocator + Copy = Global> {
    turns: Turns<L, A>,
    seen: Vec<u64, A>,
    has_checkpoint: bool,
}

impl<L: Live, A: Allocator + Copy> Model for Floor<L, A> {
    ghost use Rattle.std.specs.Prelude.{◌+◌};
    ghost use Rattle.cq_desk.specs.Plain.{AreWithin};
    ghost use Rattle.cq_desk.specs.Machine.{MachineRecord};

    ghost Value = { MachineRecord L.Content L.Edit };

    ghost view = { λ f. record { opening = f.turns.opening; limit = f.turns.limit; base = f.turns.base; journal = f.turns.journal; published = f.turns.published; seen = f.seen.items; earlier = f.turns.earlier; has_checkpoint = f.has_checkpoint } };

    ghost invariant = { λ f. AreWithin (f.turns.base + f.turns.published) f.seen.items };
}

impl From<NoMemory> for FloorFault {
    ghost from_gives = { λ _ fault. fault ≡ faults.NoMemory };

    fn from(_e: NoMemory) -> FloorFault {
        FloorFault::NoMemory
    }
}

impl From<AllocError> for FloorFault {
    ghost from_gives = { λ _ fault. fault ≡ faults.NoMemory };

    fn from(_e: AllocError) -> FloorFault {
        FloorFault::NoMemory
    }
}

/// So many sessions that have seen nothing.
fn unseen<A: Allocator>(alloc: A, sessions: usize) -> Result<Vec<u64, A>, AllocError>
    ensures { IfOk result (λ seen. seen.items ≡ replicate sessions 0) }
{
    let mut seen = Vec::new(alloc);
    seen.resize(sessions, 0)?;
    Ok(seen)
}

impl<L: Live, A: Allocator + Copy> Floor<L, A> {
    /// The floor over the state, with an empty journal that may hold so many entries, and so many
    /// sessions, numbered from 0.
    ///
    /// # Errors
    /// `Sessions` where there are not 1 to 16, before anything else; `NoMemory` where an allocation
    /// failed.
    pub fn begin(
        alloc: A,
        state: L,
        journal: usize,
        sessions: usize,
    ) -> Result<Floor<L, A>, FloorFault>
        ensures { Answers faults.NoMemory (sessions_fault sessions) (opening_machine (L.content state) journal sessions) result }
    {
        if !(1..=16).contains(&sessions) {
            return Err(FloorFault::Sessions);
        }
        let seen = unseen(alloc, sessions)?;
        let turns = Turns::begin(alloc, state, journal)?;
        Ok(Floor {
            turns,
            seen,
            has_checkpoint: false,
        })
    }

    /// Returns the state with the content that was published before the last publish, even if a checkpoint was made since. At first, and after
    /// [`reopen`](Floor::reopen), it is the opening content. The floor keeps this state, so it is not copied.
    pub fn earlier(&self) -> &L
        ensures { L.content result.now ≡ self.now.earlier }
    {
        self.turns.earlier()
    }

    /// The published state.
    pub fn board(&self) -> &L
        ensures { L.content result.now ≡ published_content L.after self.now }
    {
        self.turns.shown()
    }

    /// The working state, which is what the whole journal leaves.
    pub fn working(&self) -> &L
        ensures { L.content result.now ≡ working_content L.after self.now }
    {
        self.turns.working()
    }

    /// How many entries the session has seen or heard of. `None` where there is no session of that
    /// number.
    pub fn seen(&self, session: usize) -> Option<u64>
        ensures value { result ≡ slice_get self.now.seen session }
        ensures within { IfSome result (λ count. count ≤ published_count self.now) }
    {
        self.seen.get(session).copied()
    }

    /// Returns how many entries the journal may contain: those since the last checkpoint.
    pub fn limit(&self) -> usize
        ensures { result ≡ self.now.limit }
    {
        self.turns.limit()
    }

    /// The accepted edits since the last checkpoint, with their authors, the earliest first.
    pub fn journal(&self) -> &[Entry<L::Edit>]
        ensures { result.now ≡ self.now.journal }
    {
        self.turns.journal()
    }

    /// Returns how many entries are published, including those before the last checkpoint.
    pub fn published_count(&self) -> u64
        ensures { result ≡ published_count self.now }
    {
        self.turns.published()
    }

    /// Returns how many entries are not published yet.
    pub fn unpublished_count(&self) -> usize
        ensures { result ≡ length self.now.journal - self.now.published }
    {
        self.turns.unpublished()
    }

    /// Enters the edit under the author's name unless it is refused, and returns its reply. A refused edit
    /// changes nothing.
    ///
    /// # Errors
    /// `NoSession` if there is no session of that number; `NoMemory` if an allocation fails, which may take
    /// the place of the reply that the edit is entered or that the state refuses it. Nothing has changed then.
    pub fn enter(&mut self, author: usize, edit: L::Edit) -> Result<Reply<L::Why>, StepFault>
        ensures answer { IsTold (answer_to L.after L.why self.old (Enter author edit)) (replied result) }
        ensures ok { OnOk result (self.new ≡ machine_after L.after L.why self.old (Enter author edit)) }
        ensures err { OnErr result (self.new ≡ self.old) }
    {
        if author >= self.seen.len() {
            return Err(StepFault::NoSession);
        }
        match self.turns.append(author, edit) {
            Ok(reply) => Ok(reply),
            Err(NoMemory) => Err(StepFault::NoMemory),
        }
    }

    /// Publishes all that was entered, and returns how many entries are published. It does not allocate.
    pub fn publish(&mut self) -> u64
        ensures answer { answer_to L.after L.why self.old Publish ≡ Ok (Published result) }
        ensures after { self.new ≡ moved L.after self.old Publish }
    {
        let _known = self.turns.published();
        self.turns.publish()
    }

    /// A look of the session: how many entries are published, which is never below what the session
    /// had seen or heard of. What it shows is `board`. `None` where there is no session of that
    /// number; nothing has changed then.
    pub fn look(&mut self, session: usize) -> Option<u64>
        ensures none { IfNone result (length self.old.seen ≤ session) }
        ensures session { IfSome result (λ _. session < length self.old.seen) }
        ensures count { IfSome result (λ count. count ≡ published_count self.old) }
        ensures seen { IfSome result (λ count. seen_by self.old session ≤ count) }
        ensures after { MatchOption result (self.new ≡ self.old) (λ _. self.new ≡ moved L.after self.old (Look session)) }
    {
        if session >= self.seen.len() {
            return None;
        }
        let count = self.turns.published();
        self.seen[session] = count;
        Some(count)
    }

    /// Makes the published content the opening content, and empties the journal, which frees its entries. Returns how many entries there are in all:
    /// numbers continue. The published content, what each session has seen, and the content before the last publish do not change.
    /// It copies no state. Right after a publish it applies the entries of the last two publishes once more. The entries of the last publish
    /// that published any are kept until the next checkpoint.
    ///
    /// # Errors
    /// `Unpublished` if not all entries are published; `NoMemory` if an allocation fails. Nothing changes then.
    pub fn checkpoint(&mut self) -> Result<u64, StepFault>
        ensures answer { IsTold (answer_to L.after L.why self.old Checkpoint) (checkpointed result) }
        ensures ok { OnOk result (self.new ≡ moved L.after self.old Checkpoint) }
        ensures err { OnErr result (self.new ≡ self.old) }
    {
        if !self.turns.all_published() {
            return Err(StepFault::Unpublished);
        }
        let count = self.turns.published();
        match self.turns.checkpoint() {
            Ok(()) => {
                self.has_checkpoint = true;
                Ok(count)
            }
            Err(NoMemory) => Err(StepFault::NoMemory),
        }
    }

    /// Returns true if a checkpoint was made.
    pub fn has_checkpoint(&self) -> bool
        ensures { result ≡ self.now.has_checkpoint }
    {
        self.has_checkpoint
    }

    /// Begins the journal over another state, which it publishes, and under another limit of entries. Numbers continue, and what each session has seen
    /// does not change. The content before the last publish is that of this state too.
    ///
    /// # Errors
    /// `Late` if the journal contains entries: right after a checkpoint it contains none. `NoMemory` if an allocation fails. Nothing
    /// changes then.
    pub fn reopen(&mut self, state: L, limit: usize) -> Result<(), ReopenFault>
        ensures answer { Answers reopens.NoMemory (reopen_fault self.old) (record {}) result }
        ensures ok { OnOk result (self.new ≡ reopened (L.content state) limit self.old) }
        ensures err { OnErr result (self.new ≡ self.old) }
    {
        if !self.turns.journal().is_empty() {
            return Err(ReopenFault::Late);
        }
        match self.turns.reopen(state, limit) {
            Ok(()) => Ok(()),
            Err(NoMemory) => Err(ReopenFault::NoMemory),
        }
    }

    fn hear(&mut self, session: usize, count: u64) -> Told<L::Why>
        ensures answer { IsTold (answer_to L.after L.why self.old (Hear session count)) result }
        ensures ok { OnOk result (self.new ≡ moved L.after self.old (Hear session count)) }
        ensures err { OnErr result (self.new ≡ self.old) }
    {
        if session >= self.seen.len() {
            return Err(StepFault::NoSession);
        }
        if count > self.turns.published() {
            return Err(StepFault::Ahead);
        }
        let heard = self.seen[session].max(count);
        self.seen[session] = heard;
        Ok(Answer::Heard(heard))
    }

    /// Does what the event asks for, and answers it as the floor machine does. An edit that is refused
    /// is answered with its reply, and changes nothing.
    ///
    /// # Errors
    /// `NoSession`, `Ahead`, in this order, `Unpublished`; `NoMemory` where an allocation failed, which may take the
    /// place of the reply that an edit is entered or that the state refuses it, and of the answer to a checkpoint. Nothing has changed then.
    pub fn step(&mut self, event: Event<L::Edit>) -> Told<L::Why>
        ensures answer { IsTold (answer_to L.after L.why self.old event) result }
        ensures ok { OnOk result (self.new ≡ machine_after L.after L.why self.old event) }
        ensures err { OnErr result (self.new ≡ self.old) }
    {
        match event {
            Event::Enter { author, edit } => match self.enter(author, edit) {
                Ok(reply) => Ok(Answer::Replied(reply)),
                Err(fault) => Err(fault),
            },
            Event::Publish => Ok(Answer::Published(self.publish())),
            Event::Look { session } => match self.look(session) {
                Some(count) => Ok(Answer::Looked(count)),
                None => Err(StepFault::NoSession),
            },
            Event::Hear { session, count } => self.hear(session, count),
            Event::Checkpoint => match self.checkpoint() {
                Ok(count) => Ok(Answer::Checkpointed(count)),
                Err(fault) => Err(fault),
            },
        }
    }

    /// Takes an event, and answers it. There is no answer where memory ran out.
    fn take_step(&mut self, event: Event<L::Edit>) -> Option<Told<L::Why>>
        ensures { MatchOption result ((self.new ≡ self.old) × MayWant (answer_to L.after L.why self.old event)) (λ told.
            (told ≡ answer_to L.after L.why self.old event)
            × (self.new ≡ machine_after L.after L.why self.old event)) }
    {
        match self.step(event) {
            Err(StepFault::NoMemory) => None,
            told => Some(told),
        }
    }

    /// Takes the events one after another, and answers each: a refused one changes nothing and stops
    /// nobody. After them the working state has what the whole journal leaves, and the published one
    /// what its published front leaves, as `working` and `board` say.
    ///
    /// # Errors
    /// The answers to the events before the one at which an allocation failed. That one and those
    /// after it have not happened. There are none where there was no room for the answers.
    pub fn play(
        &mut self,
        events: Vec<Event<L::Edit>, A>,
    ) -> Result<Answers<L::Why, A>, Answers<L::Why, A>>
        ensures answers { IfOk result (λ answers. answers.items ≡ answers_to L.after L.why self.old events.items) }
        ensures after { OnOk result (self.new ≡ machine_run L.after L.why self.old events.items) }
        ensures front { IfErr result (λ answers. answers.items ≡ answers_to L.after L.why self.old (take (length answers.items) events.items)) }
        ensures after_front { IfErr result (λ answers. self.new ≡ machine_run L.after L.why self.old (take (length answers.items) events.items)) }
        ensures rest { IfErr result (λ answers. length answers.items < length events.items) }
        ensures stop { IfErr result (λ answers. (answers.items ≡ []) ⊎ StopsAt L.after L.why self.new (drop (length answers.items) events.items)) }
    {
        let alloc = *events.allocator();
        let mut answers = Vec::new(alloc);
        if answers.reserve(events.len()).is_err() {
            return Err(answers);
        }
        for event in events {
            let Some(told) = self.take_step(event) else {
                return Err(answers);
            };
            answers.push_reserved(told);
        }
        Ok(answers)
    }
}
