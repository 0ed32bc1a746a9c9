//! The desk and the floor: the order in which edits came, what they leave, and what of it is published.
//!
//! A journal is the list of the accepted edits with their authors. A [`Desk`] keeps one over any
//! [`Live`] state, takes each accepted edit into its working state at once, and hands the entries over
//! to a [`Publisher`], which shows what the published ones leave. [`Plain`] is a publisher over one
//! state. Nothing here knows which states there are. The desk's type says that the working state is
//! what the journal leaves over the publisher's opening content, and that the published entries, then
//! those pending or not yet handed over, are the journal's, authors included (`specs/Desk`). `Desk::checkpoint` empties the journal
//! once all of it is published; contracts go on to see all entries, and numbers count them.
//!
//! A [`Floor`] is a journal with three states that take turns, and several sessions look at it. It is proved against the floor
//! machine (`specs/Machine`), which keeps a journal, counts and contents, and no state: `Floor::play` says that after
//! any list of events the answers and what is kept are those of the machine, `working` and `board` that the states have
//! what the whole journal and its published front leave, and `looks_never_fall` that no session sees less than it had seen
//! or heard of. A checkpoint begins a new journal over what is published; `checkpoints_lose_nothing` says that the states
//! then still have what all edits leave that were ever entered, and that numbers count them all.
//!
//! The crates above use two contracts of this one most. `Floor::step` answers an event as the floor
//! machine does, and leaves the machine as that event leaves it. `Desk::submit` answers each edit as
//! the journal before it says (`specs/Replies`), enters exactly those that it numbers, and ends in a
//! publish after which they stand at the end of the last publication, or says where memory ran
//! out. `Desk::submit_past` is the same past a [`Checkpoint`] between entering and publishing.
//!
//! Not here: how a state takes an edit, what is shown of it, and threads.
#![tactic(auto)]

mod desk;
mod event;
mod floor;
mod gate;
mod headline;
mod journal;
mod live;
mod plain;
mod publisher;
mod reply;
mod turns;

pub use desk::{CheckpointFault, Desk};
pub use event::{Answer, Event, StepFault};
pub use floor::{Floor, FloorFault, ReopenFault};
pub use gate::{Checkpoint, Gate, OpenGate};
pub use headline::{checkpoints_lose_nothing, looks_never_fall};
pub use journal::Entry;
pub use live::{Live, NoMemory};
pub use plain::Plain;
pub use publisher::Publisher;
pub use reply::{End, Reply, Submitted};
