//! Where entries are published.

ghost use Rattle.std.specs.Prelude.{◌≡◌, ◌+◌, ◌<◌, List, [], ◌∷◌, ◌++◌, length, OnOk, OnErr};
ghost use Rattle.cq_desk.specs.History.{History, edits_of, grown, BeginsWith};
ghost use Rattle.cq_desk.specs.declared.journal.Entry.{Entry};

use crate::live::{Live, NoMemory};

/// What takes entries over an opening content, and shows what the edits of the published ones leave.
pub trait Publisher<L: Live>: Drop {
    /// What a publish is lent: the leave to wait, where it waits for anyone.
    type Leave;

    // The content before the first edit.
    ghost opening: { Self → L.Content };

    // The publications of entries, those among them whose publish was refused.
    ghost history: { Self → History (Entry L.Edit) };

    // The publications that are shown.
    ghost shown: { Self → History (Entry L.Edit) };

    // The entries that stand in no publication yet.
    ghost pending: { Self → List (Entry L.Edit) };

    /// Adds a pending entry: the edit under the author's number.
    ///
    /// # Errors
    /// `NoMemory` where an allocation failed. Nothing has changed then.
    fn append(&mut self, author: usize, edit: L::Edit) -> Result<(), NoMemory>
        requires { length (edits_of (history self.old)) + length (pending self.old) < u64.MAX }
        ensures opening { opening self.new ≡ opening self.old }
        ensures history { history self.new ≡ history self.old }
        ensures shown { shown self.new ≡ shown self.old }
        ensures ok { OnOk result (pending self.new ≡ pending self.old ++ record { author = author; edit = edit } ∷ []) }
        ensures err { OnErr result (pending self.new ≡ pending self.old) };

    /// Publishes all that is pending as one publication, and shows it. Where nothing is pending it
    /// adds no publication.
    ///
    /// # Errors
    /// `NoMemory` where an allocation failed. What is shown stays then, and history and pending
    /// entries together stay the same in the same order; the next publish goes on from there.
    fn publish(&mut self, leave: &Self::Leave) -> Result<(), NoMemory>
        ensures opening { opening self.new ≡ opening self.old }
        ensures begins { BeginsWith (history self.new) (history self.old) }
        ensures together { grown (history self.new) (pending self.new) ≡ grown (history self.old) (pending self.old) }
        ensures none { OnOk result (pending self.new ≡ []) }
        ensures all { OnOk result (shown self.new ≡ history self.new) }
        ensures refused { OnErr result (shown self.new ≡ shown self.old) };
}
