//! Submits and checkpoints: what a session does under the room's lock.

ghost use Rattle.std.specs.Prelude.{◌≡◌, length, true, IfOk, OnOk, OnErr};
ghost use mathlib.Core.List.{IsPrefix};
ghost use Rattle.cq_desk.specs.History.{edits_of};
ghost use Rattle.cq_desk.specs.Replies.{accepted};
ghost use Rattle.cq_room.specs.Receipts.{IsPassedBy, IsReceipt};

use crate::names::RoomName;
use crate::room::{Receipt, Room, Watched};
use crate::session::Session;
use cq_desk::{Checkpoint, CheckpointFault, Live, NoMemory, OpenGate};
use std::alloc::Allocator;
use std::sync::Wait;

impl<L: Live, N: RoomName<L::Content>, A: Allocator + Copy> Session<L, N, A> {
    /// Enters these edits one after another under the session's number, and publishes what the journal
    /// holds. The room's lock is held from the first entry to the end of the publish. Each edit has a
    /// reply; a refused one stops nobody. The session knows then of all that is entered, published or not.
    ///
    /// # Errors
    /// `NoMemory` where there was no room for the replies. Nothing was entered or published then.
    pub fn submit<P: Watched<L, N>>(
        &mut self,
        rt: &P::Leave,
        room: &Room<L, N, P, A>,
        asked: Vec<L::Edit, A>,
    ) -> Result<Receipt<L, N, A>, NoMemory>
    where
        P::Leave: Wait,
        ensures receipt { IfOk result (λ receipt. IsReceipt L.after L.why N.opening N.limit N.renews self.old self.new asked.items receipt.submitted.replies.items receipt.submitted.end receipt.front) }
        ensures err { OnErr result (self.new ≡ self.old) }
    {
        self.submit_past(rt, room, asked, &mut OpenGate)
    }

    /// The same past a checkpoint, which lets the submit pass once, between entering and publishing,
    /// under the lock.
    ///
    /// # Errors
    /// `NoMemory` where there was no room for the replies. Nothing was entered or published then, and
    /// the checkpoint was not reached.
    pub fn submit_past<P: Watched<L, N>, G: Checkpoint>(
        &mut self,
        rt: &P::Leave,
        room: &Room<L, N, P, A>,
        asked: Vec<L::Edit, A>,
        gate: &mut G,
    ) -> Result<Receipt<L, N, A>, NoMemory>
    where
        P::Leave: Wait,
        ensures receipt { IfOk result (λ receipt. IsReceipt L.after L.why N.opening N.limit N.renews self.old self.new asked.items receipt.submitted.replies.items receipt.submitted.end receipt.front) }
        ensures passed { IfOk result (λ receipt. IsPassedBy G.passed gate.old gate.new receipt.submitted.end (length (accepted asked.items receipt.submitted.replies.items))) }
        ensures err { OnErr result (self.new ≡ self.old) }
        ensures unpassed { OnErr result (gate.new ≡ gate.old) }
    {
        let receipt = room.lock.lock(rt).submit_past(rt, self, asked, gate)?;
        self.hear_any(&receipt.front);
        Ok(receipt)
    }

    /// Makes the published content the opening content, and empties the room's journal, which frees its entries. Returns how many entries
    /// there are in all: numbers continue, and the limit bounds the entries from here on. The session knows of all of them then. The room's lock is
    /// held meanwhile. Nothing is allocated. What looks show does not change.
    ///
    /// # Errors
    /// `Unpublished` if not all entries are published. Nothing changes then.
    pub fn checkpoint<P: Watched<L, N>>(
        &mut self,
        rt: &P::Leave,
        room: &Room<L, N, P, A>,
    ) -> Result<u64, CheckpointFault>
    where
        P::Leave: Wait,
        requires { N.renews ≡ true }
        ensures count { IfOk result (λ count. count ≡ length self.new.known) }
        ensures seen { OnOk result (IsPrefix (edits_of self.old.history) self.new.known) }
        ensures known { OnOk result (IsPrefix self.old.known self.new.known) }
        ensures session { OnOk result (self.new ≡ record self.old { known = self.new.known }) }
        ensures err { OnErr result (self.new ≡ self.old) }
    {
        let mut desk = room.lock.lock(rt);
        let count = desk.checkpoint()?;
        desk.tell(rt, self);
        Ok(count)
    }
}
