//! What is shown: a state, and the trail that it has taken in.

ghost use Rattle.std.specs.Prelude.{◌≡◌};
ghost use Rattle.cq_room.specs.Marks.{Leaves, WereAccepted, entries_in};
ghost use Rattle.cq_room.specs.Steps.Marks.{Ends};

use crate::mark::Mark;
use crate::names::RoomName;
use crate::trail::Trail;
use cq_desk::{Entry, Live};
use left_right::Absorb;
use std::alloc::AllocError;
use std::marker::Model;

/// A state with the trail that it has taken in. Contracts see the trail's marks and the content. That
/// the content is what the edits of the trail's entries leave over the room's opening content, and that each of these
/// was accepted after those before it, stands in this type, so it holds of each copy at any time.
#[derive(Drop)]
pub struct Shown<L: Live, N: RoomName<L::Content>> {
    state: L,
    trail: Trail<L, N>,
}

impl<L: Live, N: RoomName<L::Content>> Model for Shown<L, N> {
    ghost use Rattle.cq_room.specs.Seen.{ShownRecord};
    ghost use Rattle.cq_room.specs.Marks.{Leaves, WereAccepted, entries_in};

    ghost Value = { ShownRecord L.Edit L.Content };

    ghost view = { λ s. record { marks = s.trail; content = L.content s.state } };

    ghost invariant = { λ s. Leaves L.after N.opening (entries_in s.trail) (L.content s.state) × WereAccepted L.after L.why N.opening (entries_in s.trail) };
}

/// One mark more, with the trail that it ends. Contracts see that trail's marks.
#[derive(Drop)]
pub struct Step<L: Live, N: RoomName<L::Content>> {
    entry: Option<Entry<L::Edit>>,
    trail: Trail<L, N>,
}

impl<L: Live, N: RoomName<L::Content>> Model for Step<L, N> {
    ghost use Rattle.std.specs.Prelude.{List};
    ghost use Rattle.cq_room.specs.declared.mark.Mark.{Mark};
    ghost use Rattle.cq_room.specs.Steps.Marks.{Ends};

    ghost Value = { List (Mark L.Edit) };

    ghost view = { λ s. s.trail };

    ghost invariant = { λ s. Ends s.trail s.entry };
}

impl<L: Live, N: RoomName<L::Content>> Shown<L, N> {
    /// The state over the trail that leaves it.
    pub(crate) fn over(state: L, trail: Trail<L, N>) -> Shown<L, N>
        requires leaves { Leaves L.after N.opening (entries_in trail) (L.content state) }
        requires accepted { WereAccepted L.after L.why N.opening (entries_in trail) }
        ensures { (result.marks ≡ trail) × (result.content ≡ L.content state) }
    {
        Shown { state, trail }
    }

    /// The state.
    pub(crate) fn state(&self) -> &L
        ensures content { L.content result.now ≡ self.now.content }
        ensures leaves { Leaves L.after N.opening (entries_in self.now.marks) (L.content result.now) }
        ensures accepted { WereAccepted L.after L.why N.opening (entries_in self.now.marks) }
    {
        &self.state
    }

    /// The trail.
    pub(crate) fn trail(&self) -> &Trail<L, N>
        ensures marks { result.now ≡ self.now.marks }
        ensures leaves { Leaves L.after N.opening (entries_in self.now.marks) self.now.content }
        ensures accepted { WereAccepted L.after L.why N.opening (entries_in self.now.marks) }
    {
        &self.trail
    }
}

impl<L: Live, N: RoomName<L::Content>> Step<L, N> {
    /// The step that adds the entry, or ends a publication where there is none.
    pub(crate) fn over(entry: Option<Entry<L::Edit>>, trail: Trail<L, N>) -> Step<L, N>
        requires { Ends trail entry }
        ensures { result ≡ trail }
    {
        Step { entry, trail }
    }
}

impl<L: Live, N: RoomName<L::Content>> Absorb<Step<L, N>> for Shown<L, N> {
    type State = [Mark<L::Edit>; 0];

    ghost state = { λ s. s.marks };

    ghost applied = { λ _ step. step };

    /// Takes the edit of the step's entry into the state.
    ///
    /// # Errors
    /// Where an allocation failed. Nothing has changed then, and the step can be taken later.
    fn absorb_first(
        &mut self,
        operation: &Step<L, N>,
        _other: &Shown<L, N>,
    ) -> Result<(), AllocError> {
        if !self.trail.is_followed_by(&operation.trail) {
            return Err(AllocError);
        }
        match &operation.entry {
            None => {
                self.trail = operation.trail.again();
                Ok(())
            }
            Some(entry) => match self.state.admit(&entry.edit) {
                Ok(None) => {
                    self.trail = operation.trail.again();
                    Ok(())
                }
                // The working state has accepted it after the same edits.
                Ok(Some(_)) => Err(AllocError),
                Err(_) => Err(AllocError),
            },
        }
    }
}
