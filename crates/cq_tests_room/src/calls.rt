//! The calls of which each allocation is refused in turn.

use crate::desk::desking::{Nobody, calls_on, plain_desk};
use crate::met::Met;
use crate::room::plays::in_room_over;
use crate::states::Shared;
use crate::tally::Tally;
use cq_board::Board;
use std::alloc::Allocator;
use std::sync::Wait;

/// The calls that are made.
#[derive(Clone, Copy)]
pub enum Calls {
    /// None. A desk, of a closed room or another one, stands as it began.
    Idle,
    /// Two edits are submitted in a room.
    InRoom,
    /// Two sessions meet in a room. The second one looks before it submits, or does not. Both are handed in where the room is
    /// closed, or are not.
    Meeting { looks: bool, hand_in: bool },
    /// Two edits are entered one by one on a desk, and published.
    Enter,
    /// Two edits are entered on a desk, each of which is published before the next one.
    EnterEach,
    /// Two edits are submitted on a desk.
    Submit,
}

/// What the calls are made on.
#[derive(Clone, Copy)]
pub enum Over {
    /// A desk over a tally that is published by one state.
    Plain,
    /// A room over a tally, or its desk.
    Tally,
    /// A room over a board, or its desk.
    Board,
}

/// The calls, and what they are made on.
#[derive(Clone, Copy)]
pub struct Trial {
    pub over: Over,
    pub calls: Calls,
}

/// What comes of the calls on a desk over such a state.
fn on_plain<L: Shared<A>, A: Allocator + Copy>(alloc: A, calls: Calls) -> Met {
    let Some(state) = L::begun(alloc, 9) else {
        return Met::Setup;
    };
    match plain_desk(alloc, state, 9) {
        Ok(mut desk) => calls_on(&(), alloc, &mut desk, Nobody, calls),
        Err(_) => Met::Begin,
    }
}

fn on_board<R: Wait + Drop + Copy, A: Allocator + Copy>(rt: R, alloc: A, calls: Calls) -> Met {
    in_room_over::<Board<A>, R, A>(rt, alloc, calls)
}

fn on_tally<R: Wait + Drop + Copy, A: Allocator + Copy>(rt: R, alloc: A, calls: Calls) -> Met {
    in_room_over::<Tally<A>, R, A>(rt, alloc, calls)
}

fn tried<R: Wait + Drop + Copy, A: Allocator + Copy>(
    rt: R,
    alloc: A,
    over: Over,
    calls: Calls,
) -> Met {
    match over {
        Over::Plain => on_plain::<Tally<A>, A>(alloc, calls),
        Over::Tally => on_tally(rt, alloc, calls),
        Over::Board => on_board(rt, alloc, calls),
    }
}

/// What comes of the trial. Where an allocation failed in beginning a desk or a room, or in opening it, another one then begins and
/// is opened.
pub fn attempt<R: Wait + Drop + Copy, A: Allocator + Copy>(rt: R, alloc: A, trial: Trial) -> Met {
    let met = tried(rt, alloc, trial.over, trial.calls);
    match met {
        Met::Begin | Met::Open => {
            met.if_right(tried(rt, alloc, trial.over, Calls::Idle) == Met::Nothing)
        }
        _ => met,
    }
}
