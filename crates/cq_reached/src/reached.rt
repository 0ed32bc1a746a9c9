//! The choice for those that are reached.

ghost use Rattle.std.specs.Prelude.{◌≡◌, ◌≤◌, map, true, IfOk};
ghost use Rattle.std.specs.List.{All, Contains};
ghost use Rattle.cq_board.specs.Choice.{chosen_name};
ghost use Rattle.cq_board.specs.Named.{matched_names};
ghost use Rattle.cq_choose.specs.Choosing.{IfFound, IsChoiceFor};
ghost use Rattle.cq_reached.specs.Reached.{IsReachedChoice};
ghost use Rattle.cq_reached.specs.Steps.Taking.{names_of};

use crate::at_once::{Start, start_of};
use crate::groups::labels_of;
use crate::quick::{Reach, Taken, has_choice, take_all};
use crate::sure::{SureReach, take_surely};
use cq_atom::Name;
use cq_board::{Board, Choice};
use cq_choose::{Answer, Sought};
use std::alloc::{AllocError, Allocator};

/// Whether one of the choices is for each of those that are taken.
fn have_all<A: Allocator>(choices: &[Choice<A>], taken: &[Taken<'_, A>]) -> bool
    ensures { result ≡ true → All (Contains (map chosen_name choices.now)) (names_of taken.now) }
{
    for one in taken {
        if !has_choice(choices, one.name) {
            return false;
        }
    }
    true
}

/// Whether the choices coordinate, and have all that are taken.
fn is_choice_for<A: Allocator + Copy>(
    board: &Board<A>,
    choices: &[Choice<A>],
    taken: &[Taken<'_, A>],
) -> bool
    ensures { result ≡ true → IsChoiceFor board.now (names_of taken.now) choices.now }
{
    board.check_choice(choices) && have_all(choices, taken)
}

/// The same as [`choose_reached`], without groups, after so many steps.
fn choose_surely<A: Allocator + Copy>(
    alloc: A,
    board: &Board<A>,
    names: &[&Name<A>],
    budget: u64,
    steps: u64,
) -> Result<Sought<A>, AllocError>
    requires names { map (λ name. name.now) names.now ≡ matched_names board.now }
    requires within { steps ≤ budget }
    ensures found { IfOk result (λ sought. IfFound sought.answer (IsReachedChoice board.now)) }
    ensures possible { IfOk result (λ sought. sought.answer ≡ Answer.Impossible → ⊥) }
    ensures undecided { IfOk result (λ sought. sought.answer ≡ Answer.Undecided → sought.steps ≡ budget) }
    ensures within { IfOk result (λ sought. sought.steps ≤ budget) }
{
    let mut reach = SureReach {
        taken: Vec::new(alloc),
        choices: Vec::new(alloc),
        steps,
    };
    let told = take_surely(alloc, board, &mut reach, names, budget)?;
    let SureReach {
        taken: _,
        choices,
        steps,
    } = reach;
    let answer = if told {
        Answer::Found(choices)
    } else {
        Answer::Undecided
    };
    Ok(Sought { answer, steps })
}

/// Looks for a coordinating choice for as many of the matched queries as are reached first: one after the other in posting order, each
/// is taken of which some coordinating choice has it and all that were taken before it. It never tells that there is none, since the
/// choice of nothing coordinates.
///
/// A step is one grounding that is tried, as in [`choose`](cq_choose::choose), which is asked for all of them at once, and where that fails
/// within two steps a name, for half of their groups and then for the others, down to single groups. A query for which something is found
/// so is taken without a step. For each other one `choose` is asked for it and for those of its group that are taken. Each time takes the time
/// and memory that `choose` takes for so many names. Besides, each name is compared with those for which something is chosen so far, and in the
/// end the choices are tested once, as [`check_choice`](Board::check_choice) does. The groups are found once, in the time of
/// [`group_labels`](cq_groups::group_labels).
///
/// # Errors
/// `AllocError` where an allocation failed.
pub fn choose_reached<A: Allocator + Copy>(
    alloc: A,
    board: &Board<A>,
    budget: u64,
) -> Result<Sought<A>, AllocError>
    ensures found { IfOk result (λ sought. IfFound sought.answer (IsReachedChoice board.now)) }
    ensures possible { IfOk result (λ sought. sought.answer ≡ Answer.Impossible → ⊥) }
    ensures undecided { IfOk result (λ sought. sought.answer ≡ Answer.Undecided → sought.steps ≡ budget) }
    ensures within { IfOk result (λ sought. sought.steps ≤ budget) }
{
    let names = board.matched()?;
    let labels = labels_of(alloc, board)?;
    let Start { choices, steps } = start_of(alloc, board, &labels, &names, budget)?;
    let mut reach = Reach {
        taken: Vec::new(alloc),
        choices,
        steps,
    };
    let told = take_all(alloc, board, &labels, &mut reach, &names, budget)?;
    let Reach {
        taken,
        choices,
        steps,
    } = reach;
    if !told {
        let answer = Answer::Undecided;
        return Ok(Sought { answer, steps });
    }
    // It always is one, since groups share nothing. What is answered does not rest on that.
    if is_choice_for(board, &choices, &taken) {
        let answer = Answer::Found(choices);
        return Ok(Sought { answer, steps });
    }
    choose_surely(alloc, board, &names, budget, steps)
}
