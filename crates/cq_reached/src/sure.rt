//! The queries that are taken, each looked for together with all that were taken before it. It takes more steps than to look in a group
//! alone, and nothing has to be known of groups.

ghost use Rattle.std.specs.Prelude.{◌≡◌, ◌≤◌, ◌++◌, ◌∷◌, [], true, false, map, IfOk, OnOk};
ghost use Rattle.cq_choose.specs.Choosing.{IsChoiceFor};
ghost use Rattle.cq_reached.specs.Steps.Taking.{IsNext, AreTaken};

use cq_atom::Name;
use cq_board::{Board, Choice};
use cq_choose::{Answer, Sought, choose};
use std::alloc::{AllocError, Allocator};

/// How far it is reached, with choices for those that are taken.
#[derive(Drop)]
pub(crate) struct SureReach<A: Allocator> {
    /// Those that are taken, in posting order.
    pub taken: Vec<Name<A>, A>,
    /// Choices that coordinate, among them one for each that is taken.
    pub choices: Vec<Choice<A>, A>,
    /// How many groundings were tried.
    pub steps: u64,
}

/// Takes the query of that name, unless no coordinating choice has it and all that are taken. Whether that could be told.
fn take_next<A: Allocator + Copy>(
    alloc: A,
    board: &Board<A>,
    reach: &mut SureReach<A>,
    name: &Name<A>,
    budget: u64,
) -> Result<bool, AllocError>
    requires within { reach.old.steps ≤ budget }
    requires choice { IsChoiceFor board.now reach.old.taken.items reach.old.choices.items }
    ensures within { OnOk result (reach.new.steps ≤ budget) }
    ensures undecided { IfOk result (λ told. told ≡ false → reach.new.steps ≡ budget) }
    ensures next { IfOk result (λ told. told ≡ true → IsNext board.now reach.old.taken.items name.now reach.new.taken.items) }
    ensures choice { IfOk result (λ told. told ≡ true → IsChoiceFor board.now reach.new.taken.items reach.new.choices.items) }
{
    reach.taken.push(name.copy()?)?;
    let Sought { answer, steps } = choose(alloc, board, &reach.taken, budget - reach.steps)?;
    reach.steps += steps;
    match answer {
        Answer::Found(choices) => {
            reach.choices = choices;
            Ok(true)
        }
        Answer::Impossible => {
            let _last = reach.taken.pop();
            Ok(true)
        }
        Answer::Undecided => Ok(false),
    }
}

/// Takes one after the other of the names, within the budget. Whether that could be told of all.
pub(crate) fn take_surely<A: Allocator + Copy>(
    alloc: A,
    board: &Board<A>,
    reach: &mut SureReach<A>,
    names: &[&Name<A>],
    budget: u64,
) -> Result<bool, AllocError>
    requires within { reach.old.steps ≤ budget }
    requires none { reach.old.taken.items ≡ [] }
    requires choice { IsChoiceFor board.now reach.old.taken.items reach.old.choices.items }
    ensures within { OnOk result (reach.new.steps ≤ budget) }
    ensures undecided { IfOk result (λ told. told ≡ false → reach.new.steps ≡ budget) }
    ensures taken { IfOk result (λ told. told ≡ true → AreTaken board.now (map (λ name. name.now) names.now) reach.new.taken.items) }
    ensures choice { IfOk result (λ told. told ≡ true → IsChoiceFor board.now reach.new.taken.items reach.new.choices.items) }
{
    for name in names {
        if !take_next(alloc, board, reach, name, budget)? {
            return Ok(false);
        }
    }
    Ok(true)
}
