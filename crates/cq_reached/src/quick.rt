//! The queries that are taken, each looked for in its group alone. Whether the choices of all groups coordinate is not told here.

ghost use Rattle.std.specs.Prelude.{◌≡◌, ◌≤◌, ◌++◌, ◌∷◌, [], true, false, map, IfOk, OnOk};
ghost use Rattle.std.specs.List.{All, Contains, list_any};
ghost use Rattle.std.specs.Str.{bytes_eq};
ghost use Rattle.cq_reached.specs.Steps.Taking.{names_of, IsNext, AreTaken};

use crate::groups::{Labels, label_of};
use cq_atom::Name;
use cq_board::{Board, Choice};
use cq_choose::{Answer, Sought, choose};
use std::alloc::{AllocError, Allocator};

/// A query that is taken: its name, and the label of its group.
#[derive(Drop)]
pub(crate) struct Taken<'b, A: Allocator> {
    pub name: &'b Name<A>,
    pub label: usize,
}

/// How far it is reached.
#[derive(Drop)]
pub(crate) struct Reach<'b, A: Allocator> {
    /// Those that are taken, in posting order.
    pub taken: Vec<Taken<'b, A>, A>,
    /// What is chosen in each group, for those of it that are taken and maybe for others.
    pub choices: Vec<Choice<A>, A>,
    /// How many groundings were tried.
    pub steps: u64,
}

/// The name of the query for which is chosen.
fn chosen_name<'c, A: Allocator>(choice: &'c Choice<A>) -> &'c Name<A>
    ensures { result.now ≡ choice.now.name }
{
    &choice.name
}

fn is_for<A: Allocator>(choice: &Choice<A>, name: &Name<A>) -> bool
    ensures { result ≡ bytes_eq name.now choice.now.name }
{
    name.as_str() == chosen_name(choice).as_str()
}

/// Whether one of the choices is for that name.
pub(crate) fn has_choice<A: Allocator>(choices: &[Choice<A>], name: &Name<A>) -> bool
    ensures { result ≡ list_any (λ c. bytes_eq name.now c.name) choices.now }
{
    choices.iter().any(|choice| is_for(choice, name))
}

/// The name, after the names of those that are taken in the group.
fn part_of<A: Allocator + Copy>(
    alloc: A,
    taken: &[Taken<'_, A>],
    label: usize,
    name: &Name<A>,
) -> Result<Vec<Name<A>, A>, AllocError>
    ensures { IfOk result (λ part. All (Contains (names_of taken.now ++ name.now ∷ [])) part.items) }
{
    let mut part = Vec::new(alloc);
    for one in taken {
        if one.label == label {
            part.push(one.name.copy()?)?;
        }
    }
    part.push(name.copy()?)?;
    Ok(part)
}

/// Lets these be what is chosen in the group.
fn choose_in_group<A: Allocator>(
    choices: &mut Vec<Choice<A>, A>,
    labels: &Labels<'_, A>,
    label: usize,
    mut new: Vec<Choice<A>, A>,
) -> Result<(), AllocError> {
    choices.retain(|choice| label_of(labels, chosen_name(choice)) != label);
    choices.append(&mut new)?;
    Ok(())
}

/// Takes the query of that name, unless no coordinating choice has it and those of its group that are taken. Whether that could be told.
fn look_in_group<'b, A: Allocator + Copy>(
    alloc: A,
    board: &Board<A>,
    labels: &Labels<'_, A>,
    reach: &mut Reach<'b, A>,
    name: &'b Name<A>,
    budget: u64,
) -> Result<bool, AllocError>
    requires { reach.old.steps ≤ budget }
    ensures within { OnOk result (reach.new.steps ≤ budget) }
    ensures undecided { IfOk result (λ told. told ≡ false → reach.new.steps ≡ budget) }
    ensures next { IfOk result (λ told. told ≡ true → IsNext board.now (names_of reach.old.taken.items) name.now (names_of reach.new.taken.items)) }
{
    let label = label_of(labels, name);
    let part = part_of(alloc, &reach.taken, label, name)?;
    let Sought { answer, steps } = choose(alloc, board, &part, budget - reach.steps)?;
    reach.steps += steps;
    match answer {
        Answer::Found(new) => {
            choose_in_group(&mut reach.choices, labels, label, new)?;
            reach.taken.push(Taken { name, label })?;
            Ok(true)
        }
        Answer::Impossible => Ok(true),
        Answer::Undecided => Ok(false),
    }
}

/// Takes the query of that name, where something is chosen for it, or else looks for it. Whether that could be told.
fn take_next<'b, A: Allocator + Copy>(
    alloc: A,
    board: &Board<A>,
    labels: &Labels<'_, A>,
    reach: &mut Reach<'b, A>,
    name: &'b Name<A>,
    budget: u64,
) -> Result<bool, AllocError>
    requires { reach.old.steps ≤ budget }
    ensures within { OnOk result (reach.new.steps ≤ budget) }
    ensures undecided { IfOk result (λ told. told ≡ false → reach.new.steps ≡ budget) }
    ensures next { IfOk result (λ told. told ≡ true → IsNext board.now (names_of reach.old.taken.items) name.now (names_of reach.new.taken.items)) }
{
    if has_choice(&reach.choices, name) {
        let label = label_of(labels, name);
        reach.taken.push(Taken { name, label })?;
        return Ok(true);
    }
    look_in_group(alloc, board, labels, reach, name, budget)
}

/// Takes one after the other of the names, within the budget. Whether that could be told of all.
pub(crate) fn take_all<'b, A: Allocator + Copy>(
    alloc: A,
    board: &Board<A>,
    labels: &Labels<'_, A>,
    reach: &mut Reach<'b, A>,
    names: &[&'b Name<A>],
    budget: u64,
) -> Result<bool, AllocError>
    requires within { reach.old.steps ≤ budget }
    requires none { names_of reach.old.taken.items ≡ [] }
    ensures within { OnOk result (reach.new.steps ≤ budget) }
    ensures undecided { IfOk result (λ told. told ≡ false → reach.new.steps ≡ budget) }
    ensures taken { IfOk result (λ told. told ≡ true → AreTaken board.now (map (λ name. name.now) names.now) (names_of reach.new.taken.items)) }
{
    for name in names {
        if !take_next(alloc, board, labels, reach, name, budget)? {
            return Ok(false);
        }
    }
    Ok(true)
}
