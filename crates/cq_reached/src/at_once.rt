//! Groups of which all queries can go: they are looked for at once, many groups by one search. What is found saves steps, and what is answered
//! does not rest on it.

ghost use Rattle.std.specs.Prelude.{◌≤◌, IfOk, OnOk};

use crate::groups::{Labels, label_of};
use cq_atom::Name;
use cq_board::{Board, Choice};
use cq_choose::{Answer, Sought, choose};
use indexmap::IndexSet;
use std::alloc::{AllocError, Allocator};
use std::hash::{BuildHasherDefault, FoldHasher};

/// Labels, each with its number in the order in which they came.
type Numbers<A> = IndexSet<usize, BuildHasherDefault<FoldHasher>, A>;

/// The names of each group.
pub(crate) type Groups<A> = Vec<Vec<Name<A>, A>, A>;

/// How many groundings are tried at most for each name that is looked for beside others.
const TRIES: u64 = 2;

/// What was found.
#[derive(Drop)]
pub(crate) struct Start<A: Allocator> {
    /// What is chosen in the groups that were found.
    pub choices: Vec<Choice<A>, A>,
    /// How many groundings were tried.
    pub steps: u64,
}

/// Adds the name to the group of that number.
fn add<A: Allocator + Copy>(
    groups: &mut Groups<A>,
    number: usize,
    name: &Name<A>,
) -> Result<(), AllocError> {
    if let Some(names) = groups.get_mut(number) {
        names.push(name.copy()?)?;
    }
    Ok(())
}

/// The names by their groups.
fn groups_of<A: Allocator + Copy>(
    alloc: A,
    labels: &Labels<'_, A>,
    names: &[&Name<A>],
) -> Result<Groups<A>, AllocError> {
    let mut numbers: Numbers<A> = IndexSet::new(alloc);
    let mut groups = Vec::new(alloc);
    for name in names {
        let (number, is_new) = numbers.insert_full(label_of(labels, name))?;
        if is_new {
            groups.push(Vec::new(alloc))?;
        }
        add(&mut groups, number, name)?;
    }
    Ok(groups)
}

fn add_all<A: Allocator + Copy>(
    all: &mut Vec<Name<A>, A>,
    names: &[Name<A>],
) -> Result<(), AllocError> {
    for name in names {
        all.push(name.copy()?)?;
    }
    Ok(())
}

/// All names of the groups.
fn names_of<A: Allocator + Copy>(
    alloc: A,
    groups: &[Vec<Name<A>, A>],
) -> Result<Vec<Name<A>, A>, AllocError> {
    let mut all = Vec::new(alloc);
    for names in groups {
        add_all(&mut all, names)?;
    }
    Ok(all)
}

/// Looks for all of these groups, in few steps. Whether something was found.
fn look_at_once<A: Allocator + Copy>(
    alloc: A,
    board: &Board<A>,
    groups: &[Vec<Name<A>, A>],
    start: &mut Start<A>,
    budget: u64,
) -> Result<bool, AllocError>
    requires { start.old.steps ≤ budget }
    ensures { OnOk result (start.new.steps ≤ budget) }
{
    let names = names_of(alloc, groups)?;
    let tries = (names.len() as u64).saturating_mul(TRIES);
    let most = tries.min(budget - start.steps);
    let Sought { answer, steps } = choose(alloc, board, &names, most)?;
    start.steps += steps;
    match answer {
        Answer::Found(mut choices) => {
            start.choices.append(&mut choices)?;
            Ok(true)
        }
        Answer::Impossible | Answer::Undecided => Ok(false),
    }
}

/// Looks for all of these groups, and where nothing was found, for half of them and then for the others.
fn look_for_groups<A: Allocator + Copy>(
    alloc: A,
    board: &Board<A>,
    groups: &[Vec<Name<A>, A>],
    start: &mut Start<A>,
    budget: u64,
) -> Result<(), AllocError>
    requires { start.old.steps ≤ budget }
    ensures { OnOk result (start.new.steps ≤ budget) }
{
    if look_at_once(alloc, board, groups, start, budget)? || groups.len() < 2 {
        return Ok(());
    }
    let (some, others) = groups.split_at(groups.len() / 2);
    look_for_groups(alloc, board, some, start, budget)?;
    look_for_groups(alloc, board, others, start, budget)
}

/// What is chosen in the groups of these names of which all can go, as far as a few steps tell.
pub(crate) fn start_of<A: Allocator + Copy>(
    alloc: A,
    board: &Board<A>,
    labels: &Labels<'_, A>,
    names: &[&Name<A>],
    budget: u64,
) -> Result<Start<A>, AllocError>
    ensures { IfOk result (λ start. start.steps ≤ budget) }
{
    let groups = groups_of(alloc, labels, names)?;
    let mut start = Start {
        choices: Vec::new(alloc),
        steps: 0,
    };
    look_for_groups(alloc, board, &groups, &mut start, budget)?;
    Ok(start)
}
