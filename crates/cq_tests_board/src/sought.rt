//! Coordinating choices that are sought, and groups, with each allocation refused in turn.

use crate::samples::{Setup, WORKED, made};
use cq_atom::Name;
use cq_board::Board;
use cq_going::{groups, tell_choice};
use cq_groups::group_labels;
use cq_refusing::{Outcome, Tried, refusals};
use cq_select::{Member, Search, Selected, Supply, select};
use std::alloc::{AllocError, Allocator};

/// What is told: of a coordinating choice for these names, one a line, that is sought within the budget, or of the groups.
#[derive(Clone, Copy)]
enum Asked {
    Choice(&'static str, u64),
    Groups(u64),
}

/// A board, what is asked of it, and what is told.
type Telling = (Setup, Asked, &'static str);

/// Two friends with different dates: both are matched.
const TWO_DATES: Setup = Setup {
    first: "insert F(1)
insert T(2, 2)",
    then: "post a {A(x)} B(x) <- F(x)
post b {B(x)} A(x) <- T(x, x)",
};

const TOLD: &[Telling] = &[
    (
        WORKED,
        Asked::Choice("kramer\njerry", 100),
        "kramer(122) jerry(122)\n  kramer: R(\"Kramer\", 122)\n  jerry: R(\"Jerry\", 122)\n",
    ),
    (
        WORKED,
        Asked::Choice("", 100),
        "kramer(122) jerry(122)\n  kramer: R(\"Kramer\", 122)\n  jerry: R(\"Jerry\", 122)\n",
    ),
    (
        TWO_DATES,
        Asked::Choice("a\nb", 100),
        "none\n  a(1) awaits A(1), which none offers; b(2) offers A(2)\n",
    ),
    (TWO_DATES, Asked::Groups(100), "a b: cannot\n"),
    (
        WORKED,
        Asked::Choice("kramer\nnewman", 100),
        "none\n  newman is absent\n",
    ),
    (WORKED, Asked::Choice("kramer", 0), "undecided\n"),
];

fn name<A: Allocator>(alloc: A, word: &str) -> Result<Name<A>, AllocError> {
    match Name::new(alloc, word) {
        Ok(name) => Ok(name),
        Err(_) => Err(AllocError),
    }
}

fn names<A: Allocator + Copy>(alloc: A, words: &str) -> Result<Vec<Name<A>, A>, AllocError> {
    let mut names = Vec::new(alloc);
    for word in words.lines() {
        names.push(name(alloc, word)?)?;
    }
    Ok(names)
}

fn told<A: Allocator + Copy>(
    alloc: A,
    board: &Board<A>,
    asked: Asked,
) -> Result<String<A>, AllocError> {
    match asked {
        Asked::Choice(words, budget) => {
            let names = names(alloc, words)?;
            Ok(tell_choice(alloc, board, &names, budget)?.text)
        }
        Asked::Groups(budget) => groups(alloc, board, budget),
    }
}

fn is_told<A: Allocator + Copy>(
    alloc: A,
    board: &Board<A>,
    telling: &Telling,
) -> Result<bool, AllocError> {
    let text = told(alloc, board, telling.1)?;
    Ok(text.as_str() == telling.2)
}

fn outcome<A: Allocator + Copy>(alloc: A, board: &Board<A>, telling: &Telling) -> Outcome {
    match is_told(alloc, board, telling) {
        Ok(right) => Outcome::done_if(right),
        Err(_) => Outcome::refused_if(is_told(alloc, board, telling) == Ok(true)),
    }
}

fn tried_on<A: Allocator + Copy>(alloc: A, telling: &Telling) -> Outcome {
    match made(alloc, telling.0) {
        Ok(board) => outcome(alloc, &board, telling),
        Err(_) => Outcome::Unready,
    }
}

/// What is told at that place of the table.
struct Nth<const N: usize>;

impl<const N: usize> Tried for Nth<N> {
    fn tried<A: Allocator + Copy>(alloc: A) -> Outcome {
        match TOLD.get(N) {
            Some(telling) => tried_on(alloc, telling),
            None => Outcome::Wrong,
        }
    }
}

#[test]
fn failed_allocation_in_what_is_told(rt: HostRuntime) {
    assert!(rt; matches!(refusals::<Nth<0>>(rt.alloc()), Ok(15..)));
    assert!(rt; matches!(refusals::<Nth<1>>(rt.alloc()), Ok(15..)));
    assert!(rt; matches!(refusals::<Nth<2>>(rt.alloc()), Ok(15..)));
    assert!(rt; matches!(refusals::<Nth<3>>(rt.alloc()), Ok(15..)));
    assert!(rt; matches!(refusals::<Nth<4>>(rt.alloc()), Ok(5..)));
    assert!(rt; matches!(refusals::<Nth<5>>(rt.alloc()), Ok(5..)));
}

fn list<A: Allocator>(alloc: A, number: usize) -> Result<Vec<usize, A>, AllocError> {
    let mut list = Vec::new(alloc);
    list.push(number)?;
    Ok(list)
}

fn add<A: Allocator + Copy>(
    alloc: A,
    supply: &mut Supply<A>,
    owner: usize,
    need: usize,
    supplier: usize,
) -> Result<(), AllocError> {
    let needs = list(alloc, need)?;
    supply.members.push(Member { owner, needs })?;
    supply.suppliers.push(list(alloc, supplier)?)?;
    Ok(())
}

/// Two members, each of which supplies what the other needs.
fn two_members<A: Allocator + Copy>(alloc: A) -> Result<Supply<A>, AllocError> {
    let mut supply = Supply {
        members: Vec::new(alloc),
        suppliers: Vec::new(alloc),
    };
    add(alloc, &mut supply, 7, 1, 0)?;
    add(alloc, &mut supply, 9, 0, 1)?;
    Ok(supply)
}

/// How many are chosen for the first atom.
fn selected<A: Allocator + Copy>(alloc: A, supply: &Supply<A>) -> Result<usize, AllocError> {
    let Search { selected, steps: _ } = select(alloc, supply, &[0], 100)?;
    match selected {
        Selected::Found(chosen) => Ok(chosen.len()),
        _ => Ok(0),
    }
}

fn selected_of<A: Allocator + Copy>(alloc: A, supply: &Supply<A>) -> Outcome {
    match selected(alloc, supply) {
        Ok(count) => Outcome::done_if(count == 2),
        Err(_) => Outcome::refused_if(selected(alloc, supply) == Ok(2)),
    }
}

/// A selection out of a pair.
struct Pair;

impl Tried for Pair {
    fn tried<A: Allocator + Copy>(alloc: A) -> Outcome {
        match two_members(alloc) {
            Ok(supply) => selected_of(alloc, &supply),
            Err(_) => Outcome::Unready,
        }
    }
}

#[test]
fn failed_allocation_in_select(rt: HostRuntime) {
    assert!(rt; matches!(refusals::<Pair>(rt.alloc()), Ok(3..)));
}

fn are_grouped<A: Allocator>(alloc: A) -> Result<bool, AllocError> {
    let labels = group_labels(alloc, 6, &[(0, 1), (3, 2), (4, 3)])?;
    Ok(labels.as_slice() == [0, 0, 2, 2, 2, 5].as_slice())
}

/// Six nodes, of which the first two hang together, and the next three.
struct Groups;

impl Tried for Groups {
    fn tried<A: Allocator + Copy>(alloc: A) -> Outcome {
        match are_grouped(alloc) {
            Ok(right) => Outcome::done_if(right),
            Err(_) => Outcome::refused_if(are_grouped(alloc) == Ok(true)),
        }
    }
}

#[test]
fn failed_allocation_in_group_labels(rt: HostRuntime) {
    assert!(rt; matches!(refusals::<Groups>(rt.alloc()), Ok(1..)));
}
