//! What is told of a coordinating choice that is sought.

ghost use Rattle.std.specs.Prelude.{◌≡◌, ◌++◌, ℕ, List, string_bytes, IfOk, OnOk};
ghost use Rattle.cq_going.specs.Going.{IsWhyNone, HasNone, IsSoughtTold, IsFor};
ghost use Rattle.cq_going.specs.Steps.Answers.{IsAnswerFor};

use crate::listing::put_choices;
use crate::reasons::{put_all_barred, put_disagreement};
use cq_atom::Name;
use cq_board::{Board, Choice};
use cq_choose::{Answer, Sought, choose};
use cq_reached::choose_reached;
use std::alloc::{AllocError, Allocator, Global};

/// How many groundings are tried where no other number is given.
pub const MOST_STEPS: u64 = 1_000_000;

/// What was found.
#[derive(Clone, Copy, Debug, PartialEq, Eq)]
pub enum Outcome {
    /// Choices that coordinate.
    Found,
    /// There are none.
    Impossible,
    /// Neither was found within the budget.
    Undecided,
}

/// What was found, and what is told of it.
#[derive(Drop)]
pub struct Told<A: Allocator = Global> {
    /// What was found.
    pub outcome: Outcome,
    /// Whole lines.
    pub text: String<A>,
}

/// Looks for a coordinating choice that has the queries of these names; where there is none of them, for one that has as many as are reached.
pub(crate) fn sought_for<A: Allocator + Copy>(
    alloc: A,
    board: &Board<A>,
    names: &[Name<A>],
    budget: u64,
) -> Result<Sought<A>, AllocError>
    ensures { IfOk result (λ sought. IsAnswerFor board.now names.now sought.answer) }
{
    if names.is_empty() {
        choose_reached(alloc, board, budget)
    } else {
        choose(alloc, board, names, budget)
    }
}

/// Puts why there is none.
fn put_why<A: Allocator + Copy>(
    alloc: A,
    board: &Board<A>,
    names: &[Name<A>],
    page: &mut String<A>,
) -> Result<(), AllocError>
    ensures { OnOk result ((why : List ℕ) × IsWhyNone board.now names.now why × (string_bytes page.new ≡ string_bytes page.old ++ why)) }
{
    put_all_barred(page, board, names)?;
    put_disagreement(alloc, board, names, page)
}

/// Tells that there is none, and why, as far as it is told.
fn told_none<A: Allocator + Copy>(
    alloc: A,
    board: &Board<A>,
    names: &[Name<A>],
) -> Result<Told<A>, AllocError>
    requires { HasNone board.now names.now }
    ensures { IfOk result (λ told. IsSoughtTold board.now names.now told.outcome (string_bytes told.text)) }
{
    let mut text = String::from_str(alloc, "none\n")?;
    put_why(alloc, board, names, &mut text)?;
    Ok(Told {
        outcome: Outcome::Impossible,
        text,
    })
}

/// Tells of choices that were found.
fn told_found<A: Allocator + Copy>(
    alloc: A,
    board: &Board<A>,
    names: &[Name<A>],
    choices: &[Choice<A>],
) -> Result<Told<A>, AllocError>
    requires { IsFor board.now names.now choices.now }
    ensures { IfOk result (λ told. IsSoughtTold board.now names.now told.outcome (string_bytes told.text)) }
{
    if choices.is_empty() {
        return told_none(alloc, board, names);
    }
    let mut text = String::new(alloc);
    put_choices(&mut text, board, choices)?;
    Ok(Told {
        outcome: Outcome::Found,
        text,
    })
}

/// Looks for a coordinating choice that has the queries of these names, and tells of it: the choices in one line, as they are read after `choice`, and then the
/// atoms that each offers; or `none`, and why, as far as it is told; or `undecided` where neither was found within the budget, in steps as `choose` counts
/// them. Where no name is given, it looks for a choice that has as many of the matched queries as are reached, one after the other in posting order.
///
/// # Errors
/// `AllocError` where an allocation failed.
pub fn tell_choice<A: Allocator + Copy>(
    alloc: A,
    board: &Board<A>,
    names: &[Name<A>],
    budget: u64,
) -> Result<Told<A>, AllocError>
    ensures { IfOk result (λ told. IsSoughtTold board.now names.now told.outcome (string_bytes told.text)) }
{
    let sought = sought_for(alloc, board, names, budget)?;
    match sought.answer {
        Answer::Found(choices) => told_found(alloc, board, names, &choices),
        Answer::Impossible => told_none(alloc, board, names),
        Answer::Undecided => Ok(Told {
            outcome: Outcome::Undecided,
            text: String::from_str(alloc, "undecided\n")?,
        }),
    }
}
