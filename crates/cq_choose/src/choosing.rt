//! The search for a coordinating choice.

ghost use Rattle.std.specs.Prelude.{◌≡◌, ◌≤◌, List, map, IfOk};
ghost use Rattle.cq_board.specs.Choice.{ChoiceRecord};
ghost use Rattle.cq_choose.specs.Choosing.{IfFound, IsChoiceFor};
ghost use Rattle.cq_choose.specs.Steps.Answers.{Answers};
ghost use Rattle.cq_choose.specs.Steps.Offers.{offer_of};

use crate::offers::{Offer, choices_of, offers_of};
use crate::reach::left_out;
use crate::stock::{members_of, stocked, wanted_of};
use cq_atom::Name;
use cq_board::{Board, Choice};
use cq_select::{Search, Selected, Supply, select};
use std::alloc::{AllocError, Allocator, Global};

/// What was found.
#[derive(Drop)]
pub enum Answer<A: Allocator = Global> {
    /// Choices that coordinate, among them one for each of the names.
    Found(Vec<Choice<A>, A>),
    /// There are none.
    Impossible,
    /// Neither was found within the budget.
    Undecided,
}

/// What was found, and what it cost.
#[derive(Drop)]
pub struct Sought<A: Allocator = Global> {
    /// What was found.
    pub answer: Answer<A>,
    /// How many groundings were tried.
    pub steps: u64,
}

/// What was found, as choices.
fn answer_of<A: Allocator + Copy>(
    alloc: A,
    offers: &[Offer<'_, A>],
    selected: Selected<A>,
) -> Result<Answer<A>, AllocError>
    ensures { IfOk result (Answers (map offer_of offers.now) selected) }
{
    match selected {
        Selected::Found(chosen) => Ok(Answer::Found(choices_of(alloc, offers, &chosen)?)),
        Selected::Impossible => Ok(Answer::Impossible),
        Selected::Undecided => Ok(Answer::Undecided),
    }
}

/// Looks for a coordinating choice in which something is chosen for the query of each of the names. A name may stand there twice. There is
/// none where no query is pending under one of the names, or where one of the queries waits.
///
/// A step is one grounding that is tried for a postcondition or for a name. To tell whether there is such a choice is NP-complete (Gupta et al.,
/// SIGMOD 2011), so the budget may be used up.
///
/// It looks only at the queries that are concerned: the matched ones among those of the names, among the providers of these, and so on. Before the
/// first step it lists their groundings, and numbers what each offers and awaits, which takes time and memory in proportion to these groundings times
/// the atoms of their queries. To find them it lists all edges, looks at each pending query, compares its name with each of the names, and looks once
/// more at each that is concerned.
///
/// # Errors
/// `AllocError` where an allocation failed.
pub fn choose<A: Allocator + Copy>(
    alloc: A,
    board: &Board<A>,
    names: &[Name<A>],
    budget: u64,
) -> Result<Sought<A>, AllocError>
    ensures found { IfOk result (λ sought. IfFound sought.answer (IsChoiceFor board.now names.now)) }
    ensures none { IfOk result (λ sought. sought.answer ≡ Answer.Impossible → (choices : List ChoiceRecord) → IsChoiceFor board.now names.now choices → ⊥) }
    ensures undecided { IfOk result (λ sought. sought.answer ≡ Answer.Undecided → sought.steps ≡ budget) }
    ensures within { IfOk result (λ sought. sought.steps ≤ budget) }
{
    let _good = board.len();
    let spare = left_out(alloc, board, names)?;
    let offers = offers_of(alloc, board, &spare)?;
    let stock = stocked(alloc, &offers)?;
    let members = members_of(alloc, &stock, &offers)?;
    let wanted = wanted_of(alloc, &stock, names)?;
    let supply = Supply {
        members,
        suppliers: stock.suppliers,
    };
    let Search { selected, steps } = select(alloc, &supply, &wanted, budget)?;
    let answer = answer_of(alloc, &offers, selected)?;
    Ok(Sought { answer, steps })
}
