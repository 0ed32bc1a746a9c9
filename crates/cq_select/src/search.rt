//! The search for a selection.

ghost use Rattle.std.specs.Prelude.{◌≡◌, ◌≤◌, ℕ, List, IfOk};
ghost use Rattle.cq_select.specs.Selection.{IfFound, IsSelection};
ghost use Rattle.cq_select.specs.Steps.Facts.{chosen_of, IsScanning};

use crate::asked::next_need;
use crate::choosing::{Trial, choose};
use crate::supply::Supply;
use crate::trail::{Choice, Frame, Trail};
use std::alloc::{AllocError, Allocator, Global};
use std::collections::HashMap;

/// What was found.
#[derive(Drop)]
pub enum Selected<A: Allocator = Global> {
    /// A selection, by the numbers of its members.
    Found(Vec<usize, A>),
    /// There is none.
    Impossible,
    /// Neither was found within the budget.
    Undecided,
}

/// What a search found, and what it cost.
#[derive(Drop)]
pub struct Search<A: Allocator = Global> {
    /// What was found.
    pub selected: Selected<A>,
    /// How many members were tried.
    pub steps: u64,
}

/// How a search ended.
enum Ending {
    /// What was chosen is a selection.
    Complete,
    /// There is none.
    Impossible,
    /// The budget is used up.
    Stopped,
}

/// A search in which nothing is chosen.
fn begin<A: Allocator + Copy>(alloc: A, supply: &Supply<A>) -> Result<Trail<A>, AllocError>
    ensures { IfOk result (λ trail. (wanted : List ℕ) → IsScanning supply.now wanted trail) }
{
    let dead = vec![in alloc; false; supply.members.len()]?;
    let lost = vec![in alloc; false; supply.suppliers.len()]?;
    let choice = Choice {
        list: 0,
        place: 0,
        atom: 0,
        cause: None,
        tried: 0,
        reason: Vec::new(alloc),
    };
    Ok(Trail {
        choice,
        frames: Vec::new(alloc),
        seats: HashMap::new(alloc),
        dead,
        lost,
        alloc,
    })
}

/// Chooses a member for one need after the other, until all are met.
fn run<A: Allocator + Copy>(
    trail: &mut Trail<A>,
    supply: &Supply<A>,
    wanted: &[usize],
    steps: &mut u64,
    budget: u64,
) -> Result<Ending, AllocError>
    requires start { IsScanning supply.now wanted.now trail.old }
    requires within { steps.old ≤ budget }
    ensures within { steps.new ≤ budget }
    ensures complete { result ≡ Ok Ending.Complete → IsSelection supply.now wanted.now (chosen_of trail.new.frames.items) }
    ensures impossible { result ≡ Ok Ending.Impossible → (chosen : List ℕ) → IsSelection supply.now wanted.now chosen → ⊥ }
    ensures stopped { result ≡ Ok Ending.Stopped → steps.new ≡ budget }
{
    while next_need(trail, supply, wanted) {
        match choose(trail, supply, steps, budget)? {
            Trial::Chosen => {}
            Trial::Exhausted => return Ok(Ending::Impossible),
            Trial::Stopped => return Ok(Ending::Stopped),
        }
    }
    Ok(Ending::Complete)
}

/// The members chosen.
fn members_of<A: Allocator>(alloc: A, frames: &[Frame<A>]) -> Result<Vec<usize, A>, AllocError>
    ensures { IfOk result (λ chosen. chosen.items ≡ chosen_of frames.now) }
{
    frames.iter().map(|frame| frame.member).collect(alloc)
}

/// Looks for a selection for the wanted atoms: members, no two of one owner, who supply each atom that is wanted or that
/// one of them needs.
///
/// It takes the first need that is not met, tries its suppliers in their order, and goes back to an earlier choice where none
/// is left. A step is one member that is tried for a need; the search stops where the budget is used up and another step
/// is called for. To tell whether there is a selection is NP-complete (coordinating sets of entangled queries: Gupta et al.,
/// SIGMOD 2011), so a budget may be used up.
///
/// Which selection is found, of several, depends on the order of the suppliers. Besides its steps the search looks at each need
/// of those chosen, and at its suppliers up to the first that is chosen, again where it went back before it. It does not
/// recurse, and takes memory for each member, and for each need that is open at once. No clause says so.
///
/// # Errors
/// `AllocError` where an allocation failed.
pub fn select<A: Allocator + Copy>(
    alloc: A,
    supply: &Supply<A>,
    wanted: &[usize],
    budget: u64,
) -> Result<Search<A>, AllocError>
    ensures found { IfOk result (λ search. IfFound search.selected (IsSelection supply.now wanted.now)) }
    ensures none { IfOk result (λ search. search.selected ≡ Selected.Impossible → (chosen : List ℕ) → IsSelection supply.now wanted.now chosen → ⊥) }
    ensures undecided { IfOk result (λ search. search.selected ≡ Selected.Undecided → search.steps ≡ budget) }
    ensures within { IfOk result (λ search. search.steps ≤ budget) }
{
    let mut trail = begin(alloc, supply)?;
    let mut steps = 0;
    match run(&mut trail, supply, wanted, &mut steps, budget)? {
        Ending::Complete => {
            let chosen = members_of(alloc, &trail.frames)?;
            Ok(Search {
                selected: Selected::Found(chosen),
                steps,
            })
        }
        Ending::Impossible => Ok(Search {
            selected: Selected::Impossible,
            steps,
        }),
        Ending::Stopped => Ok(Search {
            selected: Selected::Undecided,
            steps,
        }),
    }
}
