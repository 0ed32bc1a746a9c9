//! Each allocation of a call refused in turn, and calls that ask for none.

use crate::able::P_AND_Q;
use crate::page::Page;
use crate::samples::{
    KRAMER_AND_JERRY, LIMITS, RELATIONS, Setup, TRAVEL, WORKED, catalog, edit, made, shows,
};
use crate::scratch::{Lists, is_worked, lists_of};
use crate::shown::{other_look, page_of};
use crate::views::{BY_SLIP, CROWD, CROWD_SHOWN, JERRY_WAITS, PAIR, SLIPS};
use cq_atom::Edit;
use cq_board::{Board, RelationFault, ScratchFault};
use cq_refusing::{Outcome, Refusing, Tried, refusals};
use cq_rel::Catalog;
use std::alloc::{AllocError, Allocator, Global};

/// What stands before a call, and the call: `begin` or `scratch`, by which a board is begun or is made from scratch; `copy`;
/// `declare`, by which it declares one relation more; `show`,
/// by which the board shows what stands after; or an edit, after which it shows what a board of the first lines and
/// those after does.
#[derive(Clone, Copy)]
struct Trial {
    setup: Setup,
    call: &'static str,
    behind: &'static str,
}

const BEGIN: Trial = Trial {
    setup: WORKED,
    call: "begin",
    behind: "",
};

const SCRATCH: Trial = Trial {
    setup: WORKED,
    call: "scratch",
    behind: "",
};

/// Two queries over one row.
const TWO: Setup = Setup {
    first: "insert F(1)",
    then: "post a {A(x)} B(x) <- F(x)
post b {B(x)} A(x) <- F(x)",
};

const COPY: Trial = Trial {
    setup: TWO,
    call: "copy",
    behind: "",
};

const DECLARE: Trial = Trial {
    setup: TWO,
    call: "declare",
    behind: "",
};

/// An edit by which a query is posted, which coordinates with the one that waits.
const JERRY_COMES: Trial = Trial {
    setup: Setup {
        first: TRAVEL,
        then: "post kramer {R(Jerry, x)} R(Kramer, x) <- Flights(x, Paris)",
    },
    call: "post jerry {R(Kramer, y)} R(Jerry, y) <- Flights(y, Paris), Airlines(y, United)",
    behind: KRAMER_AND_JERRY,
};

/// An edit by which a row is inserted, and two queries gain a grounding.
const ROW_COMES: Trial = Trial {
    setup: TWO,
    call: "insert F(2)",
    behind: "post a {A(x)} B(x) <- F(x)
post b {B(x)} A(x) <- F(x)
insert F(2)",
};

/// An edit by which a row is inserted, and a query becomes able.
const ROW_ENABLES: Trial = Trial {
    setup: Setup {
        first: P_AND_Q,
        then: "",
    },
    call: "insert F(7)",
    behind: "insert F(7)",
};

const VIEWS: Trial = Trial {
    setup: CROWD,
    call: "show",
    behind: CROWD_SHOWN,
};

const WHY_WAITING: Trial = Trial {
    setup: PAIR,
    call: "show",
    behind: JERRY_WAITS,
};

const NEAR_MISSES: Trial = Trial {
    setup: SLIPS,
    call: "show",
    behind: BY_SLIP,
};

const TRIALS: [Trial; 10] = [
    BEGIN,
    SCRATCH,
    COPY,
    JERRY_COMES,
    ROW_COMES,
    ROW_ENABLES,
    VIEWS,
    WHY_WAITING,
    NEAR_MISSES,
    DECLARE,
];

/// The trial at that place. It is looked up apart from the call, which is generic.
fn trial_at(place: usize) -> Option<Trial> {
    TRIALS.get(place).copied()
}

/// The trial at that place.
struct Nth<const N: usize>;

impl<const N: usize> Tried for Nth<N> {
    fn tried<A: Allocator + Copy>(alloc: A) -> Outcome {
        match trial_at(N) {
            Some(trial) => tried(alloc, trial),
            None => Outcome::Wrong,
        }
    }
}

/// Whether each allocation of the trial is refused in turn, and so many are at least.
fn is_refused<T: Tried>(alloc: Global, least: u64) -> bool {
    match refusals::<T>(alloc) {
        Ok(count) => count >= least,
        Err(_) => false,
    }
}

fn tried<A: Allocator + Copy>(alloc: A, trial: Trial) -> Outcome {
    match trial.call {
        "begin" => begun(alloc),
        "scratch" => scratched(alloc, trial.setup),
        _ => match made(alloc, trial.setup) {
            Ok(mut board) => {
                let outcome = on_board(alloc, &mut board, trial);
                drop(board);
                outcome
            }
            Err(_) => Outcome::Unready,
        },
    }
}

fn on_board<A: Allocator + Copy>(alloc: A, board: &mut Board<A>, trial: Trial) -> Outcome {
    match trial.call {
        "copy" => copied(alloc, board),
        "show" => shown(alloc, board, trial.behind),
        "declare" => declared(alloc, board),
        line => {
            let behind = Setup {
                first: trial.setup.first,
                then: trial.behind,
            };
            edited(alloc, board, line, behind)
        }
    }
}

/// What is known of the board that begins is large, and goes no further.
fn begun_over<A: Allocator + Copy>(alloc: A, catalog: Catalog<A>) -> Result<Board<A>, AllocError> {
    Board::begin(alloc, catalog, LIMITS)
}

/// Whether a board that is begun over the catalog has the limits, and neither query nor row.
fn begins<A: Allocator + Copy>(alloc: A, catalog: Catalog<A>) -> Result<bool, AllocError> {
    let board = begun_over(alloc, catalog)?;
    let other = other_look(alloc, &board, "counts: 0 3 9 0 0");
    drop(board);
    Ok(other?.is_none())
}

fn begins_again<A: Allocator + Copy>(alloc: A) -> bool {
    match catalog(alloc) {
        Ok(catalog) => begins(alloc, catalog) == Ok(true),
        Err(_) => false,
    }
}

fn begun<A: Allocator + Copy>(alloc: A) -> Outcome {
    let Ok(catalog) = catalog(alloc) else {
        return Outcome::Unready;
    };
    match begins(alloc, catalog) {
        Ok(empty) => Outcome::done_if(empty),
        Err(_) => Outcome::refused_if(begins_again(alloc)),
    }
}

fn is_worked_again<A: Allocator + Copy>(alloc: A, lists: &Lists<A>) -> bool {
    match catalog(alloc) {
        Ok(catalog) => is_worked(alloc, catalog, lists) == Ok(true),
        Err(_) => false,
    }
}

fn from_lists<A: Allocator + Copy>(alloc: A, lists: &Lists<A>) -> Outcome {
    let Ok(catalog) = catalog(alloc) else {
        return Outcome::Unready;
    };
    match is_worked(alloc, catalog, lists) {
        Ok(right) => Outcome::done_if(right),
        Err(fault) => Outcome::refused_if(
            fault == ScratchFault::NoMemory && is_worked_again(alloc, lists),
        ),
    }
}

fn scratched<A: Allocator + Copy>(alloc: A, setup: Setup) -> Outcome {
    match lists_of(alloc, setup) {
        Ok(lists) => {
            let outcome = from_lists(alloc, &lists);
            drop(lists);
            outcome
        }
        Err(_) => Outcome::Unready,
    }
}

/// What a copy of the board shows; nothing where the look was refused an allocation.
fn copy_of<A: Allocator + Copy>(alloc: A, board: &Board<A>) -> Result<Option<Page>, AllocError> {
    let copy = board.copy()?;
    let page = page_of(alloc, &copy);
    drop(copy);
    Ok(page.ok())
}

fn copied<A: Allocator + Copy>(alloc: A, board: &Board<A>) -> Outcome {
    let Ok(page) = page_of(alloc, board) else {
        return Outcome::Unready;
    };
    match copy_of(alloc, board) {
        Ok(Some(copy)) => Outcome::done_if(copy.is_same(&page)),
        Ok(None) => Outcome::Unready,
        Err(_) => Outcome::refused_if(match copy_of(alloc, board) {
            Ok(Some(copy)) => copy.is_same(&page),
            _ => false,
        }),
    }
}

/// Done, where that is what is shown; there is no telling where the look was refused an allocation.
fn done(shown: Result<bool, AllocError>) -> Outcome {
    match shown {
        Ok(shown) => Outcome::done_if(shown),
        Err(_) => Outcome::Unready,
    }
}

/// How many relations the board declares.
fn relations<A: Allocator + Copy>(board: &Board<A>) -> usize {
    board.tables().catalog().len()
}

/// Whether the board has so many relations, and shows what is on the page.
fn has_relations<A: Allocator + Copy>(
    alloc: A,
    board: &Board<A>,
    count: usize,
    page: &Page,
) -> Result<bool, AllocError> {
    Ok(relations(board) == count && page_of(alloc, board)?.is_same(page))
}

/// A relation's name that takes memory.
const LATER: &str = "RelationDeclaredLaterOn";

/// Whether a refused relation left all as it was, and the same relation then is declared.
fn declares_again<A: Allocator + Copy>(
    alloc: A,
    board: &mut Board<A>,
    before: &Page,
) -> Result<bool, AllocError> {
    let count = RELATIONS.len();
    Ok(
        has_relations(alloc, board, count, before)?
            && board.declare(LATER, 2) == Ok(())
            && has_relations(alloc, board, count + 1, before)?,
    )
}

fn declared<A: Allocator + Copy>(alloc: A, board: &mut Board<A>) -> Outcome {
    let Ok(before) = page_of(alloc, board) else {
        return Outcome::Unready;
    };
    match board.declare(LATER, 2) {
        Ok(()) => done(has_relations(alloc, board, RELATIONS.len() + 1, &before)),
        Err(fault) => Outcome::refused_if(
            fault == RelationFault::NoMemory && declares_again(alloc, board, &before) == Ok(true),
        ),
    }
}

/// Whether a refused edit left all as it was, and the same edit then is admitted.
fn admits_again<A: Allocator + Copy>(
    alloc: A,
    board: &mut Board<A>,
    edit: &Edit<A>,
    before: &Page,
    behind: Setup,
) -> Result<bool, AllocError> {
    Ok(
        page_of(alloc, board)?.is_same(before)
            && board.admit(edit) == Ok(None)
            && shows(alloc, board, behind)?,
    )
}

fn admitted<A: Allocator + Copy>(
    alloc: A,
    board: &mut Board<A>,
    edit: &Edit<A>,
    behind: Setup,
) -> Outcome {
    let Ok(before) = page_of(alloc, board) else {
        return Outcome::Unready;
    };
    match board.admit(edit) {
        Ok(None) => done(shows(alloc, board, behind)),
        Ok(Some(_)) => Outcome::Wrong,
        Err(_) => {
            Outcome::refused_if(admits_again(alloc, board, edit, &before, behind) == Ok(true))
        }
    }
}

fn edited<A: Allocator + Copy>(
    alloc: A,
    board: &mut Board<A>,
    line: &str,
    behind: Setup,
) -> Outcome {
    match edit(alloc, line.as_bytes()) {
        Ok(edit) => {
            let outcome = admitted(alloc, board, &edit, behind);
            drop(edit);
            outcome
        }
        Err(_) => Outcome::Unready,
    }
}

fn shown<A: Allocator + Copy>(alloc: A, board: &Board<A>, looks: &str) -> Outcome {
    match other_look(alloc, board, looks) {
        Ok(other) => Outcome::done_if(other.is_none()),
        Err(_) => Outcome::refused_if(other_look(alloc, board, looks) == Ok(None)),
    }
}

#[test]
fn failed_allocation_in_begin(rt: HostRuntime) {
    assert!(rt; is_refused::<Nth<0>>(rt.alloc(), 1));
}

#[test]
fn failed_allocation_in_scratch(rt: HostRuntime) {
    assert!(rt; is_refused::<Nth<1>>(rt.alloc(), 20));
}

#[test]
fn failed_allocation_in_copy(rt: HostRuntime) {
    assert!(rt; is_refused::<Nth<2>>(rt.alloc(), 20));
}

#[test]
fn failed_allocation_in_admit(rt: HostRuntime) {
    assert!(rt; is_refused::<Nth<3>>(rt.alloc(), 20));
}

#[test]
fn failed_allocation_in_an_insertion(rt: HostRuntime) {
    assert!(rt; is_refused::<Nth<4>>(rt.alloc(), 4));
}

#[test]
fn failed_allocation_in_an_insertion_that_enables(rt: HostRuntime) {
    assert!(rt; is_refused::<Nth<5>>(rt.alloc(), 4));
}

#[test]
fn failed_allocation_in_views(rt: HostRuntime) {
    assert!(rt; is_refused::<Nth<6>>(rt.alloc(), 5));
}

#[test]
fn failed_allocation_in_why_waiting(rt: HostRuntime) {
    assert!(rt; is_refused::<Nth<7>>(rt.alloc(), 2));
}

#[test]
fn failed_allocation_in_near_misses(rt: HostRuntime) {
    assert!(rt; is_refused::<Nth<8>>(rt.alloc(), 2));
}

#[test]
fn failed_allocation_in_declare(rt: HostRuntime) {
    assert!(rt; is_refused::<Nth<9>>(rt.alloc(), 5));
}

/// How many allocations the edit of the line asks the heap for; `None` where it is refused.
fn asked_of<'a>(
    heap: &'a Refusing<Global>,
    board: &mut Board<&'a Refusing<Global>>,
    line: &str,
) -> Result<Option<u64>, AllocError> {
    let edit = edit(heap, line.as_bytes())?;
    let before = heap.grown();
    let told = board.admit(&edit);
    let allocations = heap.grown().saturating_sub(before);
    drop(edit);
    Ok(if told?.is_none() {
        Some(allocations)
    } else {
        None
    })
}

/// The same at the worked board.
fn asked(alloc: Global, line: &str) -> Result<Option<u64>, AllocError> {
    let heap = Refusing::new(alloc, u64::MAX);
    let mut board = made(&heap, WORKED)?;
    let asked = asked_of(&heap, &mut board, line);
    drop(board);
    asked
}

/// Lines of edits, and whether each asks for allocations.
const ASKING: [(&str, bool); 5] = [
    ("withdraw kramer", false),
    ("withdraw jerry", false),
    ("delete Flights(122, Paris)", false),
    ("post newman {} N(1) <-", true),
    ("insert Flights(140, Paris)", true),
];

#[test]
fn what_goes_takes_no_memory(rt: HostRuntime) {
    for (line, asks) in ASKING {
        let asked = asked(rt.alloc(), line);
        assert!(rt;
            matches!(asked, Ok(Some(allocations)) if (allocations > 0) == asks),
            "{line}"
        );
    }
}
