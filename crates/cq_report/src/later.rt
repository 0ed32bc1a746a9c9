//! The setup of a script after a checkpoint.

ghost use Rattle.std.specs.Prelude.{◌≡◌, [], IfOk, OnErr};
ghost use Rattle.cq_desk.specs.Machine.{reopened};
ghost use Rattle.cq_board.specs.Setup.{limits_fault, relation_fault, with_limits, with_relation};
ghost use Rattle.cq_report.specs.declared.outcome.Outcome.{Outcome as OutcomeContent};
ghost use Rattle.cq_report.specs.declared.outcome.Outcome.TheVariants.{Accepted};
ghost use Rattle.cq_report.specs.Machine.{ServingRecord, declared_later, limited_later, set_up_later, shown, takes_setup};

use crate::floors::BoardFloor;
use crate::outcome::Outcome;
use crate::refusal::Refusal;
use cq_atom::Name;
use cq_board::{Board, Limits, RelationFault};
use cq_text::SetupLine;
use std::alloc::{AllocError, Allocator};

/// Returns true if lines of a setup are taken again.
pub(crate) fn takes_setup<A: Allocator + Copy>(floor: &BoardFloor<A>) -> bool
    ensures { result ≡ takes_setup floor.now }
{
    floor.has_checkpoint() && floor.journal().is_empty()
}

/// Begins the journal, which is empty, over this board.
fn reopen<A: Allocator + Copy>(
    floor: &mut BoardFloor<A>,
    board: Board<A>,
    limit: usize,
) -> Result<Outcome, AllocError>
    requires { floor.old.journal ≡ [] }
    ensures ok { let told : ServingRecord × OutcomeContent = (reopened board limit floor.old, Accepted) in IfOk result (λ outcome. (floor.new, outcome) ≡ told) }
    ensures err { OnErr result (floor.new ≡ floor.old) }
{
    // The journal is empty, so only an allocation can fail.
    match floor.reopen(board, limit) {
        Ok(()) => Ok(Outcome::Accepted),
        Err(_) => Err(AllocError),
    }
}

/// Declares a further relation, after those that are declared.
fn declare<A: Allocator + Copy>(
    floor: &mut BoardFloor<A>,
    name: &str,
    arity: usize,
) -> Result<Outcome, AllocError>
    requires { floor.old.journal ≡ [] }
    ensures ok { IfOk result (λ outcome. (floor.new, outcome) ≡ declared_later (relation_fault (shown floor.old) name.now arity) floor.old (with_relation (shown floor.old) name.now arity)) }
    ensures err { OnErr result (floor.new ≡ floor.old) }
{
    let mut board = floor.board().copy()?;
    match board.declare(name, arity) {
        Ok(()) => reopen(floor, board, floor.limit()),
        Err(RelationFault::Refused(fault)) => Ok(Outcome::Refused(Refusal::Catalog(fault))),
        Err(RelationFault::InUse) => Ok(Outcome::Refused(Refusal::InUse)),
        Err(RelationFault::NoMemory) => Err(AllocError),
    }
}

/// Sets other limits.
fn limit<A: Allocator + Copy>(
    floor: &mut BoardFloor<A>,
    limits: Limits,
) -> Result<Outcome, AllocError>
    requires { floor.old.journal ≡ [] }
    ensures ok { IfOk result (λ outcome. (floor.new, outcome) ≡ limited_later (limits_fault (shown floor.old) limits) floor.old (with_limits (shown floor.old) limits)) }
    ensures err { OnErr result (floor.new ≡ floor.old) }
{
    let mut board = floor.board().copy()?;
    match board.set_limits(limits) {
        Ok(()) => reopen(floor, board, limits.journal),
        Err(_) => Ok(Outcome::Refused(Refusal::TooManyPending)),
    }
}

/// Takes a line of a setup after a checkpoint, and returns the outcome. The journal must be empty.
pub(crate) fn set_up_later<A: Allocator + Copy>(
    floor: &mut BoardFloor<A>,
    line: &SetupLine<Name<A>>,
) -> Result<Outcome, AllocError>
    requires { floor.old.journal ≡ [] }
    ensures ok { IfOk result (λ outcome. (floor.new, outcome) ≡ set_up_later floor.old line.now) }
    ensures err { OnErr result (floor.new ≡ floor.old) }
{
    match line {
        SetupLine::Relation { name, arity } => declare(floor, name.as_str(), *arity),
        SetupLine::Board { .. } => Ok(Outcome::Refused(Refusal::Late)),
        SetupLine::Limits { pool, journal } => limit(
            floor,
            Limits {
                pool: *pool,
                journal: *journal,
            },
        ),
    }
}
