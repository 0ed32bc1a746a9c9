//! The setup of a script.

ghost use Rattle.std.specs.Prelude.{◌≡◌, OnErr, IfOk};
ghost use Rattle.cq_rel.specs.Tables.{declaration, declare_fault};
ghost use Rattle.cq_ask.specs.Answer.{counts_of};
ghost use Rattle.cq_report.specs.Machine.{begin_setup, board_named, declared, opened, set_up};

use crate::limits::{JOURNAL_LIMIT, POOL_LIMIT};
use crate::outcome::Outcome;
use crate::refusal::Refusal;
use cq_ask::Counts;
use cq_atom::Name;
use cq_board::Limits;
use cq_rel::{Catalog, CatalogFault};
use cq_text::{Form, SetupLine};
use std::alloc::{AllocError, Allocator};
use std::marker::Model;

/// Returns the outcome of a line that names the form, if this one was settled before it, or none.
fn board_named(heading: Option<Form>) -> Outcome
    ensures { result ≡ board_named heading }
{
    match heading {
        None => Outcome::Accepted,
        Some(_form) => Outcome::Refused(Refusal::Late),
    }
}

/// The relations that were declared so far, and the latest limits.
#[derive(Drop)]
pub struct Setup<A: Allocator> {
    catalog: Catalog<A>,
    limits: Limits,
}

impl<A: Allocator> Model for Setup<A> {
    ghost use Rattle.cq_report.specs.Machine.{SetupRecord};

    ghost Value = { SetupRecord };

    ghost view = { λ s. record { catalog = s.catalog; limits = s.limits } };
}

impl<A: Allocator> Setup<A> {
    /// No relation, and the limits of a script that names none.
    pub fn begin(alloc: A) -> Setup<A>
        ensures { result ≡ begin_setup }
    {
        Setup {
            catalog: Catalog::empty(alloc),
            limits: Limits {
                pool: POOL_LIMIT,
                journal: JOURNAL_LIMIT,
            },
        }
    }

    /// Returns the counts of the board that it opens. Does not allocate.
    pub(crate) fn counts(&self) -> Counts
        ensures { result ≡ counts_of (opened self.now) }
    {
        Counts {
            queries: 0,
            matched: 0,
            waiting: 0,
            rows: 0,
            entries: 0,
            unpublished: 0,
            since: 0,
            relations: self.catalog.len(),
            pool: self.limits.pool,
            journal: self.limits.journal,
        }
    }

    /// The relations and the limits.
    pub fn into_parts(self) -> (Catalog<A>, Limits)
        ensures { result ≡ (self.catalog, self.limits) }
    {
        (self.catalog, self.limits)
    }
}

impl<A: Allocator + Clone> Setup<A> {
    /// Declares a relation, after those that are declared, and gives what comes of it.
    fn declare(&mut self, name: &str, arity: usize) -> Result<Outcome, AllocError>
        ensures ok { IfOk result (λ outcome. (self.new, outcome) ≡ declared (declare_fault self.old.catalog name.now arity) self.old (declaration name.now arity)) }
        ensures err { OnErr result (self.new ≡ self.old) }
    {
        match self.catalog.declare(name, arity) {
            Ok(()) => Ok(Outcome::Accepted),
            Err(CatalogFault::NoMemory) => Err(AllocError),
            Err(fault) => Ok(Outcome::Refused(Refusal::Catalog(fault))),
        }
    }

    /// An equal setup, on the same allocator.
    ///
    /// # Errors
    /// `AllocError` if an allocation fails.
    pub(crate) fn copy(&self) -> Result<Setup<A>, AllocError>
        ensures { IfOk result (λ setup. setup ≡ self.now) }
    {
        Ok(Setup {
            catalog: self.catalog.copy()?,
            limits: self.limits,
        })
    }

    /// Takes a line of the setup, and returns the outcome. This form was settled before it, or none.
    ///
    /// # Errors
    /// `AllocError` if an allocation fails. The setup stays as it was then.
    pub fn set_up(
        &mut self,
        heading: Option<Form>,
        line: &SetupLine<Name<A>>,
    ) -> Result<Outcome, AllocError>
        ensures ok { IfOk result (λ outcome. (self.new, outcome) ≡ set_up self.old heading line.now) }
        ensures err { OnErr result (self.new ≡ self.old) }
    {
        match line {
            SetupLine::Relation { name, arity } => self.declare(name.as_str(), *arity),
            SetupLine::Board { .. } => Ok(board_named(heading)),
            SetupLine::Limits { pool, journal } => {
                self.limits = Limits {
                    pool: *pool,
                    journal: *journal,
                };
                Ok(Outcome::Accepted)
            }
        }
    }
}
