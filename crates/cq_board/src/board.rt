//! Boards: one pool, and its parts from scratch.

ghost use Rattle.std.specs.Prelude.{◌≡◌, length, OnOk, OnErr, IfOk, None};
ghost use Rattle.std.specs.Option.{option_copied};
ghost use Rattle.cq_atom.specs.declared.edit.EditKind.TheVariants.{Post, Withdraw, Insert, Delete};
ghost use Rattle.cq_board.specs.Pool.{IsPool, opening_pool};
ghost use Rattle.cq_board.specs.Edits.{body_why, why, edited, pool_after};
ghost use Rattle.cq_board.specs.Board.{name_at};
ghost use Rattle.cq_board.specs.Work.{changes_of, lost, named, raised, tests_of, visits_of};
ghost use Rattle.cq_board.specs.Steps.Stores.{pending_of, AreStores};
ghost use Rattle.cq_board.specs.Views.{Admits};

use crate::edit::Why;
use crate::limits::Limits;
use crate::refusal::{body_why, insert_why, post_why, refusal};
use crate::row_change;
use crate::stores::Stores;
use crate::work::Work;
use cq_atom::{Edit, EditKind, Name, Query, Row};
use cq_rel::{Catalog, Tables};
use std::alloc::{AllocError, Allocator, Global};
use std::marker::Model;
use std::mem;

/// A pool and its board. Contracts see the pool: that the stores that are kept are those of the pool,
/// and with them the board of the pool, stands in this type.
pub struct Board<A: Allocator = Global> {
    alloc: A,
    pub(crate) limits: Limits,
    pub(crate) tables: Tables<A>,
    pub(crate) stores: Stores<A>,
}

impl<A: Allocator> Model for Board<A> {
    ghost use Rattle.cq_board.specs.Pool.{PoolRecord};
    ghost use Rattle.cq_board.specs.Steps.Stores.{pending_of, IsKeptIn};

    ghost Value = { PoolRecord };

    ghost view = { λ b. record { limits = b.limits; tables = b.tables; pending = pending_of b.stores } };

    ghost invariant = { λ b. IsKeptIn (record { limits = b.limits; tables = b.tables; pending = pending_of b.stores }) b.stores };
}

// By hand, so that who lets a board go calls this, and does not take its stores apart.
impl<A: Allocator> Drop for Board<A> {
    fn drop(self) {
        let Board {
            alloc: _,
            limits: _,
            tables,
            stores,
        } = self;
        mem::drop(tables);
        mem::drop(stores);
    }
}

impl<A: Allocator + Copy> Board<A> {
    /// The board over the catalog, without rows and queries. It grows with the allocator later on.
    ///
    /// # Errors
    /// `AllocError` where an allocation failed.
    pub fn begin(alloc: A, catalog: Catalog<A>, limits: Limits) -> Result<Board<A>, AllocError>
        ensures { IfOk result (λ board. board ≡ opening_pool catalog limits) }
    {
        let tables = Tables::begin(catalog)?;
        let _good = tables.catalog();
        Ok(Board {
            alloc,
            limits,
            tables,
            stores: Stores::begin(alloc),
        })
    }

    /// Puts an edit to the pool, or tells why it is refused. A refused edit changes nothing.
    ///
    /// # Errors
    /// `AllocError` where an allocation failed, which comes after every other refusal. Nothing has
    /// changed then.
    pub fn admit(&mut self, edit: &Edit<A>) -> Result<Option<Why>, AllocError>
        ensures answer { Admits (why self.old edit.now) result }
        ensures ok { OnOk result (self.new ≡ pool_after self.old edit.now) }
        ensures err { OnErr result (self.new ≡ self.old) }
    {
        self.admit_counted(edit, &mut Work::new())
    }

    /// The same as `admit`, with the work that the edit took counted. What is counted where memory ran
    /// out is not reported.
    ///
    /// # Errors
    /// As those of `admit`.
    pub fn admit_counted(
        &mut self,
        edit: &Edit<A>,
        work: &mut Work,
    ) -> Result<Option<Why>, AllocError>
        ensures answer { Admits (why self.old edit.now) result }
        ensures ok { OnOk result (self.new ≡ pool_after self.old edit.now) }
        ensures err { OnErr result (self.new ≡ self.old) }
        ensures tests { OnOk result (work.new.tests ≡ raised work.old.tests (tests_of self.old edit.now)) }
        ensures visits { OnOk result (work.new.visits ≡ raised work.old.visits (visits_of self.old edit.now)) }
        ensures changes { OnOk result (work.new.changes ≡ raised work.old.changes (changes_of self.old edit.now)) }
    {
        work.rests();
        if let Some(why) = self.why(edit) {
            return Ok(Some(why));
        }
        match edit {
            EditKind::Post { name, query } => self.stores.post(&self.tables, name, query, work)?,
            EditKind::Withdraw { name } => self.withdraw(name, work),
            EditKind::Insert { row } => self.insert(row, work)?,
            EditKind::Delete { row } => self.delete(row, work),
        }
        Ok(None)
    }

    /// The allocator on which the board grows.
    pub(crate) fn allocator(&self) -> A {
        self.alloc
    }

    /// A board of equal content.
    ///
    /// # Errors
    /// `AllocError` where an allocation failed.
    pub fn copy(&self) -> Result<Board<A>, AllocError>
        ensures { IfOk result (λ board. board ≡ self.now) }
    {
        let tables = self.tables.copy()?;
        let stores = self.stores.copy()?;
        Ok(Board {
            alloc: self.alloc,
            limits: self.limits,
            tables,
            stores,
        })
    }

    /// Takes the query of that name out.
    fn withdraw(&mut self, name: &Name<A>, work: &mut Work)
        ensures ok { self.new ≡ edited self.old (Withdraw name.now) }
        ensures tests { work.new.tests ≡ work.old.tests }
        ensures visits { work.new.visits ≡ work.old.visits }
        ensures changes { work.new.changes ≡ raised work.old.changes (lost self.old (edited self.old (Withdraw name.now))) }
    {
        self.stores.withdraw(name, &mut work.changes);
    }

    /// Adds a copy of the row, where nothing speaks against it.
    pub(crate) fn insert(&mut self, row: &Row<A>, work: &mut Work) -> Result<(), AllocError>
        requires { why self.old (Insert row.now) ≡ None }
        ensures ok { OnOk result (self.new ≡ edited self.old (Insert row.now)) }
        ensures err { OnErr result (self.new ≡ self.old) }
        ensures tests { work.new.tests ≡ work.old.tests }
        ensures visits { OnOk result (work.new.visits ≡ raised work.old.visits (named self.old.pending row.now.relation)) }
        ensures changes { work.new.changes ≡ work.old.changes }
    {
        row_change::insert(&mut self.tables, &mut self.stores, row, &mut work.visits)
    }

    /// Takes the row out, where nothing speaks against it.
    fn delete(&mut self, row: &Row<A>, work: &mut Work)
        requires { why self.old (Delete row.now) ≡ None }
        ensures ok { self.new ≡ edited self.old (Delete row.now) }
        ensures tests { work.new.tests ≡ work.old.tests }
        ensures visits { work.new.visits ≡ raised work.old.visits (named self.old.pending row.now.relation) }
        ensures changes { work.new.changes ≡ raised work.old.changes (lost self.old (edited self.old (Delete row.now))) }
    {
        row_change::delete(
            &mut self.tables,
            &mut self.stores,
            row,
            &mut work.visits,
            &mut work.changes,
        );
    }
}

impl<A: Allocator + Copy> Board<A> {
    /// Why the pool refuses the edit: the first test that holds.
    fn why(&self, edit: &Edit<A>) -> Option<Why>
        ensures { result ≡ why self.now edit.now }
    {
        refusal(self.limits, &self.tables, &self.stores, edit)
    }

    /// Why the pool refuses to post the query.
    pub(crate) fn post_why(&self, name: &Name<A>, query: &Query<A>) -> Option<Why>
        ensures { result ≡ why self.now (Post name.now query.now) }
    {
        post_why(self.limits, &self.tables, &self.stores, name, query)
    }

    /// Why the pool refuses to insert the row.
    pub(crate) fn insert_why(&self, row: &Row<A>) -> Option<Why>
        ensures { result ≡ why self.now (Insert row.now) }
    {
        insert_why(&self.tables, row)
    }

    /// Returns why the query's body does not fit the declared relations, if it does not: the number of the first atom whose relation is not
    /// declared, or has another arity. Does not allocate.
    pub fn body_why(&self, query: &Query<A>) -> Option<Why>
        ensures { result ≡ body_why self.now.tables.catalog 0 query.now.body }
    {
        body_why(self.tables.catalog(), query.body())
    }

    /// How many queries are pending.
    pub fn len(&self) -> usize
        ensures value { result ≡ length self.now.pending }
        ensures valid { IsPool self.now }
    {
        self.stores.len()
    }

    /// The name of the query at that place in posting order, from 0. A name that was withdrawn and
    /// posted again goes last. Time in proportion to the place; [`names`](Board::names) tells all.
    pub fn name_at(&self, place: usize) -> Option<&Name<A>>
        ensures { option_copied result ≡ name_at self.now.pending place }
    {
        let stores = self.stores();
        match stores.roster.nth(place) {
            Some(seat) => Some(&seat.name),
            None => None,
        }
    }

    /// What is kept of the pending queries.
    pub(crate) fn stores(&self) -> &Stores<A>
        ensures pending { pending_of result.now ≡ self.now.pending }
        ensures kept { AreStores result.now self.now.tables.rows }
    {
        &self.stores
    }

    /// The rows and their catalog.
    pub fn tables(&self) -> &Tables<A>
        ensures { result.now ≡ self.now.tables }
    {
        &self.tables
    }

    /// The limits of the board.
    pub fn limits(&self) -> Limits
        ensures { result ≡ self.now.limits }
    {
        self.limits
    }
}
