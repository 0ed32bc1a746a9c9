//! Tables.

ghost use Rattle.std.specs.Prelude.{◌≡◌, ◌↔◌, ◌⊎◌, [], length, map, filter, IsTrue, OnOk, OnErr, IfOk, IfSome, IfNone, None, Some};
ghost use Rattle.std.specs.List.{All};
ghost use Rattle.std.specs.List.Sorted.{IsStrictlySortedBy, IsPermutation};
ghost use Rattle.std.specs.Option.{option_map, option_copied};
ghost use Rattle.std.specs.Ordering.{is_eq};
ghost use Rattle.cq_atom.specs.Answer.{Answers};
ghost use Rattle.cq_atom.specs.Atom.{RowRecord};
ghost use Rattle.cq_rel.specs.Tables.{TablesRecord, IsTables, IsRow, IsUnder, arity_in, has_row, rows_in, values_order, first_order, has_turned, insert_fault, delete_fault, answer_of, with_row, without_row};

use crate::catalog::Catalog;
use crate::fault::RowFault;
use crate::table::Table;
use cq_atom::{Row, Value};
use cq_blocks::Iter;
use std::alloc::{AllocError, Allocator, Global};
use std::marker::Model;

/// A set of rows under a catalog: each row is of a declared relation and of its arity.
#[derive(Drop)]
pub struct Tables<A: Allocator = Global> {
    catalog: Catalog<A>,
    tables: Vec<Table<A>, A>,
}

impl<A: Allocator> Model for Tables<A> {
    ghost use Rattle.cq_rel.specs.Tables.{TablesRecord};
    ghost use Rattle.cq_rel.specs.Steps.Kept.{IsKept, joined};

    ghost Value = { TablesRecord };

    ghost view = { λ t. record { catalog = t.catalog; rows = joined t.tables.items } };

    ghost invariant = { λ t. IsKept t.catalog t.tables.items };
}

impl<A: Allocator> Tables<A> {
    /// The catalog.
    pub fn catalog(&self) -> &Catalog<A>
        ensures value { result.now ≡ self.now.catalog }
        ensures valid { IsTables self.now }
    {
        &self.catalog
    }

    /// Whether the tables have the row.
    pub fn has(&self, row: &Row<A>) -> bool
        ensures value { result ≡ has_row self.now row.now }
        ensures member { IsTrue result ↔ IsRow self.now row.now }
    {
        match self.catalog.place_of(row.relation()) {
            None => false,
            Some(place) => self.tables[place].has(row.values()),
        }
    }

    /// How many rows the relation has, where it is declared.
    pub fn count(&self, relation: &str) -> Option<usize>
        ensures value { result ≡ option_map (λ _. length (rows_in relation.now self.now)) (arity_in self.now.catalog relation.now) }
        ensures absent { IfNone result (rows_in relation.now self.now ≡ []) }
    {
        Some(self.tables[self.catalog.place_of(relation)?].len())
    }

    /// The rows of the relation in order of their values, where it is declared.
    pub fn rows_of(&self, relation: &str) -> Option<Iter<'_, Row<A>, A>>
        ensures value { result ≡ option_map (λ _. rows_in relation.now self.now) (arity_in self.now.catalog relation.now) }
        ensures ascending { IfSome result (λ rows. IsStrictlySortedBy (λ r s. values_order r.values s.values) rows) }
        ensures absent { IfNone result (rows_in relation.now self.now ≡ []) }
        ensures under { IfSome result (λ rows. All (λ r. (r.relation ≡ relation.now) × IsUnder self.now.catalog r) rows) }
    {
        let place = self.catalog.place_of(relation)?;
        Some(self.tables[place].rows())
    }

    /// The rows of the relation whose first values are these, in order of their values: none if the relation is not declared,
    /// all if no value is given. Found by binary search.
    pub fn rows_first(&self, relation: &str, values: &[&Value<A>]) -> Iter<'_, Row<A>, A>
        ensures { result ≡ filter (λ r. is_eq (first_order (map (λ v. v.now) values.now) r.values)) (rows_in relation.now self.now) }
    {
        let Some(place) = self.catalog.place_of(relation) else {
            return Iter::empty();
        };
        self.tables[place].rows_first(values)
    }

    /// The rows of the relation whose values begin with these from the column on, going round after the last column: in no
    /// order that is promised, none where the relation is not declared, all where no value is given. Columns are counted
    /// from 0. Found by halving.
    pub fn rows_with(
        &self,
        relation: &str,
        column: usize,
        values: &[&Value<A>],
    ) -> Iter<'_, Row<A>, A>
        ensures { IsPermutation (filter (has_turned column (map (λ v. v.now) values.now)) (rows_in relation.now self.now)) result }
    {
        let Some(place) = self.catalog.place_of(relation) else {
            return Iter::empty();
        };
        let arity = self.catalog.arity_at(place);
        self.tables[place].rows_with(arity, column, values)
    }

    /// Deletes the row. It takes no memory.
    ///
    /// # Errors
    /// In this order: `UnknownRelation` where the row's relation is not declared; `Arity` where it is
    /// declared with another arity; `RowAbsent` where the tables do not have the row. The tables stay
    /// as they were then.
    pub fn delete(&mut self, row: &Row<A>) -> Result<(), RowFault>
        ensures answer { result ≡ answer_of (delete_fault self.old row.now) }
        ensures ok { OnOk result (self.new ≡ without_row row.now self.old) }
        ensures member { OnOk result ((r : RowRecord) → IsRow self.new r ↔ ((¬ (r ≡ row.now)) × IsRow self.old r)) }
        ensures err { OnErr result (self.new ≡ self.old) }
    {
        let place = self.catalog.place_for(row)?;
        self.tables[place].delete(row.values())
    }
}

impl<A: Allocator + Clone> Tables<A> {
    /// Inserts the row.
    ///
    /// # Errors
    /// In this order: `UnknownRelation` where the row's relation is not declared; `Arity` where it is
    /// declared with another arity; `RowPresent` where the tables have the row; `NoMemory` where an
    /// allocation failed. The row is dropped then, and the tables stay as they were.
    pub fn insert(&mut self, row: Row<A>) -> Result<(), RowFault>
        ensures answer { Answers RowFault.NoMemory (insert_fault self.old row) tt result }
        ensures ok { OnOk result (self.new ≡ with_row row self.old) }
        ensures member { OnOk result ((r : RowRecord) → IsRow self.new r ↔ ((r ≡ row) ⊎ IsRow self.old r)) }
        ensures err { OnErr result (self.new ≡ self.old) }
    {
        let place = self.catalog.place_for(&row)?;
        self.tables[place].insert(row)
    }

    /// The tables without rows under the catalog, on the catalog's allocator.
    ///
    /// # Errors
    /// `AllocError` where an allocation failed.
    pub fn begin(catalog: Catalog<A>) -> Result<Tables<A>, AllocError>
        ensures { IfOk result (λ tables. tables ≡ (let begun : TablesRecord = record { catalog = catalog; rows = [] } in begun)) }
    {
        let count = catalog.len();
        let mut tables = Vec::with_capacity(catalog.allocator().clone()?, count)?;
        for _ in 0..count {
            tables.push(Table::new(catalog.allocator().clone()?)?)?;
        }
        Ok(Tables { catalog, tables })
    }

    /// Equal tables, on the same allocator.
    ///
    /// # Errors
    /// `AllocError` where an allocation failed.
    pub fn copy(&self) -> Result<Tables<A>, AllocError>
        ensures { IfOk result (λ tables. tables ≡ self.now) }
    {
        let catalog = self.catalog.copy()?;
        let tables = self.tables.clone()?;
        Ok(Tables { catalog, tables })
    }
}
