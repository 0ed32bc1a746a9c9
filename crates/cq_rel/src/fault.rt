//! Why a relation cannot be declared, and why a row cannot be inserted or deleted.

use std::alloc::{AllocError, AllocFailed};
use thiserror::Error;

/// What `Catalog::declare` refuses, in the order in which it looks.
#[derive(Clone, Copy, Debug, PartialEq, Eq, Error)]
pub enum CatalogFault {
    /// The bytes are no relation's name.
    #[error("not a relation's name")]
    BadName,
    /// The arity is none of 1 to 16.
    #[error("a relation has 1 to 16 values")]
    BadArity,
    /// The catalog has the relation.
    #[error("already declared")]
    Declared,
    /// The catalog has 64 relations.
    #[error("the catalog is full")]
    CatalogFull,
    /// An allocation failed.
    #[error("out of memory")]
    NoMemory,
}

/// What `Tables::insert` and `Tables::delete` refuse, in the order in which they look.
#[derive(Clone, Copy, Debug, PartialEq, Eq, Error)]
pub enum RowFault {
    /// The catalog does not declare the row's relation.
    #[error("the relation is not declared")]
    UnknownRelation,
    /// The relation is declared with another arity.
    #[error("the relation has another arity")]
    Arity,
    /// The row that is to be inserted is there.
    #[error("the row is there")]
    RowPresent,
    /// The row that is to be deleted is not there.
    #[error("the row is not there")]
    RowAbsent,
    /// An allocation failed.
    #[error("out of memory")]
    NoMemory,
}

impl From<AllocError> for CatalogFault {
    ghost use Rattle.std.specs.Prelude.{◌≡◌};
    ghost use Rattle.cq_rel.specs.declared.fault.CatalogFault.TheVariants.{NoMemory};

    ghost from_gives = { λ _ e. e ≡ NoMemory };

    fn from(_e: AllocError) -> CatalogFault {
        CatalogFault::NoMemory
    }
}

impl<T: Drop> From<AllocFailed<T>> for CatalogFault {
    ghost use Rattle.std.specs.Prelude.{◌≡◌};
    ghost use Rattle.cq_rel.specs.declared.fault.CatalogFault.TheVariants.{NoMemory};

    ghost from_gives = { λ _ e. e ≡ NoMemory };

    fn from(_e: AllocFailed<T>) -> CatalogFault {
        CatalogFault::NoMemory
    }
}

impl From<AllocError> for RowFault {
    ghost use Rattle.std.specs.Prelude.{◌≡◌};
    ghost use Rattle.cq_rel.specs.declared.fault.RowFault.TheVariants.{NoMemory};

    ghost from_gives = { λ _ e. e ≡ NoMemory };

    fn from(_e: AllocError) -> RowFault {
        RowFault::NoMemory
    }
}

impl<T: Drop> From<AllocFailed<T>> for RowFault {
    ghost use Rattle.std.specs.Prelude.{◌≡◌};
    ghost use Rattle.cq_rel.specs.declared.fault.RowFault.TheVariants.{NoMemory};

    ghost from_gives = { λ _ e. e ≡ NoMemory };

    fn from(_e: AllocFailed<T>) -> RowFault {
        RowFault::NoMemory
    }
}
