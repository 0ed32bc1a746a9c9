//! The forms of scripts.

ghost use Rattle.std.specs.Prelude.{◌≡◌};
ghost use Rattle.cq_text.specs.Forms.{most_terms, most_atoms, most_bytes};

use crate::limits::MAX_BYTES;
use cq_atom::{MAX_ARITY, MAX_ATOMS};

/// A form of scripts. What may be written is the same in both but for the limits.
#[derive(Clone, Copy, Debug, PartialEq, Eq)]
pub enum Form {
    /// Format 1, in which scripts begin.
    One,
    /// Format 2: longer lines, more atoms to a part, more terms to an atom.
    Two,
}

impl Form {
    /// The most terms of an atom, values of a row and columns of a relation: 8 or 16.
    pub fn max_terms(self) -> usize
        ensures { result ≡ most_terms self }
    {
        match self {
            Form::One => 8,
            Form::Two => MAX_ARITY,
        }
    }

    /// The most atoms of a part of a query: 8 or 16.
    pub fn max_atoms(self) -> usize
        ensures { result ≡ most_atoms self }
    {
        match self {
            Form::One => 8,
            Form::Two => MAX_ATOMS,
        }
    }

    /// The most bytes of a line or of a query's text: 131,072 or 524,288.
    pub fn max_bytes(self) -> usize
        ensures { result ≡ most_bytes self }
    {
        match self {
            Form::One => 131_072,
            Form::Two => MAX_BYTES,
        }
    }
}
