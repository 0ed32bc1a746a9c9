//! Strings that are compared by their bytes.

ghost use Rattle.std.specs.Prelude.{◌≡◌, IfOk};

use arrayvec::ArrayString;
use std::alloc::{AllocError, Allocator, Global};
use std::cmp::Ordering;
use std::hash::{Hash, Hasher};
use std::marker::Model;

/// Where the bytes of a text lie.
#[derive(Drop)]
enum Kept<A: Allocator> {
    /// In the value itself, where they are at most 16.
    Short(ArrayString<16>),
    /// In a block of memory.
    Long(String<A>),
}

/// A string that is compared and hashed by its bytes. Contracts see the list of them. A short one takes no
/// memory but its own.
#[derive(Drop)]
pub struct Bytes<A: Allocator = Global> {
    kept: Kept<A>,
}

impl<A: Allocator> Model for Bytes<A> {
    ghost use Rattle.std.specs.Prelude.{List, ℕ};
    ghost use Rattle.cq_atom.specs.Steps.Bytes.{bytes_in};

    ghost Value = { List ℕ };

    ghost view = { λ b. bytes_in b.kept };
}

impl<A: Allocator> Bytes<A> {
    /// The bytes of the text.
    ///
    /// # Errors
    /// `AllocError` where the allocation failed.
    pub fn from_str(alloc: A, text: &str) -> Result<Bytes<A>, AllocError>
        ensures { IfOk result (λ bytes. bytes ≡ text.now) }
    {
        let kept = match ArrayString::from(text) {
            Ok(short) => Kept::Short(short),
            Err(_) => Kept::Long(String::from_str(alloc, text)?),
        };
        Ok(Bytes { kept })
    }

    /// The text that the bytes are.
    pub fn as_str(&self) -> &str
        ensures { result.now ≡ self.now }
    {
        match &self.kept {
            Kept::Short(text) => text.as_str(),
            Kept::Long(text) => text.as_str(),
        }
    }
}

impl<A: Allocator + Clone> Clone for Bytes<A> {
    ghost use Rattle.std.specs.Prelude.{◌≡◌};

    ghost is_clone = { λ a b. b ≡ a };

    fn clone(&self) -> Result<Bytes<A>, AllocError> {
        let kept = match &self.kept {
            Kept::Short(text) => Kept::Short(*text),
            Kept::Long(text) => Kept::Long(text.clone()?),
        };
        Ok(Bytes { kept })
    }
}

impl<A: Allocator> PartialEq for Bytes<A> {
    ghost use Rattle.std.specs.Prelude.{nat_eq};
    ghost use Rattle.std.specs.Cmp.Lexicographic.{pointwise};
    ghost use Rattle.std.specs.Cmp.{partial_equiv_from_equiv};
    ghost use Rattle.std.proofs.lemmas.Cmp.{nat_list_eq_equiv};

    ghost eq = { pointwise nat_eq };

    ghost laws = { partial_equiv_from_equiv nat_list_eq_equiv };

    fn eq(&self, other: &Bytes<A>) -> bool {
        self.as_str() == other.as_str()
    }
}

impl<A: Allocator> Eq for Bytes<A> {
    ghost use Rattle.std.proofs.lemmas.Cmp.{nat_list_eq_equiv};

    ghost laws = { nat_list_eq_equiv };
}

impl<A: Allocator> PartialOrd for Bytes<A> {
    ghost use Rattle.std.specs.Ordering.{nat_cmp, as_partial_cmp};
    ghost use Rattle.std.specs.Cmp.{partial_order_from_own_ties};
    ghost use Rattle.std.specs.Cmp.Lexicographic.{slice_cmp};
    ghost use Rattle.std.specs.Cmp.Rules.{comparing};
    ghost use Rattle.std.proofs.Common.{rules};

    ghost partial_cmp = { as_partial_cmp (slice_cmp nat_cmp) };

    ghost laws = { partial_order_from_own_ties (Prim.search (comparing, rules)) (Prim.search (comparing, rules)) };

    fn partial_cmp(&self, other: &Bytes<A>) -> Option<Ordering> {
        Some(self.cmp(other))
    }
}

impl<A: Allocator> Ord for Bytes<A> {
    ghost use Rattle.std.specs.Ordering.{nat_cmp};
    ghost use Rattle.std.specs.Cmp.Lexicographic.{slice_cmp};
    ghost use Rattle.std.specs.Cmp.Rules.{comparing};
    ghost use Rattle.std.proofs.Common.{rules};

    ghost cmp = { slice_cmp nat_cmp };

    ghost total = { Prim.search (comparing, rules) };

    ghost matches_partial_cmp = { Prim.search (comparing, rules) };

    ghost matches_eq = { Prim.search (comparing, rules) };

    fn cmp(&self, other: &Bytes<A>) -> Ordering {
        self.as_str().cmp(other.as_str())
    }
}

impl<A: Allocator> Hash for Bytes<A> {
    ghost use Rattle.std.specs.Hash as fed;
    ghost use Rattle.std.specs.Cmp.Rules.{comparing, hashing};
    ghost use Rattle.std.proofs.Common.{rules};

    ghost hash_input = { fed.str };

    ghost respects_eq = { Prim.search (hashing, rules) };

    fn hash<H: Hasher>(&self, state: &mut H) {
        self.as_str().hash(state);
    }
}
