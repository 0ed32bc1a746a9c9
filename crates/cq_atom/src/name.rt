//! Names.

ghost use Rattle.std.specs.Prelude.{◌≡◌, ◌↔◌, IfOk, IsTrue, if◌then◌else◌, Option, Some, None};
ghost use Rattle.cq_atom.specs.Text.{is_name};
ghost use Rattle.cq_atom.specs.Answer.{Answers};

use crate::bytes::Bytes;
use crate::fault::Bad;
use crate::word::is_name_text;
use std::alloc::{AllocError, Allocator, Global};
use std::marker::Model;

/// A name: 1 to 32 bytes of letters, digits and `_`, of which the first is a letter.
#[derive(Drop)]
#[derive_where(PartialEq, Eq, PartialOrd, Ord, Hash)]
pub struct Name<A: Allocator = Global> {
    text: Bytes<A>,
}

impl<A: Allocator> Model for Name<A> {
    ghost use Rattle.std.specs.Prelude.{List, ℕ, IsTrue};
    ghost use Rattle.cq_atom.specs.Text.{is_name};

    ghost Value = { List ℕ };

    ghost view = { λ n. n.text };

    ghost inverse = { λ bytes. record { text = bytes } };

    ghost invariant = { λ n. IsTrue (is_name n.text) };
}

impl<A: Allocator> Name<A> {
    /// The name of these bytes.
    ///
    /// # Errors
    /// `BadName` where they are none; else `NoMemory` where the allocation failed.
    pub fn new(alloc: A, text: &str) -> Result<Name<A>, Bad>
        ensures { Answers Bad.NoMemory (if is_name text.now then None else Some Bad.BadName) text.now result }
    {
        if !is_name_text(text) {
            return Err(Bad::BadName);
        }
        Ok(Name::known(alloc, text)?)
    }

    /// The name of these bytes, which are known to be one.
    pub(crate) fn known(alloc: A, text: &str) -> Result<Name<A>, AllocError>
        requires { IsTrue (is_name text.now) }
        ensures { IfOk result (λ name. name ≡ text.now) }
    {
        let text = Bytes::from_str(alloc, text)?;
        Ok(Name { text })
    }

    /// The name's bytes.
    pub fn as_str(&self) -> &str
        ensures bytes { result.now ≡ self.now }
        ensures name { IsTrue (is_name self.now) }
    {
        self.text.as_str()
    }
}

impl<A: Allocator + Clone> Name<A> {
    /// An equal name, on the same allocator.
    ///
    /// # Errors
    /// `AllocError` where the allocation failed.
    pub fn copy(&self) -> Result<Name<A>, AllocError>
        ensures { IfOk result (λ name. name ≡ self.now) }
    {
        self.clone()
    }
}

impl<A: Allocator + Clone> Clone for Name<A> {
    ghost use Rattle.std.specs.Prelude.{◌≡◌};

    ghost is_clone = { λ a b. b ≡ a };

    fn clone(&self) -> Result<Name<A>, AllocError> {
        Ok(Name {
            text: self.text.clone()?,
        })
    }
}
