//! JSON that is written token by token.

ghost use Rattle.std.specs.Prelude.{◌≡◌, ◌++◌, ◌∷◌, [], codes, decimal, string_bytes, IfOk, OnOk};
ghost use Rattle.std.specs.Fmt.{signed_decimal};
ghost use Rattle.json.specs.Print.{print};
ghost use Rattle.json.specs.Token.{begin_object, end_object, begin_array, end_array, key, string, number, boolean, null};
ghost use Rattle.json.specs.Tree.{json_tokens};
ghost use Rattle.cq_render.specs.Data.{total};

use crate::limits::MOST_KEPT;
use itoa::Buffer;
use json::Writer;
use std::alloc::{AllocError, Allocator};
use std::marker::Model;

/// JSON so far, without spaces and ends of lines. Contracts see its tokens. What puts something after it answers `AllocError` where
/// an allocation failed; the text may then have a part of it.
#[derive(Drop)]
pub struct JsonText<A: Allocator> {
    writer: Writer<A>,
}

impl<A: Allocator> Model for JsonText<A> {
    ghost use Rattle.std.specs.Prelude.{◌≡◌, List, []};
    ghost use Rattle.json.specs.Token.{Token, tokens_code};

    ghost Value = { List Token };

    ghost coded = { tokens_code };

    ghost view = { λ s. s.writer.tokens };

    ghost invariant = { λ s. s.writer.before ≡ [] };
}

impl<A: Allocator> JsonText<A> {
    /// Nothing yet. This takes no memory.
    pub fn begin(alloc: A) -> JsonText<A>
        ensures { result ≡ [] }
    {
        JsonText {
            writer: Writer::new(Vec::new(alloc)),
        }
    }

    /// The text.
    pub fn into_text(self) -> String<A>
        ensures { string_bytes result ≡ print self }
    {
        let JsonText { writer } = self;
        match String::from_utf8(writer.into_inner()) {
            Ok(text) => text,
            // What a writer writes is UTF-8.
            Err(_) => unreachable!(),
        }
    }

    /// Puts the bracket that opens an object. Its members follow, each a key and a value, and [`JsonText::end_object`].
    pub fn begin_object(&mut self) -> Result<(), AllocError>
        ensures { OnOk result (self.new ≡ self.old ++ begin_object ∷ []) }
    {
        self.writer.begin_object()
    }

    /// Puts the bracket that closes an object.
    pub fn end_object(&mut self) -> Result<(), AllocError>
        ensures { OnOk result (self.new ≡ self.old ++ end_object ∷ []) }
    {
        self.writer.end_object()
    }

    /// Puts the bracket that opens an array. Its values follow, and [`JsonText::end_array`].
    pub fn begin_array(&mut self) -> Result<(), AllocError>
        ensures { OnOk result (self.new ≡ self.old ++ begin_array ∷ []) }
    {
        self.writer.begin_array()
    }

    /// Puts the bracket that closes an array.
    pub fn end_array(&mut self) -> Result<(), AllocError>
        ensures { OnOk result (self.new ≡ self.old ++ end_array ∷ []) }
    {
        self.writer.end_array()
    }

    /// Puts the key of a member. Its value follows.
    pub fn key(&mut self, name: &str) -> Result<(), AllocError>
        ensures { OnOk result (self.new ≡ self.old ++ key name.now ∷ []) }
    {
        self.writer.key(name)
    }

    /// Puts a text as a value.
    pub fn string(&mut self, text: &str) -> Result<(), AllocError>
        ensures { OnOk result (self.new ≡ self.old ++ string text.now ∷ []) }
    {
        self.writer.string(text)
    }

    /// Puts how many.
    pub(crate) fn count(&mut self, count: usize) -> Result<(), AllocError>
        ensures { OnOk result (self.new ≡ self.old ++ number (decimal count) ∷ []) }
    {
        self.writer.u64(count as u64)
    }

    /// Puts the member that says how many entries of a journal it is of.
    pub(crate) fn entries_member(&mut self, entries: u64) -> Result<(), AllocError>
        ensures { OnOk result (self.new ≡ self.old ++ key (codes "entries") ∷ number (decimal entries) ∷ []) }
    {
        self.key("entries")?;
        self.writer.u64(entries)
    }

    /// Puts how many as a text.
    fn quoted_total(&mut self, count: u128) -> Result<(), AllocError>
        ensures { OnOk result (self.new ≡ self.old ++ string (decimal count) ∷ []) }
    {
        let mut digits = Buffer::new();
        self.string(digits.format(count))
    }

    /// Puts how many, where that may be more than all readers keep: then it is a text.
    pub fn total(&mut self, count: u128) -> Result<(), AllocError>
        ensures { OnOk result (self.new ≡ self.old ++ json_tokens (total count)) }
    {
        if count <= u128::from(MOST_KEPT) {
            self.writer.u64(count as u64)
        } else {
            self.quoted_total(count)
        }
    }

    /// Puts a number, whether all readers keep it or not.
    pub(crate) fn number(&mut self, n: i64) -> Result<(), AllocError>
        ensures { OnOk result (self.new ≡ self.old ++ number (signed_decimal n) ∷ []) }
    {
        self.writer.i64(n)
    }

    /// Puts a number as a text.
    pub(crate) fn quoted_number(&mut self, n: i64) -> Result<(), AllocError>
        ensures { OnOk result (self.new ≡ self.old ++ string (signed_decimal n) ∷ []) }
    {
        self.writer.quoted_i64(n)
    }

    /// Puts whether something holds.
    pub fn boolean(&mut self, holds: bool) -> Result<(), AllocError>
        ensures { OnOk result (self.new ≡ self.old ++ boolean holds ∷ []) }
    {
        self.writer.boolean(holds)
    }

    /// Puts that there is no value.
    pub fn null(&mut self) -> Result<(), AllocError>
        ensures { OnOk result (self.new ≡ self.old ++ null ∷ []) }
    {
        self.writer.null()
    }

    /// Puts a member that is a text.
    pub fn text_member(&mut self, name: &str, text: &str) -> Result<(), AllocError>
        ensures { OnOk result (self.new ≡ self.old ++ key name.now ∷ string text.now ∷ []) }
    {
        self.key(name)?;
        self.string(text)
    }

    /// Puts a member that says how many.
    pub fn count_member(&mut self, name: &str, count: usize) -> Result<(), AllocError>
        ensures { OnOk result (self.new ≡ self.old ++ key name.now ∷ number (decimal count) ∷ []) }
    {
        self.key(name)?;
        self.count(count)
    }
}
