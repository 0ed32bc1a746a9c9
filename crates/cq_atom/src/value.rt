//! Values: numbers and texts.

ghost use Rattle.std.specs.Prelude.{◌≡◌, ◌↔◌, IfOk, IsTrue, if◌then◌else◌, Option, Some, None};
ghost use Rattle.std.specs.Option.{option_copied};
ghost use Rattle.cq_atom.specs.Answer.{Answers};
ghost use Rattle.cq_atom.specs.Text.{is_text};
ghost use Rattle.cq_atom.specs.Value.{IsValue, is_before, number_of, text_of};

use crate::bytes::Bytes;
use crate::fault::Bad;
use crate::word::is_text_content;
use std::alloc::{AllocError, Allocator, Global};
use std::marker::Model;

#[derive(Drop)]
#[derive_where(PartialEq, Eq, PartialOrd, Ord, Hash)]
pub struct Text<A: Allocator = Global> {
    text: Bytes<A>,
}

impl<A: Allocator> Model for Text<A> {
    ghost use Rattle.std.specs.Prelude.{List, ℕ, IsTrue};
    ghost use Rattle.cq_atom.specs.Text.{is_text};

    ghost Value = { List ℕ };

    ghost view = { λ t. t.text };

    ghost inverse = { λ bytes. record { text = bytes } };

    ghost invariant = { λ t. IsTrue (is_text t.text) };
}

/// What a value is, over what holds the bytes of a text. Contracts see a value as
/// `Content` over the list of those bytes.
#[derive(PartialEq, Eq, PartialOrd, Ord, Hash, Drop)]
pub enum Content<T> {
    /// A whole number.
    Number(i64),
    /// A text.
    Text(T),
}

/// A value: a whole number of 64 bits, or a text of 0 to 255 bytes. A number never equals a text.
/// Numbers come before texts, numbers go by size, texts by bytes.
#[derive(Drop)]
#[derive_where(PartialEq, Eq, PartialOrd, Ord, Hash)]
pub struct Value<A: Allocator = Global> {
    content: Content<Text<A>>,
}

impl<A: Allocator> Model for Value<A> {
    ghost use Rattle.std.specs.Prelude.{List, ℕ};
    ghost use Rattle.cq_atom.specs.declared.value.Content.{Content};
    ghost use Rattle.cq_atom.specs.Value.{IsValue};

    ghost Value = { Content (List ℕ) };

    ghost view = { λ v. v.content };

    ghost inverse = { λ content. record { content = content } };

    ghost invariant = { λ v. IsValue v.content };
}

impl<A: Allocator> Value<A> {
    /// The number as a value.
    pub fn num(number: i64) -> Value<A>
        ensures { result ≡ Content.Number number }
    {
        Value {
            content: Content::Number(number),
        }
    }

    /// The text as a value.
    ///
    /// # Errors
    /// `BadText` where it is longer than 255 bytes or has a control character of ASCII; else
    /// `NoMemory` where the allocation failed.
    pub fn text(alloc: A, text: &str) -> Result<Value<A>, Bad>
        ensures { Answers Bad.NoMemory (if is_text text.now then None else Some Bad.BadText) (Content.Text text.now) result }
    {
        if !is_text_content(text) {
            return Err(Bad::BadText);
        }
        Ok(Value::known_text(alloc, text)?)
    }

    /// The text as a value, which is known to be one.
    ///
    /// # Errors
    /// `AllocError` where the allocation failed.
    pub fn known_text(alloc: A, text: &str) -> Result<Value<A>, AllocError>
        requires { IsTrue (is_text text.now) }
        ensures { IfOk result (λ value. value ≡ Content.Text text.now) }
    {
        let text = Bytes::from_str(alloc, text)?;
        Ok(Value {
            content: Content::Text(Text { text }),
        })
    }

    /// The number, where the value is one.
    pub fn as_num(&self) -> Option<i64>
        ensures value { result ≡ number_of self.now }
        ensures valid { IsValue self.now }
    {
        match self.content {
            Content::Number(number) => Some(number),
            Content::Text(_) => None,
        }
    }

    /// The text, where the value is one.
    pub fn as_text(&self) -> Option<&str>
        ensures value { option_copied result ≡ text_of self.now }
        ensures valid { IsValue self.now }
    {
        match &self.content {
            Content::Number(_) => None,
            Content::Text(text) => Some(text.text.as_str()),
        }
    }

    /// Whether the values are one.
    pub fn is_same(&self, other: &Value<A>) -> bool
        ensures { IsTrue result ↔ (self.now ≡ other.now) }
    {
        match (&self.content, &other.content) {
            (Content::Number(a), Content::Number(b)) => *a == *b,
            (Content::Text(a), Content::Text(b)) => a.is_same(b),
            _ => false,
        }
    }

    /// Whether this value comes before the other one, as `<` says.
    pub fn is_before(&self, other: &Value<A>) -> bool
        ensures { result ≡ is_before self.now other.now }
    {
        self < other
    }
}

impl<A: Allocator + Clone> Value<A> {
    /// An equal value, on the same allocator.
    ///
    /// # Errors
    /// `AllocError` where the allocation failed.
    pub fn copy(&self) -> Result<Value<A>, AllocError>
        ensures { IfOk result (λ value. value ≡ self.now) }
    {
        self.clone()
    }
}

impl<A: Allocator> Text<A> {
    fn is_same(&self, other: &Text<A>) -> bool
        ensures { IsTrue result ↔ (self.now ≡ other.now) }
    {
        self == other
    }
}

impl<A: Allocator + Clone> Clone for Text<A> {
    ghost use Rattle.std.specs.Prelude.{◌≡◌};

    ghost is_clone = { λ a b. b ≡ a };

    fn clone(&self) -> Result<Text<A>, AllocError> {
        Ok(Text {
            text: self.text.clone()?,
        })
    }
}

impl<A: Allocator + Clone> Clone for Value<A> {
    ghost use Rattle.std.specs.Prelude.{◌≡◌};

    ghost is_clone = { λ a b. b ≡ a };

    fn clone(&self) -> Result<Value<A>, AllocError> {
        let content = match &self.content {
            Content::Number(number) => Content::Number(*number),
            Content::Text(text) => Content::Text(text.clone()?),
        };
        Ok(Value { content })
    }
}
