//! Tokens, as the reader meets them.

use crate::fault::Kind;
use crate::word::Identifier;
use cq_atom::Value;

/// A sign.
#[derive(Clone, Copy, PartialEq, Eq)]
pub(crate) enum Sign {
    OpenBrace,
    CloseBrace,
    OpenParen,
    CloseParen,
    Comma,
    Arrow,
}

/// What stands after the last item of a list.
#[derive(Clone, Copy)]
pub(crate) enum Close {
    /// That sign.
    By(Sign),
    /// The end of the text.
    End,
}

/// A token, over what holds an identifier and what holds a value.
#[derive(Drop)]
pub(crate) enum Token<W, V> {
    Mark(Sign),
    /// An identifier.
    Word(W),
    /// A number or a quoted text.
    Literal(V),
    /// No good token.
    Bad(Kind),
    /// The end of the text.
    Finish,
}

/// A token of a text.
pub(crate) type TextToken<'a, A> = Token<Identifier<'a>, Value<A>>;

/// A token, and the offset of its first byte.
#[derive(Drop)]
pub(crate) struct Lexeme<W, V> {
    pub(crate) at: usize,
    pub(crate) token: Token<W, V>,
}

/// A lexeme of a text.
pub(crate) type TextLexeme<'a, A> = Lexeme<Identifier<'a>, Value<A>>;
