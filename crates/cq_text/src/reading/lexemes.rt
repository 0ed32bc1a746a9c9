//! What a lexeme is to the grammar: a sign, a name, a term or a constant.

ghost use Rattle.std.specs.Prelude.{◌≡◌, ◌≤◌, Some, Ok, IfOk, IsTrue, length};
ghost use Rattle.cq_atom.specs.Text.{is_name, is_relation_name, is_variable_name, is_text};
ghost use Rattle.cq_atom.specs.declared.term.TermKind.{TermKind};
ghost use Rattle.cq_atom.specs.declared.value.Content.{Content};
ghost use Rattle.cq_text.specs.Token.{flaw};
ghost use Rattle.cq_text.specs.declared.fault.Kind.{Kind};
ghost use Rattle.cq_text.specs.Steps.Words.{is_identifier};
ghost use Rattle.cq_text.specs.Steps.Lexemes.{word_value, value_in, Gives, is_sign, is_finish, is_close, short_word, word_in, name_in, relation_of, relation_in, term_in, word_term};

use crate::fault::{Kind, TextFault};
use crate::token::{Close, Lexeme, Sign, TextLexeme, TextToken, Token};
use crate::word::Identifier;
use cq_atom::{Bad, MAX_NAME, Name, Term, Value};
use std::alloc::Allocator;

pub(crate) fn shape(at: usize) -> TextFault
    ensures { result ≡ TextFault.At Kind.Shape at }
{
    TextFault::At {
        kind: Kind::Shape,
        offset: at,
    }
}

pub(crate) fn limit(at: usize) -> TextFault
    ensures { result ≡ TextFault.At Kind.Limit at }
{
    TextFault::At {
        kind: Kind::Limit,
        offset: at,
    }
}

/// The bytes of an identifier that is no longer than a name.
fn short_word<'a>(word: &Identifier<'a>, at: usize) -> Result<&'a str, TextFault>
    ensures word { Gives (λ w. w.now) result (short_word word.now at) }
    ensures valid { IfOk result (λ w. IsTrue (is_identifier w.now) × (length w.now ≤ MAX_NAME)) }
{
    let text = word.as_str();
    if text.len() > MAX_NAME {
        return Err(limit(at));
    }
    Ok(text)
}

/// The identifier that a token is.
fn word_in<'a, A: Allocator>(token: TextToken<'a, A>) -> Option<Identifier<'a>>
    ensures { result ≡ word_in token.entry }
{
    match token {
        Token::Word(word) => Some(word),
        Token::Literal(_value) => None,
        Token::Mark(_sign) => None,
        Token::Bad(_kind) => None,
        Token::Finish => None,
    }
}

pub(crate) fn new_name<A: Allocator>(alloc: A, word: &str) -> Result<Name<A>, TextFault>
    requires { IsTrue (is_name word.now) }
    ensures { Gives (λ name. name) result (Ok word.now) }
{
    match Name::new(alloc, word) {
        Ok(name) => Ok(name),
        Err(Bad::NoMemory) => Err(TextFault::NoMemory),
        Err(_) => unreachable!(),
    }
}

/// The name in a lexeme.
pub(crate) fn name_in<A: Allocator>(alloc: A, lexeme: TextLexeme<A>) -> Result<Name<A>, TextFault>
    ensures { Gives (λ name. name) result (name_in lexeme.entry.token lexeme.entry.at) }
{
    let Lexeme { at, token } = lexeme;
    let Some(word) = word_in(token) else {
        return Err(shape(at));
    };
    new_name(alloc, short_word(&word, at)?)
}

/// The relation's name that an identifier is.
pub(crate) fn relation_word<'a>(word: &Identifier<'a>, at: usize) -> Result<&'a str, TextFault>
    ensures name { Gives (λ w. w.now) result (relation_of (Some word.now) at) }
    ensures valid { IfOk result (λ w. IsTrue (is_relation_name w.now)) }
{
    if !word.is_upper() {
        return Err(shape(at));
    }
    short_word(word, at)
}

/// The relation's name in a lexeme.
pub(crate) fn relation_in<'a, A: Allocator>(lexeme: TextLexeme<'a, A>) -> Result<&'a str, TextFault>
    ensures name { Gives (λ w. w.now) result (relation_in lexeme.entry.token lexeme.entry.at) }
    ensures valid { IfOk result (λ w. IsTrue (is_relation_name w.now)) }
{
    let Lexeme { at, token } = lexeme;
    let Some(word) = word_in(token) else {
        return Err(shape(at));
    };
    relation_word(&word, at)
}

/// The text of these letters.
fn text_value<A: Allocator>(alloc: A, word: &str) -> Result<Value<A>, TextFault>
    requires { IsTrue (is_text word.now) }
    ensures { Gives (λ value. value) result (Ok (Content.Text word.now)) }
{
    Ok(Value::known_text(alloc, word)?)
}

/// The text of an upper-case identifier, as a term.
fn text_term<A: Allocator>(alloc: A, word: &str) -> Result<Term<A>, TextFault>
    requires { IsTrue (is_text word.now) }
    ensures { Gives (λ term. term) result (Ok (TermKind.Constant (Content.Text word.now))) }
{
    Ok(Term::constant(text_value(alloc, word)?))
}

/// The variable of a lower-case identifier.
fn variable_term<A: Allocator>(alloc: A, word: &str) -> Result<Term<A>, TextFault>
    requires { IsTrue (is_variable_name word.now) }
    ensures { Gives (λ term. term) result (Ok (TermKind.Variable word.now)) }
{
    Ok(Term::known_variable(alloc, word)?)
}

/// The term that an identifier is.
pub(crate) fn word_term<A: Allocator>(
    alloc: A,
    word: &Identifier,
    at: usize,
) -> Result<Term<A>, TextFault>
    ensures { Gives (λ term. term) result (word_term word.now at) }
{
    if word.is_upper() {
        text_term(alloc, short_word(word, at)?)
    } else if word.is_lower() {
        variable_term(alloc, short_word(word, at)?)
    } else {
        Err(shape(at))
    }
}

/// The term in a lexeme.
pub(crate) fn term_in<A: Allocator>(alloc: A, lexeme: TextLexeme<A>) -> Result<Term<A>, TextFault>
    ensures { Gives (λ term. term) result (term_in lexeme.entry.token lexeme.entry.at) }
{
    let Lexeme { at, token } = lexeme;
    match token {
        Token::Literal(value) => Ok(Term::constant(value)),
        Token::Word(word) => word_term(alloc, &word, at),
        Token::Mark(_sign) => Err(shape(at)),
        Token::Bad(_kind) => Err(shape(at)),
        Token::Finish => Err(shape(at)),
    }
}

/// The text of an upper-case identifier; a lower-case one is a variable, which no row has.
pub(crate) fn word_value<A: Allocator>(
    alloc: A,
    identifier: &Identifier,
    at: usize,
) -> Result<Value<A>, TextFault>
    ensures { Gives (λ value. value) result (word_value identifier.now at) }
{
    if identifier.is_upper() {
        text_value(alloc, short_word(identifier, at)?)
    } else {
        Err(shape(at))
    }
}

/// The constant in a lexeme.
pub(crate) fn value_in<A: Allocator>(alloc: A, lexeme: TextLexeme<A>) -> Result<Value<A>, TextFault>
    ensures { Gives (λ value. value) result (value_in lexeme.entry.token lexeme.entry.at) }
{
    let Lexeme { at, token } = lexeme;
    match token {
        Token::Literal(value) => Ok(value),
        Token::Word(word) => word_value(alloc, &word, at),
        Token::Mark(_sign) => Err(shape(at)),
        Token::Bad(_kind) => Err(shape(at)),
        Token::Finish => Err(shape(at)),
    }
}

/// The kind of fault that a token is wherever it stands.
pub(crate) fn flaw<A: Allocator>(token: &TextToken<A>) -> Option<Kind>
    ensures { result ≡ flaw token.now }
{
    match token {
        Token::Bad(kind) => Some(*kind),
        Token::Finish => Some(Kind::Shape),
        _ => None,
    }
}

pub(crate) fn is_sign<A: Allocator>(token: &TextToken<A>, sign: Sign) -> bool
    ensures { result ≡ is_sign sign token.now }
{
    matches!(token, Token::Mark(other) if *other == sign)
}

pub(crate) fn is_finish<A: Allocator>(token: &TextToken<A>) -> bool
    ensures { result ≡ is_finish token.now }
{
    matches!(token, Token::Finish)
}

/// Whether a sign closes what that closes.
pub(crate) fn closes(sign: Sign, close: Close) -> bool
    ensures { result ≡ is_close close (Token.Mark sign) }
{
    match close {
        Close::By(other) => sign == other,
        Close::End => false,
    }
}

pub(crate) fn is_close<A: Allocator>(token: &TextToken<A>, close: Close) -> bool
    ensures { result ≡ is_close close token.now }
{
    match close {
        Close::By(sign) => is_sign(token, sign),
        Close::End => is_finish(token),
    }
}
