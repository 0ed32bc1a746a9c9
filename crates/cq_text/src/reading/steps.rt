//! The reader's own steps, from lexeme to lexeme.

ghost use Rattle.std.specs.Prelude.{◌≡◌, Ok, IfOk, IsTrue, MatchOption};
ghost use Rattle.cq_atom.specs.Text.{is_relation_name};
ghost use Rattle.cq_atom.specs.declared.value.Content.{Content};
ghost use Rattle.cq_text.specs.Steps.Lexemes.{next_is_at, passes_at, next_in_list_at, name_at, relation_name_at, Gives, Met, WordComes, ahead_of_text, next_at, sign_at, end_at, goes_on_at};

use crate::fault::TextFault;
use crate::lexing::{front, front_number, front_word, sign_of, spaces_len};
use crate::reading::Reader;
use crate::reading::lexemes::{
    closes, flaw, is_close, is_sign, name_in, relation_in, relation_word, shape,
};
use crate::room::Room;
use crate::token::{Close, Lexeme, Sign, TextLexeme, Token};
use crate::word::Identifier;
use cq_atom::Name;
use std::alloc::Allocator;

impl<'a, A: Allocator + Copy> Reader<'a, A> {
    pub(crate) fn new(alloc: A, text: &'a [u8]) -> Reader<'a, A>
        ensures { result ≡ ahead_of_text text.now }
    {
        Reader {
            alloc,
            text,
            at: 0,
            room: Room::new(alloc),
        }
    }

    /// A reader of the same place.
    pub(crate) fn again(&self) -> Reader<'a, A>
        ensures { result ≡ self.now }
    {
        Reader {
            alloc: self.alloc,
            text: self.text,
            at: self.at,
            room: Room::new(self.alloc),
        }
    }

    /// Passes the spaces that come, after which the same tokens are ahead.
    fn pass_spaces(&mut self)
        ensures { self.new ≡ self.old }
    {
        self.at += spaces_len(&self.text[self.at..]);
    }

    /// The sign of one byte that comes, which is passed then, and where it stands.
    #[inline(always)]
    fn next_sign(&mut self) -> Option<(Sign, usize)>
        ensures { MatchOption result (self.new ≡ self.old) (λ x. Met (Token.Mark x.0) x.1 self.old self.new) }
    {
        self.pass_spaces();
        let at = self.at;
        let sign = sign_of(*self.text.get(at)?)?;
        self.at = at + 1;
        Some((sign, at))
    }

    /// Where a comma stands, if one comes, which is passed then.
    #[inline(always)]
    fn next_comma(&mut self) -> Option<usize>
        ensures { MatchOption result (self.new ≡ self.old) (λ at. Met (Token.Mark Sign.Comma) at self.old self.new) }
    {
        self.pass_spaces();
        let at = self.at;
        if *self.text.get(at)? != b',' {
            return None;
        }
        self.at = at + 1;
        Some(at)
    }

    /// Whether an identifier comes. None is passed.
    fn meets_word(&mut self) -> bool
        ensures same { self.new ≡ self.old }
        ensures word { IsTrue result → WordComes self.old }
    {
        self.pass_spaces();
        let Some(first) = self.text.get(self.at) else {
            return false;
        };
        first.is_ascii_alphabetic()
    }

    /// The identifier that comes, which is passed then, and where it stands.
    #[inline(always)]
    pub(crate) fn next_word(&mut self) -> Option<(Identifier<'a>, usize)>
        ensures { MatchOption result (self.new ≡ self.old) (λ x. Met (Token.Word x.0) x.1 self.old self.new) }
    {
        self.pass_spaces();
        let at = self.at;
        let rest = &self.text[at..];
        if !rest.first()?.is_ascii_alphabetic() {
            return None;
        }
        let (word, len) = front_word(rest);
        self.at = at + len;
        Some((word, at))
    }

    /// The number without a minus that comes, which is passed then, and where it stands. A bad one does not come.
    pub(crate) fn next_number(&mut self) -> Option<(i64, usize)>
        ensures { MatchOption result (self.new ≡ self.old) (λ x. Met (Token.Literal (Content.Number x.0)) x.1 self.old self.new) }
    {
        self.pass_spaces();
        let at = self.at;
        let (number, len) = front_number(&self.text[at..])?;
        self.at = at + len;
        Some((number, at))
    }

    /// The next token, passing spaces.
    pub(crate) fn next(&mut self) -> Result<TextLexeme<'a, A>, TextFault>
        ensures { Gives (λ l. (l, self.new)) result (next_at self.old) }
    {
        let rest = &self.text[self.at..];
        let spaces = spaces_len(rest);
        let rest = &rest[spaces..];
        let at = self.at + spaces;
        if rest.is_empty() {
            self.at = at;
            return Ok(Lexeme {
                at,
                token: Token::Finish,
            });
        }
        let (token, len) = front(self.alloc, rest)?;
        if let Some(kind) = flaw(&token) {
            return Err(TextFault::At { kind, offset: at });
        }
        self.at = at + len;
        Ok(Lexeme { at, token })
    }

    /// Whether the next token is that, and where it stands.
    #[tactic(auto, unfolding(crate::specs::Steps::Lexemes::next_is_at))]
    fn next_is(&mut self, close: Close) -> Result<(bool, usize), TextFault>
        ensures { Gives (λ x. (x.0, x.1, self.new)) result (next_is_at close self.old) }
    {
        if let Some((sign, at)) = self.next_sign() {
            return Ok((closes(sign, close), at));
        }
        let lexeme = self.next()?;
        Ok((is_close(&lexeme.token, close), lexeme.at))
    }

    #[tactic(auto, unfolding(crate::specs::Steps::Lexemes::sign_at, crate::specs::Steps::Lexemes::next_is_at))]
    pub(crate) fn sign(&mut self, sign: Sign) -> Result<(), TextFault>
        ensures { Gives (λ _. self.new) result (sign_at sign self.old) }
    {
        let (is_sign, at) = self.next_is(Close::By(sign))?;
        if is_sign { Ok(()) } else { Err(shape(at)) }
    }

    /// Nothing is left.
    #[tactic(auto, unfolding(crate::specs::Steps::Lexemes::end_at, crate::specs::Steps::Lexemes::next_is_at))]
    pub(crate) fn end(&mut self) -> Result<(), TextFault>
        ensures { Gives (λ _. self.new) result (end_at self.old) }
    {
        let (is_finish, at) = self.next_is(Close::End)?;
        if is_finish { Ok(()) } else { Err(shape(at)) }
    }

    /// Whether what closes a list comes, which is passed then. An identifier closes none, so it is not read here.
    #[tactic(auto, unfolding(crate::specs::Steps::Lexemes::passes_at, crate::specs::Steps::Lexemes::next_is_at))]
    pub(crate) fn passes(&mut self, close: Close) -> Result<bool, TextFault>
        ensures { Gives (λ passed. (passed, self.new)) result (passes_at close self.old) }
    {
        if self.meets_word() {
            return Ok(false);
        }
        let mut behind = self.again();
        let (is_close, _at) = behind.next_is(close)?;
        if is_close {
            *self = behind;
            Ok(true)
        } else {
            Ok(false)
        }
    }

    /// Whether the next token is a comma, whether it closes a list, and where it stands.
    #[tactic(auto, unfolding(crate::specs::Steps::Lexemes::next_in_list_at))]
    fn next_in_list(&mut self, close: Close) -> Result<(bool, bool, usize), TextFault>
        ensures { Gives (λ x. (x.0, x.1, x.2, self.new)) result (next_in_list_at close self.old) }
    {
        if let Some((sign, at)) = self.next_sign() {
            return Ok((sign == Sign::Comma, closes(sign, close), at));
        }
        let lexeme = self.next()?;
        Ok((
            is_sign(&lexeme.token, Sign::Comma),
            is_close(&lexeme.token, close),
            lexeme.at,
        ))
    }

    /// Whether the next lexeme is a comma, or what closes a list.
    #[tactic(auto, unfolding(crate::specs::Steps::Lexemes::goes_on_at, crate::specs::Steps::Lexemes::next_in_list_at))]
    #[inline(never)]
    fn lexeme_goes_on(&mut self, close: Close) -> Result<bool, TextFault>
        ensures { Gives (λ more. (more, self.new)) result (goes_on_at close self.old) }
    {
        let (is_comma, is_close, at) = self.next_in_list(close)?;
        if is_comma {
            Ok(true)
        } else if is_close {
            Ok(false)
        } else {
            Err(shape(at))
        }
    }

    /// Whether a comma comes, or what closes a list. Most often it is a comma, so that is tested first.
    #[tactic(auto, unfolding(crate::specs::Steps::Lexemes::goes_on_at))]
    #[inline(always)]
    pub(crate) fn goes_on(&mut self, close: Close) -> Result<bool, TextFault>
        ensures { Gives (λ more. (more, self.new)) result (goes_on_at close self.old) }
    {
        if let Some(_at) = self.next_comma() {
            return Ok(true);
        }
        self.lexeme_goes_on(close)
    }

    /// A name of any case.
    #[tactic(auto, unfolding(crate::specs::Steps::Lexemes::name_at))]
    pub(crate) fn name(&mut self) -> Result<Name<A>, TextFault>
        ensures { Gives (λ name. (name, self.new)) result (name_at self.old) }
    {
        let lexeme = self.next()?;
        name_in(self.alloc, lexeme)
    }

    /// A relation's name, and where it stands.
    #[tactic(auto, unfolding(crate::specs::Steps::Lexemes::relation_name_at))]
    pub(crate) fn relation_name(&mut self) -> Result<(&'a str, usize), TextFault>
        ensures name { Gives (λ x. (x.0.now, x.1, self.new)) result (relation_name_at self.old) }
        ensures valid { IfOk result (λ x. IsTrue (is_relation_name x.0.now)) }
    {
        if let Some((word, at)) = self.next_word() {
            return Ok((relation_word(&word, at)?, at));
        }
        let lexeme = self.next()?;
        let at = lexeme.at;
        Ok((relation_in(lexeme)?, at))
    }
}
