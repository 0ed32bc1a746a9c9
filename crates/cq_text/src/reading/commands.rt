//! Reads commands.

ghost use Rattle.std.specs.Prelude.{◌≡◌};
ghost use Rattle.cq_text.specs.Grammar.{count_of};
ghost use Rattle.cq_text.specs.Steps.Commands.{number_in, count_in, count_at, relation_at, form_numbered, board_at, limits_at, withdraw_at, insert_at, delete_at, command_word_in, command_word_at, post_at, word_alone, command_of, command_at};
ghost use Rattle.cq_text.specs.Steps.Lexemes.{Gives};

use crate::command::{Command, CommandKind, CommandWord, SetupLine};
use crate::fault::TextFault;
use crate::form::Form;
use crate::limits::{MAX_COUNT, MAX_FORM};
use crate::reading::Reader;
use crate::reading::lexemes::{limit, new_name, shape};
use crate::token::{TextLexeme, TextToken, Token};
use cq_atom::EditKind;
use std::alloc::Allocator;

/// The number that a token is.
fn number_in<A: Allocator>(token: &TextToken<A>) -> Option<i64>
    ensures { result ≡ number_in token.now }
{
    match token {
        Token::Literal(value) => value.as_num(),
        _ => None,
    }
}

/// A number as a count; a negative one is 0.
fn count_of(number: i64) -> usize
    ensures { result ≡ count_of number }
{
    usize::try_from(number).unwrap_or(0)
}

/// The count from 1 to the most in a lexeme.
fn count_in<A: Allocator>(lexeme: &TextLexeme<A>, most: usize) -> Result<usize, TextFault>
    ensures { Gives (λ count. count) result (count_in most lexeme.now.token lexeme.now.at) }
{
    let Some(number) = number_in(&lexeme.token) else {
        return Err(shape(lexeme.at));
    };
    let count = count_of(number);
    if 1 <= count && count <= most {
        Ok(count)
    } else {
        Err(limit(lexeme.at))
    }
}

/// The form that a number from 1 to 2 names.
fn form_numbered(number: usize) -> Form
    ensures { result ≡ form_numbered number }
{
    if number == 2 { Form::Two } else { Form::One }
}

/// The command word that a token is.
fn command_word_in<A: Allocator>(token: &TextToken<A>) -> Option<CommandWord>
    ensures { result ≡ command_word_in token.now }
{
    match token {
        Token::Word(word) => CommandWord::of(word.as_str()),
        _ => None,
    }
}

impl<'a, A: Allocator + Copy> Reader<'a, A> {
    /// A count from 1 to the most.
    #[tactic(auto, unfolding(crate::specs::Steps::Commands::count_at))]
    fn count(&mut self, most: usize) -> Result<usize, TextFault>
        ensures { Gives (λ count. (count, self.new)) result (count_at most self.old) }
    {
        let lexeme = self.next()?;
        count_in(&lexeme, most)
    }

    /// The declaration of a relation, and the end.
    #[tactic(auto, unfolding(crate::specs::Steps::Commands::relation_at, crate::specs::Steps::Lexemes::relation_name_at))]
    fn relation(&mut self, form: Form) -> Result<Command<A>, TextFault>
        ensures { Gives (λ command. command) result (relation_at form self.old) }
    {
        let (word, _at) = self.relation_name()?;
        let arity = self.count(form.max_terms())?;
        self.end()?;
        let name = new_name(self.alloc, word)?;
        Ok(CommandKind::Setup(SetupLine::Relation { name, arity }))
    }

    /// The form of the script, and the end.
    #[tactic(auto, unfolding(crate::specs::Steps::Commands::board_at))]
    fn board(&mut self) -> Result<Command<A>, TextFault>
        ensures { Gives (λ command. command) result (board_at self.old) }
    {
        let number = self.count(MAX_FORM)?;
        self.end()?;
        let form = form_numbered(number);
        Ok(CommandKind::Setup(SetupLine::Board { form }))
    }

    /// The limits of the board, and the end.
    #[tactic(auto, unfolding(crate::specs::Steps::Commands::limits_at))]
    fn limits(&mut self) -> Result<Command<A>, TextFault>
        ensures { Gives (λ command. command) result (limits_at self.old) }
    {
        let pool = self.count(MAX_COUNT)?;
        let journal = self.count(MAX_COUNT)?;
        self.end()?;
        Ok(CommandKind::Setup(SetupLine::Limits { pool, journal }))
    }

    #[tactic(auto, unfolding(crate::specs::Steps::Commands::post_at, crate::specs::Steps::Lexemes::name_at))]
    fn post(&mut self, form: Form) -> Result<Command<A>, TextFault>
        ensures { Gives (λ command. command) result (post_at form self.old) }
    {
        let name = self.name()?;
        let query = self.query(form)?;
        Ok(CommandKind::Edit(EditKind::Post { name, query }))
    }

    #[tactic(auto, unfolding(crate::specs::Steps::Commands::withdraw_at, crate::specs::Steps::Lexemes::name_at))]
    fn withdraw(&mut self) -> Result<Command<A>, TextFault>
        ensures { Gives (λ command. command) result (withdraw_at self.old) }
    {
        let name = self.name()?;
        self.end()?;
        Ok(CommandKind::Edit(EditKind::Withdraw { name }))
    }

    #[tactic(auto, unfolding(crate::specs::Steps::Commands::insert_at))]
    fn insert(&mut self, form: Form) -> Result<Command<A>, TextFault>
        ensures { Gives (λ command. command) result (insert_at form self.old) }
    {
        let row = self.row(form)?;
        Ok(CommandKind::Edit(EditKind::Insert { row }))
    }

    #[tactic(auto, unfolding(crate::specs::Steps::Commands::delete_at))]
    fn delete(&mut self, form: Form) -> Result<Command<A>, TextFault>
        ensures { Gives (λ command. command) result (delete_at form self.old) }
    {
        let row = self.row(form)?;
        Ok(CommandKind::Edit(EditKind::Delete { row }))
    }

    /// The command of a word, with nothing after it.
    #[tactic(auto, unfolding(crate::specs::Steps::Commands::word_alone))]
    fn word_alone(&mut self, command: Command<A>) -> Result<Command<A>, TextFault>
        ensures { Gives (λ command. command) result (word_alone command self.old) }
    {
        self.end()?;
        Ok(command)
    }

    /// What stands after a command word.
    fn command_of(&mut self, form: Form, word: CommandWord) -> Result<Command<A>, TextFault>
        ensures { Gives (λ command. command) result (command_of form word self.old) }
    {
        match word {
            CommandWord::Relation => self.relation(form),
            CommandWord::Board => self.board(),
            CommandWord::Limits => self.limits(),
            CommandWord::Post => self.post(form),
            CommandWord::Withdraw => self.withdraw(),
            CommandWord::Insert => self.insert(form),
            CommandWord::Delete => self.delete(form),
            CommandWord::Publish => self.word_alone(CommandKind::Publish),
            CommandWord::Show => self.word_alone(CommandKind::Show),
        }
    }

    /// The command word that comes, if one does, and where it stands.
    #[tactic(auto, unfolding(crate::specs::Steps::Commands::command_word_at))]
    fn command_word(&mut self) -> Result<(Option<CommandWord>, usize), TextFault>
        ensures { Gives (λ x. (x.0, x.1, self.new)) result (command_word_at self.old) }
    {
        let lexeme = self.next()?;
        Ok((command_word_in(&lexeme.token), lexeme.at))
    }

    #[tactic(auto, unfolding(crate::specs::Steps::Commands::command_at, crate::specs::Steps::Commands::command_word_at))]
    pub(crate) fn command(&mut self, form: Form) -> Result<Command<A>, TextFault>
        ensures { Gives (λ command. command) result (command_at form self.old) }
    {
        let (word, at) = self.command_word()?;
        match word {
            Some(word) => self.command_of(form, word),
            None => Err(shape(at)),
        }
    }
}
