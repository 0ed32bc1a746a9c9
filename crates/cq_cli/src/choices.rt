//! Choices and names from words of a command line.

ghost use Rattle.std.specs.Prelude.{◌≡◌, ◌≢◌, ◌++◌, ◌∷◌, [], map, false, IfOk, IfErr, OnOk};
ghost use Rattle.std.specs.List.{list_all};
ghost use Rattle.cq_atom.specs.Text.{is_name};
ghost use Rattle.cq_ask.specs.Choices.{StandForChoices, StandForNone};

use cq_atom::{Bad, Name};
use cq_board::Choice;
use std::alloc::{AllocError, Allocator};
use thiserror::Error;

/// Why words are no choice, or no name.
#[derive(Clone, Copy, Debug, PartialEq, Eq, Error)]
pub(crate) enum ChoiceFault<'a> {
    /// The word is no name with values in brackets after it.
    #[error("bad choice: {word}")]
    Bad { word: &'a str },
    /// The word is no name.
    #[error("bad name: {word}")]
    Name { word: &'a str },
    /// An allocation failed.
    #[error("out of memory")]
    NoMemory,
}

impl<'a> From<AllocError> for ChoiceFault<'a> {
    ghost use Rattle.std.specs.Prelude.{◌≡◌};
    ghost use Rattle.cq_cli.specs.declared.choices.ChoiceFault.TheVariants.{NoMemory};

    ghost from_gives = { λ _ e. e ≡ NoMemory };

    fn from(_e: AllocError) -> ChoiceFault<'a> {
        ChoiceFault::NoMemory
    }
}

/// The bytes of the words.
fn bytes_of<'a, A: Allocator>(alloc: A, words: &[&'a str]) -> Result<Vec<&'a [u8], A>, AllocError>
    ensures { IfOk result (λ bytes. map (λ word. word.now) bytes.items ≡ map (λ word. word.now) words.now) }
{
    let mut bytes = Vec::with_capacity(alloc, words.len())?;
    for word in words {
        bytes.push(word.as_bytes())?;
    }
    Ok(bytes)
}

/// The choices that the words stand for, in their order.
pub(crate) fn read_choices<'a, A: Allocator + Copy>(
    alloc: A,
    words: &[&'a str],
) -> Result<Vec<Choice<A>, A>, ChoiceFault<'a>>
    ensures found { IfOk result (λ choices. StandForChoices (map (λ word. word.now) words.now) choices.items) }
    ensures bad { IfErr result (λ fault. fault ≢ ChoiceFault.NoMemory → StandForNone (map (λ word. word.now) words.now)) }
{
    let bytes = bytes_of(alloc, words)?;
    match cq_ask::read_choices(alloc, &bytes) {
        Ok(choices) => Ok(choices),
        Err(cq_ask::ChoiceFault::Bad { place }) => Err(ChoiceFault::Bad { word: words[place] }),
        Err(cq_ask::ChoiceFault::NoMemory) => Err(ChoiceFault::NoMemory),
    }
}

/// The name that the word is.
fn read_name<'a, A: Allocator>(alloc: A, word: &'a str) -> Result<Name<A>, ChoiceFault<'a>>
    ensures found { IfOk result (λ name. name ≡ word.now) }
    ensures bad { IfErr result (λ fault. fault ≢ ChoiceFault.NoMemory → is_name word.now ≡ false) }
{
    match Name::new(alloc, word) {
        Ok(name) => Ok(name),
        Err(Bad::NoMemory) => Err(ChoiceFault::NoMemory),
        Err(_) => Err(ChoiceFault::Name { word }),
    }
}

fn add<A: Allocator>(names: &mut Vec<Name<A>, A>, name: Name<A>) -> Result<(), AllocError>
    ensures { OnOk result (names.new.items ≡ names.old.items ++ name ∷ []) }
{
    names.push(name)?;
    Ok(())
}

/// The names that the words are, in their order.
pub(crate) fn read_names<'a, A: Allocator + Copy>(
    alloc: A,
    words: &[&'a str],
) -> Result<Vec<Name<A>, A>, ChoiceFault<'a>>
    ensures found { IfOk result (λ names. names.items ≡ map (λ word. word.now) words.now) }
    ensures bad { IfErr result (λ fault. fault ≢ ChoiceFault.NoMemory → list_all is_name (map (λ word. word.now) words.now) ≡ false) }
{
    let mut names = Vec::with_capacity(alloc, words.len())?;
    for word in words {
        match read_name(alloc, word) {
            Ok(name) => add(&mut names, name)?,
            Err(fault) => return Err(fault),
        }
    }
    Ok(names)
}
