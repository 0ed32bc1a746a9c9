//! Choices from words: `NAME(V, ..)`.

ghost use Rattle.std.specs.Prelude.{◌≡◌, ◌≢◌, ◌≤◌, ◌<◌, ◌++◌, ◌∷◌, true, false, List, ℕ, [], length, map, codes, get_or, IsTrue, IfOk, IfErr, IfSome, OnOk, MatchOption};
ghost use Rattle.std.specs.List.{prefix_len};
ghost use Rattle.cq_atom.specs.Text.{is_name};
ghost use Rattle.cq_atom.specs.Value.{ValueContent};
ghost use Rattle.cq_text.specs.Lexing.{is_space};
ghost use Rattle.cq_board.specs.Choice.{ChoiceRecord};
ghost use Rattle.cq_ask.specs.Choices.{ArePaired, StandsForValue, ListsValues, StandsForChoice, StandForChoices, StandForNone, IsBadWord, place_after, bracket_after, is_gap, kept_words, choice_words};
ghost use Rattle.cq_ask.specs.Steps.Splitting.{is_cut, pieces, is_before_bracket};

use crate::reading::{is_space, name_of};
use cq_atom::Value;
use cq_board::Choice;
use cq_text::{Form, TextFault, one_reading, read_ground_atom};
use std::alloc::{AllocError, Allocator};

/// Why words are no choices.
#[derive(Clone, Copy, Debug, PartialEq, Eq)]
pub enum ChoiceFault {
    /// The word at that place is no name with values in brackets after it.
    Bad { place: usize },
    /// An allocation failed.
    NoMemory,
}

impl From<AllocError> for ChoiceFault {
    ghost use Rattle.std.specs.Prelude.{◌≡◌};
    ghost use Rattle.cq_ask.specs.declared.choices.ChoiceFault.TheVariants.{NoMemory};

    ghost from_gives = { λ _ e. e ≡ NoMemory };

    fn from(_e: AllocError) -> ChoiceFault {
        ChoiceFault::NoMemory
    }
}

/// Where a reader of bytes stands.
#[derive(Clone, Copy)]
enum Place {
    /// In no quotes.
    Outside,
    /// Between quotes.
    Inside,
    /// Between quotes, after a backslash that escapes what follows.
    Escaped,
}

impl Place {
    /// After a further byte.
    fn after(self, byte: u8) -> Place
        ensures { result ≡ place_after self byte }
    {
        match (self, byte) {
            (Place::Outside, b'"') => Place::Inside,
            (Place::Outside, _) => Place::Outside,
            (Place::Inside, b'"') => Place::Outside,
            (Place::Inside, b'\\') => Place::Escaped,
            (Place::Inside | Place::Escaped, _) => Place::Inside,
        }
    }

    /// Whether the byte parts two values there.
    fn is_cut(self, byte: u8) -> bool
        ensures { result ≡ is_cut self byte }
    {
        match self {
            Place::Outside => byte == b',',
            Place::Inside | Place::Escaped => false,
        }
    }
}

/// The bytes of a ground atom with that value alone.
fn atom_around<A: Allocator>(alloc: A, text: &[u8]) -> Result<Vec<u8, A>, AllocError>
    ensures { IfOk result (λ atom. atom.items ≡ codes "V(" ++ text.now ++ codes ")") }
{
    let mut atom = Vec::from_slice(alloc, b"V(")?;
    atom.extend_from_slice(text)?;
    atom.push(b')')?;
    Ok(atom)
}

/// The one value of a list, or nothing where there are more or none.
fn only_value<A: Allocator>(values: &[Value<A>]) -> Option<&Value<A>>
    ensures { MatchOption result (length values.now ≢ 1) (λ value. values.now ≡ value.now ∷ []) }
{
    if values.len() == 1 {
        Some(&values[0])
    } else {
        None
    }
}

/// The value that a text stands for, or nothing where it stands for none.
fn value_of<A: Allocator + Copy>(alloc: A, text: &[u8]) -> Result<Option<Value<A>>, AllocError>
    ensures { IfOk result (λ found. MatchOption found ((value : ValueContent) → StandsForValue text.now value → ⊥) (λ value. StandsForValue text.now value)) }
{
    let atom = atom_around(alloc, text)?;
    match read_ground_atom(alloc, &atom, Form::Two) {
        Ok(row) => match only_value(row.values()) {
            Some(value) => Ok(Some(value.copy()?)),
            None => Ok(None),
        },
        Err(TextFault::NoMemory) => Err(AllocError),
        Err(TextFault::At { kind: _, offset: _ }) => Ok(None),
    }
}

/// Adds the value that a text stands for, and says whether it stands for one.
fn add_value<A: Allocator + Copy>(
    alloc: A,
    values: &mut Vec<Value<A>, A>,
    text: &[u8],
) -> Result<bool, AllocError>
    ensures added { IfOk result (λ added. added ≡ true → (value : ValueContent) × StandsForValue text.now value × (values.new.items ≡ values.old.items ++ value ∷ [])) }
    ensures none { IfOk result (λ added. added ≡ false → (value : ValueContent) → StandsForValue text.now value → ⊥) }
{
    let Some(value) = value_of(alloc, text)? else {
        return Ok(false);
    };
    values.push(value)?;
    Ok(true)
}

/// Adds the values that a text lists, which commas part that stand in no quotes, to none, and says whether each is one. The
/// piece is empty.
fn add_values<A: Allocator + Copy>(
    alloc: A,
    values: &mut Vec<Value<A>, A>,
    piece: &mut Vec<u8, A>,
    text: &[u8],
) -> Result<bool, AllocError>
    ensures added { values.old.items ≡ [] → piece.old.items ≡ [] → IfOk result (λ added. added ≡ true → ListsValues text.now values.new.items) }
    ensures none { values.old.items ≡ [] → piece.old.items ≡ [] → IfOk result (λ added. added ≡ false → (all : List ValueContent) → ArePaired StandsForValue (pieces Place.Outside [] text.now) all → ⊥) }
{
    let mut place = Place::Outside;
    for byte in text {
        if place.is_cut(*byte) {
            if !add_value(alloc, values, piece)? {
                return Ok(false);
            }
            piece.clear();
        } else {
            place = place.after(*byte);
            piece.push(*byte)?;
        }
    }
    add_value(alloc, values, piece)
}

/// The values that a text lists, or nothing where one of them is none. An empty text lists no value.
fn values_of<A: Allocator + Copy>(
    alloc: A,
    text: &[u8],
) -> Result<Option<Vec<Value<A>, A>>, AllocError>
    ensures { IfOk result (λ found. MatchOption found ((values : List ValueContent) → ListsValues text.now values → ⊥) (λ values. ListsValues text.now values.items)) }
{
    let mut values = Vec::new(alloc);
    if text.is_empty() {
        return Ok(Some(values));
    }
    let mut piece = Vec::new(alloc);
    if !add_values(alloc, &mut values, &mut piece, text)? {
        return Ok(None);
    }
    Ok(Some(values))
}

/// How many bytes stand before the first bracket.
fn name_len(word: &[u8]) -> usize
    ensures len { result ≡ prefix_len is_before_bracket word.now }
    ensures within { result ≤ length word.now }
{
    word.iter().take_while(|byte| **byte != b'(').count()
}

/// The name in front of the brackets, and what stands in them.
fn parts_of(word: &[u8]) -> Option<(&[u8], &[u8])>
    ensures found { IfSome result (λ parts. word.now ≡ parts.0.now ++ codes "(" ++ parts.1.now ++ codes ")") }
    ensures only { (name inner : List ℕ) → IsTrue (is_name name) → word.now ≡ name ++ codes "(" ++ inner ++ codes ")" → MatchOption result ⊥ (λ parts. (parts.0.now ≡ name) × (parts.1.now ≡ inner)) }
{
    let (name, rest) = word.split_at(name_len(word));
    let after = rest.strip_prefix(b"(")?;
    let inner = after.strip_suffix(b")")?;
    Some((name, inner))
}

/// The choice that a word stands for: a query's name, and values in brackets, with commas between them.
fn choice_of<A: Allocator + Copy>(alloc: A, word: &[u8]) -> Result<Option<Choice<A>>, AllocError>
    ensures { IfOk result (λ found. MatchOption found ((choice : ChoiceRecord) → StandsForChoice word.now choice → ⊥) (StandsForChoice word.now)) }
{
    let Some((name, inner)) = parts_of(word) else {
        return Ok(None);
    };
    let Some(named) = name_of(alloc, name)? else {
        return Ok(None);
    };
    match values_of(alloc, inner)? {
        Some(values) => Ok(Some(Choice {
            name: named,
            values,
        })),
        None => Ok(None),
    }
}

/// Adds the choice that a word stands for, and says whether it stands for one.
fn add_choice<A: Allocator + Copy>(
    alloc: A,
    choices: &mut Vec<Choice<A>, A>,
    word: &[u8],
) -> Result<bool, AllocError>
    ensures added { IfOk result (λ added. added ≡ true → (choice : ChoiceRecord) × StandsForChoice word.now choice × (choices.new.items ≡ choices.old.items ++ choice ∷ [])) }
    ensures none { IfOk result (λ added. added ≡ false → (choice : ChoiceRecord) → StandsForChoice word.now choice → ⊥) }
{
    let Some(choice) = choice_of(alloc, word)? else {
        return Ok(false);
    };
    choices.push(choice)?;
    Ok(true)
}

/// The choices that the words stand for, in their order: each word a query's name, and in brackets values with commas between
/// them, as a script writes them. An allocation for each name, each list and each text that is longer than a value holds itself.
///
/// # Errors
/// `ChoiceFault::Bad` with the place of the first word that stands for none; `ChoiceFault::NoMemory` where an allocation failed.
pub fn read_choices<A: Allocator + Copy>(
    alloc: A,
    words: &[&[u8]],
) -> Result<Vec<Choice<A>, A>, ChoiceFault>
    ensures found { IfOk result (λ choices. StandForChoices (map (λ word. word.now) words.now) choices.items) }
    ensures bad { IfErr result (λ fault. fault ≢ ChoiceFault.NoMemory → StandForNone (map (λ word. word.now) words.now)) }
    ensures at { IfErr result (IsBadWord (map (λ word. word.now) words.now)) }
{
    let mut choices = Vec::new(alloc);
    for (place, word) in words.iter().enumerate() {
        if !add_choice(alloc, &mut choices, word)? {
            return Err(ChoiceFault::Bad { place });
        }
    }
    Ok(choices)
}

// ---- words of a line

/// Where a reader of words stands after a further byte: in no brackets, or at a place in them.
fn bracket_after(place: Option<Place>, byte: u8) -> Option<Place>
    ensures { result ≡ bracket_after place byte }
{
    match (place, byte) {
        (None, b'(') => Some(Place::Outside),
        (None, _) | (Some(Place::Outside), b')') => None,
        (Some(place), _) => Some(place.after(byte)),
    }
}

/// Whether the byte parts two words there.
fn is_gap(place: Option<Place>, byte: u8) -> bool
    ensures { result ≡ is_gap place byte }
{
    place.is_none() && is_space(byte)
}

/// Adds a word, if it is not empty.
fn add_word<'a, A: Allocator>(
    words: &mut Vec<&'a [u8], A>,
    word: &'a [u8],
) -> Result<(), AllocError>
    ensures { OnOk result (map (λ word. word.now) words.new.items ≡ map (λ word. word.now) words.old.items ++ kept_words (word.now ∷ [])) }
{
    if !word.is_empty() {
        words.push(word)?;
    }
    Ok(())
}

/// The words of a text: what stands between spaces outside of brackets.
pub(crate) fn choice_words<A: Allocator>(alloc: A, text: &[u8]) -> Result<Vec<&[u8], A>, AllocError>
    ensures { IfOk result (λ words. map (λ word. word.now) words.items ≡ choice_words text.now) }
{
    let mut words = Vec::new(alloc);
    let mut place = None;
    let mut start = 0;
    for i in 0..text.len() {
        if is_gap(place, text[i]) {
            add_word(&mut words, &text[start..i])?;
            start = i + 1;
        } else {
            place = bracket_after(place, text[i]);
        }
    }
    add_word(&mut words, &text[start..])?;
    Ok(words)
}

/// A word stands for one choice, and words for one list of choices. This is a law of the definitions alone, so there is nothing to
/// do but to name the law that it rests on.
pub fn one_choice()
    ensures word { (word : List ℕ) (choice other : ChoiceRecord) → StandsForChoice word choice → StandsForChoice word other → choice ≡ other }
    ensures words { (words : List (List ℕ)) (choices others : List ChoiceRecord) → StandForChoices words choices → StandForChoices words others → choices ≡ others }
{
    one_reading();
}
