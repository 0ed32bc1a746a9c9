//! Reads lines that ask.

ghost use Rattle.std.specs.Prelude.{◌≡◌, ℕ, ◌≢◌, ◌≤◌, ◌-◌, true, false, map, length, filter, IfOk, OnErr, Some, None, option_map, not, ◌==◌, if◌then◌else◌};
ghost use Rattle.std.specs.List.{prefix_len, slice_split, list_all};
ghost use Rattle.std.specs.Str.{bytes_eq};
ghost use Rattle.cq_atom.specs.Text.{is_name};
ghost use Rattle.cq_text.specs.Lexing.{is_space};
ghost use Rattle.cq_ask.specs.Ask.{is_part, cut_word, words_of, kind_of, takes, takes_no_names, unfit, asked_of_names, post_of, asked_of_post, asked_of_body, asked_of, asked};

use crate::ask::{Ask, AskKind};
use cq_atom::{Bad, Name};
use cq_text::{MAX_BYTES, TextFault, read_field};
use std::alloc::{AllocError, Allocator};
use std::str;

/// Whether the byte is a space, a tab or a carriage return.
pub(crate) fn is_space(byte: u8) -> bool
    ensures { result ≡ is_space byte }
{
    byte == b' ' || byte == b'\t' || byte == b'\r'
}

/// Returns how many spaces the bytes begin with.
fn spaces_len(bytes: &[u8]) -> usize
    ensures len { result ≡ prefix_len is_space bytes.now }
    ensures within { result ≤ length bytes.now }
{
    bytes.iter().take_while(|byte| is_space(**byte)).count()
}

/// How many bytes at the front are no spaces.
fn word_len(bytes: &[u8]) -> usize
    ensures len { result ≡ prefix_len is_part bytes.now }
    ensures within { result ≤ length bytes.now }
{
    bytes.iter().take_while(|byte| !is_space(**byte)).count()
}

/// Returns the first word of a line, and the rest.
fn cut_word(line: &[u8]) -> (&[u8], &[u8])
    ensures { (result.0.now, result.1.now) ≡ cut_word line.now }
{
    let (_, rest) = line.split_at(spaces_len(line));
    rest.split_at(word_len(rest))
}

/// The words of a text.
pub(crate) fn words_of<A: Allocator>(alloc: A, text: &[u8]) -> Result<Vec<&[u8], A>, AllocError>
    ensures { IfOk result (λ words. map (λ word. word.now) words.items ≡ words_of text.now) }
{
    text.split(|byte| is_space(*byte))
        .filter(|word| !word.is_empty())
        .collect(alloc)
}

/// Returns how many words the text has. Does not allocate.
fn word_count(text: &[u8]) -> usize
    ensures { result ≡ length (words_of text.now) }
{
    text.split(|byte| is_space(*byte))
        .filter(|word| !word.is_empty())
        .count()
}

pub(crate) fn is_word(word: &[u8], text: &str) -> bool
    ensures { result ≡ bytes_eq word.now text.now }
{
    word == text.as_bytes()
}

/// Returns the kind of question that begins with this word, if any does.
fn kind_of(word: &[u8]) -> Option<AskKind>
    ensures { result ≡ kind_of word.now }
{
    if is_word(word, "count") {
        Some(AskKind::Count)
    } else if is_word(word, "status") {
        Some(AskKind::Status)
    } else if is_word(word, "query") {
        Some(AskKind::Query)
    } else if is_word(word, "explain") {
        Some(AskKind::Explain)
    } else if is_word(word, "near") {
        Some(AskKind::Near { post: 0 })
    } else if is_word(word, "choice") {
        Some(AskKind::Choice)
    } else if is_word(word, "choose") {
        Some(AskKind::Choose)
    } else if is_word(word, "groups") {
        Some(AskKind::Groups)
    } else if is_word(word, "changes") {
        Some(AskKind::Changes)
    } else if is_word(word, "graph") {
        Some(AskKind::Graph)
    } else if is_word(word, "json") {
        Some(AskKind::Json)
    } else if is_word(word, "dump") {
        Some(AskKind::Dump)
    } else if is_word(word, "find") {
        Some(AskKind::Find { place: 0 })
    } else if is_word(word, "checkpoint") {
        Some(AskKind::Checkpoint)
    } else if is_word(word, "help") {
        Some(AskKind::Help)
    } else if is_word(word, "quit") {
        Some(AskKind::Quit)
    } else {
        None
    }
}

/// Whether so many names may be asked of.
fn takes(kind: AskKind, count: usize) -> bool
    ensures { result ≡ takes kind count }
{
    match kind {
        AskKind::Status => count >= 1,
        AskKind::Query | AskKind::Near { .. } => count == 1,
        AskKind::Explain
        | AskKind::Choice
        | AskKind::Choose
        | AskKind::Find { .. }
        | AskKind::Unfit => true,
        _ => count == 0,
    }
}

/// Returns true if a question of this kind accepts no names.
fn takes_no_names(kind: AskKind) -> bool
    ensures { result ≡ takes_no_names kind }
{
    match kind {
        AskKind::Count
        | AskKind::Groups
        | AskKind::Changes
        | AskKind::Graph
        | AskKind::Json
        | AskKind::Dump
        | AskKind::Checkpoint
        | AskKind::Help
        | AskKind::Quit => true,
        _ => false,
    }
}

/// The name that a word is, if it is one.
pub(crate) fn name_of<A: Allocator>(alloc: A, word: &[u8]) -> Result<Option<Name<A>>, AllocError>
    ensures { IfOk result (λ name. name ≡ (if is_name word.now then Some word.now else None)) }
{
    let Ok(text) = str::from_utf8(word) else {
        return Ok(None);
    };
    match Name::new(alloc, text) {
        Ok(name) => Ok(Some(name)),
        Err(Bad::NoMemory) => Err(AllocError),
        Err(_) => Ok(None),
    }
}

/// The names that words are, if each is one.
fn names_of<A: Allocator + Copy>(
    alloc: A,
    words: &[&[u8]],
) -> Result<Option<Vec<Name<A>, A>>, AllocError>
    ensures { IfOk result (λ names. option_map (λ names. names.items) names ≡ (if list_all is_name (map (λ word. word.now) words.now) then Some (map (λ word. word.now) words.now) else None)) }
{
    let mut names = Vec::with_capacity(alloc, words.len())?;
    for word in words {
        let Some(name) = name_of(alloc, word)? else {
            return Ok(None);
        };
        names.push(name)?;
    }
    Ok(Some(names))
}

/// Returns the question that a word of this kind and other words, which must be names, ask.
fn asked_of_names<A: Allocator + Copy>(
    alloc: A,
    kind: AskKind,
    words: &[&[u8]],
) -> Result<Ask<A>, AllocError>
    ensures { IfOk result (λ ask. ask ≡ asked_of_names kind (map (λ word. word.now) words.now)) }
{
    if takes(kind, words.len()) {
        if let Some(names) = names_of(alloc, words)? {
            return Ok(Ask::new(alloc, kind, names));
        }
    }
    Ok(Ask::new(alloc, AskKind::Unfit, Vec::new(alloc)))
}

/// The postcondition that a word names: a number of the script language below 256.
fn post_of<A: Allocator>(alloc: A, word: &[u8]) -> Result<Option<u8>, AllocError>
    ensures { IfOk result (λ post. post ≡ post_of word.now) }
{
    match read_field(alloc, word) {
        Ok(value) => match value.as_num() {
            Some(number) => Ok(u8::try_from(number).ok()),
            None => Ok(None),
        },
        Err(TextFault::NoMemory) => Err(AllocError),
        Err(_) => Ok(None),
    }
}

/// Returns the question that `near` and other words, a name and a postcondition, ask.
fn asked_of_post<A: Allocator + Copy>(alloc: A, words: &[&[u8]]) -> Result<Ask<A>, AllocError>
    ensures { IfOk result (λ ask. ask ≡ asked_of_post (map (λ word. word.now) words.now)) }
{
    if words.len() != 2 {
        return Ok(Ask::new(alloc, AskKind::Unfit, Vec::new(alloc)));
    }
    match post_of(alloc, words[1])? {
        Some(post) => asked_of_names(alloc, AskKind::Near { post }, &words[..1]),
        None => Ok(Ask::new(alloc, AskKind::Unfit, Vec::new(alloc))),
    }
}

/// Returns the question that a word of this kind and the words of a text ask.
fn asked_of_words<A: Allocator + Copy>(
    alloc: A,
    kind: AskKind,
    text: &[u8],
) -> Result<Ask<A>, AllocError>
    ensures { IfOk result (λ ask. kind ≢ AskKind.Choice → ((at : ℕ) → kind ≢ AskKind.Find at) → (place : ℕ) → ask ≡ asked_of kind place text.now) }
{
    let words = words_of(alloc, text)?;
    match kind {
        AskKind::Near { .. } => asked_of_post(alloc, &words),
        _ => asked_of_names(alloc, kind, &words),
    }
}

/// Returns the question that `find` and a text ask, which begins at this place of the line.
fn asked_of_body<A: Allocator + Copy>(
    alloc: A,
    place: usize,
    text: &[u8],
) -> Result<Ask<A>, AllocError>
    ensures { IfOk result (λ ask. ask ≡ asked_of_body place text.now) }
{
    let count = word_count(text);
    if count == 0 {
        return Ok(Ask::new(alloc, AskKind::Unfit, Vec::new(alloc)));
    }
    Ask::of_text(alloc, AskKind::Find { place }, text)
}

/// Returns the question that a word of a kind without names and a text ask. Does not allocate.
fn asked_of_none<A: Allocator + Copy>(alloc: A, kind: AskKind, text: &[u8]) -> Ask<A>
    requires { takes_no_names kind ≡ true }
    ensures { (place : ℕ) → result ≡ asked_of kind place text.now }
{
    if word_count(text) == 0 {
        Ask::new(alloc, kind, Vec::new(alloc))
    } else {
        Ask::new(alloc, AskKind::Unfit, Vec::new(alloc))
    }
}

/// Returns the question that a word of this kind and a text ask, which begins at this place of the line.
fn asked_of<A: Allocator + Copy>(
    alloc: A,
    kind: AskKind,
    place: usize,
    text: &[u8],
) -> Result<Ask<A>, AllocError>
    ensures ask { IfOk result (λ ask. ask ≡ asked_of kind place text.now) }
    ensures memory { OnErr result (takes_no_names (asked_of kind place text.now).kind ≡ false) }
{
    if takes_no_names(kind) {
        return Ok(asked_of_none(alloc, kind, text));
    }
    match kind {
        AskKind::Choice => Ask::of_text(alloc, kind, text),
        AskKind::Find { .. } => asked_of_body(alloc, place, text),
        _ => asked_of_words(alloc, kind, text),
    }
}

/// Returns the question that a line asks, or nothing if its first word asks none or the line is too long. Does not allocate for a
/// line that asks nothing, or whose first word accepts no names, such as `count` and `quit`.
///
/// # Errors
/// `AllocError` if an allocation fails, which happens only if the first word accepts names, choices or a body.
pub fn read_ask<A: Allocator + Copy>(alloc: A, line: &[u8]) -> Result<Option<Ask<A>>, AllocError>
    ensures ask { IfOk result (λ ask. ask ≡ asked line.now) }
    ensures memory { OnErr result (option_map (λ ask. takes_no_names ask.kind) (asked line.now) ≡ Some false) }
{
    if line.len() > MAX_BYTES {
        return Ok(None);
    }
    let (word, rest) = cut_word(line);
    match kind_of(word) {
        Some(kind) => {
            let place = line.len() - rest.len();
            Ok(Some(asked_of(alloc, kind, place, rest)?))
        }
        None => Ok(None),
    }
}
