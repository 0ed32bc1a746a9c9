//! Coordinating choices.

use crate::samples::{WORKED, made};
use cq_atom::{Bad, Name, Value};
use cq_board::{Board, Choice};
use std::alloc::{AllocError, Global};

fn one_value(alloc: Global, number: i64) -> Result<Vec<Value>, AllocError> {
    Ok(vec![in alloc; Value::num(number)]?)
}

/// The choice of one number for the query of that name.
fn choice(alloc: Global, name: &str, number: i64) -> Result<Choice, Bad> {
    let values = one_value(alloc, number)?;
    let name = Name::new(alloc, name)?;
    Ok(Choice { name, values })
}

fn choose(alloc: Global, choices: &mut Vec<Choice>, chosen: &[(&str, i64)]) -> Result<(), Bad> {
    for (name, number) in chosen {
        choices.push(choice(alloc, name, *number)?)?;
    }
    Ok(())
}

/// Whether these names, each with a grounding of one number, coordinate as said.
fn is_told(alloc: Global, board: &Board, chosen: &[(&str, i64)], wanted: bool) -> bool {
    let mut choices = Vec::new(alloc);
    let made = choose(alloc, &mut choices, chosen);
    let told = board.check_choice(&choices);
    drop(choices);
    made.is_ok() && told == wanted
}

/// What is chosen, and whether that coordinates.
type Choosing = (&'static [(&'static str, i64)], bool);

const CHOSEN: [Choosing; 7] = [
    (&[("kramer", 122), ("jerry", 122)], true),
    (&[("kramer", 122), ("jerry", 123)], false),
    (&[("kramer", 122), ("kramer", 122)], false),
    (&[("kramer", 134), ("jerry", 134)], false),
    (&[("kramer", 122), ("newman", 122)], false),
    (&[("kramer", 122)], false),
    (&[], true),
];

/// The place of the first that is not as said.
fn other_choice(alloc: Global, board: &Board) -> Option<usize> {
    for place in 0..CHOSEN.len() {
        let (chosen, wanted) = CHOSEN[place];
        if !is_told(alloc, board, chosen, wanted) {
            return Some(place);
        }
    }
    None
}

/// The same at the worked board.
fn other_worked(alloc: Global) -> Result<Option<usize>, AllocError> {
    let board = made(alloc, WORKED)?;
    let other = other_choice(alloc, &board);
    drop(board);
    Ok(other)
}

#[test]
fn coordinating_choices(rt: HostRuntime) {
    let other = other_worked(rt.alloc());
    assert!(rt; other == Ok(None), "{other:?}");
}
