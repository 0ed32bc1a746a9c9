//! Edits that are read from lines, and lines that several tests ask for.

use cq_atom::Edit;
use cq_text::{CommandKind, Form, read_command};
use std::alloc::{AllocError, Allocator, Global};

/// The edit that a line of a script asks for; a line of no edit counts as out of memory.
pub fn edit<A: Allocator + Copy>(alloc: A, line: &str) -> Result<Edit<A>, AllocError> {
    match read_command(alloc, line.as_bytes(), Form::One) {
        Ok(CommandKind::Edit(edit)) => Ok(edit),
        _ => Err(AllocError),
    }
}

/// The line that posts the writer's query of that round. Some await heads of the next writer's queries, and some
/// await nobody.
pub fn posting(
    alloc: Global,
    writer: usize,
    next: usize,
    round: usize,
) -> Result<String, AllocError> {
    match round % 3 {
        0 => { format!(in alloc; "post s{writer}q{round} {{R({next})}} R({writer}) <- T(x)") }
        1 => { format!(in alloc; "post s{writer}q{round} {{R({next}), S(x)}} R({writer}) <- T(x)") }
        _ => { format!(in alloc; "post s{writer}q{round} {{}} R({writer}), S({next}) <- T(x)") }
    }
}

/// The line that withdraws what the writer posted four rounds ago. In the first four rounds there is none such.
pub fn withdrawal(alloc: Global, writer: usize, round: usize) -> Result<String, AllocError> {
    match round.checked_sub(4) {
        Some(earlier) => format!(in alloc; "withdraw s{writer}q{earlier}"),
        None => format!(in alloc; "withdraw s{writer}none"),
    }
}
