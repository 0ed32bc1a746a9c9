//! The names under which no query is pending.

ghost use Rattle.std.specs.Prelude.{◌≡◌, ◌++◌, ◌∷◌, ℕ, [], List, map, string_bytes, IfOk, OnOk};
ghost use Rattle.std.specs.Option.{is_some};
ghost use Rattle.cq_board.specs.Pool.{PoolRecord};
ghost use Rattle.cq_render.specs.Explain.{state_of};
ghost use Rattle.cq_cli.specs.Explained.{absent_line, absent_lines, absent_names, status_of_absent};

use crate::status::Status;
use cq_atom::{Bad, Name};
use cq_board::Board;
use std::alloc::{AllocError, Allocator};

/// Whether a query is pending under that name.
fn is_pending<A: Allocator + Copy>(
    heap: A,
    board: &Board<A>,
    name: &str,
) -> Result<bool, AllocError>
    ensures { IfOk result (λ pending. pending ≡ is_some (state_of board.now name.now)) }
{
    match Name::new(heap, name) {
        Ok(name) => Ok(board.is_matched(&name).is_some()),
        Err(Bad::NoMemory) => Err(AllocError),
        Err(_) => Ok(false),
    }
}

/// That no query of that name is pending.
pub(crate) fn absent_line<A: Allocator>(heap: A, name: &str) -> Result<String<A>, AllocError>
    ensures { IfOk result (λ text. string_bytes text ≡ absent_line name.now) }
{
    format!(in heap; "board: no pending query {name}\n")
}

/// Puts a line for the name, where no query is pending under it.
fn put_if_absent<A: Allocator + Copy>(
    heap: A,
    board: &Board<A>,
    name: &str,
    page: &mut String<A>,
) -> Result<(), AllocError>
    ensures { OnOk result (string_bytes page.new ≡ string_bytes page.old ++ absent_lines board.now (name.now ∷ [])) }
{
    if is_pending(heap, board, name)? {
        return Ok(());
    }
    let line = absent_line(heap, name)?;
    page.push_str(line.as_str())?;
    Ok(())
}

/// Puts a line for each name under which no query is pending on an empty page.
pub(crate) fn put_absent<A: Allocator + Copy>(
    heap: A,
    board: &Board<A>,
    names: &[&str],
    page: &mut String<A>,
) -> Result<(), AllocError>
    ensures { string_bytes page.old ≡ [] → OnOk result (string_bytes page.new ≡ absent_lines board.now (map (λ name. name.now) names.now)) }
{
    for name in names {
        put_if_absent(heap, board, name, page)?;
    }
    Ok(())
}

/// How the program ends where these lines tell of names under which no query is pending.
pub(crate) fn status_of_absent(lines: &str) -> Status
    ensures { (pool : PoolRecord) (names : List (List ℕ)) → lines.now ≡ absent_lines pool names → result ≡ status_of_absent (absent_names pool names) }
{
    if lines.is_empty() {
        Status::Done
    } else {
        Status::NotSo
    }
}
