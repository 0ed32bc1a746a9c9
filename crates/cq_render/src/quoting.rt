//! Printed atoms as they stand between quotes.

ghost use Rattle.std.specs.Prelude.{◌≡◌, string_bytes, IfOk};
ghost use Rattle.cq_atom.specs.Atom.{AtomRecord};
ghost use Rattle.cq_text.specs.Print.{escaped, printed_atom};

use cq_atom::Atom;
use cq_text::{print_atom, push_escaped};
use std::alloc::{AllocError, Allocator};

/// The printed atom, as it stands between quotes.
pub(crate) fn quoted_atom<A: Allocator + Copy>(
    alloc: A,
    atom: &Atom<A>,
) -> Result<String<A>, AllocError>
    ensures { IfOk result (λ quoted. string_bytes quoted ≡ escaped (printed_atom atom.now)) }
{
    let printed = print_atom(alloc, atom)?;
    let mut quoted = String::new(alloc);
    push_escaped(&mut quoted, printed.as_str())?;
    Ok(quoted)
}
