//! Text that is put line by line.

ghost use Rattle.std.specs.Prelude.{◌≡◌, ◌++◌, ℕ, List, string_bytes, IfOk, OnOk};

use std::alloc::{AllocError, Allocator};

/// Puts a text that was made after the page, or tells that there was no memory for it.
pub fn put<A: Allocator>(
    page: &mut String<A>,
    text: Result<String<A>, AllocError>,
) -> Result<(), AllocError>
    ensures { (bytes : List ℕ) → IfOk text (λ text. string_bytes text ≡ bytes) → OnOk result (string_bytes page.new ≡ string_bytes page.old ++ bytes) }
{
    page.push_str(text?.as_str())?;
    Ok(())
}
