//! The numbers of pending queries by their names.

ghost use Rattle.std.specs.Prelude.{◌≡◌, ℕ, List, if◌then◌else◌, Some, None, IfOk, OnOk};
ghost use Rattle.std.specs.HashMap.{get_by};
ghost use Rattle.std.specs.Str.{bytes_eq};
ghost use Rattle.cq_board.specs.Board.{place_of};
ghost use Rattle.cq_render.specs.Steps.Numbering.{first_of};

use crate::walking::Listing;
use std::alloc::{AllocError, Allocator};
use std::collections::HashMap;
use std::hash::{BuildHasherDefault, FoldHasher};

/// The number of each name.
pub(crate) type Numbers<'a, A> = HashMap<&'a str, usize, BuildHasherDefault<FoldHasher>, A>;

/// Puts the number of the name, where it has none.
fn number_name<'a, A: Allocator + Copy>(
    numbers: &mut Numbers<'a, A>,
    name: &'a str,
    number: usize,
) -> Result<(), AllocError>
    ensures { OnOk result ((wanted : List ℕ) → get_by (λ k. bytes_eq wanted k.now) numbers.new ≡ first_of (get_by (λ k. bytes_eq wanted k.now) numbers.old) (if bytes_eq wanted name.now then Some number else None)) }
{
    if numbers.contains_key(name) {
        return Ok(());
    }
    numbers.insert(name, number)?;
    Ok(())
}

/// The numbers of the queries that a board lists, by their names.
pub(crate) fn numbers_of<'b, A: Allocator + Copy>(
    alloc: A,
    listing: &Listing<'b, A>,
) -> Result<Numbers<'b, A>, AllocError>
    ensures { IfOk result (λ numbers. (wanted : List ℕ) → get_by (λ k. bytes_eq wanted k.now) numbers ≡ place_of wanted listing.now.board.now.pending) }
{
    let mut numbers = HashMap::new(alloc);
    for number in 0..listing.queries.len() {
        number_name(&mut numbers, listing.queries[number].name.as_str(), number)?;
    }
    Ok(numbers)
}
