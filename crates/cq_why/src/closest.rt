//! Which name somebody meant.

ghost use Rattle.std.specs.Prelude.{◌≡◌, map, IfOk, Option, option_map};
ghost use Rattle.cq_why.specs.Why.{closer, closest};

use cq_near::distance;
use std::alloc::{AllocError, Allocator};

/// How many changes a name may be away from the word.
const MOST_CHANGES: usize = 2;

/// The closer one of a name and the best so far, if there is one.
fn closer<'n, A: Allocator + Copy>(
    alloc: A,
    word: &str,
    best: Option<&'n str>,
    name: &'n str,
) -> Result<Option<&'n str>, AllocError>
    ensures { IfOk result (λ found. option_map (λ name. name.now) found ≡ closer word.now (option_map (λ name. name.now) best.entry) name.entry.now) }
{
    let changes = distance(alloc, word, name)?;
    let is_closer = match best {
        Some(best) => changes < distance(alloc, word, best)?,
        None => changes <= MOST_CHANGES,
    };
    Ok(if is_closer { Some(name) } else { best })
}

/// The first of the names that are closest to the word, where one is close.
///
/// # Errors
/// `AllocError` where an allocation failed.
pub(crate) fn closest<'n, A: Allocator + Copy>(
    alloc: A,
    word: &str,
    names: &[&'n str],
) -> Result<Option<&'n str>, AllocError>
    ensures { IfOk result (λ found. option_map (λ name. name.now) found ≡ closest word.now (map (λ name. name.now) names.now)) }
{
    let mut best = None;
    for name in names {
        best = closer(alloc, word, best, name)?;
    }
    Ok(best)
}
