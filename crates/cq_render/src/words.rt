//! What the texts of a board say alike.

ghost use Rattle.std.specs.Prelude.{◌≡◌, length};
ghost use Rattle.cq_rel.specs.Tables.{rows_in};
ghost use Rattle.cq_render.specs.Report.{state_word};

use cq_rel::Tables;
use std::alloc::Allocator;

pub(crate) fn state_word(matched: bool) -> &'static str
    ensures { result.now ≡ state_word matched }
{
    if matched { "matched" } else { "waiting" }
}

/// How many rows the relation has; none where it is not declared.
pub(crate) fn row_count<A: Allocator>(tables: &Tables<A>, relation: &str) -> usize
    ensures { result ≡ length (rows_in relation.now tables.now) }
{
    match tables.count(relation) {
        Some(count) => count,
        None => 0,
    }
}
