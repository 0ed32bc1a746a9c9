//! What is told of a script beside its replies.

ghost use Rattle.std.specs.Prelude.{◌≡◌, ◌++◌, ◌==◌, codes, decimal, if◌then◌else◌, string_bytes, OnOk};
ghost use Rattle.cq_report.specs.Summary.{so_many, first_words, refused_words, unpublished_words, warning_of, warning, pool_words, summary};

use crate::left::Played;
use crate::tally::{Refused, Tally};
use cq_board::Board;
use std::alloc::{AllocError, Allocator};

/// Puts how many, with the word for one or that for more.
fn put_so_many<A: Allocator>(
    page: &mut String<A>,
    count: u128,
    one: &str,
    more: &str,
) -> Result<(), AllocError>
    ensures { OnOk result (string_bytes page.new ≡ string_bytes page.old ++ so_many count one.now more.now) }
{
    let word = if count == 1 { one } else { more };
    write!(page, "{count} {word}")
}

/// Puts the first refused line, if there is one, and why it was refused.
fn put_first<A: Allocator>(page: &mut String<A>, first: Option<Refused>) -> Result<(), AllocError>
    ensures { OnOk result (string_bytes page.new ≡ string_bytes page.old ++ first_words first) }
{
    let Some(first) = first else {
        return Ok(());
    };
    let line = first.line;
    write!(page, ", first line {line}: ")?;
    first.why.put(page)
}

/// Puts how many lines were refused.
fn put_refused<A: Allocator>(page: &mut String<A>, tally: &Tally) -> Result<(), AllocError>
    ensures { OnOk result (string_bytes page.new ≡ string_bytes page.old ++ refused_words tally.now) }
{
    put_so_many(page, tally.refused, "line refused", "lines refused")?;
    put_first(page, tally.first)
}

/// Puts how many edits are not published.
fn put_unpublished<A: Allocator>(page: &mut String<A>, count: u64) -> Result<(), AllocError>
    ensures { OnOk result (string_bytes page.new ≡ string_bytes page.old ++ unpublished_words count) }
{
    put_so_many(
        page,
        u128::from(count),
        "edit not published",
        "edits not published",
    )
}

/// Puts both, where both are so, or one of them.
fn put_parts<A: Allocator>(
    page: &mut String<A>,
    tally: &Tally,
    count: u64,
) -> Result<(), AllocError>
    ensures { OnOk result (string_bytes page.new ≡ string_bytes page.old ++ warning_of (tally.now.refused == 0) (count == 0) tally.now count) }
{
    match (tally.refused == 0, count == 0) {
        (true, true) => Ok(()),
        (true, false) => put_unpublished(page, count),
        (false, true) => put_refused(page, tally),
        (false, false) => {
            put_refused(page, tally)?;
            page.push_str("; ")?;
            put_unpublished(page, count)
        }
    }
}

/// Puts what somebody who looks at a script's board should know, as `2 lines refused, first line 9: Shape at 13; 3 edits not published`.
/// Nothing is put where no line was refused and each edit is published.
///
/// # Errors
/// `AllocError` where an allocation failed. A part may be put then.
pub fn put_warning<A: Allocator + Copy>(
    played: &Played<A>,
    page: &mut String<A>,
) -> Result<(), AllocError>
    ensures { OnOk result (string_bytes page.new ≡ string_bytes page.old ++ warning played.now) }
{
    put_parts(page, played.tally(), played.unpublished())
}

/// Puts the queries of a board, and those that are matched.
fn put_pool<A: Allocator + Copy>(page: &mut String<A>, board: &Board<A>) -> Result<(), AllocError>
    ensures { OnOk result (string_bytes page.new ≡ string_bytes page.old ++ pool_words board.now) }
{
    let matched = board.matched()?.len();
    let pending = board.len() as u128;
    put_so_many(page, pending, "query pending, ", "queries pending, ")?;
    write!(page, "{matched} matched")
}

/// Puts the lines of a script, and those that were refused.
fn put_lines<A: Allocator + Copy>(
    page: &mut String<A>,
    played: &Played<A>,
) -> Result<(), AllocError>
    ensures { OnOk result (string_bytes page.new ≡ string_bytes page.old ++ so_many played.now.lines (codes "line, ") (codes "lines, ") ++ decimal played.now.tally.refused ++ codes " refused" ++ first_words played.now.tally.first) }
{
    let tally = played.tally();
    let refused = tally.refused;
    put_so_many(page, played.lines(), "line, ", "lines, ")?;
    write!(page, "{refused} refused")?;
    put_first(page, tally.first)
}

/// Sums up a script, as `12 lines, 2 refused, first line 9: Shape at 13; 4 queries pending, 3 matched; 3 edits not published`. The queries are those of
/// the published board.
///
/// # Errors
/// `AllocError` where an allocation failed. A part may be put then.
pub fn put_summary<A: Allocator + Copy>(
    played: &Played<A>,
    page: &mut String<A>,
) -> Result<(), AllocError>
    ensures { OnOk result (string_bytes page.new ≡ string_bytes page.old ++ summary played.now) }
{
    put_lines(page, played)?;
    page.push_str("; ")?;
    put_pool(page, played.board())?;
    page.push_str("; ")?;
    put_unpublished(page, played.unpublished())
}
