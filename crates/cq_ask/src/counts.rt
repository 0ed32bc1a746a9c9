//! The answer to `count`, piece by piece.

ghost use Rattle.std.specs.Prelude.{◌≡◌, ◌++◌, codes, decimal, length, string_bytes, IfOk, OnOk};
ghost use Rattle.std.specs.List.{flat_map};
ghost use Rattle.json.specs.Tree.{json_tokens};
ghost use Rattle.json.specs.Print.{print};
ghost use Rattle.cq_rel.specs.Tables.{rows_in};
ghost use Rattle.cq_render.specs.Data.{total};
ghost use Rattle.cq_ask.specs.Answer.{row_count, counts_of, count_line, part_bytes};
ghost use Rattle.cq_ask.specs.Data.{count_json, member_text};

use cq_board::Board;
use cq_desk::Floor;
use cq_rel::Tables;
use cq_render::MOST_KEPT;
use std::alloc::{AllocError, Allocator};

/// How many queries, rows and entries there are.
#[derive(Clone, Copy, Debug, PartialEq, Eq)]
pub struct Counts {
    /// Pending queries.
    pub queries: usize,
    /// Pending queries that are matched.
    pub matched: usize,
    /// Pending queries that are not matched.
    pub waiting: usize,
    /// Rows of all relations.
    pub rows: u128,
    /// Published entries.
    pub entries: u64,
    /// Entries that are not published yet.
    pub unpublished: usize,
    /// Entries since the last checkpoint, published or not.
    pub since: usize,
    /// Relations that are declared.
    pub relations: usize,
    /// The most queries that may be pending.
    pub pool: usize,
    /// The most entries since the last checkpoint.
    pub journal: usize,
}

/// A piece of the answer to `count`: words, and a number after them if there is one.
#[derive(Clone, Copy, Debug, PartialEq, Eq)]
pub struct CountPart {
    /// The words.
    pub words: &'static str,
    /// The text right before the number and right after it: a quotation mark if the number is a JSON
    /// text, nothing if it is a number.
    pub mark: &'static str,
    /// The number, written in decimal digits.
    pub number: Option<u128>,
}

/// Returns how many rows the relation has, 0 if it is not declared.
fn rows_of<A: Allocator>(tables: &Tables<A>, relation: &str) -> usize
    ensures { result ≡ length (rows_in relation.now tables.now) }
{
    tables.count(relation).unwrap_or(0)
}

/// Returns how many rows all relations have.
fn row_count<A: Allocator>(tables: &Tables<A>) -> u128
    ensures { result ≡ row_count tables.now }
{
    let catalog = tables.catalog();
    let mut count = 0u128;
    for place in 0..catalog.len() {
        let (relation, _arity) = match catalog.entry(place) {
            Some(entry) => entry,
            None => unreachable!(),
        };
        count += rows_of(tables, relation) as u128;
    }
    count
}

/// Returns the counts of the board that the floor publishes, and of its entries. Does not allocate.
/// Takes time in proportion to the pending queries and the relations.
pub fn counts_of<A: Allocator + Copy>(floor: &Floor<Board<A>, A>) -> Counts
    ensures { result ≡ counts_of floor.now }
{
    let board = floor.board();
    let queries = board.len();
    let matched = board.matched_count();
    Counts {
        queries,
        matched,
        waiting: queries.saturating_sub(matched),
        rows: row_count(board.tables()),
        entries: floor.published_count(),
        unpublished: floor.unpublished_count(),
        since: floor.journal().len(),
        relations: board.tables().catalog().len(),
        pool: board.limits().pool,
        journal: floor.limit(),
    }
}

/// Returns a piece: the words, and the number after them.
fn part(words: &'static str, number: u128) -> CountPart
    ensures { part_bytes result ≡ words.now ++ decimal number }
{
    CountPart {
        words,
        mark: "",
        number: Some(number),
    }
}

/// Returns a piece: the words, and the number after them as JSON, which is a text if not all readers
/// keep such a number.
fn value_part(words: &'static str, number: u128) -> CountPart
    ensures { part_bytes result ≡ words.now ++ print (json_tokens (total number)) }
{
    let mark = if number <= u128::from(MOST_KEPT) {
        ""
    } else {
        "\""
    };
    CountPart {
        words,
        mark,
        number: Some(number),
    }
}

/// Returns a piece of words only.
fn last_part(words: &'static str) -> CountPart
    ensures { part_bytes result ≡ words.now }
{
    CountPart {
        words,
        mark: "",
        number: None,
    }
}

/// Returns the pieces of the line with the counts. Does not allocate.
pub fn count_parts(counts: &Counts) -> [CountPart; 11]
    ensures { flat_map part_bytes result ≡ count_line counts.now }
{
    [
        part("queries ", counts.queries as u128),
        part(" matched ", counts.matched as u128),
        part(" waiting ", counts.waiting as u128),
        part(" rows ", counts.rows),
        part(" entries ", counts.entries as u128),
        part(" unpublished ", counts.unpublished as u128),
        part(" since ", counts.since as u128),
        part(" relations ", counts.relations as u128),
        part(" limits ", counts.pool as u128),
        part(" ", counts.journal as u128),
        last_part("\n"),
    ]
}

/// Returns the pieces of the JSON member with the counts, which follows other members. Does
/// not allocate.
pub fn count_members(counts: &Counts) -> [CountPart; 11]
    ensures { flat_map part_bytes result ≡ member_text (codes "count", count_json counts.now) }
{
    [
        value_part(",\"count\":{\"queries\":", counts.queries as u128),
        value_part(",\"matched\":", counts.matched as u128),
        value_part(",\"waiting\":", counts.waiting as u128),
        value_part(",\"rows\":", counts.rows),
        value_part(",\"entries\":", counts.entries as u128),
        value_part(",\"unpublished\":", counts.unpublished as u128),
        value_part(",\"since\":", counts.since as u128),
        value_part(",\"relations\":", counts.relations as u128),
        value_part(",\"pool_limit\":", counts.pool as u128),
        value_part(",\"journal_limit\":", counts.journal as u128),
        last_part("}"),
    ]
}

/// Writes a piece.
fn put_part<A: Allocator>(page: &mut String<A>, part: &CountPart) -> Result<(), AllocError>
    ensures { OnOk result (string_bytes page.new ≡ string_bytes page.old ++ part_bytes part.now) }
{
    let words = part.words;
    let mark = part.mark;
    match part.number {
        Some(number) => write!(page, "{words}{mark}{number}{mark}"),
        None => Ok(page.push_str(words)?),
    }
}

/// Returns the text of these pieces.
pub(crate) fn parts_text<A: Allocator>(
    alloc: A,
    parts: &[CountPart],
) -> Result<String<A>, AllocError>
    ensures { IfOk result (λ text. string_bytes text ≡ flat_map part_bytes parts.now) }
{
    let mut page = String::new(alloc);
    for part in parts {
        put_part(&mut page, part)?;
    }
    Ok(page)
}
