//! Commands that are refused.

ghost use Rattle.std.specs.Prelude.{◌≡◌, ◌++◌, string_bytes, OnOk, option_map};
ghost use Rattle.cq_why.specs.Why.{queries_word, entries_word, pool_full, journal_full, plain, plain_catalog, plain_pool, is_of_relation, command_words, command_line};

use crate::found::{put_shown, shortened};
use crate::misuse::{Use, put_words};
use cq_board::{Limits, Why};
use cq_rel::{Catalog, CatalogFault};
use cq_report::Refusal;
use std::alloc::{AllocError, Allocator};

fn queries_word(count: usize) -> &'static str
    ensures { result.now ≡ queries_word count }
{
    if count == 1 {
        "query is"
    } else {
        "queries are"
    }
}

/// Puts that so many queries are pending, which is the limit.
fn put_pool_full<A: Allocator>(most: usize, page: &mut String<A>) -> Result<(), AllocError>
    ensures { OnOk result (string_bytes page.new ≡ string_bytes page.old ++ pool_full most) }
{
    let queries = queries_word(most);
    write!(
        page,
        "{most} {queries} pending, which is the limit; see limits"
    )
}

fn entries_word(count: usize) -> &'static str
    ensures { result.now ≡ entries_word count }
{
    if count == 1 { "entry" } else { "entries" }
}

/// Puts that the journal has so many entries, which is the limit.
fn put_journal_full<A: Allocator>(most: usize, page: &mut String<A>) -> Result<(), AllocError>
    ensures { OnOk result (string_bytes page.new ≡ string_bytes page.old ++ journal_full most) }
{
    let entries = entries_word(most);
    write!(
        page,
        "the journal has {most} {entries}, which is the limit; see limits"
    )
}

/// Puts why a relation is not declared, in plainer words than those of its reply, if there are any.
fn put_plain_catalog<A: Allocator>(
    fault: CatalogFault,
    page: &mut String<A>,
) -> Result<(), AllocError>
    ensures { OnOk result (string_bytes page.new ≡ string_bytes page.old ++ plain_catalog fault) }
{
    match fault {
        CatalogFault::Declared => page.push_str("the relation is declared already"),
        CatalogFault::CatalogFull => {
            page.push_str("64 relations are declared, which is the most")
        }
        CatalogFault::BadName | CatalogFault::BadArity | CatalogFault::NoMemory => {
            Refusal::Catalog(fault).put(page)
        }
    }
}

/// Puts why the pool refuses an edit, likewise.
fn put_plain_pool<A: Allocator>(
    limits: Limits,
    why: Why,
    page: &mut String<A>,
) -> Result<(), AllocError>
    ensures { OnOk result (string_bytes page.new ≡ string_bytes page.old ++ plain_pool limits why) }
{
    match why {
        Why::PoolFull => put_pool_full(limits.pool, page),
        Why::NameTaken => page.push_str("a query of this name is pending"),
        Why::NotAnswer { .. } => {
            page.push_str("heads and postconditions name no relation of the database")
        }
        Why::UnknownRelation { .. } | Why::Arity { .. } => Refusal::Pool(why).put(page),
        Why::NoSuchName => page.push_str("no query of this name is pending"),
        Why::RowPresent => page.push_str("the row is there already"),
        Why::RowAbsent => page.push_str("there is no such row"),
    }
}

/// Puts why a command is refused, likewise.
fn put_plain<A: Allocator>(
    limits: Limits,
    why: Refusal,
    page: &mut String<A>,
) -> Result<(), AllocError>
    ensures { OnOk result (string_bytes page.new ≡ string_bytes page.old ++ plain limits why) }
{
    match why {
        Refusal::Late => page.push_str("the setup is over, or the form is settled"),
        Refusal::Catalog(fault) => put_plain_catalog(fault, page),
        Refusal::Pool(why) => put_plain_pool(limits, why, page),
        Refusal::JournalFull => put_journal_full(limits.journal, page),
        Refusal::Text { .. }
        | Refusal::InUse
        | Refusal::TooManyPending
        | Refusal::Unpublished
        | Refusal::Memory => why.put(page),
    }
}

/// Returns true if a relation is not declared, or has another number of columns.
fn is_of_relation(why: Refusal) -> bool
    ensures { result ≡ is_of_relation why }
{
    matches!(
        why,
        Refusal::Pool(Why::UnknownRelation { .. } | Why::Arity { .. })
    )
}

/// Puts why a command is refused.
fn put_command_words<A: Allocator + Copy>(
    alloc: A,
    limits: Limits,
    catalog: &Catalog<A>,
    used: Option<Use<'_>>,
    why: Refusal,
    page: &mut String<A>,
) -> Result<(), AllocError>
    ensures { OnOk result (string_bytes page.new ≡ string_bytes page.old ++ command_words limits catalog.now (option_map (λ used. (used.relation.now, used.count)) used.entry) why) }
{
    match used {
        Some(used) if is_of_relation(why) => {
            put_words(alloc, catalog, used.relation, used.count, page)
        }
        _ => put_plain(limits, why, page),
    }
}

/// Puts the line that tells of a command, if it is refused.
pub(crate) fn put_refused<A: Allocator + Copy>(
    alloc: A,
    origin: &str,
    number: u64,
    limits: Limits,
    catalog: &Catalog<A>,
    used: Option<Use<'_>>,
    line: &[u8],
    refused: Option<Refusal>,
    page: &mut String<A>,
) -> Result<(), AllocError>
    ensures { OnOk result (string_bytes page.new ≡ string_bytes page.old ++ command_line origin.now number limits catalog.now (option_map (λ used. (used.relation.now, used.count)) used.entry) line.now refused) }
{
    let Some(why) = refused else {
        return Ok(());
    };
    write!(page, "board: {origin}line {number}: ")?;
    put_command_words(alloc, limits, catalog, used, why, page)?;
    page.push_str(": ")?;
    put_shown(page, shortened(line))?;
    page.push_str("\n")
}
