//! The script that sessions leave.

ghost use Rattle.std.specs.Prelude.{◌≡◌, ◌++◌, ◌∷◌, ◌<◌, ◌≤◌, ◌^◌, [], ℕ, List, codes, decimal, map, option_map, string_bytes, IfOk, OnOk, length};
ghost use Rattle.std.specs.List.{flat_map};
ghost use Rattle.cq_render.specs.Report.{line};
ghost use Rattle.cq_sessions.specs.Script.{edit_line, entries_from, entry_lines, declaration_line, form_line, limits_line, replies_from, sheets_from};
ghost use Rattle.cq_text.specs.Print.{printed_row};

use crate::sheet::Sheet;
use cq_atom::{Edit, EditKind, Name, Query, Row};
use cq_board::Limits;
use cq_desk::Entry;
use cq_rel::Catalog;
use cq_render::put;
use cq_text::{Form, print_query, print_row};
use std::alloc::{AllocError, Allocator};

fn post_line<A: Allocator + Copy>(
    alloc: A,
    name: &Name<A>,
    query: &Query<A>,
) -> Result<String<A>, AllocError>
    ensures { IfOk result (λ text. string_bytes text ≡ edit_line (EditKind.Post name.now query.now)) }
{
    let text = print_query(alloc, query)?;
    let text = text.as_str();
    let name = name.as_str();
    format!(in alloc; "post {name} {text}\n")
}

fn row_line<A: Allocator + Copy>(
    alloc: A,
    word: &str,
    row: &Row<A>,
) -> Result<String<A>, AllocError>
    ensures { IfOk result (λ text. string_bytes text ≡ line (word.now ++ codes " " ++ printed_row row.now)) }
{
    let text = print_row(alloc, row)?;
    let text = text.as_str();
    format!(in alloc; "{word} {text}\n")
}

fn withdraw_line<A: Allocator>(alloc: A, name: &Name<A>) -> Result<String<A>, AllocError>
    ensures { IfOk result (λ text. string_bytes text ≡ edit_line (EditKind.Withdraw name.now)) }
{
    let name = name.as_str();
    format!(in alloc; "withdraw {name}\n")
}

/// The line that asks for the edit.
fn edit_line<A: Allocator + Copy>(alloc: A, edit: &Edit<A>) -> Result<String<A>, AllocError>
    ensures { IfOk result (λ text. string_bytes text ≡ edit_line edit.now) }
{
    match edit {
        EditKind::Post { name, query } => post_line(alloc, name, query),
        EditKind::Withdraw { name } => withdraw_line(alloc, name),
        EditKind::Insert { row } => row_line(alloc, "insert", row),
        EditKind::Delete { row } => row_line(alloc, "delete", row),
    }
}

fn author_line<A: Allocator>(
    alloc: A,
    number: usize,
    author: usize,
) -> Result<String<A>, AllocError>
    ensures { IfOk result (λ text. string_bytes text ≡ line (codes "# entry " ++ decimal number ++ codes " session " ++ decimal author)) }
{
    format!(in alloc; "# entry {number} session {author}\n")
}

/// Puts an entry's line under a comment with its number and its session.
fn put_entry<A: Allocator + Copy>(
    alloc: A,
    number: usize,
    entry: &Entry<Edit<A>>,
    page: &mut String<A>,
) -> Result<(), AllocError>
    ensures { OnOk result (string_bytes page.new ≡ string_bytes page.old ++ entry_lines number entry.now) }
{
    put(page, author_line(alloc, number, entry.author))?;
    put(page, edit_line(alloc, &entry.edit))
}

/// Puts all entries, numbered from 1.
pub(crate) fn put_entries<A: Allocator + Copy>(
    alloc: A,
    journal: &[Entry<Edit<A>>],
    page: &mut String<A>,
) -> Result<(), AllocError>
    ensures { OnOk result (string_bytes page.new ≡ string_bytes page.old ++ entries_from 1 journal.now) }
{
    for place in 0..journal.len() {
        put_entry(alloc, place + 1, &journal[place], page)?;
    }
    Ok(())
}

fn declaration_line<A: Allocator>(
    alloc: A,
    relation: &str,
    arity: usize,
) -> Result<String<A>, AllocError>
    ensures { IfOk result (λ text. string_bytes text ≡ declaration_line (record { relation = relation.now; arity = arity })) }
{
    format!(in alloc; "relation {relation} {arity}\n")
}

fn limits_line<A: Allocator>(alloc: A, limits: Limits) -> Result<String<A>, AllocError>
    ensures { IfOk result (λ text. string_bytes text ≡ limits_line limits) }
{
    let Limits { pool, journal } = limits;
    format!(in alloc; "limits {pool} {journal}\n")
}

/// Puts the relations in the order of their declarations.
fn put_catalog<A: Allocator + Copy>(
    alloc: A,
    catalog: &Catalog<A>,
    page: &mut String<A>,
) -> Result<(), AllocError>
    ensures { OnOk result (string_bytes page.new ≡ string_bytes page.old ++ flat_map declaration_line catalog.now) }
{
    for place in 0..catalog.len() {
        let Some((relation, arity)) = catalog.entry(place) else {
            unreachable!()
        };
        put(page, declaration_line(alloc, relation, arity))?;
    }
    Ok(())
}

/// Puts the line that names the form, where one is needed.
fn put_form<A: Allocator>(form: Form, page: &mut String<A>) -> Result<(), AllocError>
    ensures { OnOk result (string_bytes page.new ≡ string_bytes page.old ++ form_line form) }
{
    match form {
        Form::One => page.push_str(""),
        Form::Two => page.push_str("board 2\n"),
    }
}

/// Puts what sets the board up.
pub(crate) fn put_setup<A: Allocator + Copy>(
    alloc: A,
    form: Form,
    catalog: &Catalog<A>,
    limits: Limits,
    page: &mut String<A>,
) -> Result<(), AllocError>
    ensures { OnOk result (string_bytes page.new ≡ string_bytes page.old ++ (form_line form ++ flat_map declaration_line catalog.now ++ limits_line limits)) }
{
    put_form(form, page)?;
    put_catalog(alloc, catalog, page)?;
    put(page, limits_line(alloc, limits))
}

fn reply_line<A: Allocator>(
    alloc: A,
    words: &str,
    line: usize,
    reply: &str,
) -> Result<String<A>, AllocError>
    ensures { IfOk result (λ text. string_bytes text ≡ codes "# " ++ words.now ++ codes " line " ++ decimal line ++ codes " " ++ reply.now) }
{
    format!(in alloc; "# {words} line {line} {reply}")
}

/// Puts the reply to a line, where there is one, after the line's number.
fn put_reply<A: Allocator + Copy>(
    alloc: A,
    words: &str,
    line: usize,
    reply: &Option<String<A>>,
    page: &mut String<A>,
) -> Result<(), AllocError>
    ensures { OnOk result (string_bytes page.new ≡ string_bytes page.old ++ replies_from words.now line (option_map string_bytes reply.now ∷ [])) }
{
    match reply {
        Some(reply) => put(page, reply_line(alloc, words, line, reply.as_str())),
        None => Ok(()),
    }
}

/// Puts the replies of a sheet, each after its line's number.
pub(crate) fn put_replies<A: Allocator + Copy>(
    alloc: A,
    words: &str,
    sheet: &Sheet<A>,
    page: &mut String<A>,
) -> Result<(), AllocError>
    ensures { OnOk result (string_bytes page.new ≡ string_bytes page.old ++ replies_from words.now 1 sheet.now.replies) }
{
    let replies = sheet.replies();
    for place in 0..replies.len() {
        put_reply(alloc, words, place + 1, &replies[place], page)?;
    }
    Ok(())
}

fn session_words<A: Allocator>(alloc: A, number: usize) -> Result<String<A>, AllocError>
    ensures { IfOk result (λ text. string_bytes text ≡ codes "session " ++ decimal number) }
{
    format!(in alloc; "session {number}")
}

/// Puts the replies of a file.
fn put_sheet<A: Allocator + Copy>(
    alloc: A,
    number: usize,
    sheet: &Sheet<A>,
    page: &mut String<A>,
) -> Result<(), AllocError>
    ensures { OnOk result (string_bytes page.new ≡ string_bytes page.old ++ sheets_from number (sheet.now.replies ∷ [])) }
{
    let words = session_words(alloc, number)?;
    put_replies(alloc, words.as_str(), sheet, page)
}

/// Puts the replies of all files, whose sessions are numbered from 0.
pub(crate) fn put_sheets<A: Allocator + Copy>(
    alloc: A,
    sheets: &[Sheet<A>],
    page: &mut String<A>,
) -> Result<(), AllocError>
    ensures { OnOk result (string_bytes page.new ≡ string_bytes page.old ++ sheets_from 0 (map (λ sheet. sheet.replies) sheets.now)) }
{
    for number in 0..sheets.len() {
        put_sheet(alloc, number, &sheets[number], page)?;
    }
    Ok(())
}
