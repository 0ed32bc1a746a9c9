//! The dump of a board: a script that makes a board of the same content.

ghost use Rattle.std.specs.Prelude.{◌≡◌, ◌+◌, ◌++◌, length, map, string_bytes, IfOk, OnOk};
ghost use Rattle.std.specs.List.{All, flat_map};
ghost use Rattle.cq_atom.specs.declared.edit.EditKind.TheVariants as edits;
ghost use Rattle.cq_text.specs.declared.command.CommandKind.TheVariants as commands;
ghost use Rattle.cq_text.specs.declared.command.SetupLine.TheVariants as lines;
ghost use Rattle.cq_rel.specs.Tables.{declaration, rows_in};
ghost use Rattle.cq_render.specs.Steps.Walking.{all_shown, shown_read};
ghost use Rattle.cq_render.specs.Dump.{relation_command, setup_commands, dump_commands, command_line, dump};
ghost use Rattle.cq_text.specs.Sound.{IsSoundCommand};
ghost use Rattle.cq_render.specs.Steps.Dumping.{insert_command};

use crate::walking::{Shown, look_at_each};
use cq_atom::{Name, Query, Row};
use cq_board::Board;
use cq_rel::{Catalog, Tables};
use cq_text::{Form, push_board, push_insert, push_limits, push_post, push_publish, push_relation};
use std::alloc::{AllocError, Allocator};

/// Adds the rows of a relation, in order.
fn add_rows<'b, A: Allocator>(
    rows: &mut Vec<&'b Row<A>, A>,
    tables: &'b Tables<A>,
    relation: &str,
) -> Result<(), AllocError>
    ensures { OnOk result (map (λ row. row.now) rows.new.items ≡ map (λ row. row.now) rows.old.items ++ rows_in relation.now tables.now) }
{
    let Some(found) = tables.rows_of(relation) else {
        return Ok(());
    };
    for row in found {
        rows.push(row)?;
    }
    Ok(())
}

/// Adds the rows of all relations, in order.
fn add_all_rows<'b, A: Allocator>(
    rows: &mut Vec<&'b Row<A>, A>,
    tables: &'b Tables<A>,
) -> Result<(), AllocError>
    ensures { OnOk result (map (λ row. row.now) rows.new.items ≡ map (λ row. row.now) rows.old.items ++ tables.now.rows) }
{
    let catalog = tables.catalog();
    for place in 0..catalog.len() {
        let (relation, _arity) = match catalog.entry(place) {
            Some(entry) => entry,
            None => unreachable!(),
        };
        add_rows(rows, tables, relation)?;
    }
    Ok(())
}

/// Returns all rows, in order.
fn rows_of<'b, A: Allocator>(
    alloc: A,
    tables: &'b Tables<A>,
) -> Result<Vec<&'b Row<A>, A>, AllocError>
    ensures { IfOk result (λ rows. map (λ row. row.now) rows.items ≡ tables.now.rows) }
{
    let mut rows = Vec::new(alloc);
    add_all_rows(&mut rows, tables)?;
    Ok(rows)
}

fn put_form<A: Allocator>(form: Form, script: &mut String<A>) -> Result<(), AllocError>
    ensures { OnOk result (string_bytes script.new ≡ string_bytes script.old ++ command_line (commands.Setup (lines.Board form))) }
{
    push_board(script, form)?;
    script.push('\n')?;
    Ok(())
}

fn put_relation<A: Allocator>(
    relation: &str,
    arity: usize,
    script: &mut String<A>,
) -> Result<(), AllocError>
    ensures { OnOk result (string_bytes script.new ≡ string_bytes script.old ++ command_line (relation_command (declaration relation.now arity))) }
{
    push_relation(script, relation, arity)?;
    script.push('\n')?;
    Ok(())
}

/// Puts a line for each declared relation.
fn put_relations<A: Allocator>(
    catalog: &Catalog<A>,
    script: &mut String<A>,
) -> Result<(), AllocError>
    ensures { OnOk result (string_bytes script.new ≡ string_bytes script.old ++ flat_map (λ declared. command_line (relation_command declared)) catalog.now) }
{
    for place in 0..catalog.len() {
        let (relation, arity) = match catalog.entry(place) {
            Some(entry) => entry,
            None => unreachable!(),
        };
        put_relation(relation, arity, script)?;
    }
    Ok(())
}

fn put_limits<A: Allocator>(
    pool: usize,
    journal: usize,
    script: &mut String<A>,
) -> Result<(), AllocError>
    ensures { OnOk result (string_bytes script.new ≡ string_bytes script.old ++ command_line (commands.Setup (lines.Limits pool journal))) }
{
    push_limits(script, pool, journal)?;
    script.push('\n')?;
    Ok(())
}

/// Puts the lines that set a board up.
fn put_setup<A: Allocator + Copy>(
    form: Form,
    journal: usize,
    board: &Board<A>,
    script: &mut String<A>,
) -> Result<(), AllocError>
    ensures { OnOk result (string_bytes script.new ≡ string_bytes script.old ++ flat_map command_line (setup_commands form journal board.now)) }
{
    put_form(form, script)?;
    put_relations(board.tables().catalog(), script)?;
    put_limits(board.limits().pool, journal, script)?;
    Ok(())
}

fn put_row<A: Allocator>(row: &Row<A>, script: &mut String<A>) -> Result<(), AllocError>
    ensures sound { OnOk result (IsSoundCommand (insert_command row.now)) }
    ensures printed { OnOk result (string_bytes script.new ≡ string_bytes script.old ++ command_line (insert_command row.now)) }
{
    push_insert(script, row)?;
    script.push('\n')?;
    Ok(())
}

/// Puts a line for each of the rows.
fn put_rows<A: Allocator>(rows: &[&Row<A>], script: &mut String<A>) -> Result<(), AllocError>
    ensures sound { OnOk result (All (λ row. IsSoundCommand (insert_command row.now)) rows.now) }
    ensures printed { OnOk result (string_bytes script.new ≡ string_bytes script.old ++ flat_map (λ row. command_line (insert_command row.now)) rows.now) }
{
    for row in rows {
        put_row(row, script)?;
    }
    Ok(())
}

fn put_query<A: Allocator>(
    name: &Name<A>,
    query: &Query<A>,
    script: &mut String<A>,
) -> Result<(), AllocError>
    ensures sound { OnOk result (IsSoundCommand (commands.Edit (edits.Post name.now query.now))) }
    ensures printed { OnOk result (string_bytes script.new ≡ string_bytes script.old ++ command_line (commands.Edit (edits.Post name.now query.now))) }
{
    push_post(script, name, query)?;
    script.push('\n')?;
    Ok(())
}

/// Puts a line for each of the queries.
fn put_queries<A: Allocator>(
    queries: &[Shown<'_, A>],
    script: &mut String<A>,
) -> Result<(), AllocError>
    ensures sound { OnOk result (All (λ shown. IsSoundCommand (commands.Edit (edits.Post shown.name.now shown.query.now))) queries.now) }
    ensures printed { OnOk result (string_bytes script.new ≡ string_bytes script.old ++ flat_map (λ shown. command_line (commands.Edit (edits.Post shown.name.now shown.query.now))) queries.now) }
{
    for shown in queries {
        put_query(shown.name, shown.query, script)?;
    }
    Ok(())
}

fn put_publish<A: Allocator>(script: &mut String<A>) -> Result<(), AllocError>
    ensures { OnOk result (string_bytes script.new ≡ string_bytes script.old ++ command_line commands.Publish) }
{
    push_publish(script)?;
    script.push('\n')?;
    Ok(())
}

/// Returns how many rows and queries there are.
fn edit_count<A: Allocator>(rows: &[&Row<A>], queries: &[Shown<'_, A>]) -> usize
    ensures { result ≡ length rows.now + length queries.now }
{
    rows.len() + queries.len()
}

/// Puts the dump of a board, which has these rows and queries.
fn put_dump<A: Allocator + Copy>(
    form: Form,
    journal: usize,
    board: &Board<A>,
    rows: &[&Row<A>],
    queries: &[Shown<'_, A>],
    script: &mut String<A>,
) -> Result<(), AllocError>
    requires rows { map (λ row. row.now) rows.now ≡ board.now.tables.rows }
    requires queries { map shown_read queries.now ≡ all_shown board.now }
    ensures sound { OnOk result (All IsSoundCommand (dump_commands form journal board.now)) }
    ensures printed { OnOk result (string_bytes script.new ≡ string_bytes script.old ++ dump form journal board.now) }
{
    let _good = board.len();
    put_setup(form, journal.max(edit_count(rows, queries)), board, script)?;
    put_rows(rows, script)?;
    put_queries(queries, script)?;
    put_publish(script)?;
    Ok(())
}

/// Returns the dump of a board as a script in that form: its form, relations, limits, rows in order and queries in posting order,
/// a line for each, and one `publish`. The journal limit in it is the given one, or the number of rows and queries if that is
/// larger. Besides the script it allocates the lists of the rows, of the names and of the queries. Time in proportion to the script.
///
/// # Errors
/// `AllocError` if an allocation fails.
pub fn dump<A: Allocator + Copy>(
    alloc: A,
    form: Form,
    journal: usize,
    board: &Board<A>,
) -> Result<String<A>, AllocError>
    ensures printed { IfOk result (λ text. string_bytes text ≡ dump form journal board.now) }
    // All its commands are sound: in a form whose limits allow them, the lines are read as them (`cq_text::commands_read_back`).
    ensures sound { IfOk result (λ _. All IsSoundCommand (dump_commands form journal board.now)) }
{
    let names = board.names()?;
    let queries = look_at_each(alloc, board, &names)?;
    let rows = rows_of(alloc, board.tables())?;
    let mut script = String::new(alloc);
    put_dump(form, journal, board, &rows, &queries, &mut script)?;
    Ok(script)
}
