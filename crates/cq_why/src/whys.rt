//! What is wrong with the lines of a script.

ghost use Rattle.std.specs.Prelude.{◌≡◌, ◌+◌, ◌<◌, ◌^◌, ◌++◌, [], List, ℕ, Option, take, drop, string_bytes, IfOk, OnOk};
ghost use Rattle.cq_rel.specs.Tables.{Declaration};
ghost use Rattle.cq_board.specs.declared.limits.Limits.{Limits};
ghost use Rattle.cq_report.specs.Lines.{lines_of, HasNoEnd};
ghost use Rattle.cq_report.specs.declared.numbering.Numbering.TheVariants.{Plain};
ghost use Rattle.cq_report.specs.Reading.{Reading, Reads, Faulty, IsReading};
ghost use Rattle.cq_report.specs.Reply.{refusal};
ghost use Rattle.cq_report.specs.declared.refusal.Refusal as refusals;
ghost use Rattle.cq_report.specs.Machine.{begin_state, form_in, next, staged};
ghost use Rattle.cq_why.specs.Why.{IsHint, IsWhy, AreWhys, why_line};

use crate::found::put_excerpt;
use crate::hint::put_hint;
use crate::misuse::misused;
use crate::refused::put_refused;
use cq_board::Limits;
use cq_rel::Catalog;
use cq_report::{Numbering, Refusal, Script, first_line};
use cq_text::{Form, Kind, TextFault, read_command};
use std::alloc::{AllocError, Allocator};

/// Puts the line that tells what is wrong at a place of a line of that number.
fn put_why<A: Allocator + Copy>(
    alloc: A,
    origin: &str,
    number: u64,
    form: Form,
    kind: Kind,
    front: &[u8],
    rest: &[u8],
    page: &mut String<A>,
) -> Result<(), AllocError>
    ensures { OnOk result ((words : List ℕ) × IsHint form kind front.now rest.now words × (string_bytes page.new ≡ string_bytes page.old ++ why_line origin.now number words front.now rest.now)) }
{
    write!(page, "board: {origin}line {number}: ")?;
    put_hint(alloc, form, kind, front, rest, page)?;
    page.push_str(": ")?;
    put_excerpt(page, front, rest)?;
    page.push_str("\n")
}

/// The line before a place, and behind it.
fn parted(line: &[u8], offset: usize) -> (&[u8], &[u8])
    ensures front { result.0.now ≡ take offset line.now }
    ensures rest { result.1.now ≡ drop offset line.now }
{
    if offset < line.len() {
        line.split_at(offset)
    } else {
        (line, b"")
    }
}

/// Puts what is wrong with a line of that number, which has this first fault.
fn put_faulty<A: Allocator + Copy>(
    alloc: A,
    origin: &str,
    number: u64,
    form: Form,
    line: &[u8],
    kind: Kind,
    offset: usize,
    page: &mut String<A>,
) -> Result<(), AllocError>
    ensures { OnOk result ((limits : Limits) (catalog : List Declaration) (refused : Option refusals.Refusal) → (piece : List ℕ) × IsWhy origin.now number limits catalog form line.now refused (Faulty kind offset) piece × (string_bytes page.new ≡ string_bytes page.old ++ piece)) }
{
    let (front, rest) = parted(line, offset);
    put_why(alloc, origin, number, form, kind, front, rest, page)
}

/// Puts what is wrong with a line of that number, where it is refused.
fn put_refusal<A: Allocator + Copy>(
    alloc: A,
    origin: &str,
    number: u64,
    limits: Limits,
    catalog: &Catalog<A>,
    form: Form,
    line: &[u8],
    refused: Option<Refusal>,
    page: &mut String<A>,
) -> Result<(), AllocError>
    ensures { OnOk result ((reading : Reading) × IsReading form line.now reading × (piece : List ℕ) × IsWhy origin.now number limits catalog.now form line.now refused reading piece × (string_bytes page.new ≡ string_bytes page.old ++ piece)) }
{
    match read_command(alloc, line, form) {
        Ok(command) => {
            let used = misused(catalog, &command);
            put_refused(
                alloc, origin, number, limits, catalog, used, line, refused, page,
            )
        }
        Err(TextFault::At { kind, offset }) => {
            put_faulty(alloc, origin, number, form, line, kind, offset, page)
        }
        Err(TextFault::NoMemory) => Err(AllocError),
    }
}

/// Hears a line of that number, and puts what is wrong with it, where it is refused.
fn put_line<A: Allocator + Copy>(
    alloc: A,
    origin: &str,
    number: u64,
    limits: Limits,
    catalog: &Catalog<A>,
    heard: &mut Script<A>,
    line: &[u8],
    page: &mut String<A>,
) -> Result<(), AllocError>
    requires { heard.old.lines + 1 ≡ number }
    ensures { OnOk result ((reading : Reading) × IsReading (form_in heard.old) line.now reading × (heard.new ≡ next heard.old reading) × (piece : List ℕ) × IsWhy origin.now number limits catalog.now (form_in heard.old) line.now (refusal (staged heard.old.stage heard.old.heading reading).1) reading piece × (string_bytes page.new ≡ string_bytes page.old ++ piece)) }
{
    let form = heard.form();
    let refused = heard.hear(line)?;
    put_refusal(
        alloc, origin, number, limits, catalog, form, line, refused, page,
    )
}

/// Puts what is told of the last line, which no LF ends, if there is one.
fn put_last<A: Allocator + Copy>(
    alloc: A,
    origin: &str,
    number: u64,
    limits: Limits,
    catalog: &Catalog<A>,
    heard: &mut Script<A>,
    line: &[u8],
    page: &mut String<A>,
) -> Result<(), AllocError>
    requires end { HasNoEnd line.now }
    requires number { heard.old.lines + 1 ≡ number }
    ensures { OnOk result ((text : List ℕ) × AreWhys origin.now limits catalog.now heard.old (lines_of line.now) text × (string_bytes page.new ≡ string_bytes page.old ++ text)) }
{
    if line.is_empty() {
        return Ok(());
    }
    put_line(alloc, origin, number, limits, catalog, heard, line, page)
}

/// Puts a line for each line of a script that is refused, with its number and what is wrong with it, on an empty page: behind `board: ` and the words
/// that name the script, if any. The limits are told where one is in the way. The relations are those that are declared; they are told of where a row or a body names another one, or gives it another number
/// of columns.
///
/// No more than the first lines are told of, as many as are given: a strict script ends at its first refused line. The script is heard once more for it, with the
/// work and the memory that this takes.
///
/// # Errors
/// `AllocError` where an allocation failed. A part of the lines may be put then.
pub fn put_whys<A: Allocator + Copy>(
    alloc: A,
    origin: &str,
    most: u64,
    limits: Limits,
    catalog: &Catalog<A>,
    script: &[u8],
    page: &mut String<A>,
) -> Result<(), AllocError>
    ensures { string_bytes page.old ≡ [] → OnOk result (AreWhys origin.now limits catalog.now (begin_state Plain) (take most (lines_of script.now)) (string_bytes page.new)) }
{
    let mut heard = Script::begin(alloc, Numbering::Plain);
    let mut rest = script;
    for number in 0..most {
        let Some((line, behind)) = first_line(rest) else {
            return put_last(
                alloc,
                origin,
                number + 1,
                limits,
                catalog,
                &mut heard,
                rest,
                page,
            );
        };
        put_line(
            alloc,
            origin,
            number + 1,
            limits,
            catalog,
            &mut heard,
            line,
            page,
        )?;
        rest = behind;
    }
    Ok(())
}
