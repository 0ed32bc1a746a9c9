//! The printed form of queries, atoms, rows and commands.

ghost use Rattle.std.specs.Prelude.{◌≡◌, ◌≤◌, ◌++◌, length, codes, string_bytes, encode_utf8, IfOk, OnOk};
ghost use Rattle.std.specs.Fmt.{signed_decimal};
ghost use Rattle.std.specs.List.{join_by, All};
ghost use Rattle.cq_atom.specs.Value.{IsValue};
ghost use Rattle.cq_text.specs.Print.{is_escaped, escaped, printed_text, printed_value, printed_term, printed_atom, printed_row, printed_values, printed_atoms, printed_body, printed_query, StandsForAtom};
ghost use Rattle.cq_text.specs.declared.form.Form.TheVariants.{One, Two};
ghost use Rattle.cq_text.specs.Forms.{most_terms};
ghost use Rattle.cq_text.specs.Grammar.{FewTerms, FitsQuery, StandsForQuery, StandsForRow};
ghost use Rattle.cq_text.specs.Sound.{IsSoundTerm, IsSoundAtom, IsSoundRow, IsSoundQuery};
ghost use Rattle.cq_text.specs.Steps.Separators.{separator_at};

mod commands;

pub use self::commands::{
    commands_read_back, push_board, push_insert, push_limits, push_post, push_publish,
    push_relation,
};
use cq_atom::{Atom, Query, Row, Term, Value};
use std::alloc::{AllocError, Allocator};

fn is_escaped(character: char) -> bool
    ensures { result ≡ is_escaped character }
{
    character == '"' || character == '\\'
}

fn push_character<A: Allocator>(printed: &mut String<A>, character: char) -> Result<(), AllocError>
    ensures { OnOk result (string_bytes printed.new ≡ string_bytes printed.old ++ escaped (encode_utf8 character)) }
{
    if is_escaped(character) {
        printed.push('\\')?;
    }
    printed.push(character)?;
    Ok(())
}

/// Puts a text after what is there, as it stands between quotes: with a backslash before each of its quotes and backslashes.
/// In proportion to the text.
///
/// # Errors
/// `AllocError` where an allocation failed. A front of the text may have been put then.
pub fn push_escaped<A: Allocator>(printed: &mut String<A>, text: &str) -> Result<(), AllocError>
    ensures { OnOk result (string_bytes printed.new ≡ string_bytes printed.old ++ escaped text.now) }
{
    for character in text.chars() {
        push_character(printed, character)?;
    }
    Ok(())
}

fn push_text<A: Allocator>(printed: &mut String<A>, text: &str) -> Result<(), AllocError>
    ensures { OnOk result (string_bytes printed.new ≡ string_bytes printed.old ++ printed_text text.now) }
{
    printed.push('"')?;
    push_escaped(printed, text)?;
    printed.push('"')?;
    Ok(())
}

fn push_number<A: Allocator>(printed: &mut String<A>, number: i64) -> Result<(), AllocError>
    ensures { OnOk result (string_bytes printed.new ≡ string_bytes printed.old ++ signed_decimal number) }
{
    write!(printed, "{number}")
}

fn push_value<A: Allocator>(printed: &mut String<A>, value: &Value<A>) -> Result<(), AllocError>
    ensures printed { OnOk result (string_bytes printed.new ≡ string_bytes printed.old ++ printed_value value.now) }
    ensures sound { IsValue value.now }
{
    if let Some(number) = value.as_num() {
        push_number(printed, number)?;
    }
    if let Some(text) = value.as_text() {
        push_text(printed, text)?;
    }
    Ok(())
}

fn push_term<A: Allocator>(printed: &mut String<A>, term: &Term<A>) -> Result<(), AllocError>
    ensures printed { OnOk result (string_bytes printed.new ≡ string_bytes printed.old ++ printed_term term.now) }
    ensures sound { OnOk result (IsSoundTerm term.now) }
{
    if let Some(name) = term.as_variable() {
        printed.push_str(name)?;
    }
    if let Some(value) = term.as_constant() {
        push_value(printed, value)?;
    }
    Ok(())
}

/// What stands before the item at that place: a comma and a space, but nothing before the first.
fn push_separator<A: Allocator>(printed: &mut String<A>, place: usize) -> Result<(), AllocError>
    ensures { OnOk result (string_bytes printed.new ≡ string_bytes printed.old ++ separator_at place) }
{
    if place > 0 {
        printed.push_str(", ")?;
    }
    Ok(())
}

fn push_terms<A: Allocator>(printed: &mut String<A>, terms: &[Term<A>]) -> Result<(), AllocError>
    ensures printed { OnOk result (string_bytes printed.new ≡ string_bytes printed.old ++ join_by printed_term (codes ", ") terms.now) }
    ensures sound { OnOk result (All IsSoundTerm terms.now) }
{
    for (place, term) in terms.iter().enumerate() {
        push_separator(printed, place)?;
        push_term(printed, term)?;
    }
    Ok(())
}

fn push_listed<A: Allocator>(printed: &mut String<A>, values: &[Value<A>]) -> Result<(), AllocError>
    ensures printed { OnOk result (string_bytes printed.new ≡ string_bytes printed.old ++ join_by printed_value (codes ", ") values.now) }
    ensures sound { OnOk result (All IsValue values.now) }
{
    for (place, value) in values.iter().enumerate() {
        push_separator(printed, place)?;
        push_value(printed, value)?;
    }
    Ok(())
}

fn push_atom<A: Allocator>(printed: &mut String<A>, atom: &Atom<A>) -> Result<(), AllocError>
    ensures printed { OnOk result (string_bytes printed.new ≡ string_bytes printed.old ++ printed_atom atom.now) }
    ensures sound { OnOk result (IsSoundAtom atom.now) }
{
    printed.push_str(atom.relation())?;
    printed.push('(')?;
    push_terms(printed, atom.terms())?;
    printed.push(')')?;
    Ok(())
}

fn push_atoms<A: Allocator>(printed: &mut String<A>, atoms: &[Atom<A>]) -> Result<(), AllocError>
    ensures printed { OnOk result (string_bytes printed.new ≡ string_bytes printed.old ++ printed_atoms atoms.now) }
    ensures sound { OnOk result (All IsSoundAtom atoms.now) }
{
    for (place, atom) in atoms.iter().enumerate() {
        push_separator(printed, place)?;
        push_atom(printed, atom)?;
    }
    Ok(())
}

fn push_body<A: Allocator>(printed: &mut String<A>, body: &[Atom<A>]) -> Result<(), AllocError>
    ensures printed { OnOk result (string_bytes printed.new ≡ string_bytes printed.old ++ printed_body body.now) }
    ensures sound { OnOk result (All IsSoundAtom body.now) }
{
    if !body.is_empty() {
        printed.push(' ')?;
        push_atoms(printed, body)?;
    }
    Ok(())
}

fn push_query_parts<A: Allocator>(
    printed: &mut String<A>,
    query: &Query<A>,
) -> Result<(), AllocError>
    ensures printed { OnOk result (string_bytes printed.new ≡ string_bytes printed.old ++ printed_query query.now) }
    ensures sound { OnOk result (IsSoundQuery query.now) }
{
    printed.push('{')?;
    push_atoms(printed, query.posts())?;
    printed.push_str("} ")?;
    push_atoms(printed, query.heads())?;
    printed.push_str(" <-")?;
    push_body(printed, query.body())?;
    Ok(())
}

/// Puts a query after what is there, as `print_query` gives it: `{posts} heads <- body`. In proportion to the query.
///
/// # Errors
/// `AllocError` where an allocation failed. A front of the query may have been put then.
pub fn push_query<A: Allocator>(printed: &mut String<A>, query: &Query<A>) -> Result<(), AllocError>
    ensures printed { OnOk result (string_bytes printed.new ≡ string_bytes printed.old ++ printed_query query.now) }
    // In format 2 what is put is read as the query.
    ensures reads_back { OnOk result (StandsForQuery Two (printed_query query.now) query.now) }
    // In format 1 too, where it keeps that format's limits.
    ensures reads_back_in_one { OnOk result (FitsQuery One query.now → StandsForQuery One (printed_query query.now) query.now) }
{
    push_query_parts(printed, query)?;
    Ok(())
}

fn push_row<A: Allocator>(printed: &mut String<A>, row: &Row<A>) -> Result<(), AllocError>
    ensures printed { OnOk result (string_bytes printed.new ≡ string_bytes printed.old ++ printed_row row.now) }
    ensures sound { OnOk result (IsSoundRow row.now) }
{
    printed.push_str(row.relation())?;
    printed.push('(')?;
    push_listed(printed, row.values())?;
    printed.push(')')?;
    Ok(())
}

/// The query as a text, `{posts} heads <- body`, with nothing after the arrow where the body is
/// empty. The grammar gives the same query for that text.
///
/// # Errors
/// `AllocError` where an allocation failed.
pub fn print_query<A: Allocator + Copy>(alloc: A, query: &Query<A>) -> Result<String<A>, AllocError>
    ensures printed { IfOk result (λ text. string_bytes text ≡ printed_query query.now) }
    // In format 2 it is read as what was printed.
    ensures reads_back { IfOk result (λ text. StandsForQuery Two (string_bytes text) query.now) }
    // In format 1 too, where it keeps that format's limits.
    ensures reads_back_in_one { IfOk result (λ text. FitsQuery One query.now → StandsForQuery One (string_bytes text) query.now) }
{
    let mut printed = String::new(alloc);
    push_query(&mut printed, query)?;
    Ok(printed)
}

/// The atom as a text, as `R(1, y)`.
///
/// # Errors
/// `AllocError` where an allocation failed.
pub fn print_atom<A: Allocator + Copy>(alloc: A, atom: &Atom<A>) -> Result<String<A>, AllocError>
    ensures printed { IfOk result (λ text. string_bytes text ≡ printed_atom atom.now) }
    // In format 2 it is read as what was printed.
    ensures reads_back { IfOk result (λ text. StandsForAtom Two (string_bytes text) atom.now) }
    // In format 1 too, where it keeps that format's limits.
    ensures reads_back_in_one { IfOk result (λ text. FewTerms One atom.now → StandsForAtom One (string_bytes text) atom.now) }
{
    let mut printed = String::new(alloc);
    push_atom(&mut printed, atom)?;
    Ok(printed)
}

/// The row as a text, as `R(1, "a")`.
///
/// # Errors
/// `AllocError` where an allocation failed.
pub fn print_row<A: Allocator + Copy>(alloc: A, row: &Row<A>) -> Result<String<A>, AllocError>
    ensures printed { IfOk result (λ text. string_bytes text ≡ printed_row row.now) }
    // In format 2 it is read as what was printed.
    ensures reads_back { IfOk result (λ text. StandsForRow Two (string_bytes text) row.now) }
    // In format 1 too, where it keeps that format's limits.
    ensures reads_back_in_one { IfOk result (λ text. length row.now.values ≤ most_terms One → StandsForRow One (string_bytes text) row.now) }
{
    let mut printed = String::new(alloc);
    push_row(&mut printed, row)?;
    Ok(printed)
}

/// Puts values in brackets after what is there, as `(1, "a")`, and `()` where there are none. In proportion to the values.
///
/// # Errors
/// `AllocError` where an allocation failed. A front of the values may have been put then.
pub fn push_values<A: Allocator>(
    printed: &mut String<A>,
    values: &[Value<A>],
) -> Result<(), AllocError>
    ensures { OnOk result (string_bytes printed.new ≡ string_bytes printed.old ++ printed_values values.now) }
{
    printed.push('(')?;
    push_listed(printed, values)?;
    printed.push(')')?;
    Ok(())
}

/// Values in brackets as a text, as `push_values` puts them.
///
/// # Errors
/// `AllocError` where an allocation failed.
pub fn print_values<A: Allocator + Copy>(
    alloc: A,
    values: &[Value<A>],
) -> Result<String<A>, AllocError>
    ensures { IfOk result (λ text. string_bytes text ≡ printed_values values.now) }
{
    let mut printed = String::new(alloc);
    push_values(&mut printed, values)?;
    Ok(printed)
}
