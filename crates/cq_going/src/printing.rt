//! Atoms under values, as they are printed.

ghost use Rattle.std.specs.Prelude.{◌≡◌, ◌++◌, codes, map, string_bytes, OnOk};
ghost use Rattle.std.specs.List.{join_by};
ghost use Rattle.std.specs.Option.{option_copied};
ghost use Rattle.cq_atom.specs.Valuation.{value_at, term_under, under};
ghost use Rattle.cq_atom.specs.declared.term.TermKind.TheVariants.{Variable};
ghost use Rattle.cq_board.specs.Choice.{bound};
ghost use Rattle.cq_text.specs.Print.{printed_text, printed_value, printed_term, printed_atom};
ghost use Rattle.cq_going.specs.Steps.Separators.{separated_by};

use cq_atom::{Atom, Query, Term, Value, value_place};
use cq_text::push_escaped;
use std::alloc::{AllocError, Allocator};

/// Puts what stands before the item at that place: nothing before the first.
pub(crate) fn put_separator<A: Allocator>(
    page: &mut String<A>,
    separator: &str,
    place: usize,
) -> Result<(), AllocError>
    ensures { OnOk result (string_bytes page.new ≡ string_bytes page.old ++ separated_by separator.now place) }
{
    if place > 0 {
        page.push_str(separator)?;
    }
    Ok(())
}

/// Puts a text between quotes.
fn put_quoted<A: Allocator>(page: &mut String<A>, text: &str) -> Result<(), AllocError>
    ensures { OnOk result (string_bytes page.new ≡ string_bytes page.old ++ printed_text text.now) }
{
    page.push('"')?;
    push_escaped(page, text)?;
    page.push('"')
}

fn put_value<A: Allocator>(page: &mut String<A>, value: &Value<A>) -> Result<(), AllocError>
    ensures { OnOk result (string_bytes page.new ≡ string_bytes page.old ++ printed_value value.now) }
{
    match (value.as_num(), value.as_text()) {
        (Some(number), _) => write!(page, "{number}"),
        (None, Some(text)) => put_quoted(page, text),
        // A value is one of both.
        (None, None) => unreachable!(),
    }
}

/// The value of the variable of that name, where it has one.
pub(crate) fn value_of<'a, A: Allocator>(
    query: &Query<A>,
    values: &'a [Value<A>],
    name: &str,
) -> Option<&'a Value<A>>
    ensures { option_copied result ≡ value_at (bound query.now values.now) name.now }
{
    let place = value_place(query.variables(), name)?;
    values.get(place)
}

/// Puts the value of the variable, or its name where it has none.
fn put_variable<A: Allocator>(
    page: &mut String<A>,
    query: &Query<A>,
    values: &[Value<A>],
    name: &str,
) -> Result<(), AllocError>
    ensures { OnOk result (string_bytes page.new ≡ string_bytes page.old ++ printed_term (term_under (bound query.now values.now) (Variable name.now))) }
{
    match value_of(query, values, name) {
        Some(value) => put_value(page, value),
        None => page.push_str(name),
    }
}

/// Puts the term under the values.
fn put_term<A: Allocator>(
    page: &mut String<A>,
    query: &Query<A>,
    values: &[Value<A>],
    term: &Term<A>,
) -> Result<(), AllocError>
    ensures { OnOk result (string_bytes page.new ≡ string_bytes page.old ++ printed_term (term_under (bound query.now values.now) term.now)) }
{
    match (term.as_variable(), term.as_constant()) {
        (Some(name), _) => put_variable(page, query, values, name),
        (None, Some(value)) => put_value(page, value),
        // A term is one of both.
        (None, None) => unreachable!(),
    }
}

fn put_terms<A: Allocator>(
    page: &mut String<A>,
    query: &Query<A>,
    values: &[Value<A>],
    terms: &[Term<A>],
) -> Result<(), AllocError>
    ensures { OnOk result (string_bytes page.new ≡ string_bytes page.old ++ join_by printed_term (codes ", ") (map (term_under (bound query.now values.now)) terms.now)) }
{
    for (place, term) in terms.iter().enumerate() {
        put_separator(page, ", ", place)?;
        put_term(page, query, values, term)?;
    }
    Ok(())
}

/// Puts the atom of the query under the values.
pub(crate) fn put_atom<A: Allocator>(
    page: &mut String<A>,
    query: &Query<A>,
    values: &[Value<A>],
    atom: &Atom<A>,
) -> Result<(), AllocError>
    ensures { OnOk result (string_bytes page.new ≡ string_bytes page.old ++ printed_atom (under (bound query.now values.now) atom.now)) }
{
    page.push_str(atom.relation())?;
    page.push('(')?;
    put_terms(page, query, values, atom.terms())?;
    page.push(')')?;
    Ok(())
}
