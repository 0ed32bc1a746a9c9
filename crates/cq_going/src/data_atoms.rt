//! Atoms under values, as JSON.

ghost use Rattle.std.specs.Prelude.{◌≡◌, ◌++◌, ◌∷◌, codes, map, option_map, OnOk};
ghost use Rattle.std.specs.Option.{option_copied};
ghost use Rattle.json.specs.Token.{begin_object, key, string};
ghost use Rattle.json.specs.Tree.{json_tokens};
ghost use Rattle.cq_atom.specs.Valuation.{term_under, under};
ghost use Rattle.cq_atom.specs.declared.term.TermKind.TheVariants.{Variable};
ghost use Rattle.cq_board.specs.Choice.{bound};
ghost use Rattle.cq_render.specs.Json.{array_of, term_json, atom_json, grounding_json};
ghost use Rattle.cq_going.specs.Data.{under_members};
ghost use Rattle.cq_going.specs.Steps.Tokens.{members_alone};

use crate::printing::value_of;
use cq_atom::{Atom, Name, Query, Term, Value};
use cq_render::{JsonText, put_constant, put_values, put_variable};
use std::alloc::{AllocError, Allocator};

/// Puts the beginning of an object: a query's name, and values for its variables.
pub(crate) fn begin_valued<A: Allocator>(
    sheet: &mut JsonText<A>,
    name: &Name<A>,
    values: &[Value<A>],
) -> Result<(), AllocError>
    ensures { OnOk result (sheet.new ≡ sheet.old ++ begin_object ∷ key (codes "query") ∷ string name.now ∷ key (codes "values") ∷ json_tokens (grounding_json values.now)) }
{
    sheet.begin_object()?;
    sheet.text_member("query", name.as_str())?;
    sheet.key("values")?;
    put_values(sheet, values)
}

/// Puts the value of the variable, or the variable where it has none.
fn put_variable_under<A: Allocator>(
    sheet: &mut JsonText<A>,
    query: &Query<A>,
    values: &[Value<A>],
    name: &str,
) -> Result<(), AllocError>
    ensures { OnOk result (sheet.new ≡ sheet.old ++ json_tokens (term_json (term_under (bound query.now values.now) (Variable name.now)))) }
{
    match value_of(query, values, name) {
        Some(value) => put_constant(sheet, value),
        None => put_variable(sheet, name),
    }
}

/// Puts the term under the values.
fn put_term<A: Allocator>(
    sheet: &mut JsonText<A>,
    query: &Query<A>,
    values: &[Value<A>],
    term: &Term<A>,
) -> Result<(), AllocError>
    ensures { OnOk result (sheet.new ≡ sheet.old ++ json_tokens (term_json (term_under (bound query.now values.now) term.now))) }
{
    match (term.as_variable(), term.as_constant()) {
        (Some(name), _) => put_variable_under(sheet, query, values, name),
        (None, Some(value)) => put_constant(sheet, value),
        // A term is one of both.
        (None, None) => unreachable!(),
    }
}

/// Puts the terms under the values.
fn put_terms<A: Allocator>(
    sheet: &mut JsonText<A>,
    query: &Query<A>,
    values: &[Value<A>],
    terms: &[Term<A>],
) -> Result<(), AllocError>
    ensures { OnOk result (sheet.new ≡ sheet.old ++ json_tokens (array_of (map term_json (map (term_under (bound query.now values.now)) terms.now)))) }
{
    sheet.begin_array()?;
    for term in terms {
        put_term(sheet, query, values, term)?;
    }
    sheet.end_array()
}

/// Puts the members of the atom of the query under the values.
fn put_members<A: Allocator>(
    sheet: &mut JsonText<A>,
    query: &Query<A>,
    values: &[Value<A>],
    atom: &Atom<A>,
) -> Result<(), AllocError>
    ensures { OnOk result (sheet.new ≡ sheet.old ++ key (codes "relation") ∷ string atom.now.relation ∷ key (codes "terms") ∷ json_tokens (array_of (map term_json (map (term_under (bound query.now values.now)) atom.now.terms)))) }
{
    sheet.text_member("relation", atom.relation())?;
    sheet.key("terms")?;
    put_terms(sheet, query, values, atom.terms())
}

/// Puts the atom of the query under the values.
pub(crate) fn put_atom<A: Allocator>(
    sheet: &mut JsonText<A>,
    query: &Query<A>,
    values: &[Value<A>],
    atom: &Atom<A>,
) -> Result<(), AllocError>
    ensures { OnOk result (sheet.new ≡ sheet.old ++ json_tokens (atom_json (under (bound query.now values.now) atom.now))) }
{
    sheet.begin_object()?;
    put_members(sheet, query, values, atom)?;
    sheet.end_object()
}

/// Puts the members of the atom of the query under the values; nothing where there is none.
pub(crate) fn put_if_there<A: Allocator>(
    sheet: &mut JsonText<A>,
    query: &Query<A>,
    values: &[Value<A>],
    atom: Option<&Atom<A>>,
) -> Result<(), AllocError>
    ensures { OnOk result (sheet.new ≡ sheet.old ++ members_alone (under_members query.now values.now (option_copied atom.entry))) }
{
    match atom {
        Some(atom) => put_members(sheet, query, values, atom),
        None => Ok(()),
    }
}
