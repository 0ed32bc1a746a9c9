//! A board as JSON, put on a sheet member by member.

ghost use Rattle.std.specs.Prelude.{◌≡◌, ◌++◌, ◌∷◌, [], codes, map, string_bytes, nat_le, unsigned_abs, IfOk, OnOk};
ghost use Rattle.std.specs.List.{enumerate_from};
ghost use Rattle.json.specs.Print.{print};
ghost use Rattle.json.specs.Json as values;
ghost use Rattle.json.specs.Token.{begin_object, end_object, key, string};
ghost use Rattle.json.specs.Tree.{json_tokens};
ghost use Rattle.cq_atom.specs.declared.value.Content.TheVariants.{Number};
ghost use Rattle.cq_atom.specs.declared.term.TermKind.TheVariants.{Constant, Variable};
ghost use Rattle.cq_atom.specs.Query.{variables_of};
ghost use Rattle.cq_text.specs.Print.{printed_query};
ghost use Rattle.cq_rel.specs.Tables.{declaration};
ghost use Rattle.cq_render.specs.Report.{state_word};
ghost use Rattle.cq_render.specs.Json.{array_of, value_json, constant_word, term_json, atom_json, relation_json, provider_json, post_json, posts_json, grounding_json, query_json, json_of};
ghost use Rattle.cq_render.specs.Steps.Walking.{shown_json, shown_read};

use crate::json_text::JsonText;
use crate::limits::MOST_KEPT;
use crate::walking::{Listing, Shown, name_or_none, providers, walk};
use crate::words::{row_count, state_word};
use cq_atom::{Atom, Edge, Query, Term, Value};
use cq_board::Board;
use cq_ground::Groundings;
use cq_match::is_crowd;
use cq_rel::Tables;
use cq_text::print_query;
use std::alloc::{AllocError, Allocator};

fn put_number<A: Allocator>(sheet: &mut JsonText<A>, number: i64) -> Result<(), AllocError>
    ensures { OnOk result (sheet.new ≡ sheet.old ++ json_tokens (value_json (Number number))) }
{
    if number.unsigned_abs() <= MOST_KEPT {
        sheet.number(number)
    } else {
        sheet.quoted_number(number)
    }
}

/// Puts a value: a number where all readers keep it, and else a text.
fn put_value<A: Allocator>(sheet: &mut JsonText<A>, value: &Value<A>) -> Result<(), AllocError>
    ensures { OnOk result (sheet.new ≡ sheet.old ++ json_tokens (value_json value.now)) }
{
    if let Some(number) = value.as_num() {
        return put_number(sheet, number);
    }
    match value.as_text() {
        Some(text) => sheet.string(text),
        None => unreachable!(),
    }
}

/// Puts a term that is a variable, by its name.
///
/// # Errors
/// `AllocError` where an allocation failed. The sheet may then have a part of it.
pub fn put_variable<A: Allocator>(sheet: &mut JsonText<A>, name: &str) -> Result<(), AllocError>
    ensures { OnOk result (sheet.new ≡ sheet.old ++ json_tokens (term_json (Variable name.now))) }
{
    sheet.begin_object()?;
    sheet.text_member("variable", name)?;
    sheet.end_object()
}

fn constant_word<A: Allocator>(value: &Value<A>) -> &'static str
    ensures { result.now ≡ constant_word value.now }
{
    if value.as_num().is_some() {
        "number"
    } else {
        "text"
    }
}

/// Puts a term that is a constant, by what it is.
///
/// # Errors
/// `AllocError` where an allocation failed. The sheet may then have a part of it.
pub fn put_constant<A: Allocator>(
    sheet: &mut JsonText<A>,
    value: &Value<A>,
) -> Result<(), AllocError>
    ensures { OnOk result (sheet.new ≡ sheet.old ++ json_tokens (term_json (Constant value.now))) }
{
    sheet.begin_object()?;
    sheet.key(constant_word(value))?;
    put_value(sheet, value)?;
    sheet.end_object()
}

fn put_term<A: Allocator>(sheet: &mut JsonText<A>, term: &Term<A>) -> Result<(), AllocError>
    ensures { OnOk result (sheet.new ≡ sheet.old ++ json_tokens (term_json term.now)) }
{
    if let Some(name) = term.as_variable() {
        return put_variable(sheet, name);
    }
    match term.as_constant() {
        Some(value) => put_constant(sheet, value),
        None => unreachable!(),
    }
}

/// Puts the terms of an atom.
fn put_terms<A: Allocator>(sheet: &mut JsonText<A>, terms: &[Term<A>]) -> Result<(), AllocError>
    ensures { OnOk result (sheet.new ≡ sheet.old ++ json_tokens (array_of (map term_json terms.now))) }
{
    sheet.begin_array()?;
    for term in terms {
        put_term(sheet, term)?;
    }
    sheet.end_array()
}

/// Puts the members that an atom has.
pub(crate) fn put_atom_members<A: Allocator>(
    sheet: &mut JsonText<A>,
    atom: &Atom<A>,
) -> Result<(), AllocError>
    ensures { OnOk result (sheet.new ≡ sheet.old ++ key (codes "relation") ∷ string atom.now.relation ∷ key (codes "terms") ∷ json_tokens (array_of (map term_json atom.now.terms))) }
{
    sheet.text_member("relation", atom.relation())?;
    sheet.key("terms")?;
    put_terms(sheet, atom.terms())
}

/// Puts the beginning of an object: the members that an atom has.
fn begin_atom<A: Allocator>(sheet: &mut JsonText<A>, atom: &Atom<A>) -> Result<(), AllocError>
    ensures { OnOk result (sheet.new ≡ sheet.old ++ begin_object ∷ key (codes "relation") ∷ string atom.now.relation ∷ key (codes "terms") ∷ json_tokens (array_of (map term_json atom.now.terms))) }
{
    sheet.begin_object()?;
    put_atom_members(sheet, atom)
}

/// Puts an atom: its relation, and its terms in order.
fn put_atom<A: Allocator>(sheet: &mut JsonText<A>, atom: &Atom<A>) -> Result<(), AllocError>
    ensures { OnOk result (sheet.new ≡ sheet.old ++ json_tokens (atom_json atom.now)) }
{
    begin_atom(sheet, atom)?;
    sheet.end_object()
}

/// Puts each of the atoms.
fn put_each_atom<A: Allocator>(sheet: &mut JsonText<A>, atoms: &[Atom<A>]) -> Result<(), AllocError>
    ensures { OnOk result (sheet.new ≡ sheet.old ++ json_tokens (array_of (map atom_json atoms.now))) }
{
    sheet.begin_array()?;
    for atom in atoms {
        put_atom(sheet, atom)?;
    }
    sheet.end_array()
}

/// Puts a member that is a list of atoms.
fn put_atoms<A: Allocator>(
    sheet: &mut JsonText<A>,
    name: &str,
    atoms: &[Atom<A>],
) -> Result<(), AllocError>
    ensures { OnOk result (sheet.new ≡ sheet.old ++ key name.now ∷ json_tokens (array_of (map atom_json atoms.now))) }
{
    sheet.key(name)?;
    put_each_atom(sheet, atoms)
}

fn put_relation<A: Allocator>(
    sheet: &mut JsonText<A>,
    tables: &Tables<A>,
    relation: &str,
    arity: usize,
) -> Result<(), AllocError>
    ensures { OnOk result (sheet.new ≡ sheet.old ++ json_tokens (relation_json tables.now (declaration relation.now arity))) }
{
    let rows = row_count(tables, relation);
    sheet.begin_object()?;
    sheet.text_member("name", relation)?;
    sheet.count_member("arity", arity)?;
    sheet.count_member("rows", rows)?;
    sheet.end_object()
}

/// Puts the declared relations.
fn put_relations<A: Allocator>(
    sheet: &mut JsonText<A>,
    tables: &Tables<A>,
) -> Result<(), AllocError>
    ensures { OnOk result (sheet.new ≡ sheet.old ++ json_tokens (array_of (map (relation_json tables.now) tables.now.catalog))) }
{
    let catalog = tables.catalog();
    sheet.begin_array()?;
    for place in 0..catalog.len() {
        let (relation, arity) = match catalog.entry(place) {
            Some(entry) => entry,
            None => unreachable!(),
        };
        put_relation(sheet, tables, relation, arity)?;
    }
    sheet.end_array()
}

fn put_provider<A: Allocator>(
    sheet: &mut JsonText<A>,
    listing: &Listing<'_, A>,
    edge: &Edge,
) -> Result<(), AllocError>
    ensures { OnOk result (sheet.new ≡ sheet.old ++ json_tokens (provider_json listing.now.board.now.pending edge.now)) }
{
    sheet.begin_object()?;
    sheet.text_member("query", name_or_none(listing, edge.provider))?;
    sheet.count_member("head", edge.head as usize)?;
    sheet.end_object()
}

/// Puts the providers of a postcondition.
fn put_providers<A: Allocator>(
    sheet: &mut JsonText<A>,
    listing: &Listing<'_, A>,
    providers: &[Edge],
) -> Result<(), AllocError>
    ensures { OnOk result (sheet.new ≡ sheet.old ++ json_tokens (array_of (map (provider_json listing.now.board.now.pending) providers.now))) }
{
    sheet.begin_array()?;
    for edge in providers {
        put_provider(sheet, listing, edge)?;
    }
    sheet.end_array()
}

/// Puts a postcondition, to which these edges lead.
fn put_post<A: Allocator>(
    sheet: &mut JsonText<A>,
    listing: &Listing<'_, A>,
    post: &Atom<A>,
    providers: &[Edge],
) -> Result<(), AllocError>
    ensures { OnOk result (sheet.new ≡ sheet.old ++ json_tokens (post_json listing.now.board.now.pending post.now providers.now)) }
{
    begin_atom(sheet, post)?;
    sheet.key("providers")?;
    put_providers(sheet, listing, providers)?;
    sheet.key("crowded")?;
    sheet.boolean(is_crowd(providers.len()))?;
    sheet.end_object()
}

/// Puts the postconditions of the query.
fn put_posts<A: Allocator>(
    sheet: &mut JsonText<A>,
    listing: &Listing<'_, A>,
    shown: &Shown<'_, A>,
) -> Result<(), AllocError>
    ensures { OnOk result (sheet.new ≡ sheet.old ++ json_tokens (posts_json listing.now.board.now.pending shown.now.number shown.now.query.now)) }
{
    sheet.begin_array()?;
    for (place, post) in shown.query.posts().iter().enumerate() {
        let providers = providers(listing, shown.number, place);
        put_post(sheet, listing, post, providers)?;
    }
    sheet.end_array()
}

/// Puts names of variables in an array.
///
/// # Errors
/// `AllocError` if an allocation fails. The sheet may then have a part of it.
pub fn put_variables<A: Allocator>(
    sheet: &mut JsonText<A>,
    variables: &[String<A>],
) -> Result<(), AllocError>
    ensures { OnOk result (sheet.new ≡ sheet.old ++ json_tokens (array_of (map values.string (map string_bytes variables.now)))) }
{
    sheet.begin_array()?;
    for variable in variables {
        sheet.string(variable.as_str())?;
    }
    sheet.end_array()
}

/// Puts values in an array, as of a grounding: each number that all readers keep is one, and all else a text.
///
/// # Errors
/// `AllocError` where an allocation failed. The sheet may then have a part of it.
pub fn put_values<A: Allocator>(
    sheet: &mut JsonText<A>,
    values: &[Value<A>],
) -> Result<(), AllocError>
    ensures { OnOk result (sheet.new ≡ sheet.old ++ json_tokens (grounding_json values.now)) }
{
    sheet.begin_array()?;
    for value in values {
        put_value(sheet, value)?;
    }
    sheet.end_array()
}

/// Puts groundings.
fn put_groundings<A: Allocator>(
    sheet: &mut JsonText<A>,
    groundings: &Groundings<A>,
) -> Result<(), AllocError>
    ensures { OnOk result (sheet.new ≡ sheet.old ++ json_tokens (array_of (map grounding_json groundings.now))) }
{
    sheet.begin_array()?;
    for values in groundings.list() {
        put_values(sheet, values)?;
    }
    sheet.end_array()
}

/// Puts the beginning of a query: its name, whether it is matched, and its printed form.
fn put_heading<A: Allocator + Copy>(
    alloc: A,
    sheet: &mut JsonText<A>,
    name: &str,
    matched: bool,
    query: &Query<A>,
) -> Result<(), AllocError>
    ensures { OnOk result (sheet.new ≡ sheet.old ++ begin_object ∷ key (codes "name") ∷ string name.now ∷ key (codes "state") ∷ string (state_word matched) ∷ key (codes "text") ∷ string (printed_query query.now) ∷ []) }
{
    let printed = print_query(alloc, query)?;
    sheet.begin_object()?;
    sheet.text_member("name", name)?;
    sheet.text_member("state", state_word(matched))?;
    sheet.text_member("text", printed.as_str())
}

/// Puts the end of a query: the variables of its body, and its groundings.
fn put_grounded<A: Allocator>(
    sheet: &mut JsonText<A>,
    query: &Query<A>,
    groundings: &Groundings<A>,
) -> Result<(), AllocError>
    ensures { OnOk result (sheet.new ≡ sheet.old ++ key (codes "variables") ∷ (json_tokens (array_of (map values.string (variables_of query.now.body))) ++ key (codes "groundings") ∷ (json_tokens (array_of (map grounding_json groundings.now)) ++ end_object ∷ []))) }
{
    sheet.key("variables")?;
    put_variables(sheet, query.variables())?;
    sheet.key("groundings")?;
    put_groundings(sheet, groundings)?;
    sheet.end_object()
}

/// Puts the query.
pub(crate) fn put_query<A: Allocator + Copy>(
    alloc: A,
    sheet: &mut JsonText<A>,
    listing: &Listing<'_, A>,
    shown: &Shown<'_, A>,
) -> Result<(), AllocError>
    ensures { OnOk result (sheet.new ≡ sheet.old ++ json_tokens (shown_json listing.now.board.now.pending (shown_read shown.now))) }
{
    let name = shown.name.as_str();
    put_heading(alloc, sheet, name, shown.matched, shown.query)?;
    put_atoms(sheet, "heads", shown.query.heads())?;
    sheet.key("postconditions")?;
    put_posts(sheet, listing, shown)?;
    put_atoms(sheet, "body", shown.query.body())?;
    put_grounded(sheet, shown.query, shown.groundings)
}

/// Puts each pending query.
fn put_each<A: Allocator + Copy>(
    alloc: A,
    sheet: &mut JsonText<A>,
    listing: &Listing<'_, A>,
) -> Result<(), AllocError>
    ensures { OnOk result (sheet.new ≡ sheet.old ++ json_tokens (array_of (map (query_json listing.now.board.now) (enumerate_from 0 listing.now.board.now.pending)))) }
{
    sheet.begin_array()?;
    for shown in &listing.queries {
        put_query(alloc, sheet, listing, shown)?;
    }
    sheet.end_array()
}

/// Puts the pending queries of a board.
fn put_queries<A: Allocator + Copy>(
    alloc: A,
    sheet: &mut JsonText<A>,
    board: &Board<A>,
) -> Result<(), AllocError>
    ensures { OnOk result (sheet.new ≡ sheet.old ++ json_tokens (array_of (map (query_json board.now) (enumerate_from 0 board.now.pending)))) }
{
    let listing = walk(alloc, board)?;
    put_each(alloc, sheet, &listing)
}

/// Puts a board of so many entries.
fn put_board<A: Allocator + Copy>(
    alloc: A,
    sheet: &mut JsonText<A>,
    entries: u64,
    board: &Board<A>,
) -> Result<(), AllocError>
    ensures { OnOk result (sheet.new ≡ sheet.old ++ json_tokens (json_of entries board.now)) }
{
    sheet.begin_object()?;
    sheet.entries_member(entries)?;
    sheet.key("relations")?;
    put_relations(sheet, board.tables())?;
    sheet.key("queries")?;
    put_queries(alloc, sheet, board)?;
    sheet.end_object()
}

/// The board as JSON, without spaces and ends of lines: what its report tells, as data, the atoms of its queries in their parts,
/// and how many entries of a journal it is of, which the caller says. It has the report's time.
///
/// # Errors
/// `AllocError` where an allocation failed.
pub fn json<A: Allocator + Copy>(
    alloc: A,
    entries: u64,
    board: &Board<A>,
) -> Result<String<A>, AllocError>
    ensures { IfOk result (λ text. string_bytes text ≡ print (json_tokens (json_of entries board.now))) }
{
    let mut sheet = JsonText::begin(alloc);
    put_board(alloc, &mut sheet, entries, board)?;
    Ok(sheet.into_text())
}
