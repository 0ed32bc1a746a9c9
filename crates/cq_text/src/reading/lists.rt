//! Reads terms, atoms, rows and queries.

ghost use Rattle.std.specs.Prelude.{◌≡◌, ◌≤◌, [], Ok, IfOk, IsTrue, length};
ghost use Rattle.cq_atom.specs.Text.{is_relation_name};
ghost use Rattle.cq_atom.specs.Atom.{is_arity};
ghost use Rattle.cq_atom.specs.Query.{variables_of};
ghost use Rattle.cq_text.specs.Steps.Lists.{next_value_at, value_at, values_at, row_record, row_at, next_unbound_at, atom_record, next_term_at, term_at, terms_at, applied_at, atom_at, atoms_at, atoms_if_any_at, unbound_at, first_unbound_from, query_record, unbound_fault, bound_query, query_at};
ghost use Rattle.cq_text.specs.Steps.Lexemes.{Gives, Fails};
ghost use Rattle.cq_text.specs.Steps.Binding.{binds_both};
ghost use Rattle.cq_atom.specs.Limits.{max_atoms};

use crate::binding::{binds_both, is_unbound};
use crate::fault::{Kind, TextFault};
use crate::form::Form;
use crate::reading::Reader;
use crate::reading::lexemes::{is_finish, limit, shape, term_in, value_in, word_term, word_value};
use crate::token::{Close, Sign};
use cq_atom::{Atom, Bad, Query, Row, Term, Value, Variables};
use std::alloc::Allocator;

/// For how many values or atoms a list has room at first: most have no more, and no room is left empty for others.
const ROOM: usize = 2;

fn new_row<A: Allocator + Clone>(
    alloc: A,
    relation: &str,
    values: Vec<Value<A>, A>,
) -> Result<Row<A>, TextFault>
    requires name { IsTrue (is_relation_name relation.now) }
    requires arity { IsTrue (is_arity (length values.items)) }
    ensures { Gives (λ row. row) result (Ok (row_record relation.now values.items)) }
{
    match Row::new(alloc, relation, values) {
        Ok(row) => Ok(row),
        Err(Bad::NoMemory) => Err(TextFault::NoMemory),
        Err(_) => unreachable!(),
    }
}

fn new_atom<A: Allocator + Clone>(
    alloc: A,
    relation: &str,
    terms: Vec<Term<A>, A>,
) -> Result<Atom<A>, TextFault>
    requires name { IsTrue (is_relation_name relation.now) }
    requires arity { IsTrue (is_arity (length terms.items)) }
    ensures { Gives (λ atom. atom) result (Ok (atom_record relation.now terms.items)) }
{
    match Atom::new(alloc, relation, terms) {
        Ok(atom) => Ok(atom),
        Err(Bad::NoMemory) => Err(TextFault::NoMemory),
        Err(_) => unreachable!(),
    }
}

fn new_query<A: Allocator + Copy>(
    alloc: A,
    posts: Vec<Atom<A>, A>,
    heads: Vec<Atom<A>, A>,
    body: Vec<Atom<A>, A>,
    variables: Variables<A>,
) -> Result<Query<A>, TextFault>
    requires posts { length posts.items ≤ max_atoms }
    requires some { 1 ≤ length heads.items }
    requires heads { length heads.items ≤ max_atoms }
    requires body { length body.items ≤ max_atoms }
    requires bound { IsTrue (binds_both body.items posts.items heads.items) }
    requires variables { variables ≡ variables_of body.items }
    ensures { Gives (λ query. query) result (Ok (query_record posts.items heads.items body.items)) }
{
    Ok(Query::bound(alloc, posts, heads, body, variables)?)
}

impl<'a, A: Allocator + Copy> Reader<'a, A> {
    /// The term that the next lexeme is, and where it stands.
    #[tactic(auto, unfolding(crate::specs::Steps::Lists::next_term_at))]
    #[inline(never)]
    fn lexeme_term(&mut self) -> Result<(Term<A>, usize), TextFault>
        ensures { Gives (λ x. (x.0, x.1, self.new)) result (next_term_at self.old) }
    {
        let lexeme = self.next()?;
        let at = lexeme.at;
        Ok((term_in(self.alloc, lexeme)?, at))
    }

    /// A term, and where it stands. Most are words and numbers, for which no lexeme is made.
    #[tactic(auto, unfolding(crate::specs::Steps::Lists::next_term_at))]
    fn next_term(&mut self) -> Result<(Term<A>, usize), TextFault>
        ensures { Gives (λ x. (x.0, x.1, self.new)) result (next_term_at self.old) }
    {
        if let Some((word, at)) = self.next_word() {
            return Ok((word_term(self.alloc, &word, at)?, at));
        }
        if let Some((number, at)) = self.next_number() {
            return Ok((Term::constant(Value::num(number)), at));
        }
        self.lexeme_term()
    }

    /// A term, and whether more come.
    #[tactic(auto, unfolding(crate::specs::Steps::Lists::term_at, crate::specs::Steps::Lists::next_term_at))]
    fn term(&mut self, has_room: bool) -> Result<(Term<A>, bool), TextFault>
        ensures { Gives (λ x. (x.0, x.1, self.new)) result (term_at has_room self.old) }
    {
        let (term, at) = self.next_term()?;
        if !has_room {
            return Err(limit(at));
        }
        let has_more = self.goes_on(Close::By(Sign::CloseParen))?;
        Ok((term, has_more))
    }

    /// Room for terms, which is taken until it comes back.
    fn take_room(&mut self) -> Vec<Term<A>, A>
        ensures empty { result.items ≡ [] }
        ensures same { self.new ≡ self.old }
    {
        self.room.take(self.alloc)
    }

    /// The gathered terms in a block that is no larger than they are. Their room comes back.
    fn gathered(&mut self, room: Vec<Term<A>, A>) -> Result<Vec<Term<A>, A>, TextFault>
        ensures terms { Gives (λ terms. terms.items) result (Ok room.items) }
        ensures same { self.new ≡ self.old }
    {
        self.room.gathered(self.alloc, room)
    }

    /// Terms, and the bracket after them.
    fn terms(&mut self, form: Form) -> Result<Vec<Term<A>, A>, TextFault>
        ensures terms { Gives (λ v. (v.items, self.new)) result (terms_at form self.old) }
        ensures arity { IfOk result (λ v. IsTrue (is_arity (length v.items))) }
    {
        let mut terms = self.take_room();
        'terms: loop {
            let (term, has_more) = self.term(terms.len() < form.max_terms())?;
            terms.push(term)?;
            if !has_more {
                return self.gathered(terms);
            }
        }
    }

    /// The atom of a relation's name that was read.
    #[tactic(auto, unfolding(crate::specs::Steps::Lists::applied_at))]
    fn applied(&mut self, form: Form, relation: &str) -> Result<Atom<A>, TextFault>
        requires { IsTrue (is_relation_name relation.now) }
        ensures { Gives (λ atom. (atom, self.new)) result (applied_at form relation.now self.old) }
    {
        self.sign(Sign::OpenParen)?;
        let terms = self.terms(form)?;
        new_atom(self.alloc, relation, terms)
    }

    /// An atom, and whether more come.
    #[tactic(auto, unfolding(crate::specs::Steps::Lists::atom_at, crate::specs::Steps::Lexemes::relation_name_at))]
    fn atom(
        &mut self,
        form: Form,
        close: Close,
        has_room: bool,
    ) -> Result<(Atom<A>, bool), TextFault>
        ensures { Gives (λ x. (x.0, x.1, self.new)) result (atom_at form close has_room self.old) }
    {
        let (relation, at) = self.relation_name()?;
        if !has_room {
            return Err(limit(at));
        }
        let atom = self.applied(form, relation)?;
        let has_more = self.goes_on(close)?;
        Ok((atom, has_more))
    }

    /// Atoms, and what closes them.
    fn atoms(&mut self, form: Form, close: Close) -> Result<Vec<Atom<A>, A>, TextFault>
        ensures atoms { Gives (λ v. (v.items, self.new)) result (atoms_at form close self.old) }
        ensures some { IfOk result (λ v. 1 ≤ length v.items) }
        ensures few { IfOk result (λ v. length v.items ≤ max_atoms) }
    {
        let mut atoms = Vec::with_capacity(self.alloc, ROOM)?;
        'atoms: loop {
            let (atom, has_more) = self.atom(form, close, atoms.len() < form.max_atoms())?;
            atoms.push(atom)?;
            if !has_more {
                return Ok(atoms);
            }
        }
    }

    /// What closes, or atoms and what closes them.
    #[tactic(auto, unfolding(crate::specs::Steps::Lists::atoms_if_any_at, crate::specs::Steps::Lexemes::passes_at))]
    fn atoms_if_any(&mut self, form: Form, close: Close) -> Result<Vec<Atom<A>, A>, TextFault>
        ensures atoms { Gives (λ v. (v.items, self.new)) result (atoms_if_any_at form close self.old) }
        ensures few { IfOk result (λ v. length v.items ≤ max_atoms) }
    {
        if self.passes(close)? {
            return Ok(Vec::new(self.alloc));
        }
        self.atoms(form, close)
    }

    /// A constant of a ground atom, and where it stands.
    #[tactic(auto, unfolding(crate::specs::Steps::Lists::next_value_at))]
    fn next_value(&mut self) -> Result<(Value<A>, usize), TextFault>
        ensures { Gives (λ x. (x.0, x.1, self.new)) result (next_value_at self.old) }
    {
        if let Some((word, at)) = self.next_word() {
            return Ok((word_value(self.alloc, &word, at)?, at));
        }
        if let Some((number, at)) = self.next_number() {
            return Ok((Value::num(number), at));
        }
        let lexeme = self.next()?;
        let at = lexeme.at;
        Ok((value_in(self.alloc, lexeme)?, at))
    }

    /// A constant of a ground atom, and whether more come.
    #[tactic(auto, unfolding(crate::specs::Steps::Lists::value_at, crate::specs::Steps::Lists::next_value_at))]
    fn value(&mut self, has_room: bool) -> Result<(Value<A>, bool), TextFault>
        ensures { Gives (λ x. (x.0, x.1, self.new)) result (value_at has_room self.old) }
    {
        let (value, at) = self.next_value()?;
        if !has_room {
            return Err(limit(at));
        }
        let has_more = self.goes_on(Close::By(Sign::CloseParen))?;
        Ok((value, has_more))
    }

    /// The constants of a ground atom, and the bracket after them.
    fn values(&mut self, form: Form) -> Result<Vec<Value<A>, A>, TextFault>
        ensures values { Gives (λ v. (v.items, self.new)) result (values_at form self.old) }
        ensures arity { IfOk result (λ v. IsTrue (is_arity (length v.items))) }
    {
        let mut values = Vec::with_capacity(self.alloc, ROOM)?;
        'values: loop {
            let (value, has_more) = self.value(values.len() < form.max_terms())?;
            values.push(value)?;
            if !has_more {
                return Ok(values);
            }
        }
    }

    /// A ground atom, and the end.
    #[tactic(auto, unfolding(crate::specs::Steps::Lists::row_at, crate::specs::Steps::Lexemes::relation_name_at))]
    pub(crate) fn row(&mut self, form: Form) -> Result<Row<A>, TextFault>
        ensures { Gives (λ row. row) result (row_at form self.old) }
    {
        let (relation, _at) = self.relation_name()?;
        self.sign(Sign::OpenParen)?;
        let values = self.values(form)?;
        self.end()?;
        new_row(self.alloc, relation, values)
    }

    /// Whether the next token is an unbound variable, whether it is the end, and where it stands.
    #[tactic(auto, unfolding(crate::specs::Steps::Lists::next_unbound_at))]
    fn next_unbound(&mut self, body: &[Atom<A>]) -> Result<(bool, bool, usize), TextFault>
        ensures { Gives (λ x. (x.0, x.1, x.2, self.new)) result (next_unbound_at body.now self.old) }
    {
        let lexeme = self.next()?;
        Ok((
            is_unbound(body, &lexeme.token),
            is_finish(&lexeme.token),
            lexeme.at,
        ))
    }

    /// Where an unbound variable stands, if the next token is one.
    #[tactic(auto, unfolding(crate::specs::Steps::Lists::unbound_at, crate::specs::Steps::Lists::next_unbound_at))]
    fn unbound(&mut self, body: &[Atom<A>]) -> Result<Option<usize>, TextFault>
        ensures { Gives (λ found. (found, self.new)) result (unbound_at body.now self.old) }
    {
        let (is_unbound, is_finish, at) = self.next_unbound(body)?;
        if is_unbound {
            Ok(Some(at))
        } else if is_finish {
            Err(shape(at))
        } else {
            Ok(None)
        }
    }

    /// The offset of the first unbound variable, of lexemes that have one.
    fn first_unbound(&mut self, body: &[Atom<A>]) -> Result<usize, TextFault>
        ensures { Gives (λ at. at) result (first_unbound_from body.now self.old) }
    {
        'lexemes: loop {
            if let Some(at) = self.unbound(body)? {
                return Ok(at);
            }
        }
    }

    /// The fault of a query that has an unbound variable after this place.
    fn unbound_fault(&mut self, body: &[Atom<A>]) -> TextFault
        ensures { Fails result (unbound_fault body.now self.old) }
    {
        match self.first_unbound(body) {
            Ok(offset) => TextFault::At {
                kind: Kind::Unbound,
                offset,
            },
            Err(fault) => fault,
        }
    }

    /// The query whose atoms were read after this place. Where the body lacks a variable of the
    /// postconditions or heads, the first such one is at fault.
    fn bound_query(
        &mut self,
        posts: Vec<Atom<A>, A>,
        heads: Vec<Atom<A>, A>,
        body: Vec<Atom<A>, A>,
    ) -> Result<Query<A>, TextFault>
        requires posts { length posts.items ≤ max_atoms }
        requires some { 1 ≤ length heads.items }
        requires heads { length heads.items ≤ max_atoms }
        requires body { length body.items ≤ max_atoms }
        ensures { Gives (λ query. query) result (bound_query posts.items heads.items body.items self.old) }
    {
        let variables = Variables::of(self.alloc, &body)?;
        if binds_both(&variables, &posts, &heads) {
            new_query(self.alloc, posts, heads, body, variables)
        } else {
            Err(self.unbound_fault(&body))
        }
    }

    /// A query, up to the end.
    #[tactic(auto, unfolding(crate::specs::Steps::Lists::query_at))]
    pub(crate) fn query(&mut self, form: Form) -> Result<Query<A>, TextFault>
        ensures { Gives (λ query. query) result (query_at form self.old) }
    {
        self.sign(Sign::OpenBrace)?;
        let mut behind = self.again();
        let posts = self.atoms_if_any(form, Close::By(Sign::CloseBrace))?;
        let heads = self.atoms(form, Close::By(Sign::Arrow))?;
        let body = self.atoms_if_any(form, Close::End)?;
        behind.bound_query(posts, heads, body)
    }
}
