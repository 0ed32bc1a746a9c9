//! The four stores that a board keeps beside its rows.
//!
//! A query has one place in all of them: `grounded` picks it. What takes memory comes first, and what was done before a
//! failed allocation is taken back by calls that cannot fail.

ghost use Rattle.std.specs.Prelude.{◌≡◌, ◌<◌, ℕ, Bool, true, false, ◌+◌, ◌++◌, ◌∷◌, [], None, OnOk, OnErr, IfOk, List, length, count_by, filter, nat_eq, not};
ghost use Rattle.std.specs.FinMap as map;
ghost use Rattle.std.specs.List.{All, Any, Contains};
ghost use Rattle.std.specs.Option.{option_map};
ghost use Rattle.std.specs.Set.{is_member};
ghost use Rattle.cq_atom.specs.Atom.{RowRecord};
ghost use Rattle.cq_atom.specs.declared.edge.Edge.{Edge};
ghost use Rattle.cq_match.specs.Matched.{numbers, is_matched};
ghost use Rattle.cq_match.specs.Matcher.{has_node, without, with_number, is_apart};
ghost use Rattle.cq_roster.specs.Roster.{seat_of, place_named, is_taken_place};
ghost use Rattle.cq_grounded.specs.Grounded.{GroundedMap};
ghost use Rattle.cq_links.specs.Links.{ends_of, candidate_pairs};
ghost use Rattle.cq_atom.specs.declared.edit.EditKind.TheVariants.{Withdraw};
ghost use Rattle.cq_board.specs.Pool.{PendingQuery, PoolRecord};
ghost use Rattle.cq_board.specs.Edits.{edited, is_named, is_taken};
ghost use Rattle.cq_board.specs.Work.{candidates, lost, raised};
ghost use Rattle.cq_board.specs.Board.{is_able};
ghost use Rattle.cq_board.specs.Steps.Flags.{has_grounding};
ghost use Rattle.cq_board.specs.Steps.Stores.{no_stores, pending_of, AreStores, AddsLinks};

use crate::work::Work;
use cq_atom::{Edge, Meter, Name, Query};
use cq_grounded::GroundedQueries;
use cq_links::Links;
use cq_match::Matcher;
use cq_rel::Tables;
use cq_roster::Roster;
use std::alloc::{AllocError, Allocator};
use std::marker::Model;

/// What is kept of the pending queries.
#[derive(Drop)]
pub(crate) struct Stores<A: Allocator> {
    /// Their names in posting order, each with its place.
    pub(crate) roster: Roster<A>,
    /// At each place the query, with its groundings.
    pub(crate) grounded: GroundedQueries<A>,
    /// At each place the query's atoms, by which edges are found.
    pub(crate) links: Links<A>,
    /// The graph whose nodes are the places, and who is matched.
    pub(crate) matcher: Matcher<A>,
}

impl<A: Allocator> Model for Stores<A> {
    ghost use Rattle.std.specs.FinMap.{code};
    ghost use Rattle.std.specs.Coded.{codes};
    ghost use Rattle.cq_board.specs.Steps.Stores.{StoresRecord};

    ghost Value = { StoresRecord };

    ghost coded = { Prim.hlevel (codes, code) };

    ghost view = { λ s. record { seats = s.roster; grounded = s.grounded; links = s.links; matcher = s.matcher } };
}

/// Whether a query stands at the place that has a grounding.
pub(crate) fn has_grounding<A: Allocator + Copy>(
    grounded: &GroundedQueries<A>,
    place: usize,
) -> bool
    ensures { result ≡ has_grounding grounded.now place }
{
    match grounded.groundings(place) {
        Some(groundings) => groundings.count() > 0,
        None => false,
    }
}

/// Seats the name at the place and puts the node there with its edges, or does neither.
fn seat<A: Allocator + Copy>(
    roster: &mut Roster<A>,
    matcher: &mut Matcher<A>,
    name: &Name<A>,
    place: usize,
    posts: u8,
    able: bool,
    edges: &[Edge],
) -> Result<(), AllocError>
    requires absent { place_named name.now roster.old ≡ None }
    requires free { is_taken_place place roster.old ≡ false }
    requires no_node { has_node place matcher.old ≡ false }
    requires touch { All (λ edge. is_apart place edge ≡ false) edges.now }
    requires ends { All (λ edge. Contains (numbers ((place, posts, able) ∷ matcher.old.nodes)) edge.provider × Any (λ node. (node.0 ≡ edge.waiter) × (edge.post < node.1)) ((place, posts, able) ∷ matcher.old.nodes)) edges.now }
    ensures seated { OnOk result (roster.new ≡ roster.old ++ seat_of name.now place ∷ []) }
    ensures node { OnOk result (with_number place matcher.new.nodes ≡ (place, posts, able) ∷ []) }
    ensures others { OnOk result (without place matcher.new.nodes ≡ matcher.old.nodes) }
    ensures edges { OnOk result ((test : Edge → Bool) → count_by test matcher.new.edges ≡ count_by test matcher.old.edges + count_by test edges.now) }
    ensures matched { OnOk result ((n : ℕ) → is_member nat_eq matcher.new.matched n ≡ is_matched matcher.new.nodes matcher.new.edges n) }
    ensures err_roster { OnErr result (roster.new ≡ roster.old) }
    ensures err_matcher { OnErr result (matcher.new ≡ matcher.old) }
{
    roster.add(name, place)?;
    let added = matcher.add(place, posts, able, edges);
    if added.is_err() {
        roster.remove(name);
    }
    added
}

/// Puts the query's atoms in at the place, and seats it there with the edges that they make, or does neither.
fn link<A: Allocator + Copy>(
    links: &mut Links<A>,
    roster: &mut Roster<A>,
    matcher: &mut Matcher<A>,
    name: &Name<A>,
    query: &Query<A>,
    place: usize,
    able: bool,
    tests: &mut Meter,
) -> Result<(), AllocError>
    requires absent { place_named name.now roster.old ≡ None }
    requires stores { (rows : List RowRecord) × (grounded : GroundedMap) × AreStores (record { seats = roster.old; grounded = grounded; links = links.old; matcher = matcher.old }) rows × (map.get grounded place ≡ None) × (able ≡ is_able rows (record { name = name.now; query = query.now })) }
    ensures seated { OnOk result (roster.new ≡ roster.old ++ seat_of name.now place ∷ []) }
    ensures linked { OnOk result (links.new ≡ map.insert links.old place (ends_of query.now)) }
    ensures node { OnOk result (with_number place matcher.new.nodes ≡ (place, length query.now.posts, able) ∷ []) }
    ensures others { OnOk result (without place matcher.new.nodes ≡ matcher.old.nodes) }
    ensures edges { OnOk result (AddsLinks links.new place matcher.old.edges matcher.new.edges) }
    ensures matched { OnOk result ((n : ℕ) → is_member nat_eq matcher.new.matched n ≡ is_matched matcher.new.nodes matcher.new.edges n) }
    ensures err_roster { OnErr result (roster.new ≡ roster.old) }
    ensures err_links { OnErr result (links.new ≡ links.old) }
    ensures err_matcher { OnErr result (matcher.new ≡ matcher.old) }
    ensures ticks { OnOk result (tests.new ≡ raised tests.old (candidate_pairs links.old place (ends_of query.now))) }
{
    let edges = links.add(place, query, tests)?;
    let seated = seat(
        roster,
        matcher,
        name,
        place,
        query.posts().len() as u8,
        able,
        &edges,
    );
    if seated.is_err() {
        links.remove(place, query);
    }
    seated
}

/// Takes the atoms of the query at the place out. Takes no memory.
fn unlink<A: Allocator + Copy>(links: &mut Links<A>, grounded: &GroundedQueries<A>, place: usize)
    requires linked { map.get links.old place ≡ option_map (λ f. ends_of f.query) (map.get grounded.now place) }
    ensures { links.new ≡ map.remove links.old place }
{
    if let Some(query) = grounded.query(place) {
        links.remove(place, query);
    }
}

/// Names and a graph of equal content.
fn copy_seats<A: Allocator + Copy>(
    roster: &Roster<A>,
    matcher: &Matcher<A>,
) -> Result<(Roster<A>, Matcher<A>), AllocError>
    ensures { IfOk result (λ copy. (copy.0 ≡ roster.now) × (copy.1 ≡ matcher.now)) }
{
    let roster = roster.copy()?;
    let matcher = matcher.copy()?;
    Ok((roster, matcher))
}

/// Queries and atoms of equal content.
fn copy_queries<A: Allocator + Copy>(
    grounded: &GroundedQueries<A>,
    links: &Links<A>,
) -> Result<(GroundedQueries<A>, Links<A>), AllocError>
    ensures { IfOk result (λ copy. (copy.0 ≡ grounded.now) × (copy.1 ≡ links.now)) }
{
    let grounded = grounded.copy()?;
    let links = links.copy()?;
    Ok((grounded, links))
}

impl<A: Allocator + Copy> Stores<A> {
    /// Stores without queries.
    pub(crate) fn begin(alloc: A) -> Stores<A>
        ensures { result ≡ no_stores }
    {
        Stores {
            roster: Roster::begin(alloc),
            grounded: GroundedQueries::begin(alloc),
            links: Links::begin(alloc),
            matcher: Matcher::begin(alloc),
        }
    }

    /// Stores of equal content.
    pub(crate) fn copy(&self) -> Result<Stores<A>, AllocError>
        ensures { IfOk result (λ copy. copy ≡ self.now) }
    {
        let (roster, matcher) = copy_seats(&self.roster, &self.matcher)?;
        let (grounded, links) = copy_queries(&self.grounded, &self.links)?;
        Ok(Stores {
            roster,
            grounded,
            links,
            matcher,
        })
    }

    /// How many queries are pending.
    pub(crate) fn len(&self) -> usize
        ensures { result ≡ length (pending_of self.now) }
    {
        self.roster.len()
    }

    /// Whether a query is pending under the name.
    pub(crate) fn is_taken(&self, name: &Name<A>) -> bool
        ensures { result ≡ is_taken name.now (pending_of self.now) }
    {
        self.roster.place_of(name).is_some()
    }

    /// Puts the query in under the name, which no other has, with its groundings over the tables, or changes nothing.
    pub(crate) fn post(
        &mut self,
        tables: &Tables<A>,
        name: &Name<A>,
        query: &Query<A>,
        work: &mut Work,
    ) -> Result<(), AllocError>
        requires stores { AreStores self.old tables.now.rows }
        requires absent { is_taken name.now (pending_of self.old) ≡ false }
        ensures stores { OnOk result (AreStores self.new tables.now.rows) }
        ensures posted { let posted : PendingQuery = record { name = name.now; query = query.now } in OnOk result (pending_of self.new ≡ pending_of self.old ++ posted ∷ []) }
        ensures err { OnErr result (self.new ≡ self.old) }
        ensures tests { OnOk result (work.new.tests ≡ raised work.old.tests (candidates (pending_of self.old) query.now)) }
        ensures visits { OnOk result (work.new.visits ≡ raised work.old.visits 1) }
        ensures changes { work.new.changes ≡ work.old.changes }
    {
        let place = self.grounded.add(query, tables, &mut work.visits)?;
        let able = has_grounding(&self.grounded, place);
        let linked = link(
            &mut self.links,
            &mut self.roster,
            &mut self.matcher,
            name,
            query,
            place,
            able,
            &mut work.tests,
        );
        if linked.is_err() {
            self.grounded.remove(place);
        }
        linked
    }

    /// Takes the query of the name out, where there is one. Takes no memory.
    pub(crate) fn withdraw(&mut self, name: &Name<A>, changes: &mut Meter)
        requires { (rows : List RowRecord) × AreStores self.old rows }
        ensures stores { (rows : List RowRecord) → AreStores self.old rows → AreStores self.new rows }
        ensures left { (rows : List RowRecord) → AreStores self.old rows → pending_of self.new ≡ filter (λ other. not (is_named name.now other)) (pending_of self.old) }
        ensures changes { (pool : PoolRecord) → pending_of self.old ≡ pool.pending → AreStores self.old pool.tables.rows → changes.new ≡ raised changes.old (lost pool (edited pool (Withdraw name.now))) }
    {
        let _counted = changes.count();
        let Some(place) = self.roster.remove(name) else {
            return;
        };
        self.matcher.remove(place, changes);
        unlink(&mut self.links, &self.grounded, place);
        self.grounded.remove(place);
    }
}
