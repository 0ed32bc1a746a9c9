//! Why the queries of a board wait, put on a page line by line.

ghost use Rattle.std.specs.Prelude.{◌≡◌, ◌<◌, ◌++◌, ℕ, List, codes, length, map, filter, string_bytes, true, false, [], Some, IfOk, OnOk};
ghost use Rattle.std.specs.HashMap.{get_by};
ghost use Rattle.std.specs.List.{All, flat_map};
ghost use Rattle.std.specs.Option.{option_copied};
ghost use Rattle.std.specs.Str.{bytes_eq};
ghost use Rattle.cq_match.specs.Falling.{IsUnmatched};
ghost use Rattle.cq_board.specs.Edges.{edges_of};
ghost use Rattle.cq_board.specs.Board.{nodes_of, place_of};
ghost use Rattle.cq_board.specs.Named.{matched_named};
ghost use Rattle.cq_board.specs.Near.{miss_read, post_named};
ghost use Rattle.cq_board.specs.Waiting.{is_waiting, IsReasonPart};
ghost use Rattle.cq_render.specs.Steps.Falls.{AreFalls};
ghost use Rattle.cq_render.specs.declared.extent.Extent.{Extent};
ghost use Rattle.cq_render.specs.declared.hints.Hints.{Hints};
ghost use Rattle.cq_render.specs.Explain.{ArePieces, AreProviders, IsExplanation, atom_or_none, head_named, name_of_number, near_words, miss_words, like_words, missing_words, wait_word, only_words, IsNear, IsUnmetTold, body_words, IsReasonTold, IsReasonLine, AreReasonLines, is_cause, is_told, IsIfTold, IsToldBy, IsTold, waiting_names, IsExplained, IsNearTold};
ghost use Rattle.cq_render.specs.Report.{line};

use crate::extent::Extent;
use crate::hints::Hints;
use crate::lacking::lack_words;
use crate::likes::{Like, nearest};
use crate::numbering::{Numbers, numbers_of};
use crate::walking::{Listing, name_or_none, providers, walk};
use cq_atom::{Atom, Bad, Edge, Name};
use cq_board::{Board, Heads, NearMiss};
use cq_match::{Fall, Parts, Reason};
use cq_text::print_atom;
use std::alloc::{AllocError, Allocator};

/// How a line tells of a query: what stands in front of its name, and between that and the reason, and what is told beside that.
#[derive(Clone, Copy)]
pub(crate) struct Layout {
    pub(crate) front: &'static str,
    pub(crate) separator: &'static str,
    pub(crate) hints: Hints,
}

/// The layout of a step below the query that rests on it.
const STEP: Layout = Layout {
    front: "  ",
    separator: ": ",
    hints: Hints::Misses,
};

/// What a board lists, the heads by relation and arity, the number of each name, and the parts of the falls of the queries that
/// wait.
#[derive(Drop)]
pub(crate) struct Fallen<'l, 'b, A: Allocator> {
    pub(crate) listing: &'l Listing<'b, A>,
    pub(crate) heads: &'l Heads<'b, A>,
    numbers: &'l Numbers<'b, A>,
    pub(crate) parts: &'l Parts<'l, A>,
    ghost offered: { heads.now ≡ listing.now.board.now },
    ghost numbered: { (name : List ℕ) → get_by (λ k. bytes_eq name k.now) numbers.now ≡ place_of name listing.now.board.now.pending },
    ghost linked: { parts.now.edges ≡ edges_of listing.now.board.now.pending },
}

/// What a board is looked at for once, before it is told why its queries wait: what it lists, the heads by relation and arity, all
/// falls, and the number of each name.
#[derive(Drop)]
pub(crate) struct Looked<'b, A: Allocator> {
    listing: Listing<'b, A>,
    heads: Heads<'b, A>,
    pub(crate) falls: Vec<Fall, A>,
    numbers: Numbers<'b, A>,
    ghost offered: { heads ≡ listing.board.now },
    ghost numbered: { (name : List ℕ) → get_by (λ k. bytes_eq name k.now) numbers ≡ place_of name listing.board.now.pending },
}

/// Looks at a board.
pub(crate) fn look<'b, A: Allocator + Copy>(
    alloc: A,
    board: &'b Board<A>,
) -> Result<Looked<'b, A>, AllocError>
    ensures listing { IfOk result (λ looked. looked.listing.board.now ≡ board.now) }
    ensures fell { IfOk result (λ looked. AreFalls looked.listing.board.now looked.falls.items) }
{
    let listing = walk(alloc, board)?;
    let heads = board.heads()?;
    let falls = board.falls()?;
    let numbers = numbers_of(alloc, &listing)?;
    Ok(Looked {
        listing,
        heads,
        falls,
        numbers,
    })
}

impl<'b, A: Allocator + Copy> Looked<'b, A> {
    /// The parts of the falls.
    pub(crate) fn parts<'l>(&'l self, alloc: A) -> Result<Parts<'l, A>, AllocError>
        requires { AreFalls self.now.listing.board.now self.now.falls.items }
        ensures edges { IfOk result (λ parts. parts.edges ≡ edges_of self.now.listing.board.now.pending) }
        ensures falls { IfOk result (λ parts. parts.falls ≡ self.now.falls.items) }
    {
        Parts::begin(alloc, &self.listing.edges, &self.falls)
    }
}

/// What was looked at, with the parts of the falls.
pub(crate) fn fallen_of<'l, 'b, A: Allocator>(
    looked: &'l Looked<'b, A>,
    parts: &'l Parts<'l, A>,
) -> Fallen<'l, 'b, A>
    requires { parts.now.edges ≡ edges_of looked.now.listing.board.now.pending }
    ensures board { result.listing.now.board.now ≡ looked.now.listing.board.now }
    ensures parts { result.parts.now ≡ parts.now }
{
    Fallen {
        listing: &looked.listing,
        heads: &looked.heads,
        numbers: &looked.numbers,
        parts,
    }
}

/// The atom in its printed form; nothing where there is none.
fn atom_words<A: Allocator + Copy>(
    alloc: A,
    atom: Option<&Atom<A>>,
) -> Result<String<A>, AllocError>
    ensures { IfOk result (λ text. string_bytes text ≡ atom_or_none (option_copied atom.entry)) }
{
    match atom {
        Some(atom) => print_atom(alloc, atom),
        None => Ok(String::new(alloc)),
    }
}

/// The head of the pending query of that name, counted from 0.
pub(crate) fn head_of<'a, A: Allocator + Copy>(
    board: &'a Board<A>,
    name: &Name<A>,
    head: u8,
) -> Option<&'a Atom<A>>
    ensures { option_copied result ≡ head_named name.now head board.now.pending }
{
    let query = board.query(name)?;
    query.heads().get(usize::from(head))
}

/// The postcondition of the pending query of that name, counted from 0.
pub(crate) fn post_of<'a, A: Allocator + Copy>(
    board: &'a Board<A>,
    name: &Name<A>,
    post: u8,
) -> Option<&'a Atom<A>>
    ensures { option_copied result ≡ post_named name.now post board.now.pending }
{
    let query = board.query(name)?;
    query.posts().get(usize::from(post))
}

/// A head of the pending query of that name, counted from 0.
fn near_words<A: Allocator + Copy>(
    alloc: A,
    board: &Board<A>,
    provider: &Name<A>,
    head: u8,
) -> Result<String<A>, AllocError>
    ensures { IfOk result (λ text. string_bytes text ≡ near_words board.now.pending provider.now head) }
{
    let atom = atom_words(alloc, head_of(board, provider, head))?;
    let name = provider.as_str();
    let atom = atom.as_str();
    format!(in alloc; "{name} head {head} {atom}")
}

/// Puts a head in a line.
fn put_near<A: Allocator + Copy>(
    alloc: A,
    board: &Board<A>,
    near: &NearMiss<&Name<A>>,
    page: &mut String<A>,
) -> Result<(), AllocError>
    ensures { OnOk result (string_bytes page.new ≡ string_bytes page.old ++ line (miss_words board.now.pending (miss_read (λ name. name.now) near.now))) }
{
    let words = near_words(alloc, board, near.provider, near.head)?;
    page.push_str(words.as_str())?;
    page.push('\n')
}

/// Puts each of these heads in a line.
fn put_nears<A: Allocator + Copy>(
    alloc: A,
    board: &Board<A>,
    near: &[NearMiss<&Name<A>>],
    page: &mut String<A>,
) -> Result<(), AllocError>
    ensures { OnOk result (string_bytes page.new ≡ string_bytes page.old ++ flat_map (λ near. line (miss_words board.now.pending near)) (map (miss_read (λ name. name.now)) near.now)) }
{
    for miss in near {
        put_near(alloc, board, miss, page)?;
    }
    Ok(())
}

/// The words of each of these heads.
fn each_miss<A: Allocator + Copy>(
    alloc: A,
    board: &Board<A>,
    near: &[NearMiss<&Name<A>>],
) -> Result<Vec<String<A>, A>, AllocError>
    ensures { IfOk result (λ words. map string_bytes words.items ≡ map (miss_words board.now.pending) (map (miss_read (λ name. name.now)) near.now)) }
{
    let mut words = Vec::new(alloc);
    for miss in near {
        words.push(near_words(alloc, board, miss.provider, miss.head)?)?;
    }
    Ok(words)
}

/// The words of a head that is like a postcondition.
fn like_words<A: Allocator + Copy>(
    alloc: A,
    listing: &Listing<'_, A>,
    like: Like,
) -> Result<String<A>, AllocError>
    requires { like.1 < length listing.now.queries.items }
    ensures { IfOk result (λ text. string_bytes text ≡ like_words listing.now.board.now.pending like) }
{
    let (_, number, head) = like;
    near_words(alloc, listing.board, listing.queries[number].name, head)
}

/// The words of each of these heads.
fn each_like<A: Allocator + Copy>(
    alloc: A,
    listing: &Listing<'_, A>,
    likes: &[Like],
) -> Result<Vec<String<A>, A>, AllocError>
    requires { All (λ like. like.1 < length listing.now.queries.items) likes.now }
    ensures { IfOk result (λ words. map string_bytes words.items ≡ map (like_words listing.now.board.now.pending) likes.now) }
{
    let mut words = Vec::new(alloc);
    for like in likes {
        words.push(like_words(alloc, listing, *like)?)?;
    }
    Ok(words)
}

/// The heads that are told to be near to a postcondition of the query of that name and number.
fn near_heads<A: Allocator + Copy>(
    alloc: A,
    fallen: &Fallen<'_, '_, A>,
    hints: Hints,
    name: &Name<A>,
    waiter: usize,
    post: u8,
) -> Result<Vec<String<A>, A>, AllocError>
    ensures { IfOk result (λ words. IsNear hints fallen.now.listing.now.board.now.pending name.now waiter post (map string_bytes words.items)) }
{
    match hints {
        Hints::Misses => {
            let near = fallen.heads.near_misses(name, post)?;
            each_miss(alloc, fallen.listing.board, &near)
        }
        Hints::Likes => {
            let likes = nearest(alloc, fallen.listing, name, waiter, post)?;
            each_like(alloc, fallen.listing, &likes)
        }
    }
}

fn missing_words<A: Allocator + Copy>(alloc: A, near: &[String<A>]) -> Result<String<A>, AllocError>
    ensures { IfOk result (λ text. string_bytes text ≡ missing_words (map string_bytes near.now)) }
{
    if near.is_empty() {
        return String::from_str(alloc, "no provider");
    }
    let joined = near.join(alloc, ", ")?;
    let joined = joined.as_str();
    format!(in alloc; "no provider; near: {joined}")
}

/// What is reported about a postcondition that has no provider.
fn missing<A: Allocator + Copy>(
    alloc: A,
    fallen: &Fallen<'_, '_, A>,
    hints: Hints,
    name: &Name<A>,
    waiter: usize,
    post: u8,
) -> Result<String<A>, AllocError>
    ensures { IfOk result (λ text. IsUnmetTold hints fallen.now.listing.now.board.now.pending name.now waiter post [] (string_bytes text)) }
{
    let near = near_heads(alloc, fallen, hints, name, waiter, post)?;
    missing_words(alloc, &near)
}

/// The numbers of the queries from which the edges come.
fn senders<A: Allocator>(alloc: A, edges: &[Edge]) -> Result<Vec<usize, A>, AllocError>
    ensures { IfOk result (λ senders. senders.items ≡ map (λ edge. edge.provider) edges.now) }
{
    let mut senders = Vec::with_capacity(alloc, edges.len())?;
    for edge in edges {
        senders.push(edge.provider)?;
    }
    Ok(senders)
}

/// The numbers of the providers of a postcondition, each once.
pub(crate) fn providers_of<A: Allocator + Copy>(
    alloc: A,
    fallen: &Fallen<'_, '_, A>,
    waiter: usize,
    post: u8,
) -> Result<Vec<usize, A>, AllocError>
    ensures { IfOk result (λ numbers. AreProviders fallen.now.listing.now.board.now.pending waiter post numbers.items) }
{
    let mut providers = senders(alloc, providers(fallen.listing, waiter, usize::from(post)))?;
    providers.sort_unstable();
    providers.dedup();
    Ok(providers)
}

/// The names of the queries of these numbers.
pub(crate) fn names_of<'a, A: Allocator>(
    alloc: A,
    listing: &Listing<'a, A>,
    numbers: &[usize],
) -> Result<Vec<&'a str, A>, AllocError>
    ensures { IfOk result (λ names. map (λ name. name.now) names.items ≡ map (name_of_number listing.now.board.now.pending) numbers.now) }
{
    let mut names = Vec::new(alloc);
    for number in numbers {
        names.push(name_or_none(listing, *number))?;
    }
    Ok(names)
}

fn wait_word(count: usize) -> &'static str
    ensures { result.now ≡ wait_word count }
{
    if count == 1 { "waits" } else { "wait" }
}

fn only_words<A: Allocator + Copy>(alloc: A, names: &[&str]) -> Result<String<A>, AllocError>
    ensures { IfOk result (λ text. string_bytes text ≡ only_words (map (λ name. name.now) names.now)) }
{
    let joined = names.join(alloc, ", ")?;
    let joined = joined.as_str();
    let wait = wait_word(names.len());
    format!(in alloc; "only {joined}, who {wait}")
}

/// What is reported about an unmet postcondition, by its providers.
fn unmet<A: Allocator + Copy>(
    alloc: A,
    fallen: &Fallen<'_, '_, A>,
    hints: Hints,
    name: &Name<A>,
    waiter: usize,
    post: u8,
    providers: &[&str],
) -> Result<String<A>, AllocError>
    ensures { IfOk result (λ text. IsUnmetTold hints fallen.now.listing.now.board.now.pending name.now waiter post (map (λ name. name.now) providers.now) (string_bytes text)) }
{
    if providers.is_empty() {
        missing(alloc, fallen, hints, name, waiter, post)
    } else {
        only_words(alloc, providers)
    }
}

/// What is reported about an unmet postcondition, whose providers have these numbers.
fn unmet_words<A: Allocator + Copy>(
    alloc: A,
    fallen: &Fallen<'_, '_, A>,
    hints: Hints,
    name: &Name<A>,
    waiter: usize,
    post: u8,
    providers: &[usize],
) -> Result<String<A>, AllocError>
    ensures { IfOk result (λ text. IsUnmetTold hints fallen.now.listing.now.board.now.pending name.now waiter post (map (name_of_number fallen.now.listing.now.board.now.pending) providers.now) (string_bytes text)) }
{
    let names = names_of(alloc, fallen.listing, providers)?;
    unmet(alloc, fallen, hints, name, waiter, post, &names)
}

fn post_reason<A: Allocator + Copy>(
    alloc: A,
    fallen: &Fallen<'_, '_, A>,
    hints: Hints,
    name: &Name<A>,
    waiter: usize,
    post: u8,
) -> Result<String<A>, AllocError>
    ensures { IfOk result (λ text. IsReasonTold hints fallen.now.listing.now.board.now name.now waiter (Reason.Unmet post) (string_bytes text)) }
{
    let providers = providers_of(alloc, fallen, waiter, post)?;
    let atom = atom_words(alloc, post_of(fallen.listing.board, name, post))?;
    let unmet = unmet_words(alloc, fallen, hints, name, waiter, post, &providers)?;
    let atom = atom.as_str();
    let unmet = unmet.as_str();
    format!(in alloc; "post {post} {atom}: {unmet}")
}

/// What is told of a body that has no grounding.
fn body_words<A: Allocator + Copy>(
    alloc: A,
    fallen: &Fallen<'_, '_, A>,
    hints: Hints,
    number: usize,
) -> Result<String<A>, AllocError>
    requires { number < length fallen.now.listing.now.queries.items }
    ensures { IfOk result (λ text. string_bytes text ≡ body_words hints fallen.now.listing.now.board.now number) }
{
    match hints {
        Hints::Misses => Ok(String::new(alloc)),
        Hints::Likes => lack_words(alloc, fallen.listing, number),
    }
}

/// That there is no row for the body of the query of that number.
fn body_reason<A: Allocator + Copy>(
    alloc: A,
    fallen: &Fallen<'_, '_, A>,
    hints: Hints,
    number: usize,
) -> Result<String<A>, AllocError>
    requires { number < length fallen.now.listing.now.queries.items }
    ensures { IfOk result (λ text. string_bytes text ≡ codes "no row for its body" ++ body_words hints fallen.now.listing.now.board.now number) }
{
    let lack = body_words(alloc, fallen, hints, number)?;
    let lack = lack.as_str();
    format!(in alloc; "no row for its body{lack}")
}

/// The reason for which the query of that name falls.
fn reason_words<A: Allocator + Copy>(
    alloc: A,
    fallen: &Fallen<'_, '_, A>,
    hints: Hints,
    name: &Name<A>,
    fall: &Fall,
) -> Result<String<A>, AllocError>
    requires { fall.now.node < length fallen.now.listing.now.queries.items }
    ensures { IfOk result (λ text. IsReasonTold hints fallen.now.listing.now.board.now name.now fall.now.node fall.now.reason (string_bytes text)) }
{
    match fall.reason {
        Reason::NotAble => body_reason(alloc, fallen, hints, fall.node),
        Reason::Unmet(post) => post_reason(alloc, fallen, hints, name, fall.node, post),
    }
}

/// A query, and why it waits, in a line.
fn reason_line<A: Allocator + Copy>(
    alloc: A,
    fallen: &Fallen<'_, '_, A>,
    layout: Layout,
    fall: &Fall,
) -> Result<String<A>, AllocError>
    requires { fall.now.node < length fallen.now.listing.now.queries.items }
    ensures { IfOk result (λ text. IsReasonLine layout.front.now layout.separator.now layout.hints fallen.now.listing.now.board.now fall.now (string_bytes text)) }
{
    let name = fallen.listing.queries[fall.node].name;
    let reason = reason_words(alloc, fallen, layout.hints, name, fall)?;
    let front = layout.front;
    let name = name.as_str();
    let separator = layout.separator;
    let reason = reason.as_str();
    format!(in alloc; "{front}{name}{separator}{reason}\n")
}

/// Whether the reason rests on no other query.
fn is_cause<A: Allocator>(fallen: &Fallen<'_, '_, A>, fall: &Fall) -> bool
    ensures { result ≡ is_cause fallen.now.listing.now.board.now.pending fall.now.node fall.now.reason }
{
    match fall.reason {
        Reason::NotAble => true,
        Reason::Unmet(post) => providers(fallen.listing, fall.node, usize::from(post)).is_empty(),
    }
}

/// Whether the reason is told.
fn is_told<A: Allocator>(fallen: &Fallen<'_, '_, A>, extent: Extent, fall: &Fall) -> bool
    ensures { result ≡ is_told extent fallen.now.listing.now.board.now.pending fall.now }
{
    match extent {
        Extent::All => true,
        Extent::Causes => is_cause(fallen, fall),
    }
}

/// The line of a query, where its reason is told.
fn told_line<A: Allocator + Copy>(
    alloc: A,
    fallen: &Fallen<'_, '_, A>,
    extent: Extent,
    layout: Layout,
    fall: &Fall,
) -> Result<String<A>, AllocError>
    requires { fall.now.node < length fallen.now.listing.now.queries.items }
    ensures { IfOk result (λ text. IsIfTold (is_told extent fallen.now.listing.now.board.now.pending fall.now) (IsReasonLine layout.front.now layout.separator.now layout.hints fallen.now.listing.now.board.now fall.now) (string_bytes text)) }
{
    if is_told(fallen, extent, fall) {
        reason_line(alloc, fallen, layout, fall)
    } else {
        Ok(String::new(alloc))
    }
}

/// Puts a line for each of the falls that are told on an empty page.
pub(crate) fn put_lines<A: Allocator + Copy>(
    alloc: A,
    fallen: &Fallen<'_, '_, A>,
    extent: Extent,
    layout: Layout,
    falls: &[Fall],
    page: &mut String<A>,
) -> Result<(), AllocError>
    requires { All (λ fall. fall.node < length fallen.now.listing.now.queries.items) falls.now }
    ensures { string_bytes page.old ≡ [] → OnOk result (AreReasonLines layout.front.now layout.separator.now layout.hints extent fallen.now.listing.now.board.now falls.now (string_bytes page.new)) }
{
    for fall in falls {
        let line = told_line(alloc, fallen, extent, layout, fall)?;
        page.push_str(line.as_str())?;
    }
    Ok(())
}

/// The part of the falls that tells why the query of that number waits.
pub(crate) fn part_of<A: Allocator + Copy>(
    fallen: &Fallen<'_, '_, A>,
    number: usize,
) -> Result<Vec<Fall, A>, AllocError>
    requires fell { AreFalls fallen.now.listing.now.board.now fallen.now.parts.now.falls }
    requires waits { IsUnmatched (nodes_of fallen.now.listing.now.board.now) (edges_of fallen.now.listing.now.board.now.pending) number }
    ensures low { IfOk result (λ part. All (λ fall. fall.node < length fallen.now.listing.now.queries.items) part.items) }
    ensures part { IfOk result (λ part. IsReasonPart fallen.now.listing.now.board.now number part.items) }
{
    fallen.parts.part(number)
}

/// Why the query of that name and number waits.
fn waiting_words<A: Allocator + Copy>(
    alloc: A,
    fallen: &Fallen<'_, '_, A>,
    extent: Extent,
    name: &Name<A>,
    number: usize,
) -> Result<String<A>, AllocError>
    requires fell { AreFalls fallen.now.listing.now.board.now fallen.now.parts.now.falls }
    requires there { place_of name.now fallen.now.listing.now.board.now.pending ≡ Some number }
    requires waits { is_waiting name.now fallen.now.listing.now.board.now ≡ true }
    ensures { IfOk result (λ text. IsExplanation extent fallen.now.listing.now.board.now name.now (string_bytes text)) }
{
    let part = part_of(fallen, number)?;
    let mut steps = String::new(alloc);
    put_lines(alloc, fallen, extent, STEP, &part, &mut steps)?;
    let name = name.as_str();
    let steps = steps.as_str();
    format!(in alloc; "{name} waits\n{steps}")
}

pub(crate) fn is_waiting<A: Allocator + Copy>(board: &Board<A>, name: &Name<A>) -> bool
    ensures { result ≡ is_waiting name.now board.now }
{
    match board.is_matched(name) {
        Some(matched) => !matched,
        None => false,
    }
}

/// What is reported about a name under which no query waits.
fn settled_words<A: Allocator + Copy>(
    alloc: A,
    board: &Board<A>,
    name: &Name<A>,
) -> Result<String<A>, AllocError>
    ensures { (extent : Extent) → is_waiting name.now board.now ≡ false → IfOk result (λ text. IsToldBy (matched_named name.now board.now) extent board.now name.now (string_bytes text)) }
{
    if board.is_matched(name).is_none() {
        return Ok(String::new(alloc));
    }
    let name = name.as_str();
    format!(in alloc; "{name} is matched\n")
}

/// The number of the query of that name.
pub(crate) fn number_of<A: Allocator>(fallen: &Fallen<'_, '_, A>, wanted: &Name<A>) -> Option<usize>
    ensures { result ≡ place_of wanted.now fallen.now.listing.now.board.now.pending }
{
    fallen.numbers.get(wanted.as_str()).copied()
}

fn told_of_name<A: Allocator + Copy>(
    alloc: A,
    fallen: &Fallen<'_, '_, A>,
    extent: Extent,
    name: &Name<A>,
) -> Result<String<A>, AllocError>
    requires fell { AreFalls fallen.now.listing.now.board.now fallen.now.parts.now.falls }
    ensures { IfOk result (λ text. IsToldBy (matched_named name.now fallen.now.listing.now.board.now) extent fallen.now.listing.now.board.now name.now (string_bytes text)) }
{
    if !is_waiting(fallen.listing.board, name) {
        return settled_words(alloc, fallen.listing.board, name);
    }
    match number_of(fallen, name) {
        Some(number) => waiting_words(alloc, fallen, extent, name, number),
        None => unreachable!(),
    }
}

fn told<A: Allocator + Copy>(
    alloc: A,
    fallen: &Fallen<'_, '_, A>,
    extent: Extent,
    word: &str,
) -> Result<String<A>, AllocError>
    requires fell { AreFalls fallen.now.listing.now.board.now fallen.now.parts.now.falls }
    ensures { IfOk result (λ text. IsTold extent fallen.now.listing.now.board.now word.now (string_bytes text)) }
{
    match Name::new(alloc, word) {
        Ok(name) => told_of_name(alloc, fallen, extent, &name),
        Err(Bad::NoMemory) => Err(AllocError),
        Err(_) => Ok(String::new(alloc)),
    }
}

/// Puts what is reported about each of the words on an empty page.
fn put_told<A: Allocator + Copy>(
    alloc: A,
    fallen: &Fallen<'_, '_, A>,
    extent: Extent,
    words: &[&str],
    page: &mut String<A>,
) -> Result<(), AllocError>
    requires fell { AreFalls fallen.now.listing.now.board.now fallen.now.parts.now.falls }
    ensures { string_bytes page.old ≡ [] → OnOk result (ArePieces (IsTold extent fallen.now.listing.now.board.now) (map (λ word. word.now) words.now) (string_bytes page.new)) }
{
    for word in words {
        let text = told(alloc, fallen, extent, word)?;
        page.push_str(text.as_str())?;
    }
    Ok(())
}

/// Puts what is reported about each of the words on an empty page.
fn put_words<A: Allocator + Copy>(
    alloc: A,
    board: &Board<A>,
    extent: Extent,
    words: &[&str],
    page: &mut String<A>,
) -> Result<(), AllocError>
    ensures { string_bytes page.old ≡ [] → OnOk result (ArePieces (IsTold extent board.now) (map (λ word. word.now) words.now) (string_bytes page.new)) }
{
    let looked = look(alloc, board)?;
    let parts = looked.parts(alloc)?;
    put_told(alloc, &fallen_of(&looked, &parts), extent, words, page)
}

/// Those of the names under which queries wait.
pub(crate) fn waiting<'a, A: Allocator + Copy>(
    alloc: A,
    board: &Board<A>,
    names: &[&'a Name<A>],
) -> Result<Vec<&'a Name<A>, A>, AllocError>
    ensures { IfOk result (λ waiting. map (λ name. name.now) waiting.items ≡ filter (λ name. is_waiting name board.now) (map (λ name. name.now) names.now)) }
{
    let mut waiting = Vec::new(alloc);
    for name in names {
        if is_waiting(board, name) {
            waiting.push(*name)?;
        }
    }
    Ok(waiting)
}

/// The names as words.
fn words_of<'a, A: Allocator>(
    alloc: A,
    names: &[&'a Name<A>],
) -> Result<Vec<&'a str, A>, AllocError>
    ensures { IfOk result (λ words. map (λ word. word.now) words.items ≡ map (λ name. name.now) names.now) }
{
    let mut words = Vec::with_capacity(alloc, names.len())?;
    for name in names {
        words.push(name.as_str())?;
    }
    Ok(words)
}

/// Why the queries of these names wait.
fn explain_each<A: Allocator + Copy>(
    alloc: A,
    board: &Board<A>,
    extent: Extent,
    names: &[&Name<A>],
) -> Result<String<A>, AllocError>
    ensures { IfOk result (λ text. ArePieces (IsTold extent board.now) (map (λ name. name.now) names.now) (string_bytes text)) }
{
    let words = words_of(alloc, names)?;
    explain_named(alloc, board, extent, &words)
}

/// Why queries of a board wait, told of each of the words in their order. Of a name under which a query waits it is a line
/// `NAME waits`, and below it a line for each query on which that one rests, itself last, with its reason, or for those alone that have a cause; of a
/// name under which a query is matched a line that says so; nothing of any other word. All queries fall once, in the time of [`Board::falls`]; then
/// each line has the time of its providers, up to sorting, and where there is none, that of [`Heads::near_misses`].
///
/// # Errors
/// `AllocError` where an allocation failed.
pub fn explain_named<A: Allocator + Copy>(
    alloc: A,
    board: &Board<A>,
    extent: Extent,
    words: &[&str],
) -> Result<String<A>, AllocError>
    ensures { IfOk result (λ text. ArePieces (IsTold extent board.now) (map (λ word. word.now) words.now) (string_bytes text)) }
{
    let mut page = String::new(alloc);
    put_words(alloc, board, extent, words, &mut page)?;
    Ok(page)
}

/// The same of all queries of the board that wait, in posting order.
///
/// # Errors
/// `AllocError` where an allocation failed.
pub fn explain<A: Allocator + Copy>(
    alloc: A,
    board: &Board<A>,
    extent: Extent,
) -> Result<String<A>, AllocError>
    ensures { IfOk result (λ text. ArePieces (IsTold extent board.now) (waiting_names board.now) (string_bytes text)) }
{
    let names = board.names()?;
    let waiting = waiting(alloc, board, &names)?;
    explain_each(alloc, board, extent, &waiting)
}

/// Why the queries of these names wait; where there is no name, all that wait.
///
/// # Errors
/// `AllocError` where an allocation failed.
pub fn explain_these<A: Allocator + Copy>(
    alloc: A,
    board: &Board<A>,
    extent: Extent,
    names: &[&str],
) -> Result<String<A>, AllocError>
    ensures { IfOk result (λ text. IsExplained extent board.now (map (λ name. name.now) names.now) (string_bytes text)) }
{
    if names.is_empty() {
        explain(alloc, board, extent)
    } else {
        explain_named(alloc, board, extent, names)
    }
}

/// The heads that are nearest to a postcondition of the query of that name, counted from 0, as [`Board::near_misses`] tells them:
/// each in a line, nothing where there is no such postcondition.
///
/// # Errors
/// `AllocError` where an allocation failed.
pub fn near<A: Allocator + Copy>(
    alloc: A,
    board: &Board<A>,
    name: &Name<A>,
    post: u8,
) -> Result<String<A>, AllocError>
    ensures { IfOk result (λ text. IsNearTold board.now.pending name.now post (string_bytes text)) }
{
    let near = board.near_misses(name, post)?;
    let mut page = String::new(alloc);
    put_nears(alloc, board, &near, &mut page)?;
    Ok(page)
}
