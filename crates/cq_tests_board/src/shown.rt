//! What a board shows, as words on a page.

use crate::page::Page;
use crate::samples::RELATIONS;
use cq_atom::{Edge, Name, Row, Value};
use cq_blocks::Iter;
use cq_board::{Board, Crowd, Link, NearMiss, Waiter};
use cq_match::{Fall, Reason};
use cq_text::print_query;
use std::alloc::{AllocError, Allocator};

/// What has a word for it.
pub trait Worded {
    /// Puts the word on the page.
    fn put(&self, page: &mut Page);
}

impl<'a, A: Allocator> Worded for &'a Name<A> {
    fn put(&self, page: &mut Page) {
        page.put(self.as_str());
    }
}

/// As `jerry.0>kramer.0`: provider and head, waiter and postcondition.
impl<'a, A: Allocator> Worded for Link<&'a Name<A>> {
    fn put(&self, page: &mut Page) {
        page.put(self.provider.as_str());
        put_dotted(".", self.head, page);
        page.put(">");
        page.put(self.waiter.as_str());
        put_dotted(".", self.post, page);
    }
}

/// The same by numbers.
impl Worded for Edge {
    fn put(&self, page: &mut Page) {
        page.put_number(self.provider as u64);
        put_dotted(".", self.head, page);
        page.put(">");
        page.put_number(self.waiter as u64);
        put_dotted(".", self.post, page);
    }
}

/// As `2>w.0`: how many providers, waiter and postcondition.
impl<'a, A: Allocator> Worded for Crowd<&'a Name<A>> {
    fn put(&self, page: &mut Page) {
        page.put_number(self.providers as u64);
        page.put(">");
        page.put(self.waiter.as_str());
        put_dotted(".", self.post, page);
    }
}

/// As `unable`, or `unmet.0` by the postcondition.
impl Worded for Reason {
    fn put(&self, page: &mut Page) {
        match self {
            Reason::NotAble => page.put("unable"),
            Reason::Unmet(post) => put_dotted("unmet.", *post, page),
        }
    }
}

/// As `0:unable`, by the query's number.
impl Worded for Fall {
    fn put(&self, page: &mut Page) {
        page.put_number(self.node as u64);
        page.put(":");
        self.reason.put(page);
    }
}

/// As `kramer:unable`.
impl<'a, A: Allocator> Worded for Waiter<&'a Name<A>> {
    fn put(&self, page: &mut Page) {
        page.put(self.name.as_str());
        page.put(":");
        self.reason.put(page);
    }
}

/// As `h1.0:2`: provider, head and differences.
impl<'a, A: Allocator> Worded for NearMiss<&'a Name<A>> {
    fn put(&self, page: &mut Page) {
        page.put(self.provider.as_str());
        put_dotted(".", self.head, page);
        page.put(":");
        page.put_number(self.differences as u64);
    }
}

/// As `1`, or `"1"` where it is a text.
impl<A: Allocator> Worded for Value<A> {
    fn put(&self, page: &mut Page) {
        put_signed(self.as_num(), page);
        put_quoted(self.as_text(), page);
    }
}

/// The number, where there is one.
fn put_signed(number: Option<i64>, page: &mut Page) {
    if let Some(number) = number {
        page.put(if number < 0 { "-" } else { "" });
        page.put_number(number.unsigned_abs());
    }
}

/// The text between quotes, where there is one.
fn put_quoted(text: Option<&str>, page: &mut Page) {
    if let Some(text) = text {
        page.put("\"");
        page.put(text);
        page.put("\"");
    }
}

/// The values of a grounding.
impl<A: Allocator> Worded for Vec<Value<A>, A> {
    fn put(&self, page: &mut Page) {
        put_each(self.as_slice(), page);
        page.put(";");
    }
}

/// The values of a row.
impl<A: Allocator> Worded for Row<A> {
    fn put(&self, page: &mut Page) {
        put_each(self.values(), page);
        page.put(";");
    }
}

fn put_dotted(mark: &str, number: u8, page: &mut Page) {
    page.put(mark);
    page.put_number(u64::from(number));
}

fn put_each<T: Worded>(items: &[T], page: &mut Page) {
    for item in items {
        page.space();
        item.put(page);
    }
}

fn put_all<T: Worded, A: Allocator>(items: Iter<'_, T, A>, page: &mut Page) {
    for item in items {
        page.space();
        item.put(page);
    }
}

/// Writes what a call reported.
fn put_told<T: Worded + Drop, A: Allocator>(
    told: Result<Vec<T, A>, AllocError>,
    page: &mut Page,
) -> Result<(), AllocError> {
    let items = told?;
    put_each(items.as_slice(), page);
    Ok(())
}

fn put_count(count: Option<usize>, page: &mut Page) {
    page.space();
    match count {
        Some(count) => page.put_number(count as u64),
        None => page.put("none"),
    }
}

fn put_counts<A: Allocator + Copy>(board: &Board<A>, page: &mut Page) {
    let limits = board.limits();
    put_count(Some(board.len()), page);
    put_count(Some(limits.pool), page);
    put_count(Some(limits.journal), page);
    put_count(board.tables().count("Flights"), page);
    put_count(board.tables().count("Airlines"), page);
}

fn put_name_at<A: Allocator + Copy>(board: &Board<A>, place: usize, page: &mut Page) {
    match board.name_at(place) {
        Some(name) => page.put(name.as_str()),
        None => page.put("none"),
    }
}

fn put_state(matched: bool, page: &mut Page) {
    page.put(if matched { "matched" } else { "unmatched" });
}

fn put_is_matched<A: Allocator + Copy>(board: &Board<A>, name: &Name<A>, page: &mut Page) {
    match board.is_matched(name) {
        Some(matched) => put_state(matched, page),
        None => page.put("none"),
    }
}

fn put_query<A: Allocator + Copy>(board: &Board<A>, name: &Name<A>, page: &mut Page) {
    let groundings = match board.groundings(name) {
        Some(found) => found.count(),
        None => 0,
    };
    let atoms = match board.query(name) {
        Some(query) => query.body().len(),
        None => 0,
    };
    put_is_matched(board, name, page);
    put_count(Some(groundings), page);
    put_count(Some(atoms), page);
}

fn put_waits<A: Allocator + Copy>(
    board: &Board<A>,
    name: &Name<A>,
    page: &mut Page,
) -> Result<(), AllocError> {
    match board.why_waiting(name) {
        Ok(Some(waits)) => put_told(Ok(waits), page),
        Ok(None) => {
            page.put("none");
            Ok(())
        }
        Err(refused) => Err(refused),
    }
}

/// What is asked of a board.
#[derive(Clone, Copy)]
enum Look<'t> {
    /// How many queries are pending, the limits, and how many rows `Flights` and `Airlines` have.
    Counts,
    Names,
    /// The name at that place; `none` where there is none.
    NameAt(usize),
    /// The edges by the numbers of the queries.
    Numbered,
    Edges,
    Matched,
    Crowded,
    Falls,
    /// Something about the query of that name.
    Of(&'t str, About),
}

/// What is asked about a query.
#[derive(Clone, Copy)]
enum About {
    /// Whether it is matched, how many groundings it has, and of how many atoms its body is.
    Itself,
    /// Why it waits; `none` where it does not.
    Waits,
    /// The heads that nearly supply that postcondition.
    Near(u8),
    /// Those that nearly supply the first two postconditions, by heads that are made once.
    BothNear,
}

/// The look of these words, which are as the variants of `Look` in small letters.
///
/// - `counts`, `names`, `numbered`, `edges`, `matched`, `crowded`, `falls`.
/// - `name 2`: the name at that place.
/// - `query kramer`, `waits kramer`, `near 1 kramer`, `nears kramer`: something about the query of that name, its postcondition 1.
fn look_of(words: &str) -> Option<Look<'_>> {
    match words {
        "counts" => Some(Look::Counts),
        "names" => Some(Look::Names),
        "numbered" => Some(Look::Numbered),
        "edges" => Some(Look::Edges),
        "matched" => Some(Look::Matched),
        "crowded" => Some(Look::Crowded),
        "falls" => Some(Look::Falls),
        _ => look_with(words),
    }
}

/// The same of words after the first of which something stands.
fn look_with(words: &str) -> Option<Look<'_>> {
    let (word, with) = words.split_once(' ')?;
    match word {
        "name" => Some(Look::NameAt(with.parse::<usize>().ok()?)),
        "query" => Some(Look::Of(with, About::Itself)),
        "waits" => Some(Look::Of(with, About::Waits)),
        "near" => near(with),
        "nears" => Some(Look::Of(with, About::BothNear)),
        _ => None,
    }
}

fn near(words: &str) -> Option<Look<'_>> {
    let (post, name) = words.split_once(' ')?;
    Some(Look::Of(name, About::Near(post.parse::<u8>().ok()?)))
}

fn put_both_near<A: Allocator + Copy>(
    board: &Board<A>,
    name: &Name<A>,
    page: &mut Page,
) -> Result<(), AllocError> {
    let heads = board.heads()?;
    put_told(heads.near_misses(name, 0), page)?;
    put_told(heads.near_misses(name, 1), page)
}

fn put_about<A: Allocator + Copy>(
    board: &Board<A>,
    name: &Name<A>,
    about: About,
    page: &mut Page,
) -> Result<(), AllocError> {
    match about {
        About::Itself => {
            put_query(board, name, page);
            Ok(())
        }
        About::Waits => put_waits(board, name, page),
        About::Near(post) => put_told(board.near_misses(name, post), page),
        About::BothNear => put_both_near(board, name, page),
    }
}

/// The same by the name's text; a text of no name counts as out of memory.
fn put_of<A: Allocator + Copy>(
    alloc: A,
    board: &Board<A>,
    text: &str,
    about: About,
    page: &mut Page,
) -> Result<(), AllocError> {
    match Name::new(alloc, text) {
        Ok(name) => {
            let told = put_about(board, &name, about, page);
            drop(name);
            told
        }
        Err(_) => Err(AllocError),
    }
}

/// Writes what the board answers.
fn put_look<A: Allocator + Copy>(
    alloc: A,
    board: &Board<A>,
    look: Look<'_>,
    page: &mut Page,
) -> Result<(), AllocError> {
    match look {
        Look::Counts => {
            put_counts(board, page);
            Ok(())
        }
        Look::Names => put_told(board.names(), page),
        Look::NameAt(place) => {
            put_name_at(board, place, page);
            Ok(())
        }
        Look::Numbered => put_told(board.edges_by_place(), page),
        Look::Edges => put_told(board.edges(), page),
        Look::Matched => put_told(board.matched(), page),
        Look::Crowded => put_told(board.crowded(), page),
        Look::Falls => put_told(board.falls(), page),
        Look::Of(name, about) => put_of(alloc, board, name, about, page),
    }
}

/// Whether the board answers to the look of the line, which stands before a colon, with the words after it. A look of none is
/// out of memory.
fn is_answer<A: Allocator + Copy>(
    alloc: A,
    board: &Board<A>,
    line: &str,
) -> Result<bool, AllocError> {
    let (words, wanted) = line.split_once(':').unwrap_or((line, ""));
    let Some(look) = look_of(words) else {
        return Err(AllocError);
    };
    let mut page = Page::new();
    put_look(alloc, board, look, &mut page)?;
    Ok(page.is(wanted.trim_start()))
}

/// The line of the first look that the board does not answer so.
pub fn other_look<'t, A: Allocator + Copy>(
    alloc: A,
    board: &Board<A>,
    looks: &'t str,
) -> Result<Option<&'t str>, AllocError> {
    for line in looks.lines() {
        if !is_answer(alloc, board, line)? {
            return Ok(Some(line));
        }
    }
    Ok(None)
}

/// Writes the matched names.
pub fn put_matched<A: Allocator + Copy>(
    board: &Board<A>,
    page: &mut Page,
) -> Result<(), AllocError> {
    put_told(board.matched(), page)
}

fn put_rows<A: Allocator + Copy>(board: &Board<A>, page: &mut Page) -> Result<(), AllocError> {
    for (relation, _) in RELATIONS {
        let Some(rows) = board.tables().rows_of(relation) else {
            return Err(AllocError);
        };
        page.space();
        page.put(relation);
        put_all(rows, page);
    }
    Ok(())
}

fn put_printed<A: Allocator>(
    printed: Result<String<A>, AllocError>,
    page: &mut Page,
) -> Result<(), AllocError> {
    let text = printed?;
    page.put(text.as_str());
    Ok(())
}

/// Writes the query, whether it is matched, and its groundings. A name of no query counts as out of memory.
fn put_pending<A: Allocator + Copy>(
    alloc: A,
    board: &Board<A>,
    name: &Name<A>,
    page: &mut Page,
) -> Result<(), AllocError> {
    let Some(view) = board.view(name) else {
        return Err(AllocError);
    };
    page.space();
    page.put(name.as_str());
    page.space();
    put_state(view.matched, page);
    put_all(view.groundings.list(), page);
    page.space();
    put_printed(print_query(alloc, view.query), page)
}

fn put_each_pending<A: Allocator + Copy>(
    alloc: A,
    board: &Board<A>,
    names: &[&Name<A>],
    page: &mut Page,
) -> Result<(), AllocError> {
    for name in names {
        put_pending(alloc, board, name, page)?;
    }
    Ok(())
}

fn put_all_pending<A: Allocator + Copy>(
    alloc: A,
    board: &Board<A>,
    page: &mut Page,
) -> Result<(), AllocError> {
    let names = board.names()?;
    put_each_pending(alloc, board, names.as_slice(), page)
}

fn put_board<A: Allocator + Copy>(
    alloc: A,
    board: &Board<A>,
    page: &mut Page,
) -> Result<(), AllocError> {
    put_rows(board, page)?;
    put_all_pending(alloc, board, page)?;
    page.put(" edges");
    put_told(board.edges(), page)?;
    page.put(" crowded");
    put_told(board.crowded(), page)?;
    page.put(" matched");
    put_told(board.matched(), page)
}

/// All rows, the queries in their order, each with its groundings and whether it is matched, the edges, the crowds and
/// the matched names.
pub fn page_of<A: Allocator + Copy>(alloc: A, board: &Board<A>) -> Result<Page, AllocError> {
    let mut page = Page::new();
    put_board(alloc, board, &mut page)?;
    Ok(page)
}
