//! Texts that are written of the boards which scripts leave: each once, and with each of its allocations refused in turn.

use cq_board::{Board, Limits};
use cq_devices::{Counted, Stop};
use cq_going::boxed_graph;
use cq_refusing::{Outcome, Tried, refusals};
use cq_rel::Catalog;
use cq_render::{
    Drawn, Extent, explain, explain_named, explain_once, graph, json, kept_with, report,
};
use cq_report::{Played, read_script};
use cq_why::put_whys;
use std::alloc::{AllocError, Allocator};

/// What is written of a board.
#[derive(Clone, Copy)]
enum View {
    Report,
    Graph,
    Json,
    /// Why each query waits that does.
    Explained,
    /// What is reported about the third query, of a word that names none, and of the first.
    Named,
    /// Which queries wait for a cause of their own.
    Causes,
    /// The graph of the first query and those on which it hangs, in boxes.
    Boxed,
}

/// A script, and what is so written of the board that it leaves.
type Text = (&'static [u8], View, &'static str);

/// One query, which supplies one of its postconditions, and nobody the other.
const SUPPLIED: &[u8] = b"relation T 1\ninsert T(1)\npost a {S(2), R(x)} S(x) <- T(x)\npublish\n";

/// The first query finds no row, the second waits for it, and the third has a slip of the pen.
const WAITING: &[u8] =
    b"relation T 1\npost a {} S(1) <- T(x)\npost b {S(1)} R(2) <-\npost c {R(3)} Q(1) <-\npublish\n";

/// The first query finds no row, the second waits for it, the third has a slip of the pen in a name, and the fourth finds a row for each of its atoms, but none for both.
const LACKING: &[u8] =
    b"relation T 1\nrelation U 1\ninsert T(21)\ninsert U(22)\npost a {} S(1) <- T(20)\npost b {S(1)} Red(2) <-\npost c {Rad(3)} Q(1) <-\npost d {} P(x) <- T(x), U(x)\npublish\n";

/// The second query supplies the first, and the third nobody.
const HANGING: &[u8] = b"post a {S(1)} Q(1) <-\npost b {} S(1) <-\npost c {} S(2) <-\npublish\n";

const REPORT: &str = "relation T 1 rows 1
query a waiting
  text {S(2), R(x)} S(x) <- T(x)
  post 0 providers 1
    a head 0
  post 1 providers 0
  groundings 1 (x)
    (1)
";

const GRAPH: &str = "digraph board {
  q0 [label=\"a\\nwaiting\", shape=box, style=dashed];
  q0 -> q0 [label=\"head 0, post 0\"];
  n0_1 [label=\"no provider\", shape=plaintext];
  n0_1 -> q0 [label=\"post 1 R(x)\", style=dotted];
}
";

const JSON: &str =
    "{\"entries\":2,\"relations\":[{\"name\":\"T\",\"arity\":1,\"rows\":1}],\"queries\":[{\"name\":\"a\",\"state\":\"waiting\",\"text\":\"{S(2), R(x)} S(x) <- T(x)\",\"heads\":[{\"relation\":\"S\",\"terms\":[{\"variable\":\"x\"}]}],\"postconditions\":[{\"relation\":\"S\",\"terms\":[{\"number\":2}],\"providers\":[{\"query\":\"a\",\"head\":0}],\"crowded\":false},{\"relation\":\"R\",\"terms\":[{\"variable\":\"x\"}],\"providers\":[],\"crowded\":false}],\"body\":[{\"relation\":\"T\",\"terms\":[{\"variable\":\"x\"}]}],\"variables\":[\"x\"],\"groundings\":[[1]]}]}";

const EXPLAINED: &str = "a waits
  a: no row for its body
b waits
  a: no row for its body
  b: post 0 S(1): only a, who waits
c waits
  c: post 0 R(3): no provider; near: b head 0 R(2)
";

const NAMED: &str = "c waits
  c: post 0 R(3): no provider; near: b head 0 R(2)
a waits
  a: no row for its body
";

const CAUSES: &str = "a waits: no row for its body: T(20): 0 of 1 row; near 21
c waits: post 0 Rad(3): no provider; near: b head 0 Red(2)
d waits: no row for its body: U(x): 0 of 1 row with the atoms before it
";

const BOXED: &str = "digraph board {
  q0 [label=\"a\\nmatched\", shape=box];
  q1 [label=\"b\\nmatched\", shape=box];
  q1 -> q0 [label=\"head 0, post 0\"];
  subgraph cluster_0 { q0; }
  subgraph cluster_0 { q1; }
}
";

const TEXTS: &[Text] = &[
    (SUPPLIED, View::Report, REPORT),
    (SUPPLIED, View::Graph, GRAPH),
    (SUPPLIED, View::Json, JSON),
    (WAITING, View::Explained, EXPLAINED),
    (WAITING, View::Named, NAMED),
    (LACKING, View::Causes, CAUSES),
    (HANGING, View::Boxed, BOXED),
];

/// The graph of the first query and those on which it hangs, in boxes.
fn boxed<A: Allocator + Copy>(alloc: A, board: &Board<A>) -> Result<String<A>, AllocError> {
    let kept = kept_with(alloc, board, ["a"].as_slice())?;
    boxed_graph(alloc, board, Drawn::Flagged(&kept))
}

fn text_of<A: Allocator + Copy>(
    alloc: A,
    board: &Board<A>,
    view: View,
) -> Result<String<A>, AllocError> {
    match view {
        View::Report => report(alloc, board),
        View::Graph => graph(alloc, board),
        View::Json => json(alloc, 2, board),
        View::Explained => explain(alloc, board, Extent::All),
        View::Named => {
            explain_named(alloc, board, Extent::All, ["c", "no name", "a"].as_slice())
        }
        View::Causes => explain_once(alloc, board, Extent::Causes),
        View::Boxed => boxed(alloc, board),
    }
}

/// Whether that is what is so written of the board.
fn is_text<A: Allocator + Copy>(
    alloc: A,
    board: &Board<A>,
    view: View,
    wanted: &str,
) -> Result<bool, AllocError> {
    let text = text_of(alloc, board, view)?;
    Ok(text.as_str() == wanted)
}

fn written<A: Allocator + Copy>(alloc: A, board: &Board<A>, view: View, wanted: &str) -> Outcome {
    match is_text(alloc, board, view, wanted) {
        Ok(right) => Outcome::done_if(right),
        Err(_) => Outcome::refused_if(is_text(alloc, board, view, wanted) == Ok(true)),
    }
}

/// The script read.
fn played<A: Allocator + Copy>(alloc: A, script: &[u8]) -> Result<Played<A>, Stop> {
    read_script(alloc, &mut Counted::new(script))
}

fn tried<A: Allocator + Copy>(alloc: A, text: &Text) -> Outcome {
    match played(alloc, text.0) {
        Ok(played) => written(alloc, played.board(), text.1, text.2),
        Err(_) => Outcome::Unready,
    }
}

/// The text at that place written.
struct Nth<const N: usize>;

impl<const N: usize> Tried for Nth<N> {
    fn tried<A: Allocator + Copy>(alloc: A) -> Outcome {
        match TEXTS.get(N) {
            Some(text) => tried(alloc, text),
            None => Outcome::Wrong,
        }
    }
}

#[test]
fn failed_allocation_in_report(rt: HostRuntime) {
    assert!(rt; matches!(refusals::<Nth<0>>(rt.alloc()), Ok(1..)));
}

#[test]
fn failed_allocation_in_graph(rt: HostRuntime) {
    assert!(rt; matches!(refusals::<Nth<1>>(rt.alloc()), Ok(3..)));
}

#[test]
fn failed_allocation_in_json(rt: HostRuntime) {
    assert!(rt; matches!(refusals::<Nth<2>>(rt.alloc()), Ok(3..)));
}

#[test]
fn failed_allocation_in_explain(rt: HostRuntime) {
    assert!(rt; matches!(refusals::<Nth<3>>(rt.alloc()), Ok(3..)));
}

#[test]
fn failed_allocation_in_explain_named(rt: HostRuntime) {
    assert!(rt; matches!(refusals::<Nth<4>>(rt.alloc()), Ok(3..)));
}

#[test]
fn failed_allocation_in_explain_once(rt: HostRuntime) {
    assert!(rt; matches!(refusals::<Nth<5>>(rt.alloc()), Ok(3..)));
}

#[test]
fn failed_allocation_in_boxed_graph(rt: HostRuntime) {
    assert!(rt; matches!(refusals::<Nth<6>>(rt.alloc()), Ok(3..)));
}

/// Whether the script leaves the board of that report.
fn is_left<A: Allocator + Copy>(alloc: A) -> Result<bool, Stop> {
    let played = played(alloc, SUPPLIED)?;
    Ok(is_text(alloc, played.board(), View::Report, REPORT)?)
}

/// A script read, and the board that it leaves reported on.
struct Playing;

impl Tried for Playing {
    fn tried<A: Allocator + Copy>(alloc: A) -> Outcome {
        match is_left(alloc) {
            Ok(right) => Outcome::done_if(right),
            Err(fault) => {
                Outcome::refused_if(fault == Stop::NoMemory && is_left(alloc) == Ok(true))
            }
        }
    }
}

const LIMITS: Limits = Limits {
    pool: 9,
    journal: 9,
};

/// A word that is no command, a variable in a row, and a relation that is not there, under a `board` line.
const FAULTY: &[u8] = b"board 2\npubilsh\ninsert T(x)\ndelete U(1)\nwithdraw q";

const WHYS: &str =
    "board: a.board: line 2: pubilsh: no such command; did you mean publish?: ^pubilsh
board: a.board: line 3: expected a number, a \"text\" or a Capitalised name; x is a variable: insert T(^x)
board: a.board: line 4: U: no such relation; did you mean T?: delete U(1)
board: a.board: line 5: no query of this name is pending: withdraw q
";

/// Whether these lines tell what is wrong with the script.
fn is_told<A: Allocator + Copy>(alloc: A, catalog: &Catalog<A>) -> Result<bool, AllocError> {
    let mut page = String::new(alloc);
    put_whys(alloc, "a.board: ", 5, LIMITS, catalog, FAULTY, &mut page)?;
    Ok(page.as_str() == WHYS)
}

/// What is wrong with the lines of a script.
struct Wrong;

impl Tried for Wrong {
    fn tried<A: Allocator + Copy>(alloc: A) -> Outcome {
        let mut catalog = Catalog::empty(alloc);
        if catalog.declare("T", 1).is_err() {
            return Outcome::Unready;
        }
        match is_told(alloc, &catalog) {
            Ok(right) => Outcome::done_if(right),
            Err(_) => Outcome::refused_if(is_told(alloc, &catalog) == Ok(true)),
        }
    }
}

#[test]
fn failed_allocation_in_put_whys(rt: HostRuntime) {
    assert!(rt; matches!(refusals::<Wrong>(rt.alloc()), Ok(3..)));
}

#[test]
fn failed_allocation_in_read_script(rt: HostRuntime) {
    assert!(rt; matches!(refusals::<Playing>(rt.alloc()), Ok(3..)));
}
