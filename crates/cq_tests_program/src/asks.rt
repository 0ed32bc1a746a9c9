//! Lines that ask: each kind answered once, and with each allocation refused in turn.

use cq_ask::{
    ending, fault_place, found_line, found_text, read_ask, read_find, tell, tell_data,
    variables_text,
};
use cq_atom::{Bad, Value};
use cq_board::{Board, Limits};
use cq_desk::{Event, Floor};
use cq_refusing::{Outcome, Tried, refusals};
use cq_rel::Catalog;
use cq_text::{CommandKind, Form, Kind, TextFault, read_command};
use std::alloc::{AllocError, Allocator};

/// A floor over a board.
type BoardFloor<A> = Floor<Board<A>, A>;

/// A line, what is told of it, what ends the answer, and the answer as a member of a JSON object.
struct Asked {
    line: &'static [u8],
    told: &'static str,
    end: &'static str,
    member: &'static str,
}

const LIMITS: Limits = Limits {
    pool: 9,
    journal: 9,
};

/// The one query that is pending.
const POST: &[u8] = b"post a {R(1)} S(2) <-";

const ASKED: &[Asked] = &[
    Asked {
        line: b"count",
        told: "queries 1 matched 0 waiting 1 rows 0 entries 1 unpublished 0 since 1 relations 0 limits 9 9\n",
        end: "",
        member: ",\"count\":{\"queries\":1,\"matched\":0,\"waiting\":1,\"rows\":0,\"entries\":1,\"unpublished\":0,\"since\":1,\"relations\":0,\"pool_limit\":9,\"journal_limit\":9}",
    },
    Asked {
        line: b" status a\tb\r",
        told: "a waiting\nb absent\n",
        end: "end\n",
        member: ",\"status\":[{\"name\":\"a\",\"state\":\"waiting\"},{\"name\":\"b\",\"state\":\"absent\"}]",
    },
    Asked {
        line: b"query a",
        told: "query a waiting\n  text {R(1)} S(2) <-\n  post 0 providers 0\n  groundings 1 ()\n    ()\n",
        end: "end\n",
        member: ",\"query\":[{\"name\":\"a\",\"state\":\"waiting\",\"text\":\"{R(1)} S(2) <-\",\"heads\":[{\"relation\":\"S\",\"terms\":[{\"number\":2}]}],\"postconditions\":[{\"relation\":\"R\",\"terms\":[{\"number\":1}],\"providers\":[],\"crowded\":false}],\"body\":[],\"variables\":[],\"groundings\":[[]]}]",
    },
    Asked {
        line: b"explain b a",
        told: "a waits\n  a: post 0 R(1): no provider\nb is absent\n",
        end: "end\n",
        member: ",\"explain\":[{\"name\":\"b\",\"state\":\"absent\"},{\"name\":\"a\",\"state\":\"waiting\",\"steps\":[{\"query\":\"a\",\"reason\":\"unmet\",\"post\":0,\"relation\":\"R\",\"terms\":[{\"number\":1}],\"providers\":[],\"near\":[]}]}]",
    },
    Asked {
        line: b"near b 0",
        told: "b is absent\n",
        end: "end\n",
        member: ",\"near\":[{\"name\":\"b\",\"state\":\"absent\",\"heads\":[]}]",
    },
    Asked {
        line: b"changes",
        told: "a came waiting\n",
        end: "end\n",
        member: ",\"changes\":[{\"name\":\"a\",\"state\":\"waiting\",\"change\":\"came\"}]",
    },
    Asked {
        line: b"graph",
        told: "digraph board {\n  q0 [label=\"a\\nwaiting\", shape=box, style=dashed];\n  n0_0 [label=\"no provider\", shape=plaintext];\n  n0_0 -> q0 [label=\"post 0 R(1)\", style=dotted];\n}\n",
        end: "end\n",
        member: ",\"graph\":\"digraph board {\\n  q0 [label=\\\"a\\\\nwaiting\\\", shape=box, style=dashed];\\n  n0_0 [label=\\\"no provider\\\", shape=plaintext];\\n  n0_0 -> q0 [label=\\\"post 0 R(1)\\\", style=dotted];\\n}\\n\"",
    },
    Asked {
        line: b"json",
        told: "{\"entries\":1,\"relations\":[],\"queries\":[{\"name\":\"a\",\"state\":\"waiting\",\"text\":\"{R(1)} S(2) <-\",\"heads\":[{\"relation\":\"S\",\"terms\":[{\"number\":2}]}],\"postconditions\":[{\"relation\":\"R\",\"terms\":[{\"number\":1}],\"providers\":[],\"crowded\":false}],\"body\":[],\"variables\":[],\"groundings\":[[]]}]}",
        end: "\n",
        member: ",\"board\":{\"entries\":1,\"relations\":[],\"queries\":[{\"name\":\"a\",\"state\":\"waiting\",\"text\":\"{R(1)} S(2) <-\",\"heads\":[{\"relation\":\"S\",\"terms\":[{\"number\":2}]}],\"postconditions\":[{\"relation\":\"R\",\"terms\":[{\"number\":1}],\"providers\":[],\"crowded\":false}],\"body\":[],\"variables\":[],\"groundings\":[[]]}]}",
    },
    Asked {
        line: b"choice a()",
        told: "not coordinating\n",
        end: "",
        member: ",\"coordinating\":false",
    },
    Asked {
        line: b"choose a b",
        told: "none\n  a waits\n  b is absent\n",
        end: "end\n",
        member: ",\"choose\":{\"outcome\":\"none\",\"barred\":[{\"name\":\"a\",\"state\":\"waiting\"},{\"name\":\"b\",\"state\":\"absent\"}],\"lack\":null}",
    },
    Asked {
        line: b"groups",
        told: "",
        end: "end\n",
        member: ",\"groups\":[]",
    },
    Asked {
        line: b"dump",
        told: "board 1\nlimits 9 9\npost a {R(1)} S(2) <-\npublish\n",
        end: "end\n",
        member: ",\"dump\":\"board 1\\nlimits 9 9\\npost a {R(1)} S(2) <-\\npublish\\n\"",
    },
    Asked {
        line: b"choice a(",
        told: "refused Words\n",
        end: "",
        member: ",\"refused\":\"Words\"",
    },
    Asked {
        line: b"query a b",
        told: "refused Words\n",
        end: "",
        member: ",\"refused\":\"Words\"",
    },
];

/// A floor at which nothing has happened, where there was memory for that.
fn begun<A: Allocator + Copy>(alloc: A) -> Option<BoardFloor<A>> {
    let Ok(board) = Board::begin(alloc, Catalog::empty(alloc), LIMITS) else {
        return None;
    };
    let Ok(floor) = Floor::begin(alloc, board, LIMITS.journal, 1) else {
        return None;
    };
    Some(floor)
}

/// Posts the query and publishes it, where there is memory for that.
fn post<A: Allocator + Copy>(alloc: A, floor: &mut BoardFloor<A>) -> Option<()> {
    let Ok(CommandKind::Edit(edit)) = read_command(alloc, POST, Form::One) else {
        return None;
    };
    let Ok(_) = floor.step(Event::Enter { author: 0, edit }) else {
        return None;
    };
    let Ok(_) = floor.step(Event::Publish) else {
        return None;
    };
    Some(())
}

/// The query is posted and published, where there was memory for that.
fn floor_of<A: Allocator + Copy>(alloc: A) -> Option<BoardFloor<A>> {
    let mut floor = begun(alloc)?;
    post(alloc, &mut floor)?;
    Some(floor)
}

/// Whether the line asks, and has that answer.
fn is_answered<A: Allocator + Copy>(
    alloc: A,
    floor: &BoardFloor<A>,
    asked: &Asked,
) -> Result<bool, AllocError> {
    let Some(ask) = read_ask(alloc, asked.line)? else {
        return Ok(false);
    };
    let told = tell(alloc, Form::One, floor, &ask)?;
    let member = tell_data(alloc, Form::One, floor, &ask)?;
    Ok(
        told.as_str() == asked.told
            && member.as_str() == asked.member
            && ending(ask.kind()) == asked.end,
    )
}

fn answered<A: Allocator + Copy>(alloc: A, floor: &BoardFloor<A>, asked: &Asked) -> Outcome {
    match is_answered(alloc, floor, asked) {
        Ok(right) => Outcome::done_if(right),
        Err(_) => Outcome::refused_if(is_answered(alloc, floor, asked) == Ok(true)),
    }
}

/// The line at that place answered.
struct Nth<const N: usize>;

impl<const N: usize> Tried for Nth<N> {
    fn tried<A: Allocator + Copy>(alloc: A) -> Outcome {
        match (floor_of(alloc), ASKED.get(N)) {
            (Some(floor), Some(asked)) => answered(alloc, &floor, asked),
            (None, _) => Outcome::Unready,
            (_, None) => Outcome::Wrong,
        }
    }
}

#[test]
fn failed_allocation_in_answers(rt: HostRuntime) {
    assert!(rt; matches!(refusals::<Nth<0>>(rt.alloc()), Ok(2..)));
    assert!(rt; matches!(refusals::<Nth<1>>(rt.alloc()), Ok(3..)));
    assert!(rt; matches!(refusals::<Nth<2>>(rt.alloc()), Ok(4..)));
    assert!(rt; matches!(refusals::<Nth<3>>(rt.alloc()), Ok(5..)));
    assert!(rt; matches!(refusals::<Nth<4>>(rt.alloc()), Ok(3..)));
    assert!(rt; matches!(refusals::<Nth<5>>(rt.alloc()), Ok(3..)));
    assert!(rt; matches!(refusals::<Nth<6>>(rt.alloc()), Ok(2..)));
    assert!(rt; matches!(refusals::<Nth<7>>(rt.alloc()), Ok(2..)));
    assert!(rt; matches!(refusals::<Nth<8>>(rt.alloc()), Ok(1..)));
    assert!(rt; matches!(refusals::<Nth<9>>(rt.alloc()), Ok(5..)));
    assert!(rt; matches!(refusals::<Nth<10>>(rt.alloc()), Ok(2..)));
    assert!(rt; matches!(refusals::<Nth<11>>(rt.alloc()), Ok(2..)));
}

/// What comes after `find`, with spaces that are no part of it.
const BODY: &[u8] = b" F(x, \"many a text is longer\"), G(x, y)  first 3 ";

/// A value that takes memory.
const LONG: &str = "many a text is longer";

/// Whether the body is read, and a grounding of it told in a line and as JSON.
fn is_found<A: Allocator + Copy>(alloc: A, value: &Value<A>) -> Result<bool, AllocError> {
    let search = match read_find(alloc, Form::One, BODY) {
        Ok(search) => search,
        Err(TextFault::NoMemory) => return Err(AllocError),
        Err(_) => return Ok(false),
    };
    let values = [value, value];
    let line = found_line(alloc, &values)?;
    let text = found_text(alloc, &values)?;
    let variables = variables_text(alloc, search.query())?;
    Ok(
        search.most() == Some(3)
            && search.query().body().len() == 2
            && line.as_str() == "(\"many a text is longer\", \"many a text is longer\")\n"
            && text.as_str() == "[\"many a text is longer\",\"many a text is longer\"]"
            && variables.as_str() == ",\"find\":{\"variables\":[\"x\",\"y\"],\"groundings\":[",
    )
}

/// A body read, and a grounding told.
struct Finding;

impl Tried for Finding {
    fn tried<A: Allocator + Copy>(alloc: A) -> Outcome {
        let value = match Value::text(alloc, LONG) {
            Ok(value) => value,
            Err(Bad::NoMemory) => return Outcome::Unready,
            Err(_) => return Outcome::Wrong,
        };
        match is_found(alloc, &value) {
            Ok(right) => Outcome::done_if(right),
            Err(_) => Outcome::refused_if(is_found(alloc, &value) == Ok(true)),
        }
    }
}

#[test]
fn failed_allocation_in_finding(rt: HostRuntime) {
    assert!(rt; matches!(refusals::<Finding>(rt.alloc()), Ok(8..)));
}

/// A text after `find`, and the kind and the byte of its first fault, where it begins at the byte 4 of a line.
const FAULTS: &[(&[u8], Kind, usize)] = &[
    (b" F(x, y) first", Kind::Shape, 13),
    (b" F(x, y) first x", Kind::Shape, 13),
    (b" F(x, y) last 3", Kind::Shape, 13),
    (b" first 3", Kind::Shape, 5),
    (b" {} R(x) <- F(x)", Kind::Shape, 5),
    (b" F(x", Kind::Shape, 8),
];

#[test]
fn faults_of_bodies(rt: HostRuntime) {
    for (text, kind, at) in FAULTS {
        let fault = match read_find(rt.alloc(), Form::One, text) {
            Ok(_) => None,
            Err(TextFault::At { kind, offset }) => Some((kind, fault_place(4, offset))),
            Err(TextFault::NoMemory) => None,
        };
        assert!(rt;
            fault == Some((*kind, *at)),
            "{fault:?} in place of {kind:?} at {at}"
        );
    }
}
