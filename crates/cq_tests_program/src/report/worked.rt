//! The worked script, line by line, with what is answered to each line and to each front of it.

use std::alloc::{AllocError, Global};

/// A line of the worked script.
struct Line {
    text: &'static [u8],
    answer: &'static str,
    /// The fronts of the line that are answered otherwise than that they end too early: from that many bytes to that
    /// many, and the answer.
    fronts: Fronts,
}

type Fronts = &'static [(usize, usize, &'static str)];

// The front of a command word is no word.
const RELATION: Fronts = &[(1, 7, "refused Shape at 0\n")];

const INSERT: Fronts = &[(1, 5, "refused Shape at 0\n")];

const PUBLISH: Fronts = &[(1, 6, "refused Shape at 0\n")];

const SHOW: Fronts = &[(1, 3, "refused Shape at 0\n")];

// The front of the arrow is no token, and after the arrow stands a query without a body, which does not bind x.
const KRAMER: Fronts = &[
    (1, 3, "refused Shape at 0\n"),
    (40, 40, "refused Token at 39\n"),
    (41, 42, "refused Unbound at 22\n"),
];

// The same, and a query with the first atom of the body alone.
const JERRY: Fronts = &[
    (1, 3, "refused Shape at 0\n"),
    (39, 39, "refused Token at 38\n"),
    (40, 41, "refused Unbound at 22\n"),
    (58, 58, "ok 10\n"),
];

const SHOWN: &str = "show 10
relation Flights 2 rows 4
relation Airlines 2 rows 4
query kramer matched
  text {R(\"Jerry\", x)} R(\"Kramer\", x) <- Flights(x, \"Paris\")
  post 0 providers 1
    jerry head 0
  groundings 3 (x)
    (122)
    (123)
    (134)
query jerry matched
  text {R(\"Kramer\", y)} R(\"Jerry\", y) <- Flights(y, \"Paris\"), Airlines(y, \"United\")
  post 0 providers 1
    kramer head 0
  groundings 2 (y)
    (122)
    (123)
end
";

/// The worked script: the travel setup, the two worked queries, a publish and a look.
const LINES: &[Line] = &[
    Line {
        text: b"relation Flights 2",
        answer: "ok\n",
        fronts: RELATION,
    },
    Line {
        text: b"relation Airlines 2",
        answer: "ok\n",
        fronts: RELATION,
    },
    Line {
        text: b"insert Flights(122, Paris)",
        answer: "ok 1\n",
        fronts: INSERT,
    },
    Line {
        text: b"insert Flights(123, Paris)",
        answer: "ok 2\n",
        fronts: INSERT,
    },
    Line {
        text: b"insert Flights(134, Paris)",
        answer: "ok 3\n",
        fronts: INSERT,
    },
    Line {
        text: b"insert Flights(136, Rome)",
        answer: "ok 4\n",
        fronts: INSERT,
    },
    Line {
        text: b"insert Airlines(122, United)",
        answer: "ok 5\n",
        fronts: INSERT,
    },
    Line {
        text: b"insert Airlines(123, United)",
        answer: "ok 6\n",
        fronts: INSERT,
    },
    Line {
        text: b"insert Airlines(134, Lufthansa)",
        answer: "ok 7\n",
        fronts: INSERT,
    },
    Line {
        text: b"insert Airlines(136, Alitalia)",
        answer: "ok 8\n",
        fronts: INSERT,
    },
    Line {
        text: b"post kramer {R(Jerry, x)} R(Kramer, x) <- Flights(x, Paris)",
        answer: "ok 9\n",
        fronts: KRAMER,
    },
    Line {
        text: b"post jerry {R(Kramer, y)} R(Jerry, y) <- Flights(y, Paris), Airlines(y, United)",
        answer: "ok 10\n",
        fronts: JERRY,
    },
    Line {
        text: b"publish",
        answer: "published 10\n",
        fronts: PUBLISH,
    },
    Line {
        text: b"show",
        answer: SHOWN,
        fronts: SHOW,
    },
];

/// The lines, for all that walk over them.
fn lines() -> &'static [Line] {
    LINES
}

fn put_lines(script: &mut Vec<u8>) -> Result<(), AllocError> {
    for line in lines() {
        script.extend_from_slice(line.text)?;
        script.push(b'\n')?;
    }
    Ok(())
}

/// The bytes of the script.
pub fn script(alloc: Global) -> Result<Vec<u8>, AllocError> {
    let mut script = Vec::new(alloc);
    put_lines(&mut script)?;
    Ok(script)
}

/// What so many bytes of the line are answered; nothing where that is where they end.
fn answer_of(line: &Line, count: usize) -> Option<&'static str> {
    if count == line.text.len() {
        return Some(line.answer);
    }
    for (from, to, answer) in line.fronts {
        if *from <= count && count <= *to {
            return Some(answer);
        }
    }
    None
}

/// Adds what so many bytes of the line are answered.
fn put_front(
    alloc: Global,
    told: &mut String,
    line: &Line,
    count: usize,
) -> Result<(), AllocError> {
    if count == 0 {
        return Ok(());
    }
    match answer_of(line, count) {
        Some(answer) => told.push_str(answer),
        None => told.push_str(&format!(in alloc; "refused Shape at {count}\n")?),
    }
}

/// Adds the answers to the whole lines of so many bytes of the script. These are cut off in the line that is reported, of which they
/// have so many.
fn put_answers(
    told: &mut String,
    bytes: usize,
) -> Result<Option<(&'static Line, usize)>, AllocError> {
    let mut left = bytes;
    for line in lines() {
        let count = line.text.len();
        if left <= count {
            return Ok(Some((line, left)));
        }
        told.push_str(line.answer)?;
        left = left.saturating_sub(count).saturating_sub(1);
    }
    Ok(None)
}

/// Adds the answers to so many bytes of the script, where they end the script or a read fails after them.
fn put_told(alloc: Global, told: &mut String, bytes: usize, ended: bool) -> Result<(), AllocError> {
    match put_answers(told, bytes)? {
        Some((line, count)) if ended => put_front(alloc, told, line, count),
        _ => Ok(()),
    }
}

/// The answers to so many bytes of the script. Where these are all that there is, a line that is cut off is answered too.
pub fn answers(alloc: Global, bytes: usize, ended: bool) -> Result<String, AllocError> {
    let mut told = String::new(alloc);
    put_told(alloc, &mut told, bytes, ended)?;
    Ok(told)
}
