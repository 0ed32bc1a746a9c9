//! Runs of lines at their limit, and how faults are reported.

use crate::runs::{WELL, is_told, told_of};
use cq_report::{JOURNAL_LIMIT, POOL_LIMIT, RunFault};
use std::alloc::{AllocError, Global};

/// The front of a script, how many letters come after it, and what is reported about the line of the letters and of a look.
type Long = (&'static [u8], usize, &'static [u8]);

fn put_letters(script: &mut Vec<u8>, front: &[u8], count: usize) -> Result<(), AllocError> {
    script.extend_from_slice(front)?;
    script.resize(front.len().saturating_add(count), b'x')?;
    script.extend_from_slice(b"\nshow\n")
}

/// Whether a long line of letters is reported so, and the line after it is answered.
fn is_long_told(alloc: Global, long: &Long) -> bool {
    let (front, count, expected) = *long;
    let mut script = Vec::new(alloc);
    put_letters(&mut script, front, count).is_ok()
        && told_of(alloc, &script, 4_096, expected) == WELL
}

const SHAPE_OF_FORM_TWO: &[u8] = b"ok\nrefused Shape at 0\nshow 0\nend\n";

const LIMIT_OF_FORM_TWO: &[u8] = b"ok\nrefused Limit at 524288\nshow 0\nend\n";

const LONG_OF_FORM_TWO: &[Long] = &[
    (b"board 2\n", 524_288, SHAPE_OF_FORM_TWO),
    (b"board 2\n#", 524_287, b"ok\nshow 0\nend\n"),
    (b"board 2\n", 524_289, LIMIT_OF_FORM_TWO),
    (b"board 2\n#", 524_288, LIMIT_OF_FORM_TWO),
];

#[test]
fn lines_at_the_limit_of_form_two(rt: HostRuntime) {
    for long in LONG_OF_FORM_TWO {
        assert!(rt; is_long_told(rt.alloc(), long), "{}", long.1);
    }
}

const SHAPE: &[u8] = b"refused Shape at 0\nshow 0\nend\n";

const LIMIT: &[u8] = b"refused Limit at 131072\nshow 0\nend\n";

const LONG: &[Long] = &[
    (b"", 131_072, SHAPE),
    (b"#", 131_071, b"show 0\nend\n"),
    (b"", 131_073, LIMIT),
    (b"#", 131_072, LIMIT),
    (b"", 140_000, LIMIT),
];

#[test]
fn lines_at_their_limit(rt: HostRuntime) {
    for long in LONG {
        assert!(rt; is_long_told(rt.alloc(), long), "{}", long.1);
    }
}

const FAULTS: &[(RunFault, &str)] = &[
    (RunFault::Read { turn: 7 }, "read failed at turn 7"),
    (RunFault::Write, "write failed"),
    (RunFault::NoMemory, "out of memory"),
];

#[test]
fn faults_are_told(rt: HostRuntime) {
    for (fault, text) in FAULTS {
        assert!(rt; is_told(rt.alloc(), fault, text), "{text}");
    }
    assert!(rt; POOL_LIMIT == 1_000 && JOURNAL_LIMIT == 100_000);
}
