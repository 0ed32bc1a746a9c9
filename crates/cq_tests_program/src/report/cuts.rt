//! The worked script cut at each byte, read and written in pieces, and over devices that fail at each turn.

use crate::devices::{Endless, Expecting, Failing, Pieces};
use crate::report::worked::{answers, script};
use crate::runs::{Told, WELL, is_whole, told, told_of};
use cq_devices::Stop;
use cq_report::{Numbering, RunFault};
use std::alloc::{AllocError, Global};
use std::test::Fail;

/// Whether a script of these bytes, the first of the worked one, is answered so.
fn is_front_told(alloc: Global, front: &[u8]) -> Result<bool, AllocError> {
    let expected = answers(alloc, front.len(), true)?;
    Ok(told_of(alloc, front, 4_096, expected.as_bytes()) == WELL)
}

/// How many bytes of the script are answered otherwise, where that is all that there is.
fn other_front(alloc: Global, script: &[u8]) -> Result<Option<usize>, AllocError> {
    for count in 0..script.len() {
        if !is_front_told(alloc, &script[..count])? {
            return Ok(Some(count));
        }
    }
    Ok(None)
}

// Whole lines are answered as in the whole script, and a line that is cut off is a line by itself.
#[test]
fn each_prefix(rt: HostRuntime) -> Result<(), Fail> {
    let script = script(rt.alloc())?;
    let other = other_front(rt.alloc(), &script)?;
    assert!(rt; other.is_none(), "{other:?}");
    Ok(())
}

/// Whether the script is read whole in pieces of so many bytes, and answered so.
fn is_read_by(alloc: Global, script: &[u8], most: usize, expected: &[u8]) -> bool {
    let pieces = Pieces { rest: script, most };
    told_of(alloc, script, most, expected) == WELL && is_whole(alloc, pieces, script) == Ok(true)
}

/// How the run of the script ends over a writer that takes one byte at a write.
fn told_slowly(alloc: Global, script: &[u8], expected: &[u8]) -> Told {
    told(alloc, Numbering::Plain, script, Expecting::new(expected, 1))
}

#[test]
fn kramer_and_jerry(rt: HostRuntime) -> Result<(), Fail> {
    let script = script(rt.alloc())?;
    let output = answers(rt.alloc(), script.len(), true)?;
    let expected = output.as_bytes();
    for most in [1usize, 2, 3, 4_096] {
        assert!(rt; is_read_by(rt.alloc(), &script, most, expected), "{most}");
    }
    assert!(rt; told_slowly(rt.alloc(), &script, expected) == WELL);
    Ok(())
}

/// Whether the read after so many good ones of three bytes is reported to have failed, and the whole lines before it are answered.
fn is_failure_told(alloc: Global, script: &[u8], good: u32) -> Result<bool, AllocError> {
    let expected = answers(alloc, (good as usize).saturating_mul(3), false)?;
    let turn = u64::from(good).saturating_add(1);
    let writer = Expecting::new(expected.as_bytes(), usize::MAX);
    let told = told(
        alloc,
        Numbering::Plain,
        Failing::new(script, 3, good),
        writer,
    );
    let whole = is_whole(alloc, Failing::new(script, 3, good), &[]);
    Ok(told == (Err(RunFault::Read { turn }), 0, 0) && whole == Err(Stop::Read { turn }))
}

/// How many good reads come before a failure that is reported otherwise. After the last of them the script is at its end.
fn other_failure(alloc: Global, script: &[u8]) -> Result<Option<u32>, AllocError> {
    let mut good = 0u32;
    for _ in (0..script.len().saturating_add(3)).step_by(3) {
        if !is_failure_told(alloc, script, good)? {
            return Ok(Some(good));
        }
        good = good.saturating_add(1);
    }
    Ok(None)
}

#[test]
fn each_read_fails(rt: HostRuntime) -> Result<(), Fail> {
    let script = script(rt.alloc())?;
    let other = other_failure(rt.alloc(), &script)?;
    assert!(rt; other.is_none(), "{other:?}");
    Ok(())
}

/// How many bytes a writer takes before it fails, where that is reported otherwise, or more or fewer are written.
fn other_write(alloc: Global, script: &[u8], output: &[u8]) -> Option<usize> {
    for count in 0..output.len() {
        if told_of(alloc, script, 4_096, &output[..count]) != (Err(RunFault::Write), 0, 0) {
            return Some(count);
        }
    }
    None
}

#[test]
fn each_write_fails(rt: HostRuntime) -> Result<(), Fail> {
    let script = script(rt.alloc())?;
    let output = answers(rt.alloc(), script.len(), true)?;
    let other = other_write(rt.alloc(), &script, output.as_bytes());
    assert!(rt; other.is_none(), "{other:?}");
    Ok(())
}

#[test]
fn endless_reader(rt: HostRuntime) {
    let turn = 1_048_577;
    let writer = Expecting::new(b"", usize::MAX);
    let told = told(rt.alloc(), Numbering::Plain, Endless, writer);
    assert!(rt; told == (Err(RunFault::Read { turn }), 0, 0));
    assert!(rt; is_whole(rt.alloc(), Endless, b"") == Err(Stop::Read { turn }));
}
