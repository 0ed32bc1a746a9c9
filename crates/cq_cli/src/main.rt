//! The program `board`: replays a script, turns CSV into the insert lines of a script, serves files, or reports on the board that a script leaves.
//!
//! `main` reads the words, opens the file that they name, chooses the heap, and calls `perform`. A line of a script passes `main`, `perform`, `replay` and then
//! `run` of `cq_report`.
//!
//! `wanted` reads what the words ask for, `sizes` numbers of bytes, and `choices` choices. `planning` makes of the words a task and what it is performed over, and
//! `performing` performs the task: `replaying` replays a script, `rows` writes the insert lines of CSV, `sessions` serves files, and `looking` reads a script and writes
//! what `views`, `drawing`, `absent` and `noting` make of its board. `ahead` looks at the first bytes of a script before they are read, `progress` reports how
//! much of it was read, `prompting` prompts at a terminal, `writing` writes texts, and `status` numbers the ways to end. What a script means is in the crates below.
#![tactic(auto)]

mod absent;
mod ahead;
mod choices;
mod drawing;
mod looking;
mod noting;
mod performing;
mod planning;
mod progress;
mod prompting;
mod replaying;
mod rows;
mod sessions;
mod sizes;
mod status;
mod views;
mod wanted;
mod writing;

ghost use Rattle.std.specs.Prelude.{◌<◌, ◌^◌};

use crate::ahead::Ahead;
use crate::performing::perform;
use crate::planning::{Input, make_plan};
use crate::progress::{Watching, watched_on};
use crate::prompting::Prompting;
use crate::status::Status;
use crate::writing::tell;
use cq_budget::Budget;
use cq_devices::{Counted, Sink};
use std::env;
use std::env::Env;
use std::io::{ErrorKind, IsTerminal};
use std::process::ExitCode;

/// What is reported about words that are no text, in the form in which `clap` reports the other faults of words.
const NO_TEXT: &str = "error: invalid UTF-8 was detected in one or more arguments

For more information, try '--help'.
";

/// The words of the command line, or how the program ends without them.
fn words<R: Env + Alloc>(rt: &R) -> Result<Vec<String<R::A>, R::A>, Status> {
    match env::args(rt) {
        Ok(words) => words.collect(rt.alloc()).map_err(|_| Status::NoMemory),
        Err(error) if error.kind() == ErrorKind::OutOfMemory => Err(Status::NoMemory),
        Err(_) => Err(Status::Usage),
    }
}

/// Reports why the words were not read, and returns how the program ends.
fn wordless<E: Sink>(status: Status, errors: &mut E) -> ExitCode
    requires { E.write_failures errors.old < 2 ^ 62 }
{
    let text = match status {
        Status::Usage => NO_TEXT,
        _ => "board: out of memory\n",
    };
    tell(errors, text);
    ExitCode::from(status.code())
}

fn main(rt: HostRuntime) -> ExitCode {
    let mut errors = Counted::new(rt.stderr());
    let words = match words(&rt) {
        Ok(words) => words,
        Err(status) => return wordless(status, &mut errors),
    };
    let plan = make_plan(&rt, rt.alloc(), &words);
    let prompts = if plan.is_prompted && rt.stdin().is_terminal() {
        Some(rt.stderr())
    } else {
        None
    };
    let watched = watched_on(&rt, plan.is_watched && rt.stderr().is_terminal());
    let input = Input::new(Prompting::new(rt.stdin(), prompts), plan.file);
    let mut source = Ahead::new(Watching::new(input, watched));
    let mut sink = Counted::new(rt.stdout());
    let bytes = plan.bytes;
    let (task, file) = (&plan.task, plan.origin.as_deref());
    let (source, sink, errors) = (&mut source, &mut sink, &mut errors);
    let status = match bytes {
        None => perform(
            &rt,
            rt.alloc(),
            rt.alloc(),
            task,
            file,
            source,
            sink,
            errors,
        ),
        Some(bytes) => {
            let budget = Budget::new(rt.alloc(), bytes);
            perform(&rt, rt.alloc(), &budget, task, file, source, sink, errors)
        }
    };
    ExitCode::from(status.code())
}
