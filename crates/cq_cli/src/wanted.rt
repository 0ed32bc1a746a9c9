//! The words of the command line, by the kit's `clap`.

use crate::replaying::Replaying;
use crate::rows::SheetWords;
use clap::{Arg, ArgAction, ArgMatches, Command, Error, value_parser};
use cq_going::MOST_STEPS;
use cq_render::Extent;
use cq_report::Numbering;
use std::alloc::{AllocError, Global};
use std::convert::AsStr;

/// What `--version` tells: the number, of which CHANGELOG.md says what came with it, and the logic in which the program is proved.
const VERSION: &str = "0.10.0, proved in the logic dac8208d650f15bf";

/// What `version` writes.
pub(crate) const VERSION_LINE: &str = "board 0.10.0, proved in the logic dac8208d650f15bf
";

/// After how many entries a publish makes a checkpoint by default.
const CHECKPOINT_EVERY: u64 = 10_000;

const ABOUT: &str = "A live coordination board for entangled queries.";

const BEHIND: &str = "Commands of a script:
  board, relation, limits, post, withdraw, insert, delete, publish, show
  `board replay --help` has a line on each.

Exit status:
  0  done: refused lines of a script included, and help and version
  1  standard input or standard output failed, or a file or a thread of sessions
  2  words that are no command, a bad relation name, a bad arity, too many files, a bad choice or name
  3  out of memory
  4  a record of CSV at fault; then nothing is written to standard output
  5  a choice that does not coordinate, none that does, or a name under which no query is pending
  6  a coordinating choice was neither found nor ruled out in so many steps
  7  a line was refused, and the replay is strict

docs/formats.md describes the language, its replies, the report, CSV, sessions, and what is told of a board.";

const ABOUT_REPLAY: &str = "Reads a script, and writes its replies and reports.";

const BEHIND_REPLAY: &str = "Lines of a script:
  board FORM                                 the form of the script, 1 or 2 (first line)
  relation NAME ARITY                        declares a database relation (setup)
  limits POOL JOURNAL                        the most pending queries and entries (setup)
  post NAME {POSTCONDITIONS} HEADS <- BODY   a query becomes pending
  withdraw NAME                              the query is pending no more
  insert ROW                                 adds a row
  delete ROW                                 takes a row out
  publish                                    what was entered is published
  show                                       prints the board of the last publish
  # ..                                       a comment

Example:
  relation Flights 2
  insert Flights(122, Paris)
  post kramer {R(Jerry, x)} R(Kramer, x) <- Flights(x, Paris)
  publish
  show

Where a line needs more memory than there is, or than --memory allows, the lines before it are answered, it has no
reply, and `board: out of memory` is told.

With --strict the replay ends at the first line that is refused, once its reply is written.

With --why the script is read to its end before it is replayed. In the end one line on standard error tells of each refused line
why, with its number: of a line that is no command what was expected and what was found there, with a caret, and of a command what
stands in its way. The script is heard once more for it, which takes as much memory again.

Exit status: 0 done (refused lines included), 1 a device failed, 2 usage, 3 out of memory, 7 a line was refused (--strict).
docs/formats.md describes the language.";

const ABOUT_LIVE: &str =
    "Reads lines of a script, and answers each at once, as long as there are any.";

const BEHIND_LIVE: &str =
    "The lines are those of `board replay`, and are answered as it answers them: each before the next one is read. So a program can
drive a board over two pipes.

Beside these, a line may ask about the published board: `count`, `status NAME..`, `query NAME`, `explain [NAME..]`,
`near NAME POST`, `choice CHOICE..`, `choose [NAME..]`, `groups`, `changes`, `graph`, `json`, `dump`. The line `help` lists them.
An answer of several lines ends with `end`. `quit` ends the board, as the end of the input does.

`checkpoint` begins a new journal over what is published, and is answered `checkpoint N` by the number of all entries so far, or `refused
Unpublished` if some are not published. It frees the memory of what went, and changes nothing that is shown; numbers continue. The board
makes one by itself at the first publish that leaves 10000 entries or more since the last one, or as many as --checkpoint says. `limits
POOL JOURNAL` bounds the entries since the last one. After a checkpoint, until the next edit, `relation` and `limits` lines are accepted
again: a relation that no head and no postcondition of a pending query uses, and limits that allow the pending queries.

With --json each line, blank ones too, is answered by one JSON object with its number, in a line of its own: {\"line\":7,\"ok\":5},
{\"line\":9,\"refused\":\"Shape\",\"at\":57}. What a line asks is answered by data:
{\"line\":11,\"status\":[{\"name\":\"kramer\",\"state\":\"matched\"}]}.

A line that needs more memory than there is, or than --memory allows, is answered `refused Memory`. It changes nothing, and the
board goes on. --memory is to be 16384 or more.

Example:
  printf 'post elaine {} R(Elaine, 122) <-\\npublish\\n' | board live
writes
  ok 1
  published 1

Exit status: 0 the lines ended, 1 a device failed, 2 usage, 3 no memory to begin with.
docs/formats.md describes the language.";

const ABOUT_ROWS: &str = "Reads CSV, and writes an insert line for each record, in order.";

const BEHIND_ROWS: &str =
    "A field that is a number of the script language is that number; any other is a text. Where a record is at fault, the first such
is told, counted from 0 behind the header, with its fields, and no line is written. Where the rows need more memory than there is, or than
--memory allows, `board: out of memory` is told, and no line is written. Where the first record seems to be a header, and none was
to be left out, that is told on standard error.

Example:
  printf '122,Paris\\n007,\"Pa\"\"ris\"\\n' | board rows Flights 2
writes
  insert Flights(122, \"Paris\")
  insert Flights(\"007\", \"Pa\\\"ris\")

Exit status: 0 done, 1 a device failed, 2 usage, 3 out of memory, 4 a record at fault.
docs/formats.md describes values and CSV.";

const ABOUT_SESSIONS: &str =
    "Serves files over one board, each by a thread of its own, and writes a script of what came of it.";

const BEHIND_SESSIONS: &str =
    "SETUP and the files are scripts. SETUP is served first; its relation and limits lines count. Then each file, of
which there are 1 to 16, is served by a thread, as one session: what it enters is published by its publish lines and at its
end, and show tells how many entries are published.

What is written is a script: the relations and limits, each entry under a comment with its number and session, a publish
and a show, and the replies to all lines as comments. Replayed, it shows the same board.

Where the sessions need more memory than there is, or than --memory allows, nothing is written, and
`board: out of memory` is told.

Example:
  board sessions setup.board kramer.board jerry.board

Exit status: 0 done (refused lines included), 1 a device failed, 2 usage, 3 out of memory.
docs/formats.md describes sessions.";

const ABOUT_EXPLAIN: &str = "Reads a script, and tells why queries of its board wait.";

const BEHIND_EXPLAIN: &str =
    "The script is read as by `board replay`, and no reply is written. What is told is of the published board, which a `show`
behind the last line would print. A query waits where its body finds no row, or where nobody supplies a postcondition of it but
queries that wait. Without a NAME, each query that waits has one line with its reason, below those on which the reason rests. For
each NAME, and with --tree for each query that waits, the queries on which it rests are told, itself last. With --roots those
reasons alone are told that rest on no other query.

Example:
  relation Flights 2
  insert Flights(122, Paris)
  post kramer {R(Jery, x)} R(Kramer, x) <- Flights(x, Paris)
  post jerry {} R(Jerry, y) <- Flights(y, Rome)
  publish
tells
  kramer waits: post 0 R(\"Jery\", x): no provider; near: jerry head 0 R(\"Jerry\", y)
  jerry waits: no row for its body: Flights(y, \"Rome\"): 0 of 1 row; near \"Paris\"

Exit status: 0 done, 1 a device failed, 2 usage, 3 out of memory, 5 no query of a NAME is pending.
docs/formats.md describes the lines.";

const ABOUT_GRAPH: &str = "Reads a script, and writes the graph of its board for Graphviz.";

const BEHIND_GRAPH: &str =
    "The script is read as by `board replay`, and no reply is written. The graph is of the published board, which a `show`
behind the last line would print: a node for each query, and an edge for each head that supplies a postcondition. With --only those
queries alone are drawn whose names stand behind it, and those on which they hang: who supplies them, and so on.

Example:
  board graph <pool.board | dot -Tsvg >pool.svg

Exit status: 0 done, 1 a device failed, 2 usage, 3 out of memory, 5 no query of a NAME is pending.
docs/formats.md describes the graph.";

const ABOUT_JSON: &str = "Reads a script, and writes the report on its board in JSON.";

const BEHIND_JSON: &str =
    "The script is read as by `board replay`, and no reply is written. The report is on the published board, which a `show`
behind the last line would print.

Example:
  board json <pool.board | jq '.queries[] | select(.state == \"waiting\") | .name'

Exit status: 0 done, 1 a device failed, 2 usage, 3 out of memory.
docs/formats.md describes the shape.";

const ABOUT_DUMP: &str = "Reads a script, and writes a shorter one that makes the same board.";

const BEHIND_DUMP: &str =
    "The script is read as by `board replay`, and no reply is written. What is written makes the published board, which a `show` behind
the last line would print: the form, the relations, the limits, an insert line for each row in order, a post line for each pending query
in posting order, and a publish. Replayed, it gives the same rows, queries and board; only numbers of entries differ. If there are more rows
and queries than the journal may contain, the limits line names their number instead. Edits that are not published are left out; a line on
standard error says how many.

Example:
  board dump <old.board >new.board

Exit status: 0 done, 1 a device failed, 2 usage, 3 out of memory.
docs/formats.md describes the language.";

const ABOUT_CHOICE: &str = "Reads a script, and says whether a choice coordinates on its board.";

const BEHIND_CHOICE: &str =
    "The script is read as by `board replay`, and no reply is written. A CHOICE is a query's name with a value for each variable of
its body in brackets, in the order in which the report lists them. The choices coordinate where they are of distinct pending
queries, each a grounding of its query, and each postcondition equals a head of one of them under these values. What is wrong with a choice
by itself is told on standard error. The board is the published one, which a `show` behind the last line would print.

Example:
  board choice 'kramer(122)' 'jerry(122)' <pool.board
writes
  coordinating

Exit status: 0 coordinating, 1 a device failed, 2 usage, 3 out of memory, 5 not coordinating.
docs/formats.md describes values and choices.";

const ABOUT_CHOOSE: &str = "Reads a script, and looks for a choice that coordinates on its board.";

const BEHIND_CHOOSE: &str =
    "The script is read as by `board replay`, and no reply is written. A choice is sought that coordinates, as `board choice` has it, and
has the query of each NAME. Without a NAME, the matched queries are gone through in posting order, and each is taken that can go with
those that were taken before it. The board is the published one, which a `show` behind the last line would print.

What is found is written in one line, as `board choice` reads it, and below it the atoms that each of its queries offers. Where there
is none, `none` is written, and why, as far as it is told: the names under which no query is pending, or one that waits; and the first
query of which no grounding has everything offered that it awaits. Where the steps were used up before, `undecided` is written.

Example:
  board choose kramer jerry <pool.board
writes
  kramer(122) jerry(122)
    kramer: R(\"Kramer\", 122)
    jerry: R(\"Jerry\", 122)

Exit status: 0 found, 1 a device failed, 2 usage, 3 out of memory, 5 none, 6 undecided.
docs/formats.md describes what is written.";

const ABOUT_VERSION: &str = "Tells the version, and the logic in which the program is proved.";

const ABOUT_GROUPS: &str =
    "Reads a script, and tells which queries of its board hang together, and whether they can go.";

const BEHIND_GROUPS: &str =
    "The script is read as by `board replay`, and no reply is written. Matched queries hang together where one may supply the other, and
where each hangs together with a third. Each group is a line: its queries in posting order, and `can go` where a choice coordinates
that has them all, `cannot` where there is none, `undecided` where that was not found out within the steps, which each group has
anew. The board is the published one, which a `show` behind the last line would print.

Example:
  board groups <pool.board
writes
  kramer jerry: can go

Exit status: 0 done, 1 a device failed, 2 usage, 3 out of memory.
docs/formats.md describes what is written.";

/// What the words ask for.
#[derive(Drop, Debug)]
pub(crate) struct Wanted<'a> {
    /// What is to be done.
    pub(crate) task: Task<'a>,
    /// The word for how many bytes of memory that may take at a time; no bound where there is none.
    pub(crate) memory: Option<&'a str>,
    /// The path of the file that is read in the place of standard input, which `-` stands for.
    pub(crate) file: Option<&'a str>,
    /// Whether it is told how much was read.
    pub(crate) is_watched: bool,
}

/// What is to be done.
#[derive(Drop, Debug)]
pub(crate) enum Task<'a> {
    /// A script is replayed.
    Replay(Replaying),
    /// Lines are answered one at a time.
    Live {
        /// Whether answers are JSON objects.
        numbering: Numbering,
        /// After how many entries a publish makes a checkpoint; never if 0.
        every: u64,
    },
    /// CSV becomes insert lines.
    Rows(SheetWords<'a>),
    /// Files are served over one board.
    Sessions {
        /// The path of the setup.
        setup: &'a str,
        /// The paths of the files.
        files: Vec<&'a str>,
    },
    /// Something is told of the board that a script leaves.
    Look(Look<'a>),
    /// The version is told.
    Version,
}

/// What is to be told of a board.
#[derive(Drop, Debug)]
pub(crate) enum Look<'a> {
    /// Its graph.
    Graph {
        /// The words that stand for the names of those queries that are drawn, with those on which they hang; none for all.
        names: Vec<&'a str>,
        /// Whether groups are drawn in boxes.
        is_boxed: bool,
    },
    /// The report on it, in JSON.
    Json,
    /// A script that makes it.
    Dump,
    /// Which of its queries hang together, and whether they can go.
    Groups {
        /// How many groundings are tried for a group.
        steps: u64,
    },
    /// A coordinating choice.
    Choose {
        /// The words that stand for the queries' names.
        words: Vec<&'a str>,
        /// How many groundings are tried.
        steps: u64,
    },
    /// Why its queries wait.
    Explain {
        /// The words that stand for the queries' names; none for all that wait.
        names: Vec<&'a str>,
        /// Whether each is told of with all on which it rests, also where there is no name.
        is_tree: bool,
        /// Which reasons are told.
        extent: Extent,
    },
    /// Whether choices coordinate.
    Choice {
        /// The words that stand for the choices.
        words: Vec<&'a str>,
    },
}

/// The option that bounds memory.
fn memory<'a>(alloc: Global, help: &'a str) -> Arg<'a> {
    Arg::new(alloc, "memory")
        .long("memory")
        .value_name("BYTES")
        .help(help)
}

/// The word for a file in the place of standard input.
fn file<'a>(alloc: Global) -> Arg<'a> {
    Arg::new(alloc, "source").value_name("FILE").help(
        "The file that is read; standard input where there is none or it is -",
    )
}

/// The same as an option, for a command that takes other words.
fn file_option<'a>(alloc: Global) -> Arg<'a> {
    file(alloc).long("file")
}

/// The option that has it told how much of a script was read.
fn progress<'a>(alloc: Global) -> Arg<'a> {
    Arg::new(alloc, "progress")
        .long("progress")
        .action(ArgAction::SetTrue)
        .help("Tell at a terminal on standard error how much was read")
}

fn replay_command<'a>(alloc: Global) -> Result<Command<'a>, AllocError> {
    Command::new(alloc, "replay")
        .about(ABOUT_REPLAY)
        .after_help(BEHIND_REPLAY)
        .arg(
            Arg::new(alloc, "number")
                .long("number")
                .action(ArgAction::SetTrue)
                .help("Write the number of its line, from 1, before each reply"),
        )?
        .arg(
            Arg::new(alloc, "strict")
                .long("strict")
                .action(ArgAction::SetTrue)
                .help("End at the first line that is refused, with status 7"),
        )?
        .arg(
            Arg::new(alloc, "summary")
                .long("summary")
                .action(ArgAction::SetTrue)
                .help("Sum the script up on standard error in the end"),
        )?
        .arg(
            Arg::new(alloc, "why")
                .long("why")
                .action(ArgAction::SetTrue)
                .help("Tell on standard error why lines are refused"),
        )?
        .arg(progress(alloc))?
        .arg(file(alloc))?
        .arg(memory(
            alloc,
            "The most bytes of memory that the script may have at a time",
        ))
}

fn live_command<'a>(alloc: Global) -> Result<Command<'a>, AllocError> {
    Command::new(alloc, "live")
        .about(ABOUT_LIVE)
        .after_help(BEHIND_LIVE)
        .arg(
            Arg::new(alloc, "json")
                .long("json")
                .action(ArgAction::SetTrue)
                .help("Answer each line by a JSON object"),
        )?
        .arg(
            Arg::new(alloc, "checkpoint")
                .long("checkpoint")
                .value_name("N")
                .value_parser(value_parser!(usize))
                .help(
                    "After how many entries a publish begins a new journal; without it 10000, never if 0",
                ),
        )?
        .arg(file(alloc))?
        .arg(memory(
            alloc,
            "The most bytes of memory that the board may have at a time",
        ))
}

/// A word that has to stand there. A number below 0 is such a word too, and no option.
fn word<'a>(alloc: Global, name: &'a str, help: &'a str) -> Arg<'a> {
    Arg::new(alloc, name)
        .required(true)
        .allow_negative_numbers(true)
        .help(help)
}

fn rows_command<'a>(alloc: Global) -> Result<Command<'a>, AllocError> {
    Command::new(alloc, "rows")
        .about(ABOUT_ROWS)
        .after_help(BEHIND_ROWS)
        .arg(word(
            alloc,
            "RELATION",
            "The relation's name: 1 to 32 letters, digits and _, the first an upper-case letter",
        ))?
        .arg(word(
            alloc,
            "ARITY",
            "How many fields a record has: a number, 1 to 16",
        ))?
        .arg(file(alloc))?
        .arg(
            Arg::new(alloc, "header")
                .long("header")
                .action(ArgAction::SetTrue)
                .help("Leave the first record out, which is a header"),
        )?
        .arg(
            Arg::new(alloc, "delimiter")
                .long("delimiter")
                .value_name("BYTE")
                .help(
                    "What stands between two fields; a comma where it is left out, \\t for a tab",
                ),
        )?
        .arg(memory(
            alloc,
            "The most bytes of memory that the rows may have at a time",
        ))
}

fn sessions_command<'a>(alloc: Global) -> Result<Command<'a>, AllocError> {
    Command::new(alloc, "sessions")
        .about(ABOUT_SESSIONS)
        .after_help(BEHIND_SESSIONS)
        .arg(word(alloc, "SETUP", "The script that is served first"))?
        .arg(word(
            alloc,
            "FILE",
            "The scripts that are served in threads, 1 to 16",
        )
        .num_args(1..))?
        .arg(memory(
            alloc,
            "The most bytes of memory that the sessions may have at a time",
        ))
}

/// The option that bounds the memory of a command that tells something of a board.
fn view_memory<'a>(alloc: Global) -> Arg<'a> {
    memory(
        alloc,
        "The most bytes of memory that the script and what is told may have at a time",
    )
}

fn explain_command<'a>(alloc: Global) -> Result<Command<'a>, AllocError> {
    Command::new(alloc, "explain")
        .about(ABOUT_EXPLAIN)
        .after_help(BEHIND_EXPLAIN)
        .arg(
            Arg::new(alloc, "NAME").num_args(0..).help(
                "The queries that are told of; all that wait where there is no name",
            ),
        )?
        .arg(
            Arg::new(alloc, "tree")
                .long("tree")
                .action(ArgAction::SetTrue)
                .help("Tell of each query with all on which it rests, as for a NAME"),
        )?
        .arg(
            Arg::new(alloc, "roots")
                .long("roots")
                .action(ArgAction::SetTrue)
                .help("Tell the causes alone, which rest on no other query"),
        )?
        .arg(file_option(alloc))?
        .arg(progress(alloc))?
        .arg(view_memory(alloc))
}

fn graph_command<'a>(alloc: Global) -> Result<Command<'a>, AllocError> {
    Command::new(alloc, "graph")
        .about(ABOUT_GRAPH)
        .after_help(BEHIND_GRAPH)
        .arg(file(alloc))?
        .arg(
            Arg::new(alloc, "only")
                .long("only")
                .value_name("NAME")
                .num_args(1..)
                .action(ArgAction::Append)
                .help("Draw these queries, and those on which they hang"),
        )?
        .arg(
            Arg::new(alloc, "clusters")
                .long("clusters")
                .action(ArgAction::SetTrue)
                .help("Draw a box around each group of matched queries"),
        )?
        .arg(progress(alloc))?
        .arg(view_memory(alloc))
}

fn json_command<'a>(alloc: Global) -> Result<Command<'a>, AllocError> {
    Command::new(alloc, "json")
        .about(ABOUT_JSON)
        .after_help(BEHIND_JSON)
        .arg(file(alloc))?
        .arg(progress(alloc))?
        .arg(view_memory(alloc))
}

fn dump_command<'a>(alloc: Global) -> Result<Command<'a>, AllocError> {
    Command::new(alloc, "dump")
        .about(ABOUT_DUMP)
        .after_help(BEHIND_DUMP)
        .arg(file(alloc))?
        .arg(progress(alloc))?
        .arg(view_memory(alloc))
}

fn choice_command<'a>(alloc: Global) -> Result<Command<'a>, AllocError> {
    Command::new(alloc, "choice")
        .about(ABOUT_CHOICE)
        .after_help(BEHIND_CHOICE)
        .arg(word(
            alloc,
            "CHOICE",
            "A query's name, and a value for each variable of its body: NAME(V, ..)",
        )
        .num_args(1..))?
        .arg(file_option(alloc))?
        .arg(progress(alloc))?
        .arg(view_memory(alloc))
}

/// The option that bounds a search.
fn steps<'a>(alloc: Global) -> Arg<'a> {
    Arg::new(alloc, "steps")
        .long("steps")
        .value_name("N")
        .value_parser(value_parser!(usize))
        .help("How many groundings are tried at most; without it 1000000")
}

fn choose_command<'a>(alloc: Global) -> Result<Command<'a>, AllocError> {
    Command::new(alloc, "choose")
        .about(ABOUT_CHOOSE)
        .after_help(BEHIND_CHOOSE)
        .arg(
            Arg::new(alloc, "NAME")
                .num_args(0..)
                .help("The queries that the choice has to have"),
        )?
        .arg(steps(alloc))?
        .arg(file_option(alloc))?
        .arg(progress(alloc))?
        .arg(view_memory(alloc))
}

fn groups_command<'a>(alloc: Global) -> Result<Command<'a>, AllocError> {
    Command::new(alloc, "groups")
        .about(ABOUT_GROUPS)
        .after_help(BEHIND_GROUPS)
        .arg(steps(alloc))?
        .arg(file(alloc))?
        .arg(progress(alloc))?
        .arg(view_memory(alloc))
}

/// A command with one subcommand more. Each of the two is let go here alone, where the other is refused.
fn with<'a>(
    command: Command<'a>,
    subcommand: Result<Command<'a>, AllocError>,
) -> Result<Command<'a>, AllocError> {
    command.subcommand(subcommand?)
}

fn board_command<'a>(alloc: Global) -> Result<Command<'a>, AllocError> {
    let board = Command::new(alloc, "board")
        .version(VERSION)
        .about(ABOUT)
        .after_help(BEHIND)
        .subcommand_required(true)
        .arg_required_else_help(true)
        .bin_name("board")?;
    let board = with(board, replay_command(alloc))?;
    let board = with(board, live_command(alloc))?;
    let board = with(board, rows_command(alloc))?;
    let board = with(board, sessions_command(alloc))?;
    let board = with(board, explain_command(alloc))?;
    let board = with(board, graph_command(alloc))?;
    let board = with(board, json_command(alloc))?;
    let board = with(board, dump_command(alloc))?;
    let board = with(board, choice_command(alloc))?;
    let board = with(board, choose_command(alloc))?;
    let board = with(board, groups_command(alloc))?;
    board.subcommand(Command::new(alloc, "version").about(ABOUT_VERSION))
}

/// All the words that stand for that argument.
fn words_of<'a>(
    alloc: Global,
    matches: &ArgMatches<'a>,
    name: &str,
) -> Result<Vec<&'a str>, AllocError> {
    let mut words = Vec::new(alloc);
    words.extend_from_slice(matches.get_strs(name).unwrap_or(&[]))?;
    Ok(words)
}

/// How many groundings are tried.
fn steps_of(matches: &ArgMatches<'_>) -> u64 {
    match matches.get_one::<usize>("steps") {
        Some(steps) => steps as u64,
        None => MOST_STEPS,
    }
}

/// Returns after how many entries a publish makes a checkpoint.
fn every_of(matches: &ArgMatches<'_>) -> u64 {
    match matches.get_one::<usize>("checkpoint") {
        Some(every) => every as u64,
        None => CHECKPOINT_EVERY,
    }
}

/// Which reasons are told.
fn extent_of(matches: &ArgMatches<'_>) -> Extent {
    if matches.get_flag("roots") {
        Extent::Causes
    } else {
        Extent::All
    }
}

/// How replies are numbered: so, where the option for it stands there.
fn numbered(matches: &ArgMatches<'_>, option: &str, numbering: Numbering) -> Numbering {
    if matches.get_flag(option) {
        numbering
    } else {
        Numbering::Plain
    }
}

/// What a subcommand asks for, by its name and the words after it.
fn task_of<'a>(
    alloc: Global,
    name: &str,
    matches: &ArgMatches<'a>,
) -> Result<Task<'a>, AllocError> {
    Ok(match name {
        "live" => Task::Live {
            numbering: numbered(matches, "json", Numbering::Json),
            every: every_of(matches),
        },
        "rows" => Task::Rows(SheetWords {
            relation: matches.get_str("RELATION").unwrap_or(""),
            arity: matches.get_str("ARITY").unwrap_or(""),
            delimiter: matches.get_str("delimiter").unwrap_or(","),
            has_header: matches.get_flag("header"),
        }),
        "sessions" => Task::Sessions {
            setup: matches.get_str("SETUP").unwrap_or(""),
            files: words_of(alloc, matches, "FILE")?,
        },
        "explain" => Task::Look(Look::Explain {
            names: words_of(alloc, matches, "NAME")?,
            is_tree: matches.get_flag("tree"),
            extent: extent_of(matches),
        }),
        "graph" => Task::Look(Look::Graph {
            names: words_of(alloc, matches, "only")?,
            is_boxed: matches.get_flag("clusters"),
        }),
        "json" => Task::Look(Look::Json),
        "dump" => Task::Look(Look::Dump),
        "groups" => Task::Look(Look::Groups {
            steps: steps_of(matches),
        }),
        "choose" => Task::Look(Look::Choose {
            words: words_of(alloc, matches, "NAME")?,
            steps: steps_of(matches),
        }),
        "choice" => Task::Look(Look::Choice {
            words: words_of(alloc, matches, "CHOICE")?,
        }),
        "version" => Task::Version,
        _ => Task::Replay(Replaying {
            numbering: numbered(matches, "number", Numbering::Numbered),
            is_strict: matches.get_flag("strict"),
            is_summed: matches.get_flag("summary"),
            is_told: matches.get_flag("why"),
        }),
    })
}

/// What the words ask for, of which the first is the program's name.
///
/// # Errors
/// What `clap` says of words that ask for nothing, for help or for the version; `OutOfMemory` where an
/// allocation failed.
pub(crate) fn read_words<'a, S: AsStr>(alloc: Global, words: &'a [S]) -> Result<Wanted<'a>, Error> {
    let matches = board_command(alloc)?.try_get_matches_from(words)?;
    let Some((name, behind)) = matches.subcommand() else {
        return Ok(Wanted {
            task: Task::Replay(Replaying {
                numbering: Numbering::Plain,
                is_strict: false,
                is_summed: false,
                is_told: false,
            }),
            memory: None,
            file: None,
            is_watched: false,
        });
    };
    Ok(Wanted {
        task: task_of(alloc, name, behind)?,
        memory: behind.get_str("memory"),
        file: behind.get_str("source"),
        is_watched: behind.get_flag("progress"),
    })
}
