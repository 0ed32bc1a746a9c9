//! Sessions from files: a thread for each file, over one board.

ghost use Rattle.std.specs.Prelude.{◌≡◌, ◌<◌, ◌≤◌, ◌+◌, ◌^◌, ◌∷◌, ◌++◌, [], false, length, map, codes, string_bytes, IfOk, IfErr, OnOk, OnErr, MatchResult};
ghost use Rattle.std.specs.List.{flat_map};
ghost use Rattle.std.specs.Io.KnownBytes.{Appends};
ghost use Rattle.cq_devices.specs.Device.{TakesFront};
ghost use Rattle.cq_desk.specs.History.{edits_of};
ghost use Rattle.cq_desk.specs.Replies.{journal_edits};
ghost use Rattle.cq_sessions.specs.Script.{form_line, declaration_line, limits_line, entries_from, replies_from, sheets_from};
ghost use Rattle.cq_sessions.specs.Sessions.{Ran, IfWritten, Wrote, WroteFrontOf, failures_of, pool_of};
ghost use Rattle.cq_sessions.specs.Steps.Sheets.{IsEven};
ghost use Rattle.cq_sessions.specs.Steps.Clients.{IsOpened, TakesEdits, opened_pool};
ghost use Rattle.cq_sessions.specs.Steps.Rooms.{AreDone, AreTold, IsFirstOf, FilesDone, FirstServes, AllServed, PutEntries, RoomServed, numbers_told};

use crate::client::{BoardClient, Client, Hall};
use crate::fault::{ServeFault, SessionsFault};
use crate::script::{put_entries, put_replies, put_setup, put_sheets};
use crate::serving::serve_bytes;
use crate::setting::{Setting, read_setting};
use crate::sheet::Sheet;
use crate::task::{Done, FileTask};
use crate::telling::is_told;
use crate::threads::run_all;
use cq_atom::Edit;
use cq_board::{Board, Why};
use cq_desk::{Entry, Live};
use cq_devices::{Failed, Sink, write_all};
use cq_report::{Setup, form_of};
use cq_room::{Gate, OpenGate, Parts, Room, RoomName, Session, Watched};
use cq_text::Form;
use std::alloc::{AllocError, Allocator};
use std::marker::Brand;
use std::mem;
use std::sync::Wait;
use std::thread::Threads;

/// The first of the faults that ended threads. A thread that was not started left nothing.
fn first_fault<C, A: Allocator>(
    count: usize,
    lefts: &[Result<Done<C, A>, ServeFault>],
) -> Option<ServeFault>
    ensures { IsFirstOf (length lefts.now < count) lefts.now result }
{
    let mut first = if lefts.len() < count {
        Some(ServeFault::Thread)
    } else {
        None
    };
    for left in lefts {
        first = match left {
            Ok(_) => first,
            Err(fault) => Some(fault.or_before(first)),
        };
    }
    first
}

/// What served the files, and what came of it, each in the files' order.
#[derive(Drop)]
struct Served<C, A: Allocator> {
    clients: Vec<C, A>,
    sheets: Vec<Sheet<A>, A>,
}

/// Takes apart what the threads left.
fn take_apart<C: Drop, A: Allocator + Copy>(
    alloc: A,
    lefts: Vec<Result<Done<C, A>, ServeFault>, A>,
) -> Result<Served<C, A>, ServeFault>
    ensures { IfOk result (λ served. AreDone lefts.items served.clients.items served.sheets.items) }
{
    let mut clients = Vec::new(alloc);
    let mut sheets = Vec::new(alloc);
    for left in lefts {
        let Done { client, sheet } = left?;
        clients.push(client)?;
        sheets.push(sheet)?;
    }
    Ok(Served { clients, sheets })
}

/// A seat for each file.
fn seats<'a, C: Client<A>, G: Gate, A: Allocator + Copy>(
    alloc: A,
    form: Form,
    clients: Vec<C, A>,
    files: &'a [Vec<u8, A>],
    gate: &'a G,
) -> Result<Vec<FileTask<'a, C, G, A>, A>, AllocError>
    requires { length clients.items ≡ length files.now }
    ensures clients { IfOk result (λ seats. map (λ seat. seat.client) seats.items ≡ clients.items) }
    ensures forms { IfOk result (λ seats. map (λ seat. seat.form) seats.items ≡ map (λ _. form) clients.items) }
    ensures files { IfOk result (λ seats. map (λ seat. seat.file.now) seats.items ≡ map (λ file. file.items) files.now) }
{
    let mut seats = Vec::new(alloc);
    let mut place = 0usize;
    for client in clients {
        seats.push(FileTask {
            alloc,
            form,
            client,
            file: files[place].as_slice(),
            gate,
        })?;
        place += 1;
    }
    Ok(seats)
}

/// Serves each file by a thread of its own.
fn serve_files<
    T: Threads + Wait + Sync,
    C: Client<A> + Send,
    G: Gate,
    A: Allocator + Copy + Send + Sync,
>(
    rt: &T,
    alloc: A,
    form: Form,
    clients: Vec<C, A>,
    files: &[Vec<u8, A>],
    gate: &G,
) -> Result<Served<C, A>, ServeFault>
    requires { length clients.items ≡ length files.now }
    ensures { IfOk result (λ served. FilesDone form C.opening C.limit (map C.known clients.items) (map (λ file. file.items) files.now) served.sheets.items (map C.known served.clients.items)) }
{
    let count = clients.len();
    let lefts = run_all(rt, alloc, seats(alloc, form, clients, files, gate)?)?;
    match first_fault(count, &lefts) {
        Some(fault) => Err(fault),
        None => take_apart(alloc, lefts),
    }
}

/// Serves what stands after SETUP's setup, by the first of the clients.
fn serve_setup<C: Client<A>, A: Allocator + Copy>(
    alloc: A,
    form: Form,
    clients: &mut Vec<C, A>,
    sheet: &mut Sheet<A>,
    rest: &[u8],
) -> Result<(), ServeFault>
    requires even { IsEven sheet.old }
    requires asked { sheet.old.asked ≡ [] }
    requires first { 0 < length clients.old.items }
    ensures { OnOk result (FirstServes form C.opening C.limit (map C.known clients.old.items) sheet.old (map C.known clients.new.items) sheet.new rest.now) }
{
    let Some(first) = clients.first_mut() else {
        unreachable!()
    };
    serve_bytes(alloc, form, first, sheet, rest)
}

/// Serves SETUP's rest by the first client, and then each file by a thread of its own.
fn serve_all<
    T: Threads + Wait + Sync,
    C: Client<A> + Send,
    G: Gate,
    A: Allocator + Copy + Send + Sync,
>(
    rt: &T,
    alloc: A,
    form: Form,
    clients: Vec<C, A>,
    sheet: &mut Sheet<A>,
    rest: &[u8],
    files: &[Vec<u8, A>],
    gate: &G,
) -> Result<Served<C, A>, ServeFault>
    requires even { IsEven sheet.old }
    requires asked { sheet.old.asked ≡ [] }
    requires files { 0 < length files.now }
    requires fresh { map C.known clients.items ≡ map (λ _. []) files.now }
    ensures { IfOk result (λ served. AllServed form C.opening C.limit sheet.old rest.now sheet.new (map (λ file. file.items) files.now) served.sheets.items (map C.known served.clients.items)) }
{
    let mut clients = clients;
    serve_setup(alloc, form, &mut clients, sheet, rest)?;
    serve_files(rt, alloc, form, clients, files, gate)
}

/// A client for each session.
fn clients<
    'a,
    L: Live<Edit = Edit<A>, Why = Why, Content = Board>,
    N: RoomName<L::Content>,
    R: Wait + Drop,
    A: Allocator + Copy,
>(
    alloc: A,
    hall: &'a Hall<'a, L, N, R, A>,
    sessions: Vec<Session<L, N, A>, A>,
) -> Result<Vec<BoardClient<'a, L, N, R, A>, A>, AllocError>
    requires opened { IsOpened N.opening }
    requires takes { TakesEdits L.after L.why }
    requires unrenewed { N.renews ≡ false }
    ensures { IfOk result (λ clients. clients.items ≡ map (λ session. journal_edits (edits_of session.history)) sessions.items) }
{
    let mut clients = Vec::new(alloc);
    for session in sessions {
        clients.push(BoardClient::new(hall, session))?;
    }
    Ok(clients)
}

/// The session of each client.
fn sessions_of<
    L: Live<Edit = Edit<A>, Why = Why, Content = Board>,
    N: RoomName<L::Content>,
    R: Wait + Drop,
    A: Allocator + Copy,
>(
    alloc: A,
    clients: Vec<BoardClient<'_, L, N, R, A>, A>,
) -> Result<Vec<Session<L, N, A>, A>, AllocError>
    ensures { IfOk result (λ sessions. map (λ session. journal_edits (edits_of session.history)) sessions.items ≡ clients.entry.items) }
{
    let mut sessions = Vec::new(alloc);
    for client in clients {
        sessions.push(client.into_session())?;
    }
    Ok(sessions)
}

/// Serves SETUP's rest and the files in a room, by its sessions.
fn serve_in<
    L: Live<Edit = Edit<A>, Why = Why, Content = Board> + Send + Sync,
    N: RoomName<L::Content> + Send + Sync,
    R: Wait + Drop + Send + Sync,
    A: Allocator + Copy + Send + Sync,
    T: Threads + Wait + Sync,
    G: Gate,
>(
    rt: &T,
    alloc: A,
    form: Form,
    hall: &Hall<'_, L, N, R, A>,
    sessions: Vec<Session<L, N, A>, A>,
    sheet: &mut Sheet<A>,
    rest: &[u8],
    files: &[Vec<u8, A>],
    gate: &G,
) -> Result<Served<Session<L, N, A>, A>, ServeFault>
    requires opened { IsOpened N.opening }
    requires takes { TakesEdits L.after L.why }
    requires unrenewed { N.renews ≡ false }
    requires even { IsEven sheet.old }
    requires asked { sheet.old.asked ≡ [] }
    requires files { 0 < length files.now }
    requires fresh { map (λ session. journal_edits (edits_of session.history)) sessions.items ≡ map (λ _. []) files.now }
    ensures { IfOk result (λ served. AllServed form (opened_pool N.opening) N.limit sheet.old rest.now sheet.new (map (λ file. file.items) files.now) served.sheets.items (map (λ session. journal_edits (edits_of session.history)) served.clients.items)) }
{
    let clients = clients(alloc, hall, sessions)?;
    let Served { clients, sheets } = serve_all(rt, alloc, form, clients, sheet, rest, files, gate)?;
    Ok(Served {
        clients: sessions_of(alloc, clients)?,
        sheets,
    })
}

/// Puts the entries of a journal, where they are those that were told. They always are.
fn put_told<A: Allocator + Copy>(
    alloc: A,
    journal: &[Entry<Edit<A>>],
    setup: &Sheet<A>,
    sheets: &[Sheet<A>],
    page: &mut String<A>,
) -> Result<(), ServeFault>
    ensures told { OnOk result (AreTold journal.now (numbers_told setup.now.numbers (map (λ sheet. sheet.numbers) sheets.now))) }
    ensures put { OnOk result (string_bytes page.new ≡ string_bytes page.old ++ entries_from 1 journal.now) }
{
    if !is_told(alloc, journal, setup, sheets)? {
        return Err(ServeFault::Places);
    }
    put_entries(alloc, journal, page)?;
    Ok(())
}

/// Closes the room, and puts its entries. The state is a parameter for the reason that `submit_in` has one.
fn close<A: Allocator + Copy, L: Live<Edit = Edit<A>>, N: RoomName<L::Content>, P: Watched<L, N>>(
    rt: &P::Leave,
    alloc: A,
    room: Room<L, N, P, A>,
    sessions: Vec<Session<L, N, A>, A>,
    setup: &Sheet<A>,
    sheets: &[Sheet<A>],
    page: &mut String<A>,
) -> Result<(), ServeFault>
where
    P::Leave: Wait,
    requires { N.renews ≡ false }
    ensures { OnOk result (PutEntries (map (λ session. journal_edits (edits_of session.history)) sessions.items) (numbers_told setup.now.numbers (map (λ sheet. sheet.numbers) sheets.now)) (string_bytes page.old) (string_bytes page.new)) }
{
    let desk = room.close(rt, sessions);
    let put = put_told(alloc, desk.journal(), setup, sheets, page);
    mem::drop(desk);
    put
}

/// Puts what stands after the entries: a publish and a look, and all replies.
fn put_behind<A: Allocator + Copy>(
    alloc: A,
    setup: &Sheet<A>,
    sheets: &[Sheet<A>],
    page: &mut String<A>,
) -> Result<(), AllocError>
    ensures { OnOk result (string_bytes page.new ≡ string_bytes page.old ++ (codes "publish\nshow\n" ++ replies_from (codes "setup") 1 setup.now.replies ++ sheets_from 0 (map (λ sheet. sheet.replies) sheets.now))) }
{
    page.push_str("publish\nshow\n")?;
    put_replies(alloc, "setup", setup, page)?;
    put_sheets(alloc, sheets, page)
}

/// Serves SETUP's rest and the files in the room that the parts make, and puts what came of it.
fn serve_room<
    T: Threads + Wait + Sync,
    N: RoomName<Board> + Send + Sync,
    R: Wait + Drop + Send + Sync,
    G: Gate,
    A: Allocator + Copy + Send + Sync,
>(
    threads: &T,
    rt: &R,
    alloc: A,
    form: Form,
    parts: Parts<Board<A>, R, A>,
    sheet: &mut Sheet<A>,
    rest: &[u8],
    files: &[Vec<u8, A>],
    gate: &G,
    page: &mut String<A>,
) -> Result<(), ServeFault>
    requires book { parts.book ≡ N.book }
    requires opening { N.opening ≡ parts.opening ∷ [] }
    requires limit { N.limit ≡ parts.limit }
    requires unrenewed { N.renews ≡ false }
    requires even { IsEven sheet.old }
    requires asked { sheet.old.asked ≡ [] }
    requires files { 0 < length files.now }
    requires seats { parts.sessions ≡ length files.now }
    ensures { OnOk result (RoomServed form parts.opening parts.limit sheet.old rest.now (map (λ file. file.items) files.now) (string_bytes page.old) (string_bytes page.new)) }
{
    let (room, sessions) = match parts.open::<N>() {
        Ok(opened) => opened,
        Err(fault) => return Err(ServeFault::of_room(fault)),
    };
    let hall = Hall { rt, room: &room };
    let Served { clients, sheets } = serve_in(
        threads, alloc, form, &hall, sessions, sheet, rest, files, gate,
    )?;
    close(rt, alloc, room, clients, sheet, &sheets, page)?;
    put_behind(alloc, sheet, &sheets, page)?;
    Ok(())
}

/// The parts of a room over the setup's board, with a session for each file; what sets the board up is put.
fn begin<R: Wait + Drop, A: Allocator + Copy>(
    rt: R,
    alloc: A,
    form: Form,
    setup: Setup<A>,
    files: usize,
    page: &mut String<A>,
) -> Result<Parts<Board<A>, R, A>, ServeFault>
    ensures opening { IfOk result (λ parts. parts.opening ≡ pool_of setup) }
    ensures limit { IfOk result (λ parts. parts.limit ≡ setup.limits.journal) }
    ensures sessions { IfOk result (λ parts. parts.sessions ≡ files) }
    ensures put { OnOk result (string_bytes page.new ≡ string_bytes page.old ++ (form_line form ++ flat_map declaration_line setup.catalog ++ limits_line setup.limits)) }
{
    let (catalog, limits) = setup.into_parts();
    put_setup(alloc, form, &catalog, limits, page)?;
    let board = Board::begin(alloc, catalog, limits)?;
    match Room::begin(rt, alloc, board, limits.journal, files) {
        Ok(parts) => Ok(parts),
        Err(fault) => Err(ServeFault::of_room(fault)),
    }
}

/// The script that SETUP and the files leave.
fn script_of<T: Threads + Wait + Sync, G: Gate, A: Allocator + Copy + Send + Sync>(
    rt: &T,
    alloc: A,
    setup: &[u8],
    files: &[Vec<u8, A>],
    gate: &G,
) -> Result<String<A>, ServeFault>
    requires { 0 < length files.now }
    ensures { IfOk result (λ text. Ran setup.now (map (λ file. file.items) files.now) (string_bytes text)) }
{
    let Setting {
        heading,
        setup,
        mut sheet,
        rest,
    } = read_setting(alloc, setup)?;
    let form = form_of(heading);
    let mut page = String::new(alloc);
    let parts = begin(rt, alloc, form, setup, files.len(), &mut page)?;
    serve_room::<T, Brand, &T, G, A>(
        rt, &rt, alloc, form, parts, &mut sheet, rest, files, gate, &mut page,
    )?;
    Ok(page)
}

/// Writes the text, and passes it on.
fn write_out<W: Sink>(writer: &mut W, text: &str) -> Result<(), Failed>
    requires { W.write_failures writer.old < 2 ^ 62 }
    ensures ok { OnOk result (Appends (W.taken writer.old) (W.taken writer.new) text.now) }
    ensures err { OnErr result (TakesFront (W.taken writer.old) (W.taken writer.new) text.now) }
    ensures failures { MatchResult result (λ _. W.write_failures writer.new ≡ W.write_failures writer.old) (λ _. W.write_failures writer.new ≡ W.write_failures writer.old + 1) }
{
    write_all(writer, text.as_bytes())?;
    writer.flush()
}

/// Serves SETUP and the files over one board, and writes the script that they leave; each file's thread passes the gate
/// before its first line.
///
/// SETUP is served first, by session 0, before any thread starts. Its `relation` and `limits` lines count up to the first line
/// of another command. Then file k, counted from 0, is served by a thread of its own as session k. Edits wait for
/// the next `publish` line, which submits them, and what waits at a file's end is submitted there. All threads are
/// joined before anything is written. The script has the relations and limits, each entry of the journal under a comment
/// with its number and session, `publish`, `show`, and the replies to all lines as comments, by file and line.
///
/// It waits for others: for threads, and for the room's lock. The time is that of the edits, and of the script's bytes, all of which are
/// in memory before the first is written.
///
/// # Errors
/// `Places` where a session got no place or a look was refused, which never happens; `Thread` where a thread was not started: those that
/// were are joined; `NoMemory` where an allocation failed. Of these the first in this order is answered, and nothing is written. `Write`
/// where the writer failed: a front of the script is written then.
pub fn run_sessions_past<
    T: Threads + Wait + Sync,
    W: Sink,
    G: Gate,
    A: Allocator + Copy + Send + Sync,
>(
    rt: &T,
    alloc: A,
    setup: &[u8],
    files: &[Vec<u8, A>],
    writer: &mut W,
    gate: &G,
) -> Result<(), SessionsFault>
    requires files { (0 < length files.now) × (length files.now ≤ 16) }
    requires failures { W.write_failures writer.old < 2 ^ 62 }

    // A script of a room in which SETUP and the files were served is written whole; or a front of one, where the writer failed.
    ensures ok { OnOk result (Wrote setup.now (map (λ file. file.items) files.now) (W.taken writer.old) (W.taken writer.new)) }
    ensures write { IfErr result (λ fault. IfWritten fault (WroteFrontOf setup.now (map (λ file. file.items) files.now) (W.taken writer.old) (W.taken writer.new)) (writer.new ≡ writer.old)) }

    // Whose fault it was.
    ensures write_failures { MatchResult result (λ _. W.write_failures writer.new ≡ W.write_failures writer.old) (λ fault. W.write_failures writer.new ≡ W.write_failures writer.old + failures_of fault) }
{
    let text = script_of(rt, alloc, setup, files, gate)?;
    match write_out(writer, text.as_str()) {
        Ok(()) => Ok(()),
        Err(_) => Err(SessionsFault::Write),
    }
}

/// Serves SETUP and the files over one board, and writes the script that they leave: `run_sessions_past` with a gate that holds nobody.
///
/// # Errors
/// As those of `run_sessions_past`.
pub fn run_sessions<T: Threads + Wait + Sync, W: Sink, A: Allocator + Copy + Send + Sync>(
    rt: &T,
    alloc: A,
    setup: &[u8],
    files: &[Vec<u8, A>],
    writer: &mut W,
) -> Result<(), SessionsFault>
    requires files { (0 < length files.now) × (length files.now ≤ 16) }
    requires failures { W.write_failures writer.old < 2 ^ 62 }

    // A script of a room in which SETUP and the files were served is written whole; or a front of one, where the writer failed.
    ensures ok { OnOk result (Wrote setup.now (map (λ file. file.items) files.now) (W.taken writer.old) (W.taken writer.new)) }
    ensures write { IfErr result (λ fault. IfWritten fault (WroteFrontOf setup.now (map (λ file. file.items) files.now) (W.taken writer.old) (W.taken writer.new)) (writer.new ≡ writer.old)) }

    // Whose fault it was.
    ensures write_failures { MatchResult result (λ _. W.write_failures writer.new ≡ W.write_failures writer.old) (λ fault. W.write_failures writer.new ≡ W.write_failures writer.old + failures_of fault) }
{
    run_sessions_past(rt, alloc, setup, files, writer, &OpenGate)
}
