//! Serves a file line by line.

ghost use Rattle.std.specs.Prelude.{◌≡◌, ◌∷◌, ◌++◌, ℕ, List, [], length, IfOk, OnOk, None, Some, option_map, string_bytes, decimal};
ghost use mathlib.Core.List.{IsPrefix};
ghost use Rattle.cq_report.specs.Reading.{Reads};
ghost use Rattle.cq_sessions.specs.Steps.Sheets.{IsEven, Onward, LineServed, ServedTo, BytesServed};
ghost use Rattle.cq_sessions.specs.Steps.Clients.{Ends};
ghost use Rattle.cq_sessions.specs.declared.sheet.Line.TheVariants.{Told};
ghost use Rattle.cq_text.specs.declared.command.CommandKind.TheVariants.{Publish, Show};

use crate::client::Client;
use crate::fault::ServeFault;
use crate::sheet::Sheet;
use cq_report::{Outcome, Refusal, first_line};
use cq_text::{Command, CommandKind, Form, TextFault, read_command};
use std::alloc::{AllocError, Allocator};

/// Takes down the answer to a line.
fn tell<A: Allocator + Copy>(
    sheet: &mut Sheet<A>,
    text: Result<String<A>, AllocError>,
) -> Result<(), ServeFault>
    ensures { (bytes : List ℕ) → IfOk text (λ text. string_bytes text ≡ bytes) → OnOk result (sheet.new ≡ record sheet.old { batch = sheet.old.batch ++ Told (Some bytes) ∷ [] }) }
{
    sheet.tell(Some(text?))
}

/// Answers a publish.
fn publish<A: Allocator + Copy, C: Client<A>>(
    alloc: A,
    client: &mut C,
    sheet: &mut Sheet<A>,
) -> Result<(), ServeFault>
    requires { IsEven sheet.old }
    ensures { OnOk result (Onward C.opening C.limit (C.known client.old) sheet.old (C.known client.new) sheet.new (Reads Publish)) }
{
    let published = client.submit(sheet)?;
    tell(sheet, Outcome::Published(published).to_line(alloc))
}

/// Answers a look.
fn show<A: Allocator + Copy, C: Client<A>>(
    alloc: A,
    client: &mut C,
    sheet: &mut Sheet<A>,
) -> Result<(), ServeFault>
    requires { IsEven sheet.old }
    ensures { OnOk result (Onward C.opening C.limit (C.known client.old) sheet.old (C.known client.new) sheet.new (Reads Show)) }
{
    let count = client.look()?;
    tell(sheet, Outcome::Shown(count).to_line(alloc))
}

/// Answers a command.
fn serve_command<A: Allocator + Copy, C: Client<A>>(
    alloc: A,
    client: &mut C,
    sheet: &mut Sheet<A>,
    command: Command<A>,
) -> Result<(), ServeFault>
    requires { IsEven sheet.old }
    ensures { OnOk result (Onward C.opening C.limit (C.known client.old) sheet.old (C.known client.new) sheet.new (Reads command)) }
{
    match command {
        CommandKind::Blank => sheet.tell(None),
        CommandKind::Setup(_line) => tell(sheet, Outcome::Refused(Refusal::Late).to_line(alloc)),
        CommandKind::Edit(edit) => sheet.gather(edit),
        CommandKind::Publish => publish(alloc, client, sheet),
        CommandKind::Show => show(alloc, client, sheet),
    }
}

/// Reads a line and answers it.
fn serve_line<A: Allocator + Copy, C: Client<A>>(
    alloc: A,
    form: Form,
    client: &mut C,
    sheet: &mut Sheet<A>,
    line: &[u8],
) -> Result<(), ServeFault>
    requires { IsEven sheet.old }
    ensures { OnOk result (LineServed form C.opening C.limit (C.known client.old) sheet.old (C.known client.new) sheet.new line.now) }
{
    match read_command(alloc, line, form) {
        Ok(command) => serve_command(alloc, client, sheet, command),
        Err(TextFault::At { kind, offset }) => {
            let outcome = Outcome::Refused(Refusal::Text { kind, at: offset });
            tell(sheet, outcome.to_line(alloc))
        }
        Err(TextFault::NoMemory) => Err(ServeFault::NoMemory),
    }
}

/// Answers the lines one after another.
fn serve_lines<A: Allocator + Copy, C: Client<A>>(
    alloc: A,
    form: Form,
    client: &mut C,
    sheet: &mut Sheet<A>,
    bytes: &[u8],
) -> Result<(), ServeFault>
    requires even { IsEven sheet.old }
    requires asked { sheet.old.asked ≡ [] }
    ensures { OnOk result (ServedTo form C.opening C.limit (C.known client.old) sheet.old bytes.now (C.known client.new) sheet.new []) }
{
    let mut rest = bytes;
    while let Some((line, behind)) = first_line(rest) {
        serve_line(alloc, form, client, sheet, line)?;
        rest = behind;
    }
    if !rest.is_empty() {
        serve_line(alloc, form, client, sheet, rest)?;
    }
    Ok(())
}

/// Ends a file: submits the edits that wait, where any do.
fn finish<A: Allocator + Copy, C: Client<A>>(
    client: &mut C,
    sheet: &mut Sheet<A>,
) -> Result<(), ServeFault>
    requires { IsEven sheet.old }
    ensures { OnOk result (Ends C.opening C.limit (C.known client.old) sheet.old (C.known client.new) sheet.new.replies sheet.new.numbers) }
{
    if sheet.waits() {
        client.submit(sheet)?;
        return Ok(());
    }
    sheet.end(&[])?;
    Ok(())
}

/// Serves the bytes of a file to their end; what the sheet held stands before their replies.
pub(crate) fn serve_bytes<A: Allocator + Copy, C: Client<A>>(
    alloc: A,
    form: Form,
    client: &mut C,
    sheet: &mut Sheet<A>,
    bytes: &[u8],
) -> Result<(), ServeFault>
    requires even { IsEven sheet.old }
    requires asked { sheet.old.asked ≡ [] }
    ensures { OnOk result (BytesServed form C.opening C.limit (C.known client.old) sheet.old (C.known client.new) sheet.new.replies sheet.new.numbers bytes.now) }
{
    serve_lines(alloc, form, client, sheet, bytes)?;
    finish(client, sheet)
}
