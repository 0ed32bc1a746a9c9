//! The lines of SETUP before the board is begun.

ghost use Rattle.std.specs.Prelude.{◌≡◌, ◌∷◌, ◌++◌, [], true, None, Some, IfOk, OnOk, MatchBool};
ghost use Rattle.cq_report.specs.Machine.{begin_setup, form_of, headed};
ghost use Rattle.cq_report.specs.Reading.{Reads, Faulty};
ghost use Rattle.cq_report.specs.declared.outcome.Outcome.TheVariants.{Refused};
ghost use Rattle.cq_report.specs.declared.refusal.Refusal.TheVariants.{Text};
ghost use Rattle.cq_report.specs.Reply.{outcome_line};
ghost use Rattle.cq_sessions.specs.declared.sheet.Line.TheVariants.{Told};
ghost use Rattle.cq_text.specs.declared.command.CommandKind.TheVariants as commands;
ghost use Rattle.cq_sessions.specs.Steps.Sheets.{blank};
ghost use Rattle.cq_sessions.specs.Steps.Settings.{Sets, Stays, SetsLine, IsBehind, SetTo, RestBegins};

use crate::fault::ServeFault;
use crate::sheet::Sheet;
use cq_atom::Name;
use cq_report::{Outcome, Refusal, Setup, first_line, form_of, headed};
use cq_text::{Command, CommandKind, Form, Kind, SetupLine, TextFault, read_command};
use std::alloc::Allocator;

/// What the first lines of SETUP set, what they were answered, and what stands after them.
#[derive(Drop)]
pub(crate) struct Setting<'a, A: Allocator> {
    pub(crate) heading: Option<Form>,
    pub(crate) setup: Setup<A>,
    pub(crate) sheet: Sheet<A>,
    pub(crate) rest: &'a [u8],
}

/// Answers a line of the setup, where this form was settled before it, if any.
fn set_up<A: Allocator + Copy>(
    alloc: A,
    heading: Option<Form>,
    setup: &mut Setup<A>,
    sheet: &mut Sheet<A>,
    line: &SetupLine<Name<A>>,
) -> Result<(), ServeFault>
    ensures { OnOk result (Sets heading setup.old sheet.old setup.new sheet.new (Reads (commands.Setup line.now))) }
{
    let outcome = setup.set_up(heading, line)?;
    sheet.tell(Some(outcome.to_line(alloc)?))
}

/// Answers a command of the setup, and says whether it was one; another command ends the setup.
fn set_command<A: Allocator + Copy>(
    alloc: A,
    heading: Option<Form>,
    setup: &mut Setup<A>,
    sheet: &mut Sheet<A>,
    command: &Command<A>,
) -> Result<bool, ServeFault>
    ensures { IfOk result (λ is_set. MatchBool is_set (Sets heading setup.old sheet.old setup.new sheet.new (Reads command.now)) (Stays setup.old sheet.old setup.new sheet.new (Reads command.now))) }
{
    match command {
        CommandKind::Blank => sheet.tell(None)?,
        CommandKind::Setup(line) => set_up(alloc, heading, setup, sheet, line)?,
        CommandKind::Edit(_) | CommandKind::Publish | CommandKind::Show => return Ok(false),
    }
    Ok(true)
}

/// Answers a command of the setup, settles the form that it settles, and says whether it was one.
fn set_read<A: Allocator + Copy>(
    alloc: A,
    heading: &mut Option<Form>,
    setup: &mut Setup<A>,
    sheet: &mut Sheet<A>,
    command: &Command<A>,
) -> Result<bool, ServeFault>
    ensures { IfOk result (λ is_set. MatchBool is_set ((heading.new ≡ headed heading.old (Reads command.now)) × Sets heading.old setup.old sheet.old setup.new sheet.new (Reads command.now)) ((heading.new ≡ heading.old) × Stays setup.old sheet.old setup.new sheet.new (Reads command.now))) }
{
    let settled = headed(*heading, command);
    let is_set = set_command(alloc, *heading, setup, sheet, command)?;
    if !is_set {
        return Ok(false);
    }
    *heading = settled;
    Ok(true)
}

/// Answers a line that is no command, which settles the form in which it was read.
fn set_fault<A: Allocator + Copy>(
    alloc: A,
    heading: &mut Option<Form>,
    sheet: &mut Sheet<A>,
    kind: Kind,
    offset: usize,
) -> Result<bool, ServeFault>
    ensures set { IfOk result (λ is_set. is_set ≡ true) }
    ensures settles { OnOk result (heading.new ≡ headed heading.old (Faulty kind offset)) }
    ensures told { OnOk result (sheet.new ≡ record sheet.old { batch = sheet.old.batch ++ Told (Some (outcome_line (Refused (Text kind offset)))) ∷ [] }) }
{
    let outcome = Outcome::Refused(Refusal::Text { kind, at: offset });
    sheet.tell(Some(outcome.to_line(alloc)?))?;
    *heading = Some(form_of(*heading));
    Ok(true)
}

/// Answers a line of the setup, and says whether it was one.
fn set<A: Allocator + Copy>(
    alloc: A,
    heading: &mut Option<Form>,
    setup: &mut Setup<A>,
    sheet: &mut Sheet<A>,
    line: &[u8],
) -> Result<bool, ServeFault>
    ensures { IfOk result (λ is_set. MatchBool is_set (SetsLine heading.old setup.old sheet.old heading.new setup.new sheet.new line.now) (IsBehind heading.old setup.old sheet.old heading.new setup.new sheet.new line.now)) }
{
    match read_command(alloc, line, form_of(*heading)) {
        Ok(command) => set_read(alloc, heading, setup, sheet, &command),
        Err(TextFault::At { kind, offset }) => set_fault(alloc, heading, sheet, kind, offset),
        Err(TextFault::NoMemory) => Err(ServeFault::NoMemory),
    }
}

/// The end of the bytes.
fn end_of(bytes: &[u8]) -> &[u8]
    ensures { result.now ≡ [] }
{
    let (_, end) = bytes.split_at(bytes.len());
    end
}

/// Answers the lines of the setup, and answers what stands after them.
fn set_all<'a, A: Allocator + Copy>(
    alloc: A,
    heading: &mut Option<Form>,
    setup: &mut Setup<A>,
    sheet: &mut Sheet<A>,
    bytes: &'a [u8],
) -> Result<&'a [u8], ServeFault>
    requires heading { heading.old ≡ None }
    requires setup { setup.old ≡ begin_setup }
    requires sheet { sheet.old ≡ blank }
    ensures set { IfOk result (λ rest. SetTo bytes.now rest.now heading.new setup.new sheet.new) }
    ensures behind { IfOk result (λ rest. RestBegins (form_of heading.new) rest.now) }
{
    let mut rest = bytes;
    while let Some((line, behind)) = first_line(rest) {
        let is_set = set(alloc, heading, setup, sheet, line)?;
        if !is_set {
            return Ok(rest);
        }
        rest = behind;
    }
    if rest.is_empty() {
        return Ok(rest);
    }
    let is_set = set(alloc, heading, setup, sheet, rest)?;
    if is_set {
        return Ok(end_of(rest));
    }
    Ok(rest)
}

/// Answers the lines of SETUP up to the first other one.
pub(crate) fn read_setting<A: Allocator + Copy>(
    alloc: A,
    bytes: &[u8],
) -> Result<Setting<'_, A>, ServeFault>
    ensures set { IfOk result (λ setting. SetTo bytes.now setting.rest.now setting.heading setting.setup setting.sheet) }
    ensures behind { IfOk result (λ setting. RestBegins (form_of setting.heading) setting.rest.now) }
{
    let mut heading = None;
    let mut setup = Setup::begin(alloc);
    let mut sheet = Sheet::begin(alloc);
    let rest = set_all(alloc, &mut heading, &mut setup, &mut sheet, bytes)?;
    Ok(Setting {
        heading,
        setup,
        sheet,
        rest,
    })
}
