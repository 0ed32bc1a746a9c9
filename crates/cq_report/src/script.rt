//! A script, line by line.

ghost use Rattle.std.specs.Prelude.{◌≡◌, ◌<◌, ◌≤◌, ◌+◌, ◌^◌, List, ℕ, Option, Some, true, false, option_map, OnOk, OnErr, IfOk, IfErr};
ghost use Rattle.std.specs.Option.{is_some};
ghost use Rattle.cq_ask.specs.Ask.{is_find, is_quit};
ghost use Rattle.cq_report.specs.Reading.{Reading, Reads, Faulty, IsReading};
ghost use Rattle.cq_report.specs.declared.manner.Manner.TheVariants.{Live};
ghost use Rattle.cq_report.specs.Machine.{State, begin_life, form_in, staged, counted, next};
ghost use Rattle.cq_report.specs.Live.{is_done};
ghost use Rattle.cq_report.specs.Output.{left_in};
ghost use Rattle.cq_report.specs.Refusals.{tallied};
ghost use Rattle.cq_report.specs.Reply.{refusal};
ghost use Rattle.cq_report.specs.Steps.Count.{lines_before};
ghost use Rattle.cq_report.specs.Steps.Serving.{Answers, AnswerStops, IsSound, MayBeStarved};
ghost use Rattle.cq_report.specs.Steps.Turns.{IsRead, IsSaid, IsObeyed, MayFail, plain_turn, turn_in};
ghost use Rattle.cq_report.specs.declared.said.Said.TheVariants.{Asks};
ghost use Rattle.cq_report.specs.Steps.Written.{Fails};

use crate::finding::{find_of, put_find};
use crate::floors::{BoardFloor, SESSION, entered, open};
use crate::heading::{form_of, headed};
use crate::left::Played;
use crate::manner::Manner;
use crate::numbering::Numbering;
use crate::outcome::{Outcome, Turn};
use crate::output::Output;
use crate::refusal::Refusal;
use crate::said::Said;
use crate::setup::Setup;
use crate::stage::Stage;
use crate::tally::Tally;
use cq_ask::{Ask, read_ask};
use cq_devices::{Failed, Sink, Stop};
use cq_text::{Command, CommandKind, Form, Kind, TextFault, one_reading, read_command};
use std::alloc::{AllocError, Allocator};
use std::marker::Model;

/// A script that is served line by line: how replies are numbered, how many lines came, the form that is settled, if any, the setup or the floor, whether
/// the setup ended before a floor was needed, after how many entries a checkpoint is due, if ever, which lines were refused, and whether `quit` was
/// answered. Contracts see the state after its lines.
#[derive(Drop)]
pub struct Script<A: Allocator + Copy> {
    pub(crate) alloc: A,
    pub(crate) numbering: Numbering,
    lines: u128,
    pub(crate) heading: Option<Form>,
    pub(crate) stage: Stage<Setup<A>, BoardFloor<A>>,
    pub(crate) is_closed: bool,
    pub(crate) every: u64,
    tally: Tally,
    is_over: bool,
}

impl<A: Allocator + Copy> Model for Script<A> {
    ghost use Rattle.std.specs.Prelude.{◌≤◌};
    ghost use Rattle.cq_report.specs.Machine.{State};
    ghost use Rattle.cq_report.specs.Steps.Turns.{staged_by};

    ghost Value = { State };

    ghost view = { λ m. record { numbering = m.numbering; lines = m.lines; heading = m.heading; stage = staged_by m.is_closed m.stage; every = m.every; tally = m.tally; is_over = m.is_over } };

    ghost invariant = { λ m. m.tally.refused ≤ m.lines };
}

impl<A: Allocator + Copy> Script<A> {
    /// Returns the state before the first line of a script.
    pub fn begin(alloc: A, numbering: Numbering) -> Self
        ensures state { result ≡ begin_life numbering 0 }
        ensures lines { lines_before result ≡ 0 }
    {
        Script::begin_life(alloc, numbering, 0)
    }

    /// Returns the state before the first line of a live board. After a publish the board makes a checkpoint by itself if at least `every` entries were
    /// entered since the last one, or never if `every` is 0.
    pub(crate) fn begin_life(alloc: A, numbering: Numbering, every: u64) -> Self
        ensures state { result ≡ begin_life numbering every }
        ensures lines { lines_before result ≡ 0 }
    {
        Script {
            alloc,
            numbering,
            lines: 0,
            heading: None,
            stage: Stage::Setup(Setup::begin(alloc)),
            is_closed: false,
            every,
            tally: Tally::begin(),
            is_over: false,
        }
    }

    /// Returns true if a line was refused.
    pub fn has_refused(&self) -> bool
        ensures { result ≡ is_some self.now.tally.first }
    {
        self.tally.first.is_some()
    }

    /// Returns the form in which the next line is read.
    pub fn form(&self) -> Form
        ensures { result ≡ form_in self.now }
    {
        form_of(self.heading)
    }

    /// Returns true if no further line is heard.
    pub(crate) fn is_done(&self, manner: Manner) -> bool
        ensures { result ≡ is_done manner self.now }
    {
        match manner {
            Manner::Script { is_strict } => is_strict && self.has_refused(),
            Manner::Live => self.is_over,
        }
    }

    // ---- readings of lines

    /// Reads a line that does not ask.
    fn read_text(&self, line: &[u8]) -> Said<Ask<A>, Command<A>>
        ensures { IsRead (form_in self.now) line.now result }
    {
        match read_command(self.alloc, line, self.form()) {
            Ok(command) => Said::Says(command),
            Err(TextFault::At { kind, offset }) => Said::Faulty { kind, at: offset },
            Err(TextFault::NoMemory) => Said::Lost,
        }
    }

    /// Reads a line that may ask.
    fn read_live(&self, line: &[u8]) -> Said<Ask<A>, Command<A>>
        ensures { IsSaid Manner.Live (form_in self.now) (Some line.now) result }
    {
        match read_ask(self.alloc, line) {
            Ok(Some(ask)) => Said::Asks(ask),
            Ok(None) => self.read_text(line),
            Err(AllocError) => Said::Lost,
        }
    }

    /// Reads a line, if it was not lost.
    fn read(&self, manner: Manner, line: Option<&[u8]>) -> Said<Ask<A>, Command<A>>
        ensures { IsSaid manner (form_in self.now) (option_map (λ line. line.now) line.entry) result }
    {
        match (line, manner) {
            (None, _) => Said::Lost,
            (Some(line), Manner::Live) => self.read_live(line),
            (Some(line), Manner::Script { is_strict: _ }) => self.read_text(line),
        }
    }

    // ---- effects of lines

    /// Counts a line whose outcome this is, and keeps it if it is the first that is refused.
    fn keep(&mut self, heading: Option<Form>, outcome: Outcome)
        requires { lines_before self.old < 2 ^ 100 }
        ensures { self.new ≡ record (counted self.old) { heading = heading; tally = tallied self.old.tally (self.old.lines + 1) (refusal outcome) } }
    {
        self.lines += 1;
        self.tally.add(self.lines, outcome.refusal());
        self.heading = heading;
    }

    /// Takes a line with a fault of text.
    fn take_faulty(&mut self, kind: Kind, at: usize) -> Turn<A>
        requires { lines_before self.old < 2 ^ 100 }
        ensures state { self.new ≡ next self.old (Faulty kind at) }
        ensures turn { result ≡ turn_in self.old (Faulty kind at) }
    {
        let outcome = Outcome::Refused(Refusal::Text { kind, at });
        let form = self.form();
        self.keep(Some(form), outcome);
        Turn::plain(self.alloc, outcome)
    }

    /// Replies to a question, or makes a checkpoint. After `quit` no further line is processed.
    fn take_ask(&mut self, ask: &Ask<A>) -> Result<Turn<A>, AllocError>
        requires { lines_before self.old < 2 ^ 100 }
        ensures ok { IfOk result (λ turn. IsObeyed Live self.old (Asks ask.now) self.new turn) }
        ensures err { OnErr result (self.new ≡ self.old) }
        ensures wants { OnErr result (MayFail (Asks ask.now)) }
    {
        let turn = self.settle(ask)?;
        self.lines += 1;
        self.is_over = ask.is_quit();
        Ok(turn)
    }

    /// Counts a line, and gives its reply, which has no page.
    fn kept(&mut self, heading: Option<Form>, outcome: Outcome) -> Turn<A>
        requires { lines_before self.old < 2 ^ 100 }
        ensures state { self.new ≡ record (counted self.old) { heading = heading; tally = tallied self.old.tally (self.old.lines + 1) (refusal outcome) } }
        ensures turn { result ≡ plain_turn outcome }
    {
        self.keep(heading, outcome);
        Turn::plain(self.alloc, outcome)
    }

    /// Does what a line says, and gives the reply.
    fn obey(
        &mut self,
        manner: Manner,
        said: Said<Ask<A>, Command<A>>,
    ) -> Result<Turn<A>, AllocError>
        requires { lines_before self.old < 2 ^ 100 }
        ensures ok { IfOk result (λ turn. IsObeyed manner self.old said self.new turn) }
        ensures err { OnErr result (self.new ≡ self.old) }
        ensures wants { OnErr result (MayFail said) }
    {
        let command = match said {
            Said::Says(command) => command,
            Said::Asks(ask) => return self.take_ask(&ask),
            Said::Faulty { kind, at } => return Ok(self.take_faulty(kind, at)),
            Said::Lost => return Err(AllocError),
        };
        let heading = headed(self.heading, &command);
        match command {
            CommandKind::Blank => Ok(self.kept(heading, Outcome::Silent)),
            CommandKind::Setup(line) => {
                let outcome = self.prepare(&line)?;
                Ok(self.kept(heading, outcome))
            }
            CommandKind::Publish => {
                let outcome = self.publish();
                let turn = self.kept(heading, outcome);
                self.keep_up(manner);
                Ok(turn)
            }
            CommandKind::Show => {
                let turn = self.show()?;
                self.keep(heading, turn.outcome);
                Ok(turn)
            }
            CommandKind::Edit(edit) => match &mut self.stage {
                Stage::Serving(floor) => {
                    let outcome = entered(floor.enter(SESSION, edit))?;
                    Ok(self.kept(heading, outcome))
                }
                Stage::Setup(setup) => {
                    let setup = setup.copy()?;
                    let outcome = self.enter_first(setup, edit)?;
                    Ok(self.kept(heading, outcome))
                }
            },
        }
    }

    /// Serves the next line without a reply, and returns why it is refused, if it is. Its work is that of a line in a replay. Lines are counted in 128 bits.
    ///
    /// # Errors
    /// `AllocError` if an allocation fails: then the line was not served.
    pub fn hear(&mut self, line: &[u8]) -> Result<Option<Refusal>, AllocError>
        requires { self.old.lines < 2 ^ 100 }
        ensures read { OnOk result ((reading : Reading) × IsReading (form_in self.old) line.now reading) }
        ensures heard { IfOk result (λ why. (reading : Reading) → IsReading (form_in self.old) line.now reading → (self.new ≡ next self.old reading) × (why ≡ refusal (staged self.old.stage self.old.heading reading).1)) }
        ensures err { OnErr result (self.new ≡ self.old) }
    {
        one_reading();
        let said = self.read_text(line);
        let turn = self.obey(Manner::Script { is_strict: false }, said)?;
        Ok(turn.outcome.refusal())
    }

    // ---- replies

    /// Counts a line at which an allocation failed, and puts the reply, which takes no memory; or, if lines are those of a script, passes on what waits, and
    /// stops.
    fn starve<W: Sink>(&mut self, manner: Manner, output: &mut Output<'_, W, A>) -> Result<(), Stop>
        requires failures { W.write_failures output.old.sink.now < 2 ^ 62 }
        requires lines { lines_before self.old < 2 ^ 100 }
        requires heard { is_done manner self.old ≡ false }
        ensures lines { lines_before self.new ≤ lines_before self.old + 1 }
        ensures ok { OnOk result ((line : Option (List ℕ)) → MayBeStarved manner line → Answers manner W.taken W.write_failures output.old output.new self.old self.new line) }
        ensures err { IfErr result (λ stop. (line : Option (List ℕ)) → MayBeStarved manner line → AnswerStops manner W.taken W.write_failures output.old output.new self.old line stop) }
        ensures fails { IfErr result (λ stop. Fails W.write_failures output.old output.new stop) }
        ensures sound { OnOk result (IsSound W.write_failures output.old output.new) }
    {
        match manner {
            Manner::Script { is_strict: _ } => {
                output.write_out()?;
                Err(Stop::NoMemory)
            }
            Manner::Live => {
                let (numbering, before) = (self.numbering, self.lines);
                self.lines += 1;
                let turn = Turn::plain(self.alloc, Outcome::Refused(Refusal::Memory));
                output.put_reply(numbering, before, &turn)?;
                Ok(())
            }
        }
    }

    /// Counts a line that asks for groundings, and puts the reply. If an allocation fails before, it is as if the line had not been.
    fn answer_find<W: Sink>(
        &mut self,
        manner: Manner,
        ask: &Ask<A>,
        output: &mut Output<'_, W, A>,
    ) -> Result<(), Stop>
        requires failures { W.write_failures output.old.sink.now < 2 ^ 62 }
        requires lines { lines_before self.old < 2 ^ 100 }
        requires heard { is_done manner self.old ≡ false }
        requires finds { is_find ask.now.kind ≡ true }
        ensures lines { lines_before self.new ≤ lines_before self.old + 1 }
        ensures ok { OnOk result ((line : Option (List ℕ)) → IsSaid manner (form_in self.old) line (Asks ask.now) → Answers manner W.taken W.write_failures output.old output.new self.old self.new line) }
        ensures err { IfErr result (λ stop. (line : Option (List ℕ)) → IsSaid manner (form_in self.old) line (Asks ask.now) → AnswerStops manner W.taken W.write_failures output.old output.new self.old line stop) }
        ensures fails { IfErr result (λ stop. Fails W.write_failures output.old output.new stop) }
        ensures sound { OnOk result (IsSound W.write_failures output.old output.new) }
    {
        let (numbering, before) = (self.numbering, self.lines);
        match put_find(
            self.alloc,
            self.form(),
            numbering,
            before,
            &self.stage,
            ask,
            output,
        ) {
            Ok(Ok(())) => {
                self.lines += 1;
                Ok(())
            }
            Ok(Err(Failed)) => Err(Stop::Write),
            Err(_) => self.starve(manner, output),
        }
    }

    /// Serves a line, of which as much is given as is known of it, and puts the reply. If an allocation fails, it is as if the line had not been: the reply says so, unless it is
    /// one of a script, which stops then.
    pub(crate) fn answer<W: Sink>(
        &mut self,
        manner: Manner,
        line: Option<&[u8]>,
        output: &mut Output<'_, W, A>,
    ) -> Result<(), Stop>
        requires failures { W.write_failures output.old.sink.now < 2 ^ 62 }
        requires lines { lines_before self.old < 2 ^ 100 }
        ensures lines { lines_before self.new ≤ lines_before self.old + 1 }
        ensures ok { OnOk result (Answers manner W.taken W.write_failures output.old output.new self.old self.new (option_map (λ line. line.now) line.entry)) }
        ensures err { IfErr result (λ stop. AnswerStops manner W.taken W.write_failures output.old output.new self.old (option_map (λ line. line.now) line.entry) stop) }
        ensures fails { IfErr result (λ stop. Fails W.write_failures output.old output.new stop) }
        ensures sound { OnOk result (IsSound W.write_failures output.old output.new) }
    {
        if self.is_done(manner) {
            return Ok(());
        }
        let (numbering, before) = (self.numbering, self.lines);
        let said = self.read(manner, line);
        if let Some(ask) = find_of(&said) {
            return self.answer_find(manner, ask, output);
        }
        match self.obey(manner, said) {
            Ok(turn) => {
                output.put_reply(numbering, before, &turn)?;
                Ok(())
            }
            Err(AllocError) => self.starve(manner, output),
        }
    }

    /// Returns what the lines leave. The floor opens if the setup lasts.
    ///
    /// # Errors
    /// `AllocError` if an allocation fails.
    pub fn into_played(self) -> Result<Played<A>, AllocError>
        ensures { IfOk result (λ left. left ≡ left_in self) }
    {
        let Script {
            alloc,
            numbering: _,
            lines,
            heading,
            stage,
            is_closed: _,
            every: _,
            tally,
            is_over: _,
        } = self;
        let form = form_of(heading);
        match stage {
            Stage::Setup(setup) => {
                let floor = open(alloc, setup)?;
                Ok(Played::new(floor, form, lines, tally))
            }
            Stage::Serving(floor) => Ok(Played::new(floor, form, lines, tally)),
        }
    }
}
