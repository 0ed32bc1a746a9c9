//! Commands of a script, and questions about its board.

ghost use Rattle.std.specs.Prelude.{◌≡◌, true, false, string_bytes, OnErr, IfOk};
ghost use Rattle.cq_report.specs.declared.stage.Stage.TheVariants.{Serving};
ghost use Rattle.cq_desk.specs.declared.event.Event.TheVariants.{Checkpoint, Enter, Look, Publish};
ghost use Rattle.cq_report.specs.Live.{IsAskTold, IsSettled, is_due, needs_memory, renewed, stage_asked};
ghost use Rattle.cq_ask.specs.Ask.{is_checkpoint, is_find};
ghost use Rattle.cq_ask.specs.Answer.{counts_of};
ghost use Rattle.cq_report.specs.Machine.{form_in, happen, opened, prepare, serving_of};
ghost use Rattle.cq_report.specs.Steps.Turns.{IsKeptUp, IsPage, turn_after, turn_bytes};

use crate::floors::{BoardFloor, SESSION, checkpointed, entered, look, open};
use crate::later::{set_up_later, takes_setup};
use crate::manner::Manner;
use crate::numbering::Numbering;
use crate::outcome::{Outcome, Turn};
use crate::refusal::Refusal;
use crate::script::Script;
use crate::setup::Setup;
use crate::stage::Stage;
use cq_ask::{Ask, AskKind, Counts, counts_of, tell, tell_data};
use cq_atom::{Edit, Name};
use cq_text::{Form, SetupLine};
use std::alloc::{AllocError, Allocator};
use std::mem;

/// Returns the answer to a question about a floor, in lines or as a member of a JSON object.
fn page_of<A: Allocator + Copy>(
    alloc: A,
    form: Form,
    numbering: Numbering,
    floor: &BoardFloor<A>,
    ask: &Ask<A>,
) -> Result<String<A>, AllocError>
    ensures { IfOk result (λ page. IsPage form numbering floor.now ask.now (string_bytes page)) }
{
    match numbering {
        Numbering::Json => tell_data(alloc, form, floor, ask),
        Numbering::Plain | Numbering::Numbered => tell(alloc, form, floor, ask),
    }
}

impl<A: Allocator + Copy> Script<A> {
    /// Takes a line of a setup, and returns the outcome. After a checkpoint the floor takes it, until the next edit is entered.
    pub(crate) fn prepare(&mut self, line: &SetupLine<Name<A>>) -> Result<Outcome, AllocError>
        ensures state { IfOk result (λ outcome. self.new ≡ record self.old { stage = (prepare self.old.stage self.old.heading line.now).0 }) }
        ensures outcome { IfOk result (λ outcome. outcome ≡ (prepare self.old.stage self.old.heading line.now).1) }
        ensures err { OnErr result (self.new ≡ self.old) }
    {
        match &mut self.stage {
            Stage::Setup(setup) if !self.is_closed => setup.set_up(self.heading, line),
            Stage::Serving(floor) if takes_setup(floor) => set_up_later(floor, line),
            _ => Ok(Outcome::Refused(Refusal::Late)),
        }
    }

    /// Publishes all entries, and returns the outcome. It ends a setup, whose floor opens later: so this does not allocate.
    pub(crate) fn publish(&mut self) -> Outcome
        ensures state { self.new ≡ record self.old { stage = (happen self.old.stage Publish).0 } }
        ensures outcome { result ≡ (happen self.old.stage Publish).1 }
    {
        match &mut self.stage {
            Stage::Serving(floor) => Outcome::Published(floor.publish()),
            Stage::Setup(_) => {
                self.is_closed = true;
                Outcome::Published(0)
            }
        }
    }

    /// Serves the lines from now on with this floor.
    fn serve_on(&mut self, floor: BoardFloor<A>)
        ensures { self.new ≡ record self.old { stage = Serving floor } }
    {
        mem::drop(mem::replace(&mut self.stage, Stage::Serving(floor)));
    }

    /// Enters the first edit. A floor is large; only the frames of this call and of `show_first` hold one, so no other
    /// line pays for it. The setup is kept until the edit is entered or refused.
    #[cold]
    #[inline(never)]
    pub(crate) fn enter_first(
        &mut self,
        setup: Setup<A>,
        edit: Edit<A>,
    ) -> Result<Outcome, AllocError>
        requires { serving_of self.old.stage ≡ opened setup }
        ensures state { IfOk result (λ outcome. self.new ≡ record self.old { stage = (happen self.old.stage (Enter 0 edit)).0 }) }
        ensures outcome { IfOk result (λ outcome. outcome ≡ (happen self.old.stage (Enter 0 edit)).1) }
        ensures err { OnErr result (self.new ≡ self.old) }
    {
        let mut floor = open(self.alloc, setup)?;
        let outcome = entered(floor.enter(SESSION, edit))?;
        self.serve_on(floor);
        Ok(outcome)
    }

    /// Shows the board that the setup opens.
    #[cold]
    #[inline(never)]
    fn show_first(&mut self, setup: Setup<A>) -> Result<Turn<A>, AllocError>
        requires { serving_of self.old.stage ≡ opened setup }
        ensures state { IfOk result (λ turn. self.new ≡ record self.old { stage = (happen self.old.stage (Look 0)).0 }) }
        ensures turn { IfOk result (λ turn. turn ≡ turn_after self.old.numbering (happen self.old.stage (Look 0))) }
        ensures err { OnErr result (self.new ≡ self.old) }
    {
        let mut floor = open(self.alloc, setup)?;
        let turn = look(self.alloc, self.numbering, &mut floor)?;
        self.serve_on(floor);
        Ok(turn)
    }

    /// Shows the published board, and returns the reply.
    pub(crate) fn show(&mut self) -> Result<Turn<A>, AllocError>
        ensures state { IfOk result (λ turn. self.new ≡ record self.old { stage = (happen self.old.stage (Look 0)).0 }) }
        ensures turn { IfOk result (λ turn. turn ≡ turn_after self.old.numbering (happen self.old.stage (Look 0))) }
        ensures err { OnErr result (self.new ≡ self.old) }
    {
        match &mut self.stage {
            Stage::Serving(floor) => look(self.alloc, self.numbering, floor),
            Stage::Setup(setup) => {
                let setup = setup.copy()?;
                self.show_first(setup)
            }
        }
    }

    /// Makes a checkpoint of the board that a setup opens, which a publish ended.
    #[cold]
    #[inline(never)]
    fn checkpoint_first(&mut self, setup: Setup<A>) -> Result<Outcome, AllocError>
        requires { self.old.stage ≡ Serving (opened setup) }
        ensures state { IfOk result (λ outcome. self.new ≡ renewed self.old) }
        ensures outcome { IfOk result (λ outcome. outcome ≡ (happen self.old.stage Checkpoint).1) }
        ensures err { OnErr result (self.new ≡ self.old) }
    {
        let mut floor = open(self.alloc, setup)?;
        let outcome = checkpointed(floor.checkpoint())?;
        self.serve_on(floor);
        Ok(outcome)
    }

    /// Makes a checkpoint if all entries are published, and returns the outcome. It does not end a setup.
    pub(crate) fn checkpoint(&mut self) -> Result<Outcome, AllocError>
        ensures state { IfOk result (λ outcome. self.new ≡ renewed self.old) }
        ensures outcome { IfOk result (λ outcome. outcome ≡ (happen self.old.stage Checkpoint).1) }
        ensures err { OnErr result (self.new ≡ self.old) }
    {
        match &mut self.stage {
            Stage::Serving(floor) => checkpointed(floor.checkpoint()),
            Stage::Setup(setup) if self.is_closed => {
                let setup = setup.copy()?;
                self.checkpoint_first(setup)
            }
            Stage::Setup(_) => Ok(Outcome::Checkpointed(0)),
        }
    }

    /// Returns true if a checkpoint is due.
    fn is_due(&self) -> bool
        ensures { result ≡ is_due self.now }
    {
        match &self.stage {
            Stage::Serving(floor) => {
                let since = floor.journal().len() as u64;
                self.every >= 1 && since >= self.every && floor.unpublished_count() == 0
            }
            Stage::Setup(_) => false,
        }
    }

    /// Makes a checkpoint if one is due, the board is live, and no allocation fails.
    pub(crate) fn keep_up(&mut self, manner: Manner)
        ensures { IsKeptUp manner self.old self.new }
    {
        if matches!(manner, Manner::Live) && self.is_due() {
            let _ = self.checkpoint();
        }
    }

    /// Returns the answer to a question about the published board. A setup opens a floor for it, and drops it.
    fn page(&self, ask: &Ask<A>) -> Result<String<A>, AllocError>
        ensures { IfOk result (λ page. IsPage (form_in self.now) self.now.numbering (serving_of self.now.stage) ask.now (string_bytes page)) }
    {
        let form = self.form();
        match &self.stage {
            Stage::Setup(setup) => {
                let floor = open(self.alloc, setup.copy()?)?;
                page_of(self.alloc, form, self.numbering, &floor, ask)
            }
            Stage::Serving(floor) => page_of(self.alloc, form, self.numbering, floor, ask),
        }
    }

    /// Returns the counts of the published board. Does not allocate.
    fn counts(&self) -> Counts
        ensures { result ≡ counts_of (serving_of self.now.stage) }
    {
        match &self.stage {
            Stage::Setup(setup) => setup.counts(),
            Stage::Serving(floor) => counts_of(floor),
        }
    }

    /// Returns the reply to a question about the published board. Does not allocate for `count` and `quit`.
    pub(crate) fn tell(&self, ask: &Ask<A>) -> Result<Turn<A>, AllocError>
        ensures told { IfOk result (λ turn. IsAskTold (form_in self.now) self.now.numbering (serving_of self.now.stage) ask.now (turn_bytes self.now.numbering turn)) }
        ensures wants { OnErr result (needs_memory ask.now.kind ≡ true) }
    {
        if ask.is_quit() {
            return Ok(Turn::plain(self.alloc, Outcome::Quit));
        }
        if matches!(ask.kind(), AskKind::Count) {
            return Ok(Turn::of_counts(self.alloc, self.numbering, self.counts()));
        }
        let page = self.page(ask)?;
        Ok(Turn::of_text(Outcome::Answered(ask.kind()), page))
    }
    /// Returns the reply to a question, or makes the checkpoint that the line asks for.
    pub(crate) fn settle(&mut self, ask: &Ask<A>) -> Result<Turn<A>, AllocError>
        ensures state { IfOk result (λ turn. self.new ≡ record self.old { stage = stage_asked (is_checkpoint ask.now.kind) self.old.stage }) }
        ensures told { IfOk result (λ turn. is_find ask.now.kind ≡ false → IsSettled (is_checkpoint ask.now.kind) (is_find ask.now.kind) (form_in self.old) self.old.numbering (serving_of self.old.stage) ask.now (turn_bytes self.old.numbering turn)) }
        ensures err { OnErr result (self.new ≡ self.old) }
        ensures wants { OnErr result (needs_memory ask.now.kind ≡ true) }
    {
        if ask.is_checkpoint() {
            let outcome = self.checkpoint()?;
            return Ok(Turn::plain(self.alloc, outcome));
        }
        self.tell(ask)
    }
}
