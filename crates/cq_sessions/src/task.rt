//! A file's thread.

ghost use Rattle.std.specs.Prelude.{IfOk};
ghost use Rattle.cq_sessions.specs.Steps.Rooms.{LeavesFile};

use crate::client::Client;
use crate::fault::ServeFault;
use crate::serving::serve_bytes;
use crate::sheet::Sheet;
use crate::threads::Job;
use cq_room::Gate;
use cq_text::Form;
use std::alloc::Allocator;

/// What serves a file is done with it.
#[derive(Drop)]
pub(crate) struct Done<C, A: Allocator> {
    pub(crate) client: C,
    pub(crate) sheet: Sheet<A>,
}

/// A file that is to be served in a thread.
#[derive(Drop)]
pub(crate) struct FileTask<'a, C, G, A: Allocator> {
    pub(crate) alloc: A,
    pub(crate) form: Form,
    pub(crate) client: C,
    pub(crate) file: &'a [u8],
    pub(crate) gate: &'a G,
}

impl<'a, C: Client<A> + Send, G: Gate, A: Allocator + Copy + Send + Sync> Job
    for FileTask<'a, C, G, A> {
    type Left = Result<Done<C, A>, ServeFault>;

    ghost leaves = { λ seat left. IfOk left (λ done. LeavesFile seat.form C.opening C.limit (C.known seat.client) seat.file.now done.sheet (C.known done.client)) };

    fn run(self) -> Result<Done<C, A>, ServeFault> {
        let FileTask {
            alloc,
            form,
            mut client,
            file,
            gate,
        } = self;
        gate.pass();
        let mut sheet = Sheet::begin(alloc);
        serve_bytes(alloc, form, &mut client, &mut sheet, file)?;
        Ok(Done { client, sheet })
    }
}
