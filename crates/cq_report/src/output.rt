//! A buffer before a writer.

ghost use Rattle.std.specs.Prelude.{◌≡◌, ◌<◌, ◌+◌, ◌^◌, ℕ, List, ◌++◌, [], OnOk, OnErr};
ghost use Rattle.std.specs.List.{flat_map};
ghost use Rattle.cq_ask.specs.Answer.{part_bytes};
ghost use Rattle.cq_devices.specs.declared.stop.Stop.TheVariants.{Write};
ghost use Rattle.cq_report.specs.Machine.{numbered};
ghost use Rattle.cq_report.specs.Steps.Lines.{number_bytes, line_bytes};
ghost use Rattle.cq_report.specs.Steps.Turns.{turn_bytes};
ghost use Rattle.cq_report.specs.Steps.Written.{Puts, Breaks};

use crate::numbering::Numbering;
use crate::outcome::Turn;
use crate::reply::{ReplyLine, after_page, before_page};
use cq_ask::{CountPart, count_members, count_parts};
use cq_devices::{Failed, Sink, write_all};
use itoa::Buffer;
use std::alloc::Allocator;

/// How many bytes wait at most.
pub(crate) const ROOM: usize = 8192;

/// The number, in more bits.
fn wide(number: Option<u64>) -> Option<u128>
    ensures { result ≡ number }
{
    match number {
        Some(number) => Some(u128::from(number)),
        None => None,
    }
}

/// A writer, and the bytes that wait before it.
///
/// It is given the room for them, so that putting bytes takes no memory. What still waits is lost
/// when the value is let go: `write_out` and `finish` pass it on.
#[derive(Drop)]
pub(crate) struct Output<'w, W: Sink, A: Allocator> {
    sink: &'w mut W,
    held: &'w mut Vec<u8, A>,
}

impl<'w, W: Sink, A: Allocator> Output<'w, W, A> {
    /// The writer, and nothing that waits. What waits later is put into the room.
    pub(crate) fn new(sink: &'w mut W, room: &'w mut Vec<u8, A>) -> Output<'w, W, A>
        requires { room.old.items ≡ [] }
        ensures writer { result.sink.ghost_name ≡ sink.entry.ghost_name }
        ensures same { result.sink.now ≡ sink.old }
        ensures held { result.held.now.items ≡ [] }
    {
        Output { sink, held: room }
    }

    /// Puts bytes after what was put before.
    pub(crate) fn put(&mut self, bytes: &[u8]) -> Result<(), Failed>
        requires { W.write_failures self.old.sink.now < 2 ^ 62 }
        ensures ok { OnOk result (Puts W.taken W.write_failures self.old self.new bytes.now) }
        ensures err { OnErr result (Breaks W.taken W.write_failures self.old self.new bytes.now Write) }
    {
        if bytes.len() <= self.held.capacity() - self.held.len() {
            self.held.extend_from_slice(bytes).unwrap();
            return Ok(());
        }
        self.write_out()?;
        write_all(self.sink, bytes)?;
        Ok(())
    }

    /// Puts a number, if there is one.
    fn put_number(&mut self, number: Option<u128>) -> Result<(), Failed>
        requires { W.write_failures self.old.sink.now < 2 ^ 62 }
        ensures ok { OnOk result (Puts W.taken W.write_failures self.old self.new (number_bytes number)) }
        ensures err { OnErr result (Breaks W.taken W.write_failures self.old self.new (number_bytes number) Write) }
    {
        let mut digits = Buffer::new();
        match number {
            Some(number) => self.put(digits.format(number).as_bytes()),
            None => self.put(b""),
        }
    }

    /// Puts words, a number if there is one, and an end. Does not allocate.
    pub(crate) fn put_part(
        &mut self,
        words: &str,
        number: Option<u128>,
        end: &str,
    ) -> Result<(), Failed>
        requires { W.write_failures self.old.sink.now < 2 ^ 62 }
        ensures ok { OnOk result (Puts W.taken W.write_failures self.old self.new (line_bytes words.now number end.now)) }
        ensures err { OnErr result (Breaks W.taken W.write_failures self.old self.new (line_bytes words.now number end.now) Write) }
    {
        self.put(words.as_bytes())?;
        self.put_number(number)?;
        self.put(end.as_bytes())
    }

    /// Puts the line of a reply, or its members.
    fn put_line(&mut self, line: &ReplyLine) -> Result<(), Failed>
        requires { W.write_failures self.old.sink.now < 2 ^ 62 }
        ensures ok { OnOk result (Puts W.taken W.write_failures self.old self.new line.now) }
        ensures err { OnErr result (Breaks W.taken W.write_failures self.old self.new line.now Write) }
    {
        self.put_part(line.front, None, line.word)?;
        self.put_part(line.before_part, None, line.part)?;
        self.put_part(line.before_number, wide(line.number), line.end)
    }

    /// Puts a piece of the answer to `count`.
    fn put_count(&mut self, part: &CountPart) -> Result<(), Failed>
        requires { W.write_failures self.old.sink.now < 2 ^ 62 }
        ensures ok { OnOk result (Puts W.taken W.write_failures self.old self.new (part_bytes part.now)) }
        ensures err { OnErr result (Breaks W.taken W.write_failures self.old self.new (part_bytes part.now) Write) }
    {
        self.put(part.words.as_bytes())?;
        match part.number {
            None => self.put(b""),
            Some(number) => { self.put_part(part.mark, Some(number), part.mark) }
        }
    }

    /// Puts such pieces.
    fn put_counts(&mut self, parts: &[CountPart]) -> Result<(), Failed>
        requires { W.write_failures self.old.sink.now < 2 ^ 62 }
        ensures ok { OnOk result (Puts W.taken W.write_failures self.old self.new (flat_map part_bytes parts.now)) }
        ensures err { OnErr result (Breaks W.taken W.write_failures self.old self.new (flat_map part_bytes parts.now) Write) }
    {
        for part in parts {
            self.put_count(part)?;
        }
        Ok(())
    }

    /// Puts the page of a reply.
    fn put_page(&mut self, turn: &Turn<A>) -> Result<(), Failed>
        requires { W.write_failures self.old.sink.now < 2 ^ 62 }
        ensures ok { OnOk result (Puts W.taken W.write_failures self.old self.new turn.now.page) }
        ensures err { OnErr result (Breaks W.taken W.write_failures self.old self.new turn.now.page Write) }
    {
        match turn.counts {
            None => self.put(turn.text.as_str().as_bytes()),
            Some((Numbering::Json, counts)) => self.put_counts(&count_members(&counts)),
            Some((Numbering::Plain | Numbering::Numbered, counts)) => self.put_counts(&count_parts(
                &counts,
            )),
        }
    }

    /// Puts a reply without a number, and a tail after it.
    fn put_turn(&mut self, numbering: Numbering, turn: &Turn<A>, tail: &str) -> Result<(), Failed>
        requires { W.write_failures self.old.sink.now < 2 ^ 62 }
        ensures ok { OnOk result (Puts W.taken W.write_failures self.old self.new (turn_bytes numbering turn.now ++ tail.now)) }
        ensures err { OnErr result (Breaks W.taken W.write_failures self.old self.new (turn_bytes numbering turn.now ++ tail.now) Write) }
    {
        self.put_line(&before_page(numbering, turn.outcome))?;
        self.put_page(turn)?;
        self.put_part(after_page(numbering, turn.outcome), None, tail)
    }

    /// Puts the reply to a line after that many others. Does not allocate.
    pub(crate) fn put_reply(
        &mut self,
        numbering: Numbering,
        before: u128,
        turn: &Turn<A>,
    ) -> Result<(), Failed>
        requires before { before < 2 ^ 100 }
        requires failures { W.write_failures self.old.sink.now < 2 ^ 62 }
        ensures ok { OnOk result (Puts W.taken W.write_failures self.old self.new (numbered numbering before (turn_bytes numbering turn.now))) }
        ensures err { OnErr result (Breaks W.taken W.write_failures self.old self.new (numbered numbering before (turn_bytes numbering turn.now)) Write) }
    {
        match numbering {
            Numbering::Plain => self.put_turn(numbering, turn, ""),
            Numbering::Numbered if turn.is_silent() => self.put(b""),
            Numbering::Numbered => {
                self.put_part("", Some(before + 1), ": ")?;
                self.put_turn(numbering, turn, "")
            }
            Numbering::Json => {
                self.put_part("{\"line\":", Some(before + 1), "")?;
                self.put_turn(numbering, turn, "}\n")
            }
        }
    }

    /// Passes on all that waits.
    pub(crate) fn write_out(&mut self) -> Result<(), Failed>
        requires { W.write_failures self.old.sink.now < 2 ^ 62 }
        ensures ok { OnOk result (Puts W.taken W.write_failures self.old self.new []) }
        ensures held { OnOk result (self.new.held.now.items ≡ []) }
        ensures err { OnErr result (Breaks W.taken W.write_failures self.old self.new [] Write) }
    {
        write_all(self.sink, self.held)?;
        self.held.clear();
        Ok(())
    }

    /// Passes on all that waits, and then what the writer itself holds back.
    pub(crate) fn finish(&mut self) -> Result<(), Failed>
        requires { W.write_failures self.old.sink.now < 2 ^ 62 }
        ensures ok { OnOk result (Puts W.taken W.write_failures self.old self.new []) }
        ensures held { OnOk result (self.new.held.now.items ≡ []) }
        ensures err { OnErr result (Breaks W.taken W.write_failures self.old self.new [] Write) }
    {
        self.write_out()?;
        self.sink.flush()?;
        Ok(())
    }
}
