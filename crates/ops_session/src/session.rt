// The module that the operations act on, and what each operation does.
use crate::{alter, answer};
use lockin::{Event, Module};
use ops_protocol::{Operation, REPLY_MOST, TRACE_MOST, Trace};
use script::Model;
use terminal::Output;

// What each byte of a reply buffer is before a call.
const UNTOUCHED: u8 = 0xaa;

// A module, its traces, and a buffer for its replies.
#[derive(Clone, Copy)]
pub struct Session {
    // The module.
    pub module: Module,
    // How many slots each of its traces has: the capacity at its start, whatever `alter` makes of it later.
    pub slots: usize,
    // Room for the longest trace 1.
    one: [u32; TRACE_MOST],
    // Room for the longest trace 2.
    two: [u32; TRACE_MOST],
    // Room for the longest reply.
    reply: [u8; REPLY_MOST],
}

// What is lent for a call.
#[derive(Drop)]
struct Lent<'s> {
    // Trace 1.
    one: &'s mut [u32],
    // Trace 2.
    two: &'s mut [u32],
    // The reply buffer.
    reply: &'s mut [u8],
}

impl Session {
    // The session before the first operation: the module of a refused start.
    pub fn new() -> Self {
        let module = lockin::start(0, u32::MAX, &[], &[]).after;
        Session {
            module,
            slots: module.state.installation.capacity as usize,
            one: [0; TRACE_MOST],
            two: [0; TRACE_MOST],
            reply: [0; REPLY_MOST],
        }
    }

    // Starts a fresh module over traces of these lengths, whose words are all 0.
    fn start(
        &mut self,
        out: &mut Output<'_, '_, impl Print>,
        serial: u32,
        port: u32,
        first: usize,
        second: usize,
    ) -> Option<()> {
        self.one.fill(0);
        self.two.fill(0);
        let started = lockin::start(
            serial,
            port,
            self.one.get(..first)?,
            self.two.get(..second)?,
        );
        self.module = started.after;
        self.slots = started.after.state.installation.capacity as usize;
        answer::write_number(out, 'R', lockin::number_of(started.outcome));
        Some(())
    }

    // What is lent for a call with a reply buffer of this length.
    fn lend(&mut self, room: usize) -> Option<Lent<'_>> {
        let slots = self.slots;
        let one = &mut self.one;
        let two = &mut self.two;
        let reply = &mut self.reply;
        let reply = reply.get_mut(..room)?;
        reply.fill(UNTOUCHED);
        Some(Lent {
            one: one.get_mut(..slots)?,
            two: two.get_mut(..slots)?,
            reply,
        })
    }

    // Hands a line to the module, whole.
    fn line(
        &mut self,
        out: &mut Output<'_, '_, impl Print>,
        text: &[u8],
        room: usize,
    ) -> Option<()> {
        let module = self.module;
        let Lent { one, two, reply } = self.lend(room)?;
        let called = lockin::take_line(module, text, one, two, reply);
        answer::write_report(out, called.report, reply);
        self.module = called.after;
        Some(())
    }

    // Hands a byte to the module, with the end mark or without it.
    fn byte(
        &mut self,
        out: &mut Output<'_, '_, impl Print>,
        b: u8,
        mark: bool,
        room: usize,
    ) -> Option<()> {
        let module = self.module;
        let Lent { one, two, reply } = self.lend(room)?;
        let called = lockin::take_byte(module, b, mark, one, two, reply);
        answer::write_report(out, called.report, reply);
        self.module = called.after;
        Some(())
    }

    // Hands a run of bytes to the module, the last one with the end mark or without it.
    fn run(
        &mut self,
        out: &mut Output<'_, '_, impl Print>,
        bytes: &[u8],
        mark: bool,
        room: usize,
    ) -> Option<()> {
        let module = self.module;
        let Lent { one, two, reply } = self.lend(room)?;
        let ran = board::take_run(module, bytes, mark, one, two, reply);
        answer::write_run_report(out, ran.report, reply);
        self.module = ran.after;
        Some(())
    }

    // Hands an event to the module.
    fn event(&mut self, out: &mut Output<'_, '_, impl Print>, e: Event) -> Option<()> {
        let module = self.module;
        let Lent { one, two, .. } = self.lend(0)?;
        let taken = lockin::take_event(module, e, one, two);
        answer::write_number(out, 'A', lockin::number_of(taken.outcome));
        self.module = taken.after;
        Some(())
    }

    // Writes a word into a slot of a trace, where that slot is there: somebody else's write.
    fn poke(
        &mut self,
        out: &mut Output<'_, '_, impl Print>,
        trace: Trace,
        slot: usize,
        word: u32,
    ) -> Option<()> {
        let Lent { one, two, .. } = self.lend(0)?;
        let words = match trace {
            Trace::One => one,
            Trace::Two => two,
        };
        if let Some(place) = words.get_mut(slot) {
            *place = word;
        }
        answer::write_done(out);
        Some(())
    }

    // Writes the state and the traces.
    fn dump(&mut self, out: &mut Output<'_, '_, impl Print>) -> Option<()> {
        let module = self.module;
        let Lent { one, two, .. } = self.lend(0)?;
        answer::write_state(out, &module, one, two);
        Some(())
    }

    // Does what the operation of a line asks for, and writes its answer.
    fn run_operation(
        &mut self,
        out: &mut Output<'_, '_, impl Print>,
        line: &[u8],
        buffer: &mut [u8],
    ) -> Option<()> {
        match ops_protocol::decode_operation(line, buffer)? {
            Operation::Start(serial, port, first, second) => {
                self.start(out, serial, port, first, second)?
            }
            Operation::Line(text, room) => self.line(out, text, room)?,
            Operation::Byte(b, mark, room) => self.byte(out, b, mark, room)?,
            Operation::Run(bytes, mark, room) => self.run(out, bytes, mark, room)?,
            Operation::Event(e) => self.event(out, e)?,
            Operation::Poke(trace, slot, word) => self.poke(out, trace, slot, word)?,
            Operation::Dump => self.dump(out)?,
            Operation::Poll => answer::write_poll(out, self.module),
            Operation::Check(capacity, bytes) => {
                answer::write_verdict(out, script::check(Model::of_capacity(capacity), bytes));
            }
            Operation::Alter(alteration) => {
                alter::alter(&mut self.module, alteration);
                answer::write_done(out);
            }
        }
        Some(())
    }

    // Does what a line asks for; an empty line does nothing, and one that is no operation is answered so. Bytes in hex
    // are stored at the start of a buffer.
    pub fn run_line(
        &mut self,
        out: &mut Output<'_, '_, impl Print>,
        line: &[u8],
        buffer: &mut [u8],
    ) {
        if !line.is_empty() && self.run_operation(out, line, buffer).is_none() {
            answer::write_invalid(out);
        }
    }
}
