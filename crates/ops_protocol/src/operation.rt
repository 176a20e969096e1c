// Operations: their names, and what the arguments of each say.
ghost use Rattle.std.specs.Prelude.{length, IfSome};
ghost use Rattle.ops_protocol.specs.Sizes.{FitsRoom};

use crate::alter;
use crate::alter::Alteration;
use crate::arguments::Arguments;
use crate::sizes::{REPLY_MOST, TRACE_MOST};
use event::Event;

// A trace, by its number in the protocol.
#[derive(Clone, Copy)]
pub enum Trace {
    // Trace 1.
    One,
    // Trace 2.
    Two,
}

// What a line of text asks for.
#[derive(Clone, Copy)]
pub enum Operation<'b> {
    // A fresh module: its serial number, its port, and the lengths of its traces.
    Start(u32, u32, usize, usize),
    // A line handed over whole: its bytes, and how many the reply buffer has.
    Line(&'b [u8], usize),
    // A byte: whether it carries the end mark, and how many bytes the reply buffer has.
    Byte(u8, bool, usize),
    // A run of bytes: whether the last one carries the end mark, and how many bytes the reply buffer has.
    Run(&'b [u8], bool, usize),
    // An event.
    Event(Event),
    // A word for a slot of a trace.
    Poke(Trace, usize, u32),
    // The state and the traces as text.
    Dump,
    // A serial poll.
    Poll,
    // The script check at a capacity.
    Check(u32, &'b [u8]),
    // Another value for a field of the state.
    Alter(Alteration<'b>),
}

// The trace with a number.
fn trace_of(number: u32) -> Option<Trace> {
    match number {
        1 => Some(Trace::One),
        2 => Some(Trace::Two),
        _ => None,
    }
}

// The event that a name and arguments stand for.
fn decode_event(name: &[u8], arguments: &mut Arguments<'_>) -> Option<Event> {
    match name {
        b"pair" => Some(Event::Latest(arguments.word()?, arguments.word()?)),
        b"tick" => Some(Event::Tick),
        b"trigger" => Some(Event::Trigger),
        b"measured" => Some(Event::Measured(arguments.number(u32::MAX)?)),
        b"raise" => Some(Event::Raised(arguments.byte()?, arguments.byte()?)),
        _ => None,
    }
}

// The operation that a name and arguments stand for. Bytes in hex are stored at the start of a buffer.
fn decode_named<'b>(
    name: &[u8],
    arguments: &mut Arguments<'_>,
    buffer: &'b mut [u8],
) -> Option<Operation<'b>>
    ensures { IfSome result (FitsRoom (length buffer.old)) }
{
    let a = arguments;
    Some(match name {
        b"start" => Operation::Start(
            a.number(u32::MAX)?,
            a.number(u32::MAX)?,
            a.length(TRACE_MOST)?,
            a.length(TRACE_MOST)?,
        ),
        b"line" => Operation::Line(a.bytes(buffer)?, a.length(REPLY_MOST)?),
        b"byte" => Operation::Byte(a.hex_byte()?, a.flag()?, a.length(REPLY_MOST)?),
        b"run" => Operation::Run(a.bytes(buffer)?, a.flag()?, a.length(REPLY_MOST)?),
        b"poke" => Operation::Poke(
            trace_of(a.number(u32::MAX)?)?,
            a.length(usize::MAX)?,
            a.word()?,
        ),
        b"dump" => Operation::Dump,
        b"poll" => Operation::Poll,
        b"check" => Operation::Check(a.number(u32::MAX)?, a.bytes(buffer)?),
        b"alter" => Operation::Alter(alter::decode_alteration(a, buffer)?),
        _ => Operation::Event(decode_event(name, a)?),
    })
}

// The operation that a text asks for. Bytes in hex are stored at the start of a buffer.
pub fn decode_operation<'b>(text: &[u8], buffer: &'b mut [u8]) -> Option<Operation<'b>>
    ensures { IfSome result (FitsRoom (length buffer.old)) }
{
    let mut arguments = Arguments::of(text);
    let name = arguments.next()?;
    let operation = decode_named(name, &mut arguments, buffer)?;
    arguments.is_empty().then_some(operation)
}
