// One command of a line, read from its text: a set, a query or an action with its arguments, or refusal 1 or 2.
#![tactic(auto)]

ghost use Rattle.std.specs.Prelude.{◌≡◌, ◌+◌, ◌-◌, ◌*◌, ◌<◌, ◌≤◌, length, MatchResult};
ghost use Rattle.split.specs.Divide.{span, before, after};
ghost use Rattle.outcome.specs.declared.Refusal.TheVariants.{Malformed};
ghost use Rattle.command.specs.Arguments.{comma, arguments};
ghost use Rattle.command.specs.Parsed.{parsed_of, read_as, set_with, query_with, alone};
ghost use Rattle.command.specs.Parts.{read_one, read_two, read_three, read_whole, whole_taken, setting_taken};
ghost use Rattle.command.specs.Parts.{setting_read, channel_read, pair_read, bit_read, enable_read};
ghost use Rattle.command.specs.Parts.{channel_asked, pair_asked, enable_asked, status_asked, trace_asked};

use mnemonic::{Action, Form, Meaning, Register};
use number::{Quantity, Range};
use outcome::Refusal;
use settings::Settings;

// The number of a register's highest bit.
const BIT_MOST: u32 = 7;

// The highest value of a register, all eight bits set.
const REGISTER_MOST: u32 = 0xFF;

// How many traces there are.
const TRACES: u32 = 2;

// The arguments of a set: a setting by its entry in the settings table, a value in the units of its entry, bias added.
#[derive(Clone, Copy)]
pub enum SetArgument {
    // One setting's value: entry, value.
    Value(usize, u32),
    // Two values of one channel, at neighbouring entries: first entry, first value, second value.
    Pair(usize, u32, u32),
    // All bits of an enable register: register, value.
    Enable(Register, u32),
    // One bit of an enable register: register, bit, 0 or 1.
    EnableBit(Register, u32, u32),
}

// The arguments of a query. Traces and bins are numbered as in the command.
#[derive(Clone, Copy)]
pub enum QueryArgument {
    // One setting's value: entry.
    Value(usize),
    // Two values of one channel, at neighbouring entries: first entry.
    Pair(usize),
    // All bits of an enable register.
    Enable(Register),
    // One bit of an enable register: register, bit.
    EnableBit(Register, u32),
    // All bits of an event register or of the status byte.
    Status(Register),
    // One bit of an event register or of the status byte: register, bit.
    StatusBit(Register, u32),
    // *IDN?: what the module is, and its serial number.
    Identity,
    // SPTS?: how many points are held.
    Points,
    // TRCL? and TRCB?: form, trace from 1, first bin, count of points.
    Trace(Form, u32, u32, u32),
}

// What kind of command it is, with its arguments.
#[derive(Clone, Copy)]
pub enum Kind {
    // Sets a value.
    Set(SetArgument),
    // Asks for a reply.
    Query(QueryArgument),
    // Acts without arguments, as STRT.
    Act(Action),
}

// A command that was read and whose arguments are in range.
#[derive(Clone, Copy)]
pub struct Command {
    // Set, query or action, with the arguments.
    pub kind: Kind,
}

// What a command's text is read as: a command, or refusal 1 or 2; none where it has no byte, which does nothing, but
// counts as a place of its line.
pub type Parsed = Result<Option<Command>, Refusal>;

// One argument: a number, in units of 10^-decimals.
#[tactic(auto, unfolding(crate::specs::Parts::read_one))]
fn read_one(args: &[u8], decimals: u8) -> Result<Quantity, Refusal>
    ensures { result ≡ read_one decimals args.now }
{
    number::read(args, decimals).ok_or(Refusal::Malformed)
}

// The texts before and after the first comma.
fn divided(args: &[u8]) -> Result<(&[u8], &[u8]), Refusal>
    ensures { MatchResult result
        (λ p. (span comma args.now < length args.now)
        × (p.0.now ≡ before comma args.now) × (p.1.now ≡ after comma args.now))
        (λ r. (length args.now ≤ span comma args.now) × (r ≡ Malformed)) }
{
    let comma = split::span_of(args, b',');
    let after = args.get(comma + 1..).ok_or(Refusal::Malformed)?;
    Ok((&args[..comma], after))
}

// Two arguments: numbers, in units by their decimals `first` and `second`.
#[tactic(auto, unfolding(crate::specs::Parts::read_two))]
fn read_two(args: &[u8], first: u8, second: u8) -> Result<(Quantity, Quantity), Refusal>
    ensures { result ≡ read_two first second args.now }
{
    let (text, more) = divided(args)?;
    Ok((read_one(text, first)?, read_one(more, second)?))
}

// Three arguments: numbers, in units by their decimals `first`, `second` and `third`.
#[tactic(auto, unfolding(crate::specs::Parts::read_three))]
fn read_three(
    args: &[u8],
    first: u8,
    second: u8,
    third: u8,
) -> Result<(Quantity, Quantity, Quantity), Refusal>
    ensures { result ≡ read_three first second third args.now }
{
    let (text, more) = divided(args)?;
    let a = read_one(text, first)?;
    let (b, c) = read_two(more, second, third)?;
    Ok((a, b, c))
}

// A number as a whole-number argument from `low` to `high`.
#[tactic(auto, unfolding(crate::specs::Parts::whole_taken))]
fn whole_of(q: Quantity, low: u32, high: u32) -> Result<u32, Refusal>
    ensures { result ≡ whole_taken low high q }
{
    let range = Range {
        bias: 0,
        low,
        high,
        step: 1,
        whole: true,
    };
    let Some(value) = number::take(q, range) else {
        return Err(Refusal::OutOfRange);
    };
    Ok(value)
}

// A number as a setting's value.
#[tactic(auto, unfolding(crate::specs::Parts::setting_taken))]
fn value_of(entry: usize, q: Quantity) -> Result<u32, Refusal>
    ensures { result ≡ setting_taken entry q }
{
    let Some(value) = settings::take_value(entry, q) else {
        return Err(Refusal::OutOfRange);
    };
    Ok(value)
}

// One argument: a whole number from `low` to `high`.
#[tactic(auto, unfolding(crate::specs::Parts::read_whole))]
fn read_whole(args: &[u8], low: u32, high: u32) -> Result<u32, Refusal>
    ensures { result ≡ read_whole low high args.now }
{
    whole_of(read_one(args, 0)?, low, high)
}

// The first entry of a channel, counted from 1, where channel 1's is at `base` and each channel has `each` entries.
fn entry_of(base: u8, each: usize, channel: u32) -> usize
    requires { each ≤ 2 }
    ensures { result ≡ base + each * (channel - 1) }
{
    base as usize + each * channel.saturating_sub(1) as usize
}

// A set of a setting without channels, as PHAS x.
fn set_setting(entry: usize, args: &[u8]) -> Result<Kind, Refusal>
    ensures { result ≡ setting_read entry args.now }
{
    let x = read_one(args, settings::row_of(entry).decimals)?;
    Ok(Kind::Set(SetArgument::Value(entry, value_of(entry, x)?)))
}

// A set of one channel's setting, as AUXV i,x.
fn set_channel(base: u8, channels: u8, args: &[u8]) -> Result<Kind, Refusal>
    ensures { result ≡ channel_read base channels args.now }
{
    let (i, x) = read_two(args, 0, settings::row_of(base as usize).decimals)?;
    let channel = whole_of(i, 1, channels as u32)?;
    let value = value_of(base as usize, x)?;
    Ok(Kind::Set(SetArgument::Value(entry_of(base, 1, channel), value)))
}

// A set of a channel's two settings, as OEXP i,x,j.
fn set_pair(base: u8, channels: u8, args: &[u8]) -> Result<Kind, Refusal>
    ensures { result ≡ pair_read base channels args.now }
{
    let first = base as usize;
    let next = first + 1;
    let (i, x, y) = read_three(
        args,
        0,
        settings::row_of(first).decimals,
        settings::row_of(next).decimals,
    )?;
    let channel = whole_of(i, 1, channels as u32)?;
    let value = value_of(first, x)?;
    let other = value_of(next, y)?;
    Ok(Kind::Set(SetArgument::Pair(entry_of(base, 2, channel), value, other)))
}

// A set of one bit of an enable register, as *ESE i,v.
fn set_bit(register: Register, args: &[u8]) -> Result<Kind, Refusal>
    ensures { result ≡ bit_read register args.now }
{
    let (i, v) = read_two(args, 0, 0)?;
    let bit = whole_of(i, 0, BIT_MOST)?;
    Ok(Kind::Set(SetArgument::EnableBit(register, bit, whole_of(v, 0, 1)?)))
}

// A set of an enable register, as *ESE v, or of one bit of it.
fn set_enable(register: Register, args: &[u8]) -> Result<Kind, Refusal>
    ensures { result ≡ enable_read register args.now }
{
    match read_one(args, 0) {
        Ok(v) => Ok(Kind::Set(SetArgument::Enable(register, whole_of(v, 0, REGISTER_MOST)?))),
        Err(_) => set_bit(register, args),
    }
}

// A query of one channel's setting, as AUXV? i.
fn query_channel(base: u8, channels: u8, args: &[u8]) -> Result<Kind, Refusal>
    ensures { result ≡ channel_asked base channels args.now }
{
    let channel = read_whole(args, 1, channels as u32)?;
    Ok(Kind::Query(QueryArgument::Value(entry_of(base, 1, channel))))
}

// A query of a channel's two settings, as OEXP? i.
fn query_pair(base: u8, channels: u8, args: &[u8]) -> Result<Kind, Refusal>
    ensures { result ≡ pair_asked base channels args.now }
{
    let channel = read_whole(args, 1, channels as u32)?;
    Ok(Kind::Query(QueryArgument::Pair(entry_of(base, 2, channel))))
}

// A query of an enable register, as *ESE?, or of one bit of it.
fn query_enable(register: Register, args: &[u8]) -> Result<Kind, Refusal>
    ensures { result ≡ enable_asked register args.now }
{
    if args.is_empty() {
        return Ok(Kind::Query(QueryArgument::Enable(register)));
    }
    Ok(Kind::Query(QueryArgument::EnableBit(register, read_whole(args, 0, BIT_MOST)?)))
}

// A query of an event register or of the status byte, as *ESR?, or of one bit of it.
fn query_status(register: Register, args: &[u8]) -> Result<Kind, Refusal>
    ensures { result ≡ status_asked register args.now }
{
    if args.is_empty() {
        return Ok(Kind::Query(QueryArgument::Status(register)));
    }
    Ok(Kind::Query(QueryArgument::StatusBit(register, read_whole(args, 0, BIT_MOST)?)))
}

// A query of a trace, TRCL? or TRCB?: trace, first bin and count.
fn query_trace(form: Form, args: &[u8]) -> Result<Kind, Refusal>
    ensures { result ≡ trace_asked form args.now }
{
    let (i, j, k) = read_three(args, 0, 0, 0)?;
    let trace = whole_of(i, 1, TRACES)?;
    let bin = whole_of(j, 0, Settings::CAPACITY_MOST)?;
    let count = whole_of(k, Settings::CAPACITY_LEAST, Settings::CAPACITY_MOST)?;
    Ok(Kind::Query(QueryArgument::Trace(form, trace, bin, count)))
}

// A command that takes no argument.
#[tactic(auto, using(crate::proofs::Exact::alone_lem))]
fn alone(kind: Kind, args: &[u8]) -> Result<Kind, Refusal>
    ensures { result ≡ alone kind (arguments args.now) }
{
    args.is_empty().then_some(kind).ok_or(Refusal::Malformed)
}

// A set or an action: what the name means, and the arguments' text after it.
#[tactic(auto, unfolding(crate::specs::Parsed::set_with))]
fn set_with(meaning: Meaning, args: &[u8]) -> Result<Kind, Refusal>
    ensures { result ≡ set_with meaning (arguments args.now) }
{
    match meaning {
        Meaning::Setting(entry) => set_setting(entry, args),
        Meaning::Channel { base, channels } => set_channel(base, channels, args),
        Meaning::ChannelPair { base, channels } => set_pair(base, channels, args),
        Meaning::Enable(register) => set_enable(register, args),
        Meaning::Act(action) => alone(Kind::Act(action), args),
        Meaning::Status(_) | Meaning::Identity => Err(Refusal::Malformed),
        Meaning::Points | Meaning::Trace(_) => Err(Refusal::Malformed),
    }
}

// A query: what the name means, and the arguments' text after "?".
#[tactic(auto, unfolding(crate::specs::Parsed::query_with))]
fn query_with(meaning: Meaning, args: &[u8]) -> Result<Kind, Refusal>
    ensures { result ≡ query_with meaning (arguments args.now) }
{
    match meaning {
        Meaning::Setting(entry) => alone(Kind::Query(QueryArgument::Value(entry)), args),
        Meaning::Channel { base, channels } => query_channel(base, channels, args),
        Meaning::ChannelPair { base, channels } => query_pair(base, channels, args),
        Meaning::Enable(register) => query_enable(register, args),
        Meaning::Status(register) => query_status(register, args),
        Meaning::Identity => alone(Kind::Query(QueryArgument::Identity), args),
        Meaning::Points => alone(Kind::Query(QueryArgument::Points), args),
        Meaning::Trace(form) => query_trace(form, args),
        Meaning::Act(_) => Err(Refusal::Malformed),
    }
}

// A command that is not empty: its name, which is its first four bytes, "?" for a query, and its arguments.
fn read(text: &[u8]) -> Result<Kind, Refusal>
    ensures { result ≡ read_as text.now }
{
    let (name, rest) = text.split_first_chunk::<4>().ok_or(Refusal::Malformed)?;
    let meaning = mnemonic::find(u32::from_be_bytes(*name)).ok_or(Refusal::Malformed)?;
    match rest.strip_prefix(b"?") {
        Some(args) => query_with(meaning, args),
        None => set_with(meaning, rest),
    }
}

// One command read from its text, which has no space and no small letter any more.
#[tactic(auto, unfolding(crate::specs::Parsed::parsed_of))]
pub fn parse(text: &[u8]) -> Parsed
    ensures { result ≡ parsed_of text.now }
{
    if text.is_empty() {
        return Ok(None);
    }
    let kind = read(text)?;
    Ok(Some(Command { kind }))
}
