// The operation `alter`: the field that it names, and the value that it gives it.
use crate::arguments::Arguments;
use crate::fields;
use crate::fields::Field;
use settings::FrequencyRange;
use storage::Phase;

// Another value for a field of a state.
#[derive(Clone, Copy)]
pub enum Alteration<'b> {
    // The serial number.
    Serial(u32),
    // The port's number.
    Port(u8),
    // The capacity.
    Capacity(u32),
    // A setting: its entry, and its value with the bias of the entry.
    Setting(usize, u32),
    // The external frequency.
    External(u32),
    // The phase of storage.
    Phase(Phase),
    // The number of points held.
    Held(u32),
    // The slot that the next point goes to.
    Next(u32),
    // The latest point for trace 1.
    LatestOne(u32),
    // The latest point for trace 2.
    LatestTwo(u32),
    // The standard event register.
    Standard(u8),
    // The LIA register.
    Lia(u8),
    // The error register.
    Errors(u8),
    // The enables of the standard event register.
    StandardEnables(u8),
    // The enables of a service request.
    ServiceEnables(u8),
    // The enables of the LIA register.
    LiaEnables(u8),
    // The enables of the error register.
    ErrorEnables(u8),
    // The bytes that wait for their line's end.
    Queue(&'b [u8]),
    // Whether bytes are discarded until their line's end.
    Discarding(bool),
    // The frequency range.
    Range(FrequencyRange),
}

// A setting's value with the bias of its entry, from its number of units, a minus before it or not.
fn decode_setting(part: &[u8], entry: usize) -> Option<u32> {
    let bias = settings::row_of(entry).bias;
    match part {
        [b'-', below @ ..] => bias.checked_sub(terminal::decode_decimal(below, bias)?),
        _ => bias.checked_add(terminal::decode_decimal(part, u32::MAX)?),
    }
}

// The alteration that the arguments ask for. Bytes in hex are stored at the start of a buffer.
pub(crate) fn decode_alteration<'b>(
    arguments: &mut Arguments<'_>,
    buffer: &'b mut [u8],
) -> Option<Alteration<'b>> {
    let field = fields::field_of(arguments.next()?)?;
    Some(match field {
        Field::Serial => Alteration::Serial(arguments.number(u32::MAX)?),
        Field::Port => Alteration::Port(arguments.byte()?),
        Field::Capacity => Alteration::Capacity(arguments.number(u32::MAX)?),
        Field::Setting(entry) => {
            Alteration::Setting(entry, decode_setting(arguments.next()?, entry)?)
        }
        Field::External => Alteration::External(arguments.number(u32::MAX)?),
        Field::Phase => Alteration::Phase(fields::phase_of(arguments.next()?)?),
        Field::Held => Alteration::Held(arguments.number(u32::MAX)?),
        Field::Next => Alteration::Next(arguments.number(u32::MAX)?),
        Field::LatestOne => Alteration::LatestOne(arguments.word()?),
        Field::LatestTwo => Alteration::LatestTwo(arguments.word()?),
        Field::Standard => Alteration::Standard(arguments.byte()?),
        Field::Lia => Alteration::Lia(arguments.byte()?),
        Field::Errors => Alteration::Errors(arguments.byte()?),
        Field::StandardEnables => Alteration::StandardEnables(arguments.byte()?),
        Field::ServiceEnables => Alteration::ServiceEnables(arguments.byte()?),
        Field::LiaEnables => Alteration::LiaEnables(arguments.byte()?),
        Field::ErrorEnables => Alteration::ErrorEnables(arguments.byte()?),
        Field::Queue => Alteration::Queue(arguments.bytes(buffer)?),
        Field::Discarding => Alteration::Discarding(arguments.flag()?),
        Field::Range => Alteration::Range(fields::range_of(arguments.next()?)?),
    })
}
