// The operation `dump`: the state of a module and its traces as text, `name=value` with spaces between them.
use lockin::Module;
use ops_protocol::{FIELDS, Field};
use queue::Queue;
use std::fmt;
use std::fmt::Write;
use terminal::Output;

// Writes what stands before a field's value: a space, the name and `=`, no space before the first field; a comma
// between the parts of a list.
fn write_name(out: &mut Output<'_, '_, impl Print>, name: &str, field: Field) -> fmt::Result {
    match name.split_once('.') {
        None if field == Field::Serial => write!(out, "{name}="),
        None => write!(out, " {name}="),
        Some((list, "0")) => write!(out, " {list}="),
        Some(_) => write!(out, ","),
    }
}

// Writes the value of a setting's entry: without its bias.
fn write_setting(out: &mut Output<'_, '_, impl Print>, m: &Module, entry: usize) -> fmt::Result {
    let row = settings::row_of(entry);
    let value = settings::value_of(m.state.settings, entry);
    write!(out, "{}", i64::from(value) - i64::from(row.bias))
}

// Writes the bytes that wait, of more than 256 the first ones.
fn write_queue(out: &mut Output<'_, '_, impl Print>, q: &Queue) -> fmt::Result {
    out.hex_bytes(terminal::first_bytes(&q.bytes, q.len));
    Ok(())
}

// Writes a field's value.
fn write_value(out: &mut Output<'_, '_, impl Print>, m: &Module, field: Field) -> fmt::Result {
    let s = m.state;
    let acquisition = s.acquisition;
    let storage = acquisition.storage;
    match field {
        Field::Serial => write!(out, "{}", s.installation.serial),
        Field::Port => write!(out, "{}", s.installation.port),
        Field::Capacity => write!(out, "{}", s.installation.capacity),
        Field::Setting(entry) => write_setting(out, m, entry),
        Field::External => write!(out, "{}", acquisition.external),
        Field::Phase => write!(out, "{}", ops_protocol::phase_word(storage.phase)),
        Field::Held => write!(out, "{}", storage.held),
        Field::Next => write!(out, "{}", storage.next),
        Field::LatestOne => write!(out, "{:08x}", s.latest.one),
        Field::LatestTwo => write!(out, "{:08x}", s.latest.two),
        Field::Standard => write!(out, "{}", s.registers.standard),
        Field::Lia => write!(out, "{}", s.registers.lia),
        Field::Errors => write!(out, "{}", s.registers.errors),
        Field::StandardEnables => write!(out, "{}", s.enables.standard),
        Field::ServiceEnables => write!(out, "{}", s.enables.service),
        Field::LiaEnables => write!(out, "{}", s.enables.lia),
        Field::ErrorEnables => write!(out, "{}", s.enables.errors),
        Field::Queue => write_queue(out, &m.queue),
        Field::Discarding => write!(out, "{}", u8::from(m.queue.discarding)),
        Field::Range => write!(out, "{}", ops_protocol::range_word(acquisition.range)),
    }
}

// Writes a trace's words behind its name, with commas between them. By their bytes: a `write!` for each word is slower.
fn write_trace(out: &mut Output<'_, '_, impl Print>, name: &str, trace: &[u32]) -> fmt::Result {
    write!(out, " {name}=")?;
    let mut words = trace.iter();
    if let Some(word) = words.next() {
        out.hex_bytes(&word.to_be_bytes());
    }
    for word in words {
        out.byte(b',');
        out.hex_bytes(&word.to_be_bytes());
    }
    Ok(())
}

// Writes all fields and the traces, which stand before the frequency range.
pub fn write_state(
    out: &mut Output<'_, '_, impl Print>,
    m: &Module,
    one: &[u32],
    two: &[u32],
) -> fmt::Result {
    for (name, field) in &FIELDS {
        if *field == Field::Range {
            write_trace(out, "t1", one)?;
            write_trace(out, "t2", two)?;
        }
        write_name(out, name, *field)?;
        write_value(out, m, *field)?;
    }
    Ok(())
}
