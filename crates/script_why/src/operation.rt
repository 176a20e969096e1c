// The operations of a course, each written as a line of docs/ops-protocol.md.
use std::fmt::Write;
use terminal::Output;

// Writes the start of a fresh module: serial 0, GPIB, two traces of a length.
pub fn write_start(out: &mut Output<'_, '_, impl Print>, capacity: usize) {
    let _ = write!(out, "start 0 1 {capacity} {capacity}");
    out.end_line();
}

// Writes a line, and the length of its reply as the length of the reply buffer.
pub fn write_line(out: &mut Output<'_, '_, impl Print>, text: &[u8], length: usize) {
    out.bytes(b"line ");
    out.hex_bytes(text);
    let _ = write!(out, " {length}");
    out.end_line();
}

// Writes a measured frequency.
pub fn write_measured(out: &mut Output<'_, '_, impl Print>, frequency: u32) {
    let _ = write!(out, "measured {frequency}");
    out.end_line();
}

// Writes a trigger.
pub fn write_trigger(out: &mut Output<'_, '_, impl Print>) {
    out.bytes(b"trigger");
    out.end_line();
}
