// The answers to operations, each a line of text. Writing to an `Output` does not fail.
use crate::dump;
use check_input::VerdictLine;
use lockin::{Module, Report, RunReport};
use std::fmt::Write;
use terminal::Output;
use verdict::Verdict;

// Answers what is no operation.
pub fn write_invalid(out: &mut Output<'_, '_, impl Print>) {
    out.byte(b'?');
    out.end_line();
}

// Answers a change that is no call of the module.
pub fn write_done(out: &mut Output<'_, '_, impl Print>) {
    out.byte(b'K');
    out.end_line();
}

// Answers by a letter and a refusal's number.
pub fn write_number(out: &mut Output<'_, '_, impl Print>, letter: char, number: u8) {
    let _ = write!(out, "{letter} {number}");
    out.end_line();
}

// Answers a line or a byte: its three numbers, and the whole reply buffer.
pub fn write_report(out: &mut Output<'_, '_, impl Print>, report: Report, reply: &[u8]) {
    let n = lockin::numbers_of(report);
    let _ = write!(out, "A {} {} {} ", n.refusal, n.place, n.length);
    out.hex_bytes(reply);
    out.end_line();
}

// Answers a run: its five numbers, and the whole reply buffer.
pub fn write_run_report(out: &mut Output<'_, '_, impl Print>, report: RunReport, reply: &[u8]) {
    let n = lockin::run_numbers_of(report);
    let _ = write!(
        out,
        "B {} {} {} {} {} ",
        n.taken, n.refusal, n.line, n.place, n.length
    );
    out.hex_bytes(reply);
    out.end_line();
}

// Answers a serial poll.
pub fn write_poll(out: &mut Output<'_, '_, impl Print>, m: Module) {
    let polled = lockin::poll(m);
    let _ = write!(
        out,
        "S {} {}",
        lockin::number_of(polled.outcome),
        polled.status
    );
    out.end_line();
}

// Answers a script check.
pub fn write_verdict(out: &mut Output<'_, '_, impl Print>, verdict: Verdict) {
    out.bytes(VerdictLine::of(verdict).text());
    out.flush();
}

// Answers `dump`.
pub fn write_state(out: &mut Output<'_, '_, impl Print>, m: &Module, one: &[u32], two: &[u32]) {
    let _ = dump::write_state(out, m, one, two);
    out.end_line();
}
