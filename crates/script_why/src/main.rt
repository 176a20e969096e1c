// The program script_why: the script check of standard input, and for a refusal 3 a course that shows it, as operations
// of docs/ops-protocol.md.
#![tactic(auto)]

ghost use Rattle.std.specs.Prelude.{◌≡◌, length};

mod course;
mod operation;

use check_input::VerdictLine;
use course::{Bench, Course};
use outcome::Refusal;
use settings::Settings;
use terminal::Output;

// The length of the longest trace.
const SLOTS: usize = Settings::CAPACITY_MOST as usize;

// Room for every line's reply: a line of 256 bytes has at most 17 trace reads, of 65,532 bytes each.
const ROOM: usize = 1114112;

// A buffer for replies. Made here, for the checker does not end where so long an array stands in a longer function.
fn reply_buffer() -> [u8; ROOM]
    ensures { 1114112 ≡ length result }
{
    [0; ROOM]
}

// Writes the course without events where that one is refused, and else the one with events. A course from a fresh
// module is refused there (`FirstRefused`, crates/demand3/specs/Demand3.antt), and its events are those of one of these
// two (crates/demand3/proofs/Completeness.antt).
fn print_course(
    out: &mut Output<'_, '_, impl Print>,
    one: &mut [u32],
    two: &mut [u32],
    script: &[u8],
    line: usize,
    place: u32,
) {
    let mut reply = reply_buffer();
    let tried = Course {
        has_events: false,
        prints: false,
        line,
        place,
    };
    let refused = tried.run(out, &mut Bench::new(one, two, &mut reply), script);
    operation::write_start(out, one.len());
    let printed = Course {
        has_events: !refused,
        prints: true,
        ..tried
    };
    printed.run(out, &mut Bench::new(one, two, &mut reply), script);
}

// Writes a course that shows the refusal 3 of a script at a line and a place.
fn explain(rt: &impl Print, capacity: usize, script: &[u8], line: usize, place: u32) {
    let mut buffer = io::buffer();
    let mut out = Output::new(rt, &mut buffer);
    let mut one = [0u32; SLOTS];
    let mut two = [0u32; SLOTS];
    if capacity <= SLOTS {
        print_course(
            &mut out,
            &mut one[..capacity],
            &mut two[..capacity],
            script,
            line,
            place,
        );
    }
}

// Reads the input, and writes the verdict on it and the course.
fn main(rt: HostRuntime) {
    let mut script = check_input::script_buffer();
    let input = check_input::read_input(&mut rt.stdin(), &mut script);
    let bytes = terminal::first_bytes(&script, input.len);
    let verdict = check_input::limited_check(input.capacity, bytes);
    terminal::write_out(&rt, VerdictLine::of(verdict).text());
    if let Err(objection) = verdict {
        if objection.refusal == Refusal::NotAllowed {
            explain(
                &rt,
                input.capacity as usize,
                bytes,
                objection.line,
                objection.place,
            );
        }
    }
}
