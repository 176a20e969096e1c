// A run of bytes in one call (§2.9, §2.10). The state is tested once; a byte that ends no line touches the queue alone;
// a line that ends runs from the queue, and writes behind the replies of the lines before it.
ghost use Rattle.std.specs.Prelude.{◌≡◌, true, cond, ◌&&◌, List, ℕ, ◌+◌, ◌-◌, ◌≤◌, ◌<◌, ltb, length, drop};
ghost use Rattle.line_text.specs.Clean.{line_limit};
ghost use Rattle.queue.specs.Queue.{is_end};
ghost use Rattle.reply_buffer.specs.After.{Meets};
ghost use Rattle.line.specs.Line.{line_of};
ghost use Rattle.lockin.specs.Calls.{line_end};
ghost use Rattle.lockin.specs.Run.{Run, first_answer, first_line, is_line, mark_before, run_from, start_run};
ghost use Rattle.lockin.specs.Run.{refused_run, run_call, run_result, run_numbers_of};
ghost use Rattle.lockin.specs.Parts.{run_at, progress_of, result_at, with_quiet, advanced, Behind, NextByte};

use crate::{StateResult, end_line};
use line_text::LINE;
use module::Module;
use outcome::{Answer, PlacedRefusal, Refusal, Report};
use queue::{LineEnd, Queue};
use state::State;

// What a run reports.
#[derive(Clone, Copy)]
pub struct RunReport {
    // How many of its bytes were taken: all, or those before the byte at which it stopped.
    pub taken: usize,
    // The line of the first refusal, from 1 in the run; 0 where nothing is refused, and where a run is refused as a
    // whole (`refused_run`): so no Option.
    pub line: usize,
    // The first refusal with its place, and the length of the replies, one behind the other.
    pub report: Report,
}

// The same in numbers.
#[derive(Clone, Copy)]
pub struct RunNumbers {
    // How many bytes were taken.
    pub taken: usize,
    // The first refusal's number, 0 where nothing is refused.
    pub refusal: u8,
    // The line in which it fell, from 1 in the run; 0 where nothing is refused, or the run is refused as a whole.
    pub line: usize,
    // The place of the refused command, 0 where nothing is refused, or no command.
    pub place: u32,
    // The length of the replies.
    pub length: usize,
}

// A call with a run of bytes: the module after it, and its report.
#[derive(Clone, Copy)]
pub struct RunResult {
    pub after: Module,
    pub report: RunReport,
}

// A run on its way: the module, how many bytes are taken and how many lines ended, the line of the first refusal, and
// the report so far.
#[derive(Clone, Copy)]
struct RunProgress {
    after: Module,
    taken: usize,
    ended: usize,
    line: usize,
    report: Report,
}

// What one more byte leaves of a run: the run with the byte, or the run as it was where it stops before the byte. As an
// `Option` the run would be copied once more for each line.
#[derive(Clone, Copy)]
struct RunStep {
    stopped: bool,
    progress: RunProgress,
}

// A queue after bytes of a run of which none ended a line that can run, but for its bytes; how many bytes of the run
// are then taken, and how many lines ended.
#[derive(Clone, Copy)]
struct QuietBytes {
    len: usize,
    discarding: bool,
    taken: usize,
    ended: usize,
}

// Whether the byte at an index of a run carries the end mark: only the last one may.
fn marked_at(run: &[u8], mark: bool, at: usize) -> bool
    requires { at < length run.now }
    ensures { result ≡ mark_before mark (drop (at + 1) run.now) }
{
    mark & (at + 1 == run.len())
}

// How many lines ended in a run once it has one more byte.
fn count_end(ended: usize, port: u8, b: u8, mark: bool) -> usize
    requires { ended < 9223372036854775808 }
    ensures { result ≡ cond (is_end port b mark) (ended + 1) ended }
{
    ended + usize::from(queue::is_end(port, b, mark))
}

// Takes the bytes of a run from an index on, up to one that ends a line or makes it too long.
fn take_quiet(
    bytes: &mut [u8; LINE],
    before: QuietBytes,
    port: u8,
    run: &[u8],
    mark: bool,
) -> QuietBytes
    requires { (before.taken ≤ length run.now) × (before.ended ≤ before.taken) }
    ensures goes_on { (room : ℕ) (p : Run) → p.after.state.installation.port ≡ port →
        run_from room mark (drop before.taken run.now) (with_quiet bytes.old before p)
        ≡ run_from room mark (drop result.taken run.now) (with_quiet bytes.new result p) }
    ensures onward { (before.taken ≤ result.taken) × (result.taken ≤ length run.now)
        × (result.ended ≤ result.taken) }
{
    let mut q = before;
    for b in &run[before.taken..] {
        let marked = marked_at(run, mark, q.taken);
        let step = queue::step_of(q.len, q.discarding, port, *b, marked);
        if step.ending != LineEnd::Nothing {
            return q;
        }
        queue::store(bytes, q.len, *b, step.stores);
        q = QuietBytes {
            len: step.len,
            discarding: step.discarding,
            taken: q.taken + 1,
            ended: count_end(q.ended, port, *b, marked),
        };
    }
    q
}

// The run once such bytes are taken.
fn pass_quiet(p: RunProgress, run: &[u8], mark: bool) -> RunProgress
    requires { (p.taken ≤ length run.now) × (p.ended ≤ p.taken) }
    ensures goes_on { (room : ℕ) (one two out : List ℕ) →
        run_from room mark (drop p.taken run.now) (run_at p one two out)
        ≡ run_from room mark (drop result.taken run.now) (run_at result one two out) }
    ensures onward { (p.taken ≤ result.taken) × (result.taken ≤ length run.now)
        × (result.ended ≤ result.taken) }
    ensures report_stays { result.report ≡ p.report }
{
    let state = p.after.state;
    let port = p.after.state.installation.port;
    let mut bytes = p.after.queue.bytes;
    let before = QuietBytes {
        len: p.after.queue.len,
        discarding: p.after.queue.discarding,
        taken: p.taken,
        ended: p.ended,
    };
    let q = take_quiet(&mut bytes, before, port, run, mark);
    let report = p.report;
    RunProgress {
        after: Module {
            queue: Queue {
                bytes,
                len: q.len,
                discarding: q.discarding,
            },
            state,
        },
        taken: q.taken,
        ended: q.ended,
        line: p.line,
        report,
    }
}

// Whether a run in which `ended` lines ended stops before a byte that ends something, where `text` is the line.
fn stops(ended: usize, ending: LineEnd, s: State, text: &[u8], room: usize) -> bool
    requires { length text.now ≤ line_limit }
    ensures { (one two : List ℕ) →
        result ≡ (ltb 0 ended && (is_line ending && (line_of room text.now s one two).report.dropped)) }
{
    match ending {
        LineEnd::Nothing => false,
        LineEnd::Line => 0 < ended && !line::fits(s, text, room),
        LineEnd::TooLong => false,
    }
}

// The first refusal of a run, once a further byte has its answer.
fn first_answer(answer: Answer, later: Answer) -> Answer
    ensures { result ≡ first_answer answer later }
{
    answer.and(later)
}

// The line of the first refusal, once a further byte in the line `here` has its answer.
fn first_line(answer: Answer, line: usize, later: Answer, here: usize) -> usize
    ensures { result ≡ first_line answer line later here }
{
    if answer.is_ok() & later.is_err() {
        return here;
    }
    line
}

// The run after one more byte, which left a state, a queue and a report.
fn advance(p: RunProgress, m: Module, report: Report, ended: usize) -> RunProgress
    requires { (p.report.length + report.length < 9223372036854775808) × (p.ended ≤ p.taken)
        × (p.taken < 9223372036854775808) }
    ensures { result ≡ advanced p m report ended }
{
    let earlier = p.report;
    let answer = earlier.answer;
    let later = report.answer;
    RunProgress {
        after: m,
        taken: p.taken + 1,
        ended,
        line: first_line(answer, p.line, later, p.ended + 1),
        report: Report {
            answer: first_answer(answer, later),
            length: earlier.length + report.length,
        },
    }
}

// What comes of a line's end in a run: the line's replies are written behind those of the lines before it.
fn end_behind(
    s: State,
    ending: LineEnd,
    text: &[u8],
    one: &mut [u32],
    two: &mut [u32],
    reply: &mut [u8],
    written: usize,
) -> StateResult
    requires { (length text.now ≤ line_limit) × (written ≤ length reply.old) }
    ensures behind { Behind written
        (line_end ending (length reply.old - written) text.now s
        one.old two.old)
        result one.new two.new reply.new reply.old }
    ensures length_in_bounds { written + result.report.length ≤ length reply.new }
{
    end_line(s, ending, text, one, two, &mut reply[written..])
}

// One more byte of a run, unless the run stops before it.
fn next_byte(
    p: RunProgress,
    b: u8,
    mark: bool,
    one: &mut [u32],
    two: &mut [u32],
    reply: &mut [u8],
) -> RunStep
    requires { (p.report.length ≤ length reply.old) × (p.ended ≤ p.taken) × (p.taken < 9223372036854775808) }
    ensures next_byte { NextByte (length reply.old) b mark
        (run_at p one.old two.old reply.old)
        result.stopped (run_at result.progress one.new two.new reply.new) }
    ensures length_in_bounds { result.progress.report.length ≤ length reply.new }
{
    let state = p.after.state;
    let port = p.after.state.installation.port;
    let mut bytes = p.after.queue.bytes;
    let len = p.after.queue.len;
    let written = p.report.length;
    let step = queue::step_of(len, p.after.queue.discarding, port, b, mark);
    let ending = step.ending;
    queue::store(&mut bytes, len, b, step.stores);
    let end = queue::end_index(step.line);
    if stops(
        p.ended,
        ending,
        state,
        &bytes[0..end],
        reply.len() - written,
    ) {
        return RunStep {
            stopped: true,
            progress: p,
        };
    }
    let r = end_behind(state, ending, &bytes[0..end], one, two, reply, written);
    let after = r.state;
    let report = r.report;
    let queue = Queue {
        bytes,
        len: step.len,
        discarding: step.discarding,
    };
    let m = Module {
        queue,
        state: after,
    };
    RunStep {
        stopped: false,
        progress: advance(p, m, report, count_end(p.ended, port, b, mark)),
    }
}

// The bytes of a run, up to one before which it stops. No `for`: each turn goes on behind the bytes that it took.
fn run_bytes(
    m: Module,
    run: &[u8],
    mark: bool,
    one: &mut [u32],
    two: &mut [u32],
    reply: &mut [u8],
) -> RunProgress
    ensures { Meets progress_of
        (run_from (length reply.old) mark run.now
        (start_run m one.old two.old))
        result one.new two.new reply.new reply.old }
{
    let mut p = RunProgress {
        after: m,
        taken: 0,
        ended: 0,
        line: 0,
        report: Report {
            answer: Ok(()),
            length: 0,
        },
    };
    loop {
        p = pass_quiet(p, run, mark);
        let at = p.taken;
        if at == run.len() {
            return p;
        }
        let step = next_byte(p, run[at], marked_at(run, mark, at), one, two, reply);
        p = step.progress;
        if step.stopped {
            return p;
        }
    }
}

// What is given back of a run.
fn result_of(p: RunProgress) -> RunResult
    ensures { result ≡ result_at p }
{
    let after = p.after;
    let report = p.report;
    RunResult {
        after,
        report: RunReport {
            taken: p.taken,
            line: p.line,
            report,
        },
    }
}

// A run that 11 or 9 refuses: no byte is taken.
fn refused_run(m: Module, refusal: Refusal) -> RunResult
    ensures { result ≡ record { after = m; report = refused_run refusal } }
{
    RunResult {
        after: m,
        report: RunReport {
            taken: 0,
            line: 0,
            report: Report {
                answer: Err(PlacedRefusal { refusal, place: 0 }),
                length: 0,
            },
        },
    }
}

// A run's report in numbers. A function, and no impl of From: its name is one of lockin's public names.
pub fn run_numbers_of(report: RunReport) -> RunNumbers
    ensures { result ≡ run_numbers_of report }
{
    let numbers = outcome::numbers_of(report.report);
    RunNumbers {
        taken: report.taken,
        refusal: numbers.refusal,
        line: report.line,
        place: numbers.place,
        length: numbers.length,
    }
}

// A run of bytes, with the end mark of its last byte, and one reply room for all its lines.
pub fn take_run(
    m: Module,
    bytes: &[u8],
    mark: bool,
    one: &mut [u32],
    two: &mut [u32],
    reply: &mut [u8],
) -> RunResult
    ensures meets { Meets run_result
        (run_call (length reply.old) bytes.now mark m one.old two.old)
        result one.new two.new reply.new reply.old }
    ensures numbers { run_numbers_of result.report ≡ run_numbers_of
        (run_call (length reply.old) bytes.now mark m one.old two.old
        ).report }
{
    let outcome = m.guard(one.len(), two.len());
    match outcome {
        Ok(()) => result_of(run_bytes(m, bytes, mark, one, two, reply)),
        Err(refusal) => refused_run(m, refusal),
    }
}
