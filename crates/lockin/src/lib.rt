// The calls on one lock-in module: start, bytes one by one or in runs, lines handed over whole, events, and the status
// byte between lines. Open this crate first. Traces and reply room are lent side by side: a struct of the three would
// ask of each contract that each reference stays the same one.
#![tactic(auto)]

ghost use Rattle.std.specs.Prelude.{◌≡◌, [], ◌≤◌, length, Err};
ghost use Rattle.line_text.specs.Clean.{line_limit};
ghost use Rattle.outcome.specs.Code.{number_of};
ghost use Rattle.outcome.specs.Answer.{report_of, numbers_of};
ghost use Rattle.reply_buffer.specs.After.{Meets};
ghost use Rattle.line.specs.Line.{line_of};
ghost use Rattle.event.specs.Event.{event_effect, event_of};
ghost use Rattle.lockin.specs.Start.{refused_start, start_call};
ghost use Rattle.lockin.specs.Calls.{line_call, byte_call, line_result, event_call, event_result, poll_call};
ghost use Rattle.lockin.specs.Calls.{guarded, refused_whole, line_ran, line_end, whole_end};
ghost use Rattle.lockin.specs.Parts.{length_of, result_of, GuardedStep};

mod byte_run;

pub use byte_run::{RunNumbers, RunReport, RunResult, run_numbers_of, take_run};
pub use event::Event;
use event::EventEffect;
use line::Progress;
pub use module::Module;
pub use outcome::{
    Answer, Outcome, PlacedRefusal, Refusal, Report, ReportNumbers, number_of, numbers_of,
};
use queue::{LineEnd, Queue, QueueStep};
use settings::Settings;
use state::{Installation, State};

// A start: the module, and whether the start was refused. No Result: `RefusedStart` (crates/demand1) states the module
// that a refused start gives.
#[derive(Clone, Copy)]
pub struct StartResult {
    pub after: Module,
    pub outcome: Outcome,
}

// A call with a line or a byte: the module after it, and its report. A byte that ends no line reports that nothing is
// refused, and length 0.
#[derive(Clone, Copy)]
pub struct LineResult {
    pub after: Module,
    pub report: Report,
}

// A call with an event: the module after it, and whether it was refused.
#[derive(Clone, Copy)]
pub struct EventResult {
    pub after: Module,
    pub outcome: Outcome,
}

// A serial poll: the status byte, 0 where the state was refused. No Result: `RefusedPoll` (crates/demand1) states
// that 0.
#[derive(Clone, Copy)]
pub struct PollResult {
    pub status: u8,
    pub outcome: Outcome,
}

// A refused start gives a fresh module with serial 0, GPIB and capacity 1.
fn refused_start(refusal: Refusal) -> StartResult
    ensures { result ≡ refused_start refusal }
{
    let installation = Installation {
        serial: 0,
        port: state::GPIB,
        capacity: Settings::CAPACITY_LEAST,
    };
    StartResult {
        after: module::fresh(installation),
        outcome: Err(refusal),
    }
}

// A fresh module over two traces, which are not written. Port 0 is RS232, 1 is GPIB.
pub fn start(serial: u32, port: u32, one: &[u32], two: &[u32]) -> StartResult
    ensures value { result ≡ start_call serial port (length one.now) (length two.now) }
    ensures numbers { number_of result.outcome
        ≡ number_of (start_call serial port (length one.now) (length two.now)).outcome }
{
    if module::installation_known(serial, port) {
        if module::traces_fit(one.len(), two.len()) {
            let installation = Installation {
                serial,
                port: (port % 256) as u8,
                capacity: (one.len() % 65536) as u32,
            };
            return StartResult {
                after: module::fresh(installation),
                outcome: Ok(()),
            };
        }
        return refused_start(Refusal::BadTraces);
    }
    refused_start(Refusal::BadStart)
}

// What a line's end leaves of the state, and what is reported.
#[derive(Clone, Copy)]
struct StateResult {
    state: State,
    report: Report,
}

// The length reported of a line that ran.
fn reported_length(p: Progress) -> usize
    ensures { result ≡ length_of p }
{
    if p.dropped { 0 } else { p.at }
}

// A line that runs.
fn run(s: State, text: &[u8], one: &mut [u32], two: &mut [u32], reply: &mut [u8]) -> StateResult
    requires { length text.now ≤ line_limit }
    ensures { Meets result_of
        (line_ran (line_of (length reply.old) text.now s one.old two.old))
        result one.new two.new reply.new reply.old }
{
    let p = line::run_line(s, text, one, two, reply);
    let length = reported_length(p);
    let state = p.state;
    let answer = p.answer;
    StateResult {
        state,
        report: Report { answer, length },
    }
}

// Nothing is done but the report of an answer.
fn tell(s: State, answer: Answer) -> StateResult
    ensures { result ≡ record { state = s; report = report_of answer 0 } }
{
    StateResult {
        state: s,
        report: Report { answer, length: 0 },
    }
}

// What comes of the end of a line, which is `text`, of a line too long, or of neither.
fn end_line(
    s: State,
    ending: LineEnd,
    text: &[u8],
    one: &mut [u32],
    two: &mut [u32],
    reply: &mut [u8],
) -> StateResult
    requires { length text.now ≤ line_limit }
    ensures { Meets result_of
        (line_end ending (length reply.old) text.now s one.old two.old)
        result one.new two.new reply.new reply.old }
{
    match ending {
        LineEnd::Nothing => tell(s, Ok(())),
        LineEnd::Line => run(s, text, one, two, reply),
        LineEnd::TooLong => tell(
            state::with_error_bit(s, Refusal::LongLine),
            Err(PlacedRefusal {
                refusal: Refusal::LongLine,
                place: 0,
            }),
        ),
    }
}

// The same where 11 and 9 let it be done, else the refusal and nothing more.
fn end_guarded(
    s: State,
    outcome: Outcome,
    ending: LineEnd,
    text: &[u8],
    one: &mut [u32],
    two: &mut [u32],
    reply: &mut [u8],
) -> StateResult
    requires { length text.now ≤ line_limit }
    ensures { Meets result_of
        (guarded refused_whole outcome
        (line_end ending (length reply.old) text.now s one.old two.old)
        s one.old two.old)
        result one.new two.new reply.new reply.old }
{
    match outcome {
        Ok(()) => end_line(s, ending, text, one, two, reply),
        Err(refusal) => tell(s, Err(PlacedRefusal { refusal, place: 0 })),
    }
}

// A line of `len` bytes handed over whole: it ends, or is too long.
fn whole_end(len: usize) -> LineEnd
    ensures { result ≡ whole_end len }
{
    if len <= line_text::LINE {
        LineEnd::Line
    } else {
        LineEnd::TooLong
    }
}

// A line handed over whole: no queue is used.
pub fn take_line(
    m: Module,
    text: &[u8],
    one: &mut [u32],
    two: &mut [u32],
    reply: &mut [u8],
) -> LineResult
    ensures meets { Meets line_result
        (line_call (length reply.old) text.now m one.old two.old)
        result one.new two.new reply.new reply.old }
    ensures numbers { numbers_of result.report ≡ numbers_of
        (line_call (length reply.old) text.now m one.old two.old).report }
{
    let state = m.state;
    let queue = m.queue;
    let outcome = m.guard(one.len(), two.len());
    let ending = whole_end(text.len());
    let end = queue::end_index(text.len());
    let r = end_guarded(state, outcome, ending, &text[0..end], one, two, reply);
    let after = r.state;
    let report = r.report;
    LineResult {
        after: Module {
            queue,
            state: after,
        },
        report,
    }
}

// What a byte does to the queue's numbers: nothing where 11 or 9 refuses it.
fn step_guarded(
    outcome: Outcome,
    len: usize,
    discarding: bool,
    port: u8,
    b: u8,
    mark: bool,
) -> QueueStep
    ensures { GuardedStep outcome len discarding port b mark result }
{
    match outcome {
        Ok(()) => queue::step_of(len, discarding, port, b, mark),
        Err(_) => QueueStep {
            stores: false,
            line: len,
            len,
            discarding,
            ending: LineEnd::Nothing,
        },
    }
}

// One byte, with its end mark. The queue's bytes are held once, tested by reference and written in place, and all cases
// leave by one way: a queue that is one of two, by branch, would be copied, and the settings with it.
pub fn take_byte(
    m: Module,
    b: u8,
    mark: bool,
    one: &mut [u32],
    two: &mut [u32],
    reply: &mut [u8],
) -> LineResult
    ensures meets { Meets line_result
        (byte_call (length reply.old) b mark m one.old two.old)
        result one.new two.new reply.new reply.old }
    ensures numbers { numbers_of result.report ≡ numbers_of
        (byte_call (length reply.old) b mark m one.old two.old).report }
{
    let state = m.state;
    let port = m.state.installation.port;
    let mut bytes = m.queue.bytes;
    let len = m.queue.len;
    let discarding = m.queue.discarding;
    let outcome = m.guard(one.len(), two.len());
    let step = step_guarded(outcome, len, discarding, port, b, mark);
    queue::store(&mut bytes, len, b, step.stores);
    let end = queue::end_index(step.line);
    let ending = step.ending;
    let r = end_guarded(state, outcome, ending, &bytes[0..end], one, two, reply);
    let after = r.state;
    let report = r.report;
    LineResult {
        after: Module {
            queue: Queue {
                bytes,
                len: step.len,
                discarding: step.discarding,
            },
            state: after,
        },
        report,
    }
}

// What an event does to the state, or its refusal by 11 or 9.
fn occur_guarded(
    s: State,
    outcome: Outcome,
    e: Event,
    one: &mut [u32],
    two: &mut [u32],
) -> EventEffect
    ensures { Meets event_effect
        (guarded Err outcome (event_of e s one.old two.old)
        s one.old two.old)
        result one.new two.new [] [] }
{
    match outcome {
        Ok(()) => event::occur(s, e, one, two),
        Err(_) => EventEffect { state: s, outcome },
    }
}

// An event. It is lent no reply room.
pub fn take_event(m: Module, e: Event, one: &mut [u32], two: &mut [u32]) -> EventResult
    ensures meets { Meets event_result (event_call e m one.old two.old)
        result one.new two.new [] [] }
    ensures numbers { number_of result.outcome ≡ number_of (event_call e m one.old two.old).report }
{
    let state = m.state;
    let queue = m.queue;
    let guard = m.guard(one.len(), two.len());
    let h = occur_guarded(state, guard, e, one, two);
    let after = h.state;
    let outcome = h.outcome;
    EventResult {
        after: Module {
            queue,
            state: after,
        },
        outcome,
    }
}

// The status byte between lines, as a serial poll reads it.
pub fn poll(m: Module) -> PollResult
    ensures value { result ≡ poll_call m }
    ensures numbers { number_of result.outcome ≡ number_of (poll_call m).outcome }
{
    if m.is_valid() {
        return PollResult {
            status: module::status_between(m.state),
            outcome: Ok(()),
        };
    }
    PollResult {
        status: 0,
        outcome: Err(Refusal::BadState),
    }
}
