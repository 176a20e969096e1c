// A line: its commands one after the other, each lent the reply room from the bytes already written onward.
#![tactic(auto)]

ghost use Rattle.std.specs.Prelude.{◌≡◌, not, List, ℕ, ◌+◌, ◌≤◌, ◌<◌, length};
ghost use Rattle.split.specs.Divide.{parts};
ghost use Rattle.line.specs.Perform.{nothing, refused_by};
ghost use Rattle.line.specs.Line.{after_command, run_all, start_line};
ghost use Rattle.line.specs.Parts.{effect_of, texts_run, progress_after, progress_of, line_reached};
ghost use Rattle.line_text.specs.Texts.{semicolon};
ghost use Rattle.reply_buffer.specs.Buffer.{overwrite};
ghost use Rattle.reply_buffer.specs.After.{Meets};

mod dry;
mod quick;

use command::Kind;
use outcome::{Answer, Refusal};
use reply::Reply;
use state::State;
use storage::StorageStep;

// A command that is not refused, before anything of it is written.
#[derive(Clone, Copy)]
pub struct Plan {
    // What it asks for.
    pub kind: Kind,
    // What it replies.
    pub reply: Reply,
    // What it does to storage.
    pub step: StorageStep,
}

// What a command's text is taken for: a command to be done, an empty one, or one that is refused.
pub type Taken = Result<Option<Plan>, Refusal>;

// A line on its way: the state, the number of reply bytes written, the answer so far, how many commands there were, and
// whether the rest is dropped.
#[derive(Clone, Copy)]
pub struct Progress {
    pub state: State,
    pub at: usize,
    pub answer: Answer,
    pub count: u32,
    pub dropped: bool,
}

impl Progress {
    // A line before its first command.
    fn start(state: State) -> Progress
        ensures { (one two : List ℕ) → result ≡ progress_of (start_line state one two) }
    {
        Progress {
            state,
            at: 0,
            answer: Ok(()),
            count: 0,
            dropped: false,
        }
    }
}

// What a command's text is taken for, written: the reply at the front of out, and what is stored.
#[inline(always)]
fn write(s: State, taken: Taken, one: &mut [u32], two: &mut [u32], out: &mut [u8])
    requires { length (effect_of taken s one.old two.old).out ≤ length out.old }
    ensures { (one.new ≡ (effect_of taken s one.old two.old).one)
        × (two.new ≡ (effect_of taken s one.old two.old).two)
        × (out.new ≡ overwrite (effect_of taken s one.old two.old).out out.old) }
{
    match taken {
        Ok(Some(plan)) => {
            plan.reply.send(one, two, out);
            state::store(s, plan.step, one, two);
        }
        Ok(None) => {}
        Err(_) => {}
    }
}

// The line after one more command, by what its text is taken for.
#[inline(always)]
fn after(p: Progress, taken: Taken) -> Progress
    requires { ((one two : List ℕ) → p.at + length (effect_of taken p.state one two).out < 18446744073709551616)
        × (p.count < 1000) }
    ensures { (one two : List ℕ) → result ≡ progress_after p (effect_of taken p.state one two) }
{
    let count = p.count + 1;
    let plan = match taken {
        Ok(Some(plan)) => plan,
        Ok(None) => return passed_over(p),
        Err(refusal) => return refused(p, refusal),
    };
    Progress {
        state: effect::state_after(p.state, plan.kind, plan.step),
        at: p.at + plan.reply.length(),
        count,
        dropped: false,
        ..p
    }
}

// The line after one more command that is refused.
#[inline(always)]
fn refused(p: Progress, refusal: Refusal) -> Progress
    requires { p.count < 1000 }
    ensures { (one two : List ℕ) → result ≡ progress_after p (refused_by refusal p.state one two) }
{
    let count = p.count + 1;
    Progress {
        state: state::with_error_bit(p.state, refusal),
        answer: outcome::first_of(p.answer, Err(refusal), count),
        count,
        dropped: outcome::drops(Err(refusal)),
        ..p
    }
}

// The line after one more command that is empty.
#[inline(always)]
fn passed_over(p: Progress) -> Progress
    requires { p.count < 1000 }
    ensures { (one two : List ℕ) → result ≡ progress_after p (nothing p.state one two) }
{
    Progress {
        count: p.count + 1,
        dropped: false,
        ..p
    }
}

// One more command of a line.
fn step(p: Progress, text: &[u8], one: &mut [u32], two: &mut [u32], reply: &mut [u8]) -> Progress
    requires { (p.at ≤ length reply.old) × (p.count < 1000) }
    ensures meets { Meets progress_of
        (after_command (length reply.old) text.now
        (line_reached p one.old two.old reply.old))
        result one.new two.new reply.new reply.old }
    ensures at_in_bounds { (p.at ≤ result.at) × (result.at ≤ length reply.new) × (result.count ≡ p.count + 1) }
{
    let taken = dry::take_command(p.state, text, 0 < p.at, reply.len() - p.at);
    write(p.state, taken, one, two, &mut reply[p.at..]);
    after(p, taken)
}

// The commands of a cleaned line, one after the other, up to one that is refused by 4.
fn run(s: State, text: &[u8], one: &mut [u32], two: &mut [u32], reply: &mut [u8]) -> Progress
    requires { length text.now < 257 }
    ensures { Meets progress_of
        (run_all (length reply.old) (parts semicolon text.now)
        (start_line s one.old two.old))
        result one.new two.new reply.new reply.old }
{
    let mut p = Progress::start(s);
    for part in text.split(|byte| *byte == b';') {
        if part.is_empty() {
            p = passed_over(p);
            continue;
        }
        p = step(p, part, one, two, reply);
        if p.dropped {
            return p;
        }
    }
    p
}

// A line: its first 256 bytes that count, which are all of a line of at most 256 bytes.
pub fn run_line(
    s: State,
    line: &[u8],
    one: &mut [u32],
    two: &mut [u32],
    reply: &mut [u8],
) -> Progress
    ensures { Meets progress_of
        (run_all (length reply.old) (texts_run line.now)
        (start_line s one.old two.old))
        result one.new two.new reply.new reply.old }
{
    if line.is_empty() {
        return passed_over(Progress::start(s));
    }
    let c = line_text::clean(line);
    run(s, c.line(), one, two, reply)
}

// Whether no command of a line would be refused by 4, where `room` bytes are lent for its replies: the line is gone
// through on the state alone, and not at all where its bytes show that its replies must find room.
pub fn fits(s: State, line: &[u8], room: usize) -> bool
    ensures { (one two : List ℕ) →
        result ≡ not (run_all room (texts_run line.now) (start_line s one two)).report.dropped }
{
    quick::must_fit(line, room) || dry::fits(s, line, room)
}
