// A line gone through on the state alone, command by command: no trace and no reply is written. What each command comes
// to is told before anything is written, so that the run of a line tells it in the same way; of the replies only the
// lengths count here, so that the pass comes to what the line would come to, whatever the traces hold.
ghost use Rattle.std.specs.Prelude.{◌≡◌, not, List, ℕ, ◌+◌, ◌≤◌, ◌<◌, length};
ghost use Rattle.split.specs.Divide.{parts};
ghost use Rattle.command.specs.Parsed.{parsed_of};
ghost use Rattle.line_text.specs.Texts.{semicolon};
ghost use Rattle.line.specs.Perform.{command_of};
ghost use Rattle.line.specs.Line.{Line, after_command, run_all, start_line};
ghost use Rattle.line.specs.Parts.{effect_of, progress_of, texts_run};

use crate::{Plan, Progress, Taken, after, passed_over};
use outcome::Refusal;
use state::State;

// What a command's text comes to, where `room` bytes are left for its reply: refused by 1, 2, 3 or 4, empty, or done.
#[inline(always)]
pub fn take_command(s: State, text: &[u8], waiting: bool, room: usize) -> Taken
    ensures { (one two : List ℕ) →
        effect_of result s one two ≡ command_of room waiting (parsed_of text.now) s one two }
{
    let Some(c) = command::parse(text)? else {
        return Ok(None);
    };
    let kind = c.kind;
    if !precondition::is_allowed(s.settings, s.acquisition, kind) {
        return Err(Refusal::NotAllowed);
    }
    let reply = reply::reply_to(s, kind, waiting);
    if room < reply.length() {
        return Err(Refusal::NoRoom);
    }
    let step = effect::storage_after(s.settings, s.acquisition, s.installation.capacity, kind);
    Ok(Some(Plan { kind, reply, step }))
}

// One more command of a line, where `room` bytes are lent for the replies of the whole line.
fn step(p: Progress, text: &[u8], room: usize) -> Progress
    requires { (p.at ≤ room) × (p.count < 1000) }
    ensures value { (l : Line) → p ≡ progress_of l → result ≡ progress_of (after_command room text.now l) }
    ensures at_in_bounds { (result.at ≤ room) × (result.count ≡ p.count + 1) }
{
    let taken = take_command(p.state, text, 0 < p.at, room - p.at);
    after(p, taken)
}

// The commands of a cleaned line, one after the other, up to one that would be refused by 4.
fn run(s: State, text: &[u8], room: usize) -> Progress
    requires { length text.now < 257 }
    ensures { (one two : List ℕ) →
        result ≡ progress_of (run_all room (parts semicolon text.now) (start_line s one two)) }
{
    let mut p = Progress::start(s);
    for part in text.split(|byte| *byte == b';') {
        if part.is_empty() {
            p = passed_over(p);
            continue;
        }
        p = step(p, part, room);
        if p.dropped {
            return p;
        }
    }
    p
}

// Whether no command of a line would be refused by 4: of its first 256 bytes that count, as the line is run.
pub fn fits(s: State, line: &[u8], room: usize) -> bool
    ensures { (one two : List ℕ) →
        result ≡ not (run_all room (texts_run line.now) (start_line s one two)).report.dropped }
{
    let c = line_text::clean(line);
    let p = run(s, c.line(), room);
    !p.dropped
}
