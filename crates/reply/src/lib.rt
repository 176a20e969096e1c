// What a query replies: a text with its end, or points of a trace.
#![tactic(auto)]

ghost use Rattle.std.specs.Prelude.{◌≡◌, List, ℕ, ◌+◌, length};
ghost use Rattle.storage.specs.Storage.{oldest_of};
ghost use Rattle.reply_buffer.specs.Parts.{Sends};
ghost use Rattle.reply.specs.Reply.{reply_of};
ghost use Rattle.reply.specs.Parts.{bytes_said};

mod text;

use command::{Kind, QueryArgument};
use format::Text;
use mnemonic::Form;
use state::State;
use storage::Storage;

// A command's reply, before it is written: it is told by the state alone, and its length too.
#[derive(Clone, Copy)]
pub enum Reply {
    // No byte.
    Nothing,
    // A text with its end.
    Text(Text),
    // Points of trace 1 or 2, from the one with the index `first` on.
    Points {
        trace: u32,
        form: Form,
        first: u64,
        count: u32,
    },
}

impl Reply {
    // How many bytes it has, whatever the traces hold: four a point.
    pub fn length(self) -> usize
        ensures { (one two : List ℕ) → result ≡ length (bytes_said self one two) }
    {
        match self {
            Reply::Nothing => 0,
            Reply::Text(t) => t.as_bytes().len(),
            Reply::Points { count, .. } => 4 * count as usize,
        }
    }

    // The reply at the front of out, and how many bytes it has, where it fits; else nothing.
    pub fn send(self, one: &[u32], two: &[u32], out: &mut [u8]) -> Option<usize>
        ensures { Sends (bytes_said self one.now two.now) result
            out.new out.old }
    {
        match self {
            Reply::Nothing => Some(0),
            Reply::Text(t) => reply_buffer::send(t, out),
            Reply::Points {
                trace,
                form,
                first,
                count,
            } => {
                let points = if trace == 1 { one } else { two };
                reply_buffer::send_points(points, first, count, form, out)
            }
        }
    }
}

// The index of a bin's point.
fn point_index(s: Storage, capacity: u32, bin: u32) -> u64
    ensures { result ≡ oldest_of s capacity + bin }
{
    storage::oldest(s, capacity) + (bin as u64)
}

// What a command replies: points for a trace read, a text for every other query, nothing for a command that is none.
#[inline(always)]
pub fn reply_to(s: State, kind: Kind, waiting: bool) -> Reply
    ensures { (one two : List ℕ) → bytes_said result one two ≡ reply_of kind s waiting one two }
{
    let Kind::Query(q) = kind else {
        return Reply::Nothing;
    };
    match q {
        QueryArgument::Trace(form, trace, bin, count) => Reply::Points {
            trace,
            form,
            first: point_index(s.acquisition.storage, s.installation.capacity, bin),
            count,
        },
        _ => Reply::Text(text::terminated_text(s, q, waiting)),
    }
}
