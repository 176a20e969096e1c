// The queue of bytes that wait for their line's end.
#![tactic(auto)]

ghost use Rattle.std.specs.Prelude.{◌≡◌, false, min};
ghost use Rattle.queue.specs.Queue.{line_limit, empty_queue, ends_line, is_marked, appended_of, received_of};
ghost use Rattle.queue.specs.Queue.{is_end, no_end, is_valid};
ghost use Rattle.queue.specs.Parts.{queue_of, bytes_with, Describes};

use line_text::LINE;

// The number of the RS232 port.
pub const RS232: u8 = 0;

// The number of the GPIB port.
pub const GPIB: u8 = 1;

// How many bytes are tested at once for a line's end.
const BLOCK: usize = 16;

// The bytes of a line that has not ended.
#[derive(Clone, Copy)]
pub struct Queue {
    // The bytes that wait, then bytes that do not count: a fixed room, since there is no heap.
    pub bytes: [u8; LINE],
    // How many bytes wait.
    pub len: usize,
    // Whether bytes are discarded up to the line's end, after a line that was too long.
    pub discarding: bool,
}

// What a byte ends.
#[derive(Clone, Copy, PartialEq, Eq)]
pub enum LineEnd {
    // No line.
    Nothing,
    // The line that waits in the queue, which can run.
    Line,
    // A line that is too long: refusal 5.
    TooLong,
}

// What a byte does to a queue, whose bytes are neither read nor copied.
#[derive(Clone, Copy)]
pub struct QueueStep {
    // Whether the byte is stored after those that wait.
    pub stores: bool,
    // How many bytes the line then has.
    pub line: usize,
    // How many bytes wait once a line that ended has run.
    pub len: usize,
    // Whether bytes are discarded from here on.
    pub discarding: bool,
    // What the byte ends.
    pub ending: LineEnd,
}

impl Queue {
    // A queue in which no byte waits.
    pub fn empty() -> Queue
        ensures { result ≡ empty_queue }
    {
        Queue {
            bytes: [0u8; LINE],
            len: 0,
            discarding: false,
        }
    }

    // Whether a state of the port may have this queue: its part of refusal 11.
    pub fn is_valid(&self, port: u8) -> bool
        ensures { result ≡ is_valid self.now port }
    {
        if self.discarding {
            return self.len == 0;
        }
        let Some(line) = self.bytes.get(..self.len) else {
            return false;
        };
        ends_none(line, port)
    }
}

// Whether a byte ends a line by itself: LF on both ports, CR on RS232.
pub fn ends_line(port: u8, b: u8) -> bool
    ensures { result ≡ ends_line port b }
{
    b == b'\n' || (port == RS232 && b == b'\r')
}

// Whether a byte's end mark ends a line: on GPIB only.
fn is_marked(port: u8, mark: bool) -> bool
    ensures { result ≡ is_marked port mark }
{
    port != RS232 && mark
}

// Whether a byte ends a line, by itself or by its end mark.
pub fn is_end(port: u8, b: u8, mark: bool) -> bool
    ensures { result ≡ is_end port b mark }
{
    ends_line(port, b) || is_marked(port, mark)
}

// A byte that ends no line by itself, after `len` bytes: the line's last one where it is marked.
fn appended(len: usize, b: u8, marked: bool) -> QueueStep
    ensures { Describes (λ bytes. appended_of (queue_of bytes len false) b marked) len b result }
{
    if LINE <= len {
        return QueueStep {
            stores: false,
            line: 0,
            len: 0,
            discarding: !marked,
            ending: LineEnd::TooLong,
        };
    }
    if marked {
        return QueueStep {
            stores: true,
            line: len + 1,
            len: 0,
            discarding: false,
            ending: LineEnd::Line,
        };
    }
    QueueStep {
        stores: true,
        line: len + 1,
        len: len + 1,
        discarding: false,
        ending: LineEnd::Nothing,
    }
}

// A byte, with its end mark or not, and a queue in which `len` bytes wait.
pub fn step_of(len: usize, discarding: bool, port: u8, b: u8, mark: bool) -> QueueStep
    ensures { Describes (λ bytes. received_of (queue_of bytes len discarding) port b mark) len b result }
{
    let ends = ends_line(port, b);
    let marked = is_marked(port, mark);
    if discarding {
        return QueueStep {
            stores: false,
            line: len,
            len,
            discarding: !(ends | marked),
            ending: LineEnd::Nothing,
        };
    }
    if ends {
        return QueueStep {
            stores: false,
            line: len,
            len: 0,
            discarding: false,
            ending: LineEnd::Line,
        };
    }
    appended(len, b, marked)
}

// Stores a byte at the offset `at`, if it is to be stored.
pub fn store(bytes: &mut [u8; LINE], at: usize, b: u8, stores: bool)
    ensures { bytes.new ≡ bytes_with stores at b bytes.old }
{
    if stores && at < LINE {
        bytes[at] = b;
    }
}

// Where a line of `len` bytes ends in the queue.
pub fn end_index(len: usize) -> usize
    ensures { result ≡ min len line_limit }
{
    len.min(LINE)
}

// Whether no byte of a block ends a line. No byte ends the fold early, so that all of them are tested at once.
fn block_ends_none(block: &[u8], port: u8) -> bool
    ensures { result ≡ no_end port block.now }
{
    block
        .iter()
        .fold(true, |none, b| none & !ends_line(port, *b))
}

// Whether no byte of these ends a line, tested by whole blocks, and the rest as a shorter one.
fn ends_none(bytes: &[u8], port: u8) -> bool
    ensures { result ≡ no_end port bytes.now }
{
    let mut rest = bytes;
    while let Some((block, after)) = rest.split_at_checked(BLOCK) {
        if !block_ends_none(block, port) {
            return false;
        }
        rest = after;
    }
    block_ends_none(rest, port)
}
