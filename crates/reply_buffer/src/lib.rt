// Reply bytes written into the room that is lent: a text, or points of a trace.
#![tactic(auto)]

ghost use Rattle.std.specs.Prelude.{◌≡◌, ◌++◌, ◌+◌, ◌*◌, ◌<◌, ◌≤◌, length, take, drop};
ghost use Rattle.format.specs.Parts.{bytes_of};
ghost use Rattle.point.specs.Bytes.{little_endian};
ghost use Rattle.reply_buffer.specs.Buffer.{overwrite, word_at, formed, point_bytes};
ghost use Rattle.reply_buffer.specs.Parts.{Sends, slot_of};

use format::Text;
use mnemonic::Form;

// The text at the front of out, and how many bytes it has, where it fits; else nothing.
pub fn send(t: Text, out: &mut [u8]) -> Option<usize>
    ensures { Sends (bytes_of t) result out.new out.old }
{
    let bytes = t.as_bytes();
    let n = bytes.len();
    if out.len() < n {
        return None;
    }
    out[..n].copy_from_slice(bytes);
    Some(n)
}

// The slot of an index that is counted on past the last slot; 0 where there is no slot.
fn slot_of(slots: usize, place: u64) -> usize
    ensures value { result ≡ slot_of slots place }
    ensures within { result ≤ slots }
{
    if slots == 0 {
        0
    } else {
        (place % slots as u64) as usize
    }
}

// The word of a trace at an index that is counted on past its last slot; 0 of an empty trace.
pub fn word_at(trace: &[u32], place: u64) -> u32
    ensures { result ≡ word_at trace.now place }
{
    trace.get(slot_of(trace.len(), place)).copied().unwrap_or(0)
}

// A point's word as it is sent.
fn formed_word(form: Form, word: u32) -> u32
    ensures { result ≡ formed form word }
{
    match form {
        Form::Words => word,
        Form::Floats => point::float_bits(word),
    }
}

// The four bytes of x, low byte first, at an index of out.
fn put_word(x: u32, at: usize, out: &mut [u8])
    requires { at + 4 ≤ length out.old }
    ensures { out.new
        ≡ take at out.old ++ little_endian x ++ drop (at + 4) out.old }
{
    out[at..at + 4].copy_from_slice(&point::word_bytes(x));
}

// Points of a trace from an index on, at the front of out.
fn put_points(trace: &[u32], first: usize, count: usize, form: Form, out: &mut [u8])
    requires { (first + count < 18446744073709551616) × (4 * count ≤ length out.old) }
    ensures { out.new
        ≡ overwrite (point_bytes form trace.now first count) out.old }
{
    for i in 0..count {
        let word = word_at(trace, (first + i) as u64);
        let sent = formed_word(form, word);
        put_word(sent, 4 * i, out);
    }
}

// The points of a trace from an index on, as words or as floats, four bytes each, at the front of out, and how many
// bytes they are, where they fit; else nothing.
pub fn send_points(
    trace: &[u32],
    place: u64,
    count: u32,
    form: Form,
    out: &mut [u8],
) -> Option<usize>
    ensures { Sends (point_bytes form trace.now place count) result
        out.new out.old }
{
    let points = count as usize;
    if out.len() < 4 * points {
        return None;
    }
    let first = slot_of(trace.len(), place);
    put_points(trace, first, points, form, out);
    Some(4 * points)
}
