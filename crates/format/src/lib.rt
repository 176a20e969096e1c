// Replies' text: numbers written in decimal, plain, in a given width, or with decimals and a sign. Digit by digit, as
// the definitions say it: no Display writes a value less its bias with its decimals.
#![tactic(auto)]

ghost use Rattle.std.specs.Prelude.{◌≡◌, [], ◌∷◌, ◌+◌, ◌/◌, ◌%◌, ◌^◌};
ghost use Rattle.number.specs.Number.{digit_zero};
ghost use Rattle.format.specs.Text.{padded, digit_count, plain, fixed, sign, signed_text, next};
ghost use Rattle.format.specs.Parts.{bytes_of, appended};

// The most bytes of a text: more than any reply in text has.
const LIMIT: usize = 32;

// The digit "0".
const ZERO: u32 = b'0' as u32;

// A reply in text, built by value before it is sent, in a fixed room, since there is no heap.
#[derive(Clone, Copy)]
pub struct Text {
    // The text, then bytes that do not count.
    pub bytes: [u8; LIMIT],
    // How many of them are the text: all where it is past the limit.
    pub len: usize,
}

impl Text {
    // A text with no byte.
    pub fn empty() -> Text
        ensures { bytes_of result ≡ [] }
    {
        Text {
            bytes: [0u8; LIMIT],
            len: 0,
        }
    }

    // The bytes of a text.
    pub fn as_bytes(&self) -> &[u8]
        ensures { result.now ≡ bytes_of self.now }
    {
        &self.bytes[..self.len.min(LIMIT)]
    }
}

// The text with one byte more; a full text stays as it is.
pub fn push(t: Text, b: u8) -> Text
    ensures { bytes_of result ≡ appended (bytes_of t) (b ∷ []) }
{
    if LIMIT <= t.len {
        return t;
    }
    let mut n = t;
    n.bytes[t.len] = b;
    n.len += 1;
    n
}

// The whole part of a value in units of 10^-decimals: a division by the constant 10 is fast, by a variable slow.
fn whole_part(value: u32, decimals: u8) -> u32
    ensures { result ≡ value / 10 ^ decimals }
{
    let mut rest = value;
    for _ in 0..decimals {
        rest /= 10;
    }
    rest
}

// The digit of a value at a position, counted from 0 at its last digit, as a byte.
fn digit(value: u32, position: u8) -> u8
    ensures { result ≡ digit_zero + value / 10 ^ position % 10 }
{
    (ZERO + whole_part(value, position) % 10) as u8
}

// The text with the last `width` digits of a value, zeros in front where it has fewer.
pub fn push_padded(t: Text, value: u32, width: u8) -> Text
    ensures { bytes_of result ≡ appended (bytes_of t) (padded width value) }
{
    let mut text = t;
    for position in (0..width).rev() {
        text = push(text, digit(value, position));
    }
    text
}

// How many digits a value has.
fn digit_count(value: u32) -> u8
    ensures { result ≡ digit_count value }
{
    value.max(1).ilog10() as u8 + 1
}

// The text with a whole number, without zeros in front.
pub fn push_plain(t: Text, value: u32) -> Text
    ensures { bytes_of result ≡ appended (bytes_of t) (plain value) }
{
    push_padded(t, value, digit_count(value))
}

// The text with a value in units of 10^-decimals: its whole part and, where there are decimals, a point and the
// decimals.
pub fn push_fixed(t: Text, value: u32, decimals: u8) -> Text
    ensures { bytes_of result ≡ appended (bytes_of t) (fixed decimals value) }
{
    if decimals == 0 {
        return push_plain(t, value);
    }
    let whole = push_plain(t, whole_part(value, decimals));
    let pointed = push(whole, b'.');
    push_padded(pointed, value, decimals)
}

// The text with a minus where the value, which has the bias added, is below zero.
fn push_sign(t: Text, value: u32, bias: u32) -> Text
    ensures { bytes_of result ≡ appended (bytes_of t) (sign bias value) }
{
    if value < bias { push(t, b'-') } else { t }
}

// The text with a value that has the bias added: a minus where it is below zero, then its distance from zero.
pub fn push_value(t: Text, value: u32, bias: u32, decimals: u8) -> Text
    ensures { bytes_of result ≡ appended (bytes_of t) (signed_text decimals bias value) }
{
    let signed = push_sign(t, value, bias);
    push_fixed(signed, value.abs_diff(bias), decimals)
}

// The text with a further value of the same reply, a comma before it.
pub fn push_next(t: Text, value: u32, bias: u32, decimals: u8) -> Text
    ensures { bytes_of result ≡ appended (bytes_of t) (next decimals bias value) }
{
    push_value(push(t, b','), value, bias, decimals)
}
