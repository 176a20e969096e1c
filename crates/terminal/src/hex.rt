// Bytes in lower-case hex.
ghost use Rattle.std.specs.Prelude.{◌≤◌, length};
ghost use Rattle.std.specs.Option.{IfSome};

use crate::field::decode_hex;

// The hex digit of a number's last four bits.
fn digit_of(value: u8) -> u8 {
    match value % 16 {
        digit @ 0..=9 => b'0' + digit,
        digit => b'a' + (digit - 10),
    }
}

// Stores each byte as two hex digits.
pub(crate) fn store_digits(digits: &mut [u8], bytes: &[u8]) {
    for (pair, b) in digits.chunks_exact_mut(2).zip(bytes) {
        pair.copy_from_slice(&[digit_of(b / 16), digit_of(*b)]);
    }
}

// The bytes that pairs of digits stand for, stored at the start of a buffer.
fn decode_pairs<'b>(text: &[u8], buffer: &'b mut [u8]) -> Option<&'b [u8]>
    ensures { IfSome result (λ bytes. length bytes.now ≤ length buffer.old) }
{
    if text.len() % 2 == 1 {
        return None;
    }
    let bytes = buffer.get_mut(..text.len() / 2)?;
    for (b, pair) in bytes.iter_mut().zip(text.chunks_exact(2)) {
        *b = u8::try_from(decode_hex(pair, 2)?).ok()?;
    }
    Some(bytes)
}

// The bytes that a text in hex stands for, `-` where there are none, stored at the start of a buffer.
pub fn decode_bytes<'b>(text: &[u8], buffer: &'b mut [u8]) -> Option<&'b [u8]>
    ensures { IfSome result (λ bytes. length bytes.now ≤ length buffer.old) }
{
    match text {
        b"-" => Some(&[]),
        [] => None,
        _ => decode_pairs(text, buffer),
    }
}
