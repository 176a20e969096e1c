// What a part of a text says: a decimal number, or a number in hex.
ghost use Rattle.std.specs.Prelude.{◌≡◌, ◌<◌, ◌≤◌, length};
ghost use Rattle.std.specs.Option.{IfSome, OnSome};

// The value of a digit, in lower case where it is a letter.
fn digit_value(b: u8) -> Option<u32>
    ensures { IfSome result (λ digit. digit < 16) }
{
    match b {
        b'0'..=b'9' => Some((b - b'0') as u32),
        b'a'..=b'f' => Some((b - b'a') as u32 + 10),
        _ => None,
    }
}

// The value of digits and one digit more.
fn append_digit<const BASE: u32>(value: u32, b: u8) -> Option<u32> {
    let digit = digit_value(b).filter(|digit| *digit < BASE)?;
    value.checked_mul(BASE)?.checked_add(digit)
}

// A number of at least one digit.
fn decode_digits<const BASE: u32>(digits: &[u8]) -> Option<u32> {
    if digits.is_empty() {
        return None;
    }
    let mut value = 0;
    for b in digits {
        value = append_digit::<BASE>(value, *b)?;
    }
    Some(value)
}

// A decimal number of at least one digit, at most this one.
pub fn decode_decimal(digits: &[u8], most: u32) -> Option<u32>
    ensures { IfSome result (λ value. value ≤ most) }
{
    decode_digits::<10>(digits).filter(|value| *value <= most)
}

// A number in hex of exactly `count` digits.
pub fn decode_hex(digits: &[u8], count: usize) -> Option<u32>
    ensures { OnSome result (length digits.now ≡ count) }
{
    if digits.len() != count {
        return None;
    }
    decode_digits::<16>(digits)
}
