// Number text as a quantity, read exactly: digit by digit, without numbers of more than 64 bits.
ghost use Rattle.std.specs.Prelude.{◌≡◌, true, ◌++◌, ◌+◌, ◌*◌, ◌≤◌, min, length, get_or, drop, is_some, IfSome};
ghost use Rattle.number.specs.Number.{minus, digit_zero, begins, unsigned, all_digits, digit_limit};
ghost use Rattle.number.specs.Parts.{cap, quantity_of, read_of};
ghost use Rattle.number.specs.TextParts.{digits_value, all_zero, moved, digits_of, mantissa_of, unsigned_of, up_most};
ghost use Rattle.number.specs.TextParts.{are_digits, short_of, exponent_of, short_most};

use super::{CAP, Quantity};

// The most digits that a number has, point and exponent aside.
const DIGIT_LIMIT: usize = 15;

// The most bytes that a number has: its digits, two signs, a point, "E" and two digits after it.
const TEXT_LIMIT: usize = DIGIT_LIMIT + 6;

// A power of ten, as the digits by which the point moves.
#[derive(Clone, Copy)]
struct Power {
    // The digits to the right.
    up: usize,
    // The digits to the left.
    down: usize,
}

// Whether all bytes are digits.
fn all_digits(s: &[u8]) -> bool
    ensures { result ≡ all_digits s.now }
{
    s.iter().all(|b| b.is_ascii_digit())
}

// The number with one digit more at its end, at most CAP.
fn grown(value: u64, digit: u8) -> u64
    requires { (value ≤ cap) × (digit ≤ 9) }
    ensures { result ≡ min cap (value * 10 + digit) }
{
    CAP.min(value * 10 + u64::from(digit))
}

// A number's digits, before and after its point.
#[derive(Clone, Copy)]
struct Digits<'a> {
    // The digits before the point.
    front: &'a [u8],
    // The digits after the point.
    back: &'a [u8],
    // All bytes are digits.
    ghost digits: { all_digits (front.now ++ back.now) ≡ true },
    // They are not more than a number may have.
    ghost few: { length front.now + length back.now ≤ digit_limit },
}

impl<'a> Digits<'a> {
    // These bytes as digits: None unless they are digits, at least one and at most DIGIT_LIMIT.
    fn of(front: &'a [u8], back: &'a [u8]) -> Option<Digits<'a>>
        ensures { (is_some result ≡ are_digits (front.now ++ back.now))
            × IfSome result (λ d. (d.front.now ≡ front.now) × (d.back.now ≡ back.now)) }
    {
        let n = front.len() + back.len();
        if n < 1 || DIGIT_LIMIT < n || !all_digits(front) || !all_digits(back) {
            return None;
        }
        Some(Digits { front, back })
    }

    // The digit at an index: "0" past the last.
    fn at(self, index: usize) -> u8
        ensures { result ≡ get_or (self.entry.front.now ++ self.entry.back.now) index digit_zero }
    {
        if index < self.front.len() {
            return self.front[index];
        }
        let behind = index - self.front.len();
        self.back.get(behind).copied().unwrap_or(b'0')
    }

    // The number that the first `kept` digits write, at most CAP.
    fn whole_part(self, kept: usize) -> u64
        ensures { result ≡ min cap (digits_value (self.entry.front.now ++ self.entry.back.now) 0 kept) }
    {
        let mut value = 0;
        for index in 0..kept {
            value = grown(value, self.at(index) - b'0');
        }
        value
    }

    // Whether every digit from the index `from` on is "0".
    fn zero_from(self, from: usize) -> bool
        ensures { result ≡ all_zero (drop from (self.entry.front.now ++ self.entry.back.now)) }
    {
        self.front
            .iter()
            .chain(self.back.iter())
            .skip(from)
            .all(|b| *b == b'0')
    }

    // The number with these digits, once the power has moved the point.
    fn scaled(self, negative: bool, power: Power) -> Quantity
        requires { power.up ≤ up_most }
        ensures { result ≡ quantity_of (moved negative self.entry.front.now self.entry.back.now power.up power.down) }
    {
        let point = self.front.len() + power.up;
        if point < power.down {
            return Quantity {
                negative,
                whole: 0,
                half: false,
                exact: self.zero_from(0),
            };
        }
        let kept = point - power.down;
        Quantity {
            negative,
            whole: self.whole_part(kept),
            half: b'5' <= self.at(kept),
            exact: self.zero_from(kept),
        }
    }
}

// The number of these bytes before and after the point, once the power has moved it: None unless they are digits.
fn read_digits(front: &[u8], back: &[u8], negative: bool, power: Power) -> Option<Quantity>
    requires { power.up ≤ up_most }
    ensures { result ≡ digits_of negative front.now back.now power.up power.down }
{
    let digits = Digits::of(front, back)?;
    Some(digits.scaled(negative, power))
}

// The text before "E", divided at its point.
fn read_mantissa(m: &[u8], negative: bool, power: Power) -> Option<Quantity>
    requires { power.up ≤ up_most }
    ensures { result ≡ mantissa_of negative m.now power.up power.down }
{
    let p = split::span_of(m, b'.');
    if p < m.len() {
        let start = p + 1;
        return read_digits(&m[..p], &m[start..], negative, power);
    }
    read_digits(m, &[], negative, power)
}

// One or two digits as a number; None is another count or another byte.
fn short_number(t: &[u8]) -> Option<usize>
    ensures { (result ≡ short_of t.now) × IfSome result (λ n. n ≤ short_most) }
{
    if !all_digits(t) {
        return None;
    }
    match t {
        [a] => Some(usize::from(*a - b'0')),
        [a, b] => Some(usize::from((*a - b'0') * 10 + (*b - b'0'))),
        _ => None,
    }
}

// Whether a text has a minus at its front, and the text without the sign at its front, if it has one.
fn split_sign(text: &[u8]) -> (bool, &[u8])
    ensures { (result.0 ≡ begins minus text.now) × (result.1.now ≡ unsigned text.now) }
{
    match text {
        [b'-', rest @ ..] => (true, rest),
        [b'+', rest @ ..] => (false, rest),
        _ => (false, text),
    }
}

// The text after "E" as a power: a sign or none, then one digit or two. None is no power.
fn read_exponent(x: &[u8]) -> Option<Power>
    ensures { (result ≡ exponent_of x.now) × IfSome result (λ p. (p.up ≤ short_most) × (p.down ≤ short_most)) }
{
    let (negative, digits) = split_sign(x);
    let n = short_number(digits)?;
    if negative {
        return Some(Power { up: 0, down: n });
    }
    Some(Power { up: n, down: 0 })
}

// A number's text after its sign, in units of 10^-decimals.
fn read_unsigned(u: &[u8], negative: bool, decimals: usize) -> Option<Quantity>
    requires { decimals ≤ 255 }
    ensures { result ≡ unsigned_of negative u.now decimals }
{
    let e = split::span_of(u, b'E');
    if e < u.len() {
        let start = e + 1;
        let power = read_exponent(&u[start..])?;
        let moved = Power {
            up: decimals + power.up,
            down: power.down,
        };
        return read_mantissa(&u[..e], negative, moved);
    }
    let moved = Power {
        up: decimals,
        down: 0,
    };
    read_mantissa(u, negative, moved)
}

// A text as a number, in units of 10^-decimals. None is no number.
pub fn read(text: &[u8], decimals: u8) -> Option<Quantity>
    ensures { result ≡ read_of decimals text.now }
{
    if TEXT_LIMIT < text.len() {
        return None;
    }
    let (negative, u) = split_sign(text);
    read_unsigned(u, negative, usize::from(decimals))
}
