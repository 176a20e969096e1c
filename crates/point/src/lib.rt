// Points of a trace: which words are legal, the IEEE single that TRCB sends for one, and a word's four bytes.
#![tactic(auto)]

ghost use Rattle.std.specs.Prelude.{false, ◌≡◌, ◌≤◌, ◌<◌};
ghost use Rattle.point.specs.Point.{magnitude_most, exponent_most, is_legal, is_negative};
ghost use Rattle.point.specs.Point.{magnitude_of, exponent_byte, single_of, float_of};
ghost use Rattle.point.specs.Bytes.{little_endian};

// A legal point's exponent is at most this.
const MAX_EXPONENT: u32 = 236;

// A single's sign bit.
const SIGN: u32 = 0x8000_0000;

// The weight of a single's exponent field, and of its highest digit, which the fraction field leaves out.
const HIDDEN: u32 = 0x0080_0000;

// What is sent for a word that is no legal point: 00 00 C0 7F, a NaN.
const NO_POINT: u32 = 0x7FC0_0000;

// The third byte, the point's exponent e.
fn exponent(word: u32) -> u32
    ensures { result ≡ exponent_byte word }
{
    word / 0x1_0000 % 0x100
}

// Whether the word is a legal point: top byte 0, e at most MAX_EXPONENT.
pub fn legal(word: u32) -> bool
    ensures { result ≡ is_legal word }
{
    word / 0x100_0000 == 0 && exponent(word) <= MAX_EXPONENT
}

// Whether m, the low 16 bits as a signed number, is negative.
fn negative(word: u32) -> bool
    ensures { result ≡ is_negative word }
{
    0x8000 <= word % 0x1_0000
}

// m without its sign.
fn magnitude(word: u32) -> u32
    ensures { result ≡ magnitude_of word }
{
    let low = word % 0x1_0000;
    if negative(word) { 0x1_0000 - low } else { low }
}

// The single of value a * 2^(e - 124): the leading zeros of a give its exponent and the shift of its fraction.
fn single(a: u32, e: u32) -> u32
    requires magnitude_fits { (0 < a) × (a ≤ magnitude_most) }
    requires exponent_fits { e ≤ exponent_most }
    ensures { result ≡ single_of false a e }
{
    let zeros = u32::leading_zeros(a);
    let field = 31 - zeros + e + 3;
    let fraction = (a << (zeros - 8)) - HIDDEN;
    field * HIDDEN + fraction
}

// The pattern of the IEEE single that TRCB sends for the word.
pub fn float_bits(word: u32) -> u32
    ensures { result ≡ float_of word }
{
    if !legal(word) {
        return NO_POINT;
    }
    let a = magnitude(word);
    if a == 0 {
        return 0;
    }
    let bits = single(a, exponent(word));
    if negative(word) { SIGN + bits } else { bits }
}

// The four bytes of x, low byte first.
pub fn word_bytes(x: u32) -> [u8; 4]
    ensures { result ≡ little_endian x }
{
    x.to_le_bytes()
}
