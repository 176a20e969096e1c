// Numbers: the quantity of one that was read, tested against a range and rounded to a step.
#![tactic(auto)]

ghost use Rattle.std.specs.Prelude.{◌≡◌, ◌+◌, ◌<◌, ◌≤◌};
ghost use Rattle.number.specs.Parts.{cap, taken_of, rounded_to, fits_range, placed_in};

mod text;

pub use text::read;

// A whole part past every range: 2^40. A larger one counts as this.
pub const CAP: u64 = 0x100_0000_0000;

// A number in an argument's units, as far as any range and step can ask: enough to test and to round it exactly.
#[derive(Clone, Copy)]
pub struct Quantity {
    // Whether it has a minus.
    pub negative: bool,
    // Its whole part without the sign, at most CAP.
    pub whole: u64,
    // Whether the part after the point is at least a half.
    pub half: bool,
    // Whether the part after the point is zero.
    pub exact: bool,
}

// The values that an argument may have, in the argument's units. A value x is stored as x + bias, so as not to be
// negative.
#[derive(Clone, Copy)]
pub struct Range {
    // What is added to a value where it is stored.
    pub bias: u32,
    // The lowest value, bias added.
    pub low: u32,
    // The highest value, bias added.
    pub high: u32,
    // What a value is rounded to a multiple of.
    pub step: u32,
    // Whether only whole numbers are taken.
    pub whole: bool,
}

// A number whose whole part is below CAP, so that it is tested and rounded in 64 bits.
#[derive(Clone, Copy)]
struct Amount {
    // The number.
    quantity: Quantity,
    // Its whole part is below CAP.
    ghost small: { quantity.whole < cap },
}

impl Amount {
    // Whether it is in the range, tested on its exact value.
    fn fits(self, range: Range) -> bool
        ensures { result ≡ fits_range range self.quantity }
    {
        let q = self.quantity;
        let bias = u64::from(range.bias);
        let low = u64::from(range.low);
        let high = u64::from(range.high);
        let exact = u64::from(q.exact);
        if q.negative {
            return low + q.whole + 1 <= bias + exact && bias <= high + q.whole;
        }
        low <= bias + q.whole && bias + q.whole + 1 <= high + exact
    }

    // The multiple of the step nearest to it without its sign, halves up; 0 for step 0.
    fn round_to(self, step: u32) -> u64
        ensures { (result ≡ rounded_to step self.quantity) × (result ≤ self.quantity.whole + step) }
    {
        if step == 0 {
            return 0;
        }
        let q = self.quantity;
        let s = u64::from(step);
        let up = s <= 2 * (q.whole % s) + u64::from(q.half);
        (q.whole / s + u64::from(up)) * s
    }

    // It rounded to the range's step, bias added.
    fn placed(self, range: Range) -> u64
        ensures { result ≡ placed_in range self.quantity }
    {
        let bias = u64::from(range.bias);
        let n = self.round_to(range.step);
        if self.quantity.negative {
            bias.saturating_sub(n)
        } else {
            bias + n
        }
    }
}

// A number as an argument of the range: its value, rounded and with the bias added, or None, which is refusal 2. A
// value of more than 32 bits is refused too, which no range of the settings table allows.
pub fn take(q: Quantity, range: Range) -> Option<u32>
    ensures { result ≡ taken_of range q }
{
    if CAP <= q.whole {
        return None;
    }
    let amount = Amount { quantity: q };
    if amount.fits(range) && (!range.whole || q.exact) {
        return u32::try_from(amount.placed(range)).ok();
    }
    None
}
