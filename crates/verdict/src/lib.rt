// The script check's verdict, and the same as one number for a caller in C.
#![tactic(auto)]

ghost use Rattle.std.specs.Prelude.{◌≡◌};
ghost use Rattle.outcome.specs.Code.{code_of};
ghost use Rattle.verdict.specs.PackedNumber.{packed, packed_number};

use outcome::Refusal;

// The first command or line that some course refuses.
#[derive(Clone, Copy)]
pub struct Objection {
    // The number of its line, from 1; 0 where the whole script is refused.
    pub line: usize,
    // Its place in the line, from 1; 0 where the line or the whole script is refused.
    pub place: u32,
    // Why it is refused.
    pub refusal: Refusal,
}

// What the script check says: no course refuses a command of the script, or what is refused first.
pub type Verdict = Result<(), Objection>;

// The largest line that the number holds: 40 bits.
const LINE_MOST: u64 = 0xFF_FFFF_FFFF;

// The largest place that the number holds: 16 bits.
const PLACE_MOST: u32 = 0xFFFF;

// The weight of the line in the number: it begins at bit 24.
const LINE_UNIT: u64 = 0x100_0000;

// The weight of the place in the number: it begins at bit 8.
const PLACE_UNIT: u64 = 0x100;

// Line, place and the refusal's number as one number; a line or a place past its largest counts as that.
fn pack(objection: Objection) -> u64
    ensures { result ≡ packed objection.line objection.place (code_of objection.refusal).number }
{
    let line = (objection.line as u64).min(LINE_MOST);
    let place = objection.place.min(PLACE_MOST) as u64;
    let meaning = outcome::code_of(objection.refusal);
    line * LINE_UNIT + place * PLACE_UNIT + meaning.number as u64
}

// A verdict as one number: 0 where nothing is refused. A function, and no impl of From: the call for C
// promises it by its name.
pub fn packed_number(verdict: Verdict) -> u64
    ensures { result ≡ packed_number verdict }
{
    match verdict {
        Ok(()) => 0,
        Err(objection) => pack(objection),
    }
}
