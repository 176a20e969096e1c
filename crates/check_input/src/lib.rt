// The input of the programs over the script check, the capacity on line one and then the script, and the verdict that
// they write on it.
#![tactic(auto)]

ghost use Rattle.std.specs.Prelude.{◌≡◌};
ghost use Rattle.check_input.specs.VerdictLine.{line_bytes};
ghost use Rattle.check_input.specs.Bytes.{memory};
ghost use Rattle.check_input.specs.Input.{limited_check};
ghost use Rattle.check_input.specs.Whole.{verdict_from, Outputs, OutputOfSome};

mod bytes;
mod source;
mod verdict_line;

pub use bytes::Input;
use outcome::Refusal;
use script::Model;
pub use source::{read_input, script_buffer};
use std::io::Read;
use verdict::{Objection, Verdict};
pub use verdict_line::VerdictLine;

// The most bytes that a script has.
const SCRIPT_LIMIT: usize = 60000;

// The verdict on a script at a capacity, where a script has a limit.
pub fn limited_check(capacity: u32, script: &[u8]) -> Verdict
    ensures { result ≡ limited_check capacity script.now }
{
    let model = Model::of_capacity(capacity);
    if script.len() <= SCRIPT_LIMIT {
        return script::check(model, script);
    }
    if extreme_courses::model_fits(model) {
        return Err(Objection {
            line: 0,
            place: 0,
            refusal: Refusal::LongScriptLine,
        });
    }
    Err(Objection {
        line: 0,
        place: 0,
        refusal: Refusal::BadTraces,
    })
}

// The verdict on what has been read.
pub fn verdict_from(input: Input, script: &[u8]) -> Verdict
    ensures { result ≡ verdict_from (memory input script.now) }
{
    limited_check(input.capacity, terminal::first_bytes(script, input.len))
}

// The line that the check program writes after what has been read.
pub fn output_line(input: Input, script: &[u8]) -> VerdictLine
    ensures { Outputs (memory input script.now) (line_bytes result) }
{
    VerdictLine::of(verdict_from(input, script))
}

// Reads the input to its end, and gives the line that the check program writes.
pub fn read_output(reader: &mut impl Read) -> VerdictLine
    ensures { OutputOfSome (line_bytes result) }
{
    let mut script = script_buffer();
    let input = read_input(reader, &mut script);
    output_line(input, &script)
}
