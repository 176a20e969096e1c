// The script check for a console in C: a byte range and a capacity go in, one number comes out (include/glazeotter.h).
#![tactic(auto)]

ghost use Rattle.std.specs.Prelude.{◌≡◌};
ghost use Rattle.verdict.specs.PackedNumber.{packed_number};
ghost use Rattle.extreme_courses.specs.Model.{model_of};
ghost use Rattle.script.specs.Check.{check_of};

use script::Model;

// The script check's answer as one number, for every byte range and every capacity. A slice's pointer is never NULL:
// the header's glazeotter_check, which callers use, passes a byte of its own where the length is 0.
#[unsafe(no_mangle)]
pub extern "C" fn glazeotter_check_bytes(script: &[u8], capacity: u32) -> u64
    ensures { result ≡ packed_number (check_of (model_of capacity) script.now) }
{
    verdict::packed_number(script::check(Model::of_capacity(capacity), script))
}
