// Standard input, read to its end.
ghost use Rattle.std.specs.Prelude.{◌≡◌, ◌+◌, length};
ghost use Rattle.check_input.specs.Bytes.{memory, start_input};
ghost use Rattle.check_input.specs.Input.{script_limit};
ghost use Rattle.check_input.specs.Whole.{Reads};

use crate::SCRIPT_LIMIT;
use crate::bytes::Input;
use std::io::Read;

// Room for a script, and for one byte more, which shows that there are more than the limit.
const ROOM: usize = SCRIPT_LIMIT + 1;

// Bytes to lend for a script.
pub fn script_buffer() -> [u8; ROOM]
    ensures { script_limit + 1 ≡ length result }
{
    [0; ROOM]
}

// Reads all of the input and stores the script's bytes at the start of a buffer, as far as there is room. A proved loop
// has to end, so this one counts its turns, up to a number that no run reaches.
pub fn read_input(reader: &mut impl Read, script: &mut [u8]) -> Input
    ensures { Reads (memory start_input script.old) (memory result script.new) }
{
    let mut chunk = io::large_buffer();
    let mut input = Input::start();
    for _ in 0..u64::MAX {
        let n = terminal::next_chunk(reader, &mut chunk);
        if n == 0 {
            return input;
        }
        input.take_bytes(&chunk[..n], script);
    }
    input
}
