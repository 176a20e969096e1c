// The input byte by byte: what is kept of line one, and the script's bytes, stored in a buffer.
ghost use Rattle.std.specs.Prelude.{◌≡◌};
ghost use Rattle.check_input.specs.Bytes.{memory, start_input, capacity_after, line_one_after, script_after};
ghost use Rattle.check_input.specs.Bytes.{after_byte, after_bytes};

use settings::Settings;

// What a line one that is no number counts as: past every capacity.
const NO_CAPACITY: u32 = Settings::CAPACITY_MOST + 1;

// What has been read of the input.
#[derive(Clone, Copy)]
pub struct Input {
    // Whether line one has ended: beside the capacity, as `memory` and `start_input` have it.
    pub ending: bool,
    // The capacity on line one.
    pub capacity: u32,
    // How many bytes of the script are in the buffer.
    pub len: usize,
}

// The capacity after one more byte of line one. A number past every capacity stays, so that any run of digits can be
// read.
fn capacity_after(capacity: u32, b: u8) -> u32
    ensures { result ≡ capacity_after b capacity }
{
    if Settings::CAPACITY_MOST < capacity {
        return capacity;
    }
    match b {
        b'0'..=b'9' => capacity * 10 + (b - b'0') as u32,
        _ => NO_CAPACITY,
    }
}

impl Input {
    // Nothing has been read.
    pub fn start() -> Input
        ensures { result ≡ start_input }
    {
        Input {
            ending: false,
            capacity: 0,
            len: 0,
        }
    }

    // Takes a byte of line one, or the LF that ends it.
    fn take_line_one(&mut self, b: u8)
        ensures { self.new ≡ line_one_after b self.old }
    {
        if b == b'\n' {
            self.ending = true;
        } else {
            self.ending = false;
            self.capacity = capacity_after(self.capacity, b);
        }
    }

    // Stores a byte of the script behind those that there are. Where there is no room it is dropped.
    fn take_script(&mut self, b: u8, script: &mut [u8])
        ensures { memory self.new script.new ≡ script_after b (memory self.old script.old) }
    {
        if self.len < script.len() {
            script[self.len] = b;
            self.len += 1;
        }
    }

    // Takes a byte of line one or of the script.
    fn take_byte(&mut self, b: u8, script: &mut [u8])
        ensures { memory self.new script.new ≡ after_byte b (memory self.old script.old) }
    {
        if self.ending {
            self.take_script(b, script);
        } else {
            self.take_line_one(b);
        }
    }

    // Takes the next bytes of the input.
    pub fn take_bytes(&mut self, bytes: &[u8], script: &mut [u8])
        ensures { memory self.new script.new
            ≡ after_bytes bytes.now (memory self.old script.old) }
    {
        for b in bytes {
            self.take_byte(*b, script);
        }
    }
}
