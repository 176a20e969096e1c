// A line's bytes as its commands are read: space and CR left out, letters made capitals.
#![tactic(auto)]

ghost use Rattle.std.specs.Prelude.{◌≡◌, ◌≤◌, take};
ghost use Rattle.line_text.specs.Clean.{line_limit, is_dropped, capital, cleaned, shown};

// The most bytes that a line has before its end.
pub const LINE: usize = 256;

// A line as its commands are read, in a fixed room, since there is no heap.
#[derive(Clone, Copy)]
pub struct Cleaned {
    // The line, then bytes that do not count.
    pub bytes: [u8; LINE],
    // How many of them are the line.
    pub len: usize,
}

impl Cleaned {
    // The line alone.
    pub fn line(&self) -> &[u8]
        ensures { result.now ≡ shown self.now }
    {
        self.bytes.get(..self.len).unwrap_or(&self.bytes)
    }
}

// Whether a byte is left out wherever it is: space and CR.
fn is_dropped(b: u8) -> bool
    ensures { result ≡ is_dropped b }
{
    b == b' ' || b == b'\r'
}

// A small letter as its capital; any other byte as it is.
fn capital_of(b: u8) -> u8
    ensures { result ≡ capital b }
{
    b.to_ascii_uppercase()
}

// The bytes of a line that count, the first LINE of them: all of a line that is not too long.
pub fn clean(line: &[u8]) -> Cleaned
    ensures { (shown result ≡ take line_limit (cleaned line.now)) × (result.len ≤ line_limit) }
{
    let mut bytes = [0u8; LINE];
    let mut len = 0;
    for b in line {
        if !is_dropped(*b) && len < LINE {
            bytes[len] = capital_of(*b);
            len += 1;
        }
    }
    Cleaned { bytes, len }
}
