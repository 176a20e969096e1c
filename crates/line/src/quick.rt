// Lines that must find room for their replies, told by their bytes alone.
ghost use Rattle.std.specs.Prelude.{◌≡◌};
ghost use Rattle.line.specs.Parts.{must_fit};

// The most bytes of a reply that is no trace read, its end counted.
const TEXT_MOST: usize = 28;

// Whether a line's bytes alone show that no command of it is refused by 4: it has no "?", so that nothing replies; or
// no ",", so that nothing reads a trace, and the room has a text for each command that it can have.
pub fn must_fit(line: &[u8], room: usize) -> bool
    ensures { result ≡ must_fit line.now room }
{
    let asks = line.contains(&b'?');
    let divides = line.contains(&b',');
    !asks || (!divides && line.len() < room / TEXT_MOST)
}
