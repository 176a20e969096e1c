// A verdict of the script check as a line of text: `ok`, or `no` with the line, the place and the refusal.
ghost use Rattle.std.specs.Prelude.{◌≡◌, ◌++◌, ◌+◌, ◌≤◌, length};
ghost use Rattle.outcome.specs.Code.{code_of};
ghost use Rattle.verdict.specs.Numbers.{no};
ghost use Rattle.check_input.specs.VerdictLine.{spaced, said_text, verdict_text, line_bytes};

use outcome::Refusal;
use verdict::Verdict;

// Room for `no`, three numbers of at most 20 digits, each behind a space, and LF.
const ROOM: usize = 66;

// A line of text, in a fixed room, since there is no heap.
#[derive(Clone, Copy)]
pub struct VerdictLine {
    // Its bytes, then zeros.
    pub bytes: [u8; ROOM],
    // How many bytes it has.
    pub len: usize,
}

impl VerdictLine {
    // A line of these bytes.
    fn of_bytes(part: &[u8]) -> VerdictLine
        requires { length part.now ≤ 66 }
        ensures { (line_bytes result ≡ part.now) × (result.len ≡ length part.now) }
    {
        let mut line = VerdictLine {
            bytes: [0; ROOM],
            len: 0,
        };
        line.append(part);
        line
    }

    // Appends bytes.
    fn append(&mut self, part: &[u8])
        requires { self.old.len + length part.now ≤ 66 }
        ensures { (line_bytes self.new ≡ line_bytes self.old ++ part.now)
            × (self.new.len ≡ self.old.len + length part.now) }
    {
        let start = self.len;
        let end = start + part.len();
        self.bytes[start..end].copy_from_slice(part);
        self.len = end;
    }

    // Appends a space and a number.
    fn append_number(&mut self, value: u64)
        requires { self.old.len ≤ 45 }
        ensures { (line_bytes self.new ≡ line_bytes self.old ++ spaced value)
            × (self.new.len ≤ self.old.len + 21) }
    {
        let mut digits = [0u8; 20];
        let n = io::decimal(value, &mut digits);
        self.append(b" ");
        self.append(&digits[..n]);
    }

    // The line of a no.
    fn of_no(line: usize, place: u32, refusal: Refusal) -> VerdictLine
        ensures { line_bytes result ≡ said_text (no line place (code_of refusal).number) }
    {
        let meaning = outcome::code_of(refusal);
        let mut text = VerdictLine::of_bytes(b"no");
        text.append_number(line as u64);
        text.append_number(place as u64);
        text.append_number(meaning.number as u64);
        text.append(b"\n");
        text
    }

    // The line of a verdict.
    pub fn of(verdict: Verdict) -> VerdictLine
        ensures { line_bytes result ≡ verdict_text verdict }
    {
        match verdict {
            Ok(()) => VerdictLine::of_bytes(b"ok\n"),
            Err(o) => VerdictLine::of_no(o.line, o.place, o.refusal),
        }
    }

    // Its bytes.
    pub fn text(&self) -> &[u8]
        ensures { result.now ≡ line_bytes self.now }
    {
        terminal::first_bytes(&self.bytes, self.len)
    }
}
