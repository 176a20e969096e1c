// The refusals, with the number and the standard event bit of each; a line's answer, which is its first refusal (§2.7),
// and what a call tells its caller about a line (§1.5).
#![tactic(auto)]

ghost use Rattle.std.specs.Prelude.{◌≡◌};
ghost use Rattle.outcome.specs.Code.{code_of, number_of};
ghost use Rattle.outcome.specs.Answer.{first_of, drops, numbers_of};

// Why a command, a line, an event, a script or a state is not taken.
#[derive(Clone, Copy, PartialEq, Eq)]
pub enum Refusal {
    // 1: no such name, the name in another form, another count of arguments, or an argument that is no number.
    Malformed,
    // 2: an argument out of its range, or not whole where it must be.
    OutOfRange,
    // 3: a command that this state does not allow.
    NotAllowed,
    // 4: a reply longer than the room left.
    NoRoom,
    // 5: a line of more bytes than a line may have.
    LongLine,
    // 6: an event whose value is not legal.
    BadEvent,
    // 7: a script whose first command is not *RST.
    NoReset,
    // 8: a script's line of more bytes than a line may have.
    LongScriptLine,
    // 9: traces whose lengths differ, are no capacity that there is, or are not the capacity of the state.
    BadTraces,
    // 10: a start with a serial number over 99999 or a port that there is not.
    BadStart,
    // 11: a state with a value outside its range, step or limit.
    BadState,
}

// How a command, an event or a start ends: nothing is refused, or refused, and why.
pub type Outcome = Result<(), Refusal>;

// Why a command of a line is refused, and where.
#[derive(Clone, Copy, PartialEq, Eq)]
pub struct PlacedRefusal {
    // The refusal.
    pub refusal: Refusal,
    // The command's place in the line, from 1; 0 where the line or the state as a whole is refused.
    pub place: u32,
}

// A line's answer: nothing is refused, or the first refusal and its place.
pub type Answer = Result<(), PlacedRefusal>;

// What a call with a line or a byte reports.
#[derive(Clone, Copy)]
pub struct Report {
    // The line's answer.
    pub answer: Answer,
    // The length of its reply.
    pub length: usize,
}

// The same in numbers.
#[derive(Clone, Copy)]
pub struct ReportNumbers {
    // The refusal's number, 0 where nothing is refused.
    pub refusal: u8,
    // The place of the refused command, 0 where nothing is refused.
    pub place: u32,
    // The length of the reply.
    pub length: usize,
}

// The number of a refusal, and the standard event bits that it sets.
#[derive(Clone, Copy)]
pub struct Code {
    // The number.
    pub number: u8,
    // The bits.
    pub bits: u8,
}

// Standard event bit 0: a line was too long.
const INP: u8 = 1 << 0;

// Standard event bit 2: a reply had no room.
const QRY: u8 = 1 << 2;

// Standard event bit 4: a command could not be done.
const EXE: u8 = 1 << 4;

// Standard event bit 5: a text is no command.
const CMD: u8 = 1 << 5;

// The table of refusals, row by row: the number and the standard event bits of each.
pub fn code_of(refusal: Refusal) -> Code
    ensures { result ≡ code_of refusal }
{
    match refusal {
        Refusal::Malformed => Code {
            number: 1,
            bits: CMD,
        },
        Refusal::OutOfRange => Code {
            number: 2,
            bits: EXE,
        },
        Refusal::NotAllowed => Code {
            number: 3,
            bits: EXE,
        },
        Refusal::NoRoom => Code {
            number: 4,
            bits: QRY,
        },
        Refusal::LongLine => Code {
            number: 5,
            bits: INP,
        },
        Refusal::BadEvent => Code { number: 6, bits: 0 },
        Refusal::NoReset => Code { number: 7, bits: 0 },
        Refusal::LongScriptLine => Code { number: 8, bits: 0 },
        Refusal::BadTraces => Code { number: 9, bits: 0 },
        Refusal::BadStart => Code {
            number: 10,
            bits: 0,
        },
        Refusal::BadState => Code {
            number: 11,
            bits: 0,
        },
    }
}

// The number of an outcome: its refusal's, 0 where nothing is refused.
// A function, and no impl of From: its name is one of lockin's public names.
pub fn number_of(outcome: Outcome) -> u8
    ensures { result ≡ number_of outcome }
{
    match outcome {
        Ok(()) => 0,
        Err(refusal) => code_of(refusal).number,
    }
}

// A line's answer once its command at `place` has come to an outcome: the first refusal stays.
pub fn first_of(answer: Answer, outcome: Outcome, place: u32) -> Answer
    ensures { result ≡ first_of answer outcome place }
{
    answer?;
    outcome.map_err(|refusal| PlacedRefusal { refusal, place })
}

// Whether an outcome drops the rest of the line.
pub fn drops(outcome: Outcome) -> bool
    ensures { result ≡ drops outcome }
{
    outcome == Err(Refusal::NoRoom)
}

// A report in numbers.
// A function, and no impl of From: its name is one of lockin's public names.
pub fn numbers_of(report: Report) -> ReportNumbers
    ensures { result ≡ numbers_of report }
{
    let length = report.length;
    match report.answer {
        Ok(()) => ReportNumbers {
            refusal: 0,
            place: 0,
            length,
        },
        Err(PlacedRefusal { refusal, place }) => ReportNumbers {
            refusal: code_of(refusal).number,
            place,
            length,
        },
    }
}
