// The script check: whether any bench can refuse a command of a script, found without running it.
#![tactic(auto)]

ghost use Rattle.std.specs.Prelude.{◌≡◌, ◌<◌, length};
ghost use Rattle.split.specs.Divide.{parts};
ghost use Rattle.line_text.specs.Texts.{semicolon};
ghost use Rattle.extreme_courses.specs.Extremes.{start_extremes};
ghost use Rattle.verdict.specs.Numbers.{verdict_numbers};
ghost use Rattle.script.specs.Check.{finding, verdict_of, lines_of, check_of};
ghost use Rattle.script.specs.Parts.{texts_checked, line_checked};

use extreme_courses::Extremes;
pub use extreme_courses::Model;
use outcome::PlacedRefusal;
pub use outcome::Refusal;
pub use verdict::{Objection, Verdict, packed_number};

// No module can have traces of the capacity: said of the whole script, at line 0, place 0.
const BAD_TRACES: Objection = Objection {
    line: 0,
    place: 0,
    refusal: Refusal::BadTraces,
};

// A line of more bytes than a line may have: said of the whole line, at place 0.
const LONG_LINE: PlacedRefusal = PlacedRefusal {
    refusal: Refusal::LongScriptLine,
    place: 0,
};

// A script without a command, which therefore does not begin with *RST: said at line 1, place 1.
const NO_RESET: Objection = Objection {
    line: 1,
    place: 1,
    refusal: Refusal::NoReset,
};

// A line's commands: what is carried past them, or the first refusal among them, with its place.
pub type LineCheck = Result<Extremes, PlacedRefusal>;

// The commands of a cleaned line, up to one that is refused.
fn check_commands(model: Model, b: Extremes, text: &[u8]) -> LineCheck
    requires { length text.now < 257 }
    ensures { result ≡ texts_checked model (parts semicolon text.now) b }
{
    let mut extremes = b;
    let mut place = 1;
    for part in text.split(|byte| *byte == b';') {
        let p = command::parse(part);
        if let Err(refusal) = extreme_courses::text_refusal(p, extremes) {
            return Err(PlacedRefusal { refusal, place });
        }
        extremes = extreme_courses::text_after(model, p, extremes);
        place += 1;
    }
    Ok(extremes)
}

// A line, with what can happen before it.
fn check_line(model: Model, b: Extremes, line: &[u8]) -> LineCheck
    ensures { result ≡ line_checked model line.now b }
{
    if line_text::LINE < line.len() {
        return Err(LONG_LINE);
    }
    let extremes = extreme_courses::before_line(model, b);
    if line.is_empty() {
        return Ok(extremes);
    }
    let c = line_text::clean(line);
    check_commands(model, extremes, c.line())
}

// The lines of a script, up to one that is too long or refused.
fn check_lines(model: Model, script: &[u8]) -> Verdict
    ensures { result ≡ verdict_of (finding model (lines_of script.now) start_extremes) }
{
    let mut extremes = extreme_courses::start_extremes();
    let mut line = 1;
    for text in script.split(|byte| *byte == b'\n') {
        extremes = check_line(model, extremes, text).map_err(|first| Objection {
            line,
            place: first.place,
            refusal: first.refusal,
        })?;
        line += 1;
    }
    if extremes.begun {
        Ok(())
    } else {
        Err(NO_RESET)
    }
}

// Whether a script can be refused in any course, run by a module of the model.
pub fn check(model: Model, script: &[u8]) -> Verdict
    ensures value { result ≡ check_of model script.now }
    ensures numbers { verdict_numbers result ≡ verdict_numbers (check_of model script.now) }
{
    if extreme_courses::model_fits(model) {
        check_lines(model, script)
    } else {
        Err(BAD_TRACES)
    }
}
