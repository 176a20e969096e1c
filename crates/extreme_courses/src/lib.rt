// The two courses that the check follows: what can happen before a line, which commands are refused, and what is
// carried past the others.
#![tactic(auto)]

ghost use Rattle.std.specs.Prelude.{◌≡◌, ◌/◌};
ghost use Rattle.settings.specs.Limits.{detection_limit};
ghost use Rattle.extreme_courses.specs.Model.{model_of, model_fits};
ghost use Rattle.extreme_courses.specs.Extremes.{resets, measured_high, triggered_high, before_line};
ghost use Rattle.extreme_courses.specs.Extremes.{kind_refusal, text_refusal, kind_after, text_after, start_extremes};

use command::{Kind, Parsed};
use outcome::{Outcome, Refusal};
use settings::Settings;
use state::Acquisition;

// §13.2: what the check is told of the modules that may run a script: how many points each of their traces holds, and
// nothing else.
#[derive(Clone, Copy)]
pub struct Model {
    pub capacity: u32,
}

impl Model {
    // The modules whose traces have a capacity.
    pub fn of_capacity(capacity: u32) -> Model
        ensures { result ≡ model_of capacity }
    {
        Model { capacity }
    }
}

// Whether there can be such a module: a capacity that traces can have, else refusal 9.
pub fn model_fits(model: Model) -> bool
    ensures { result ≡ model_fits model }
{
    (Settings::CAPACITY_LEAST..=Settings::CAPACITY_MOST).contains(&model.capacity)
}

// What the check carries from command to command.
#[derive(Clone, Copy)]
pub struct Extremes {
    // Whether *RST has begun the script.
    pub begun: bool,
    // The settings, which every course shares.
    pub settings: Settings,
    // The acquisition of the course that has no events.
    pub low: Acquisition,
    // That of the course that has, before each line, the highest frequency that can be measured, and then a trigger.
    pub high: Acquisition,
}

// Whether a command is *RST.
fn resets(kind: Kind) -> bool
    ensures { result ≡ resets kind }
{
    matches!(kind, Kind::Act(a) if effect::is_rst(a))
}

// The highest frequency that is taken with a harmonic.
pub fn highest(harmonic: u32) -> u32
    ensures { result ≡ detection_limit / harmonic }
{
    Settings::DETECTION_LIMIT.checked_div(harmonic).unwrap_or(0)
}

// The acquisition once the highest frequency was measured, where one is measured at all.
fn measured_high(s: Settings, m: Acquisition) -> Acquisition
    ensures { result ≡ measured_high s m }
{
    if settings::is_internal(s) {
        return m;
    }
    let external = highest(settings::value_of(s, settings::HARM));
    state::range_settled(s, Acquisition { external, ..m })
}

// The acquisition once a trigger has come.
fn triggered_high(capacity: u32, s: Settings, m: Acquisition) -> Acquisition
    ensures { result ≡ triggered_high capacity s m }
{
    let p = storage::triggered(m.storage, capacity, state::sampling_of(s));
    Acquisition {
        storage: p.storage,
        ..m
    }
}

// What can happen before a line.
pub fn before_line(model: Model, b: Extremes) -> Extremes
    ensures { result ≡ before_line model b }
{
    Extremes {
        high: triggered_high(
            model.capacity,
            b.settings,
            measured_high(b.settings, b.high),
        ),
        ..b
    }
}

// The refusal of a command of the language: 7 before *RST, 3 where one of the two courses refuses it.
fn kind_refusal(kind: Kind, b: Extremes) -> Outcome
    ensures { result ≡ kind_refusal kind b }
{
    if b.begun {
        if precondition::is_allowed(b.settings, b.low, kind)
            && precondition::is_allowed(b.settings, b.high, kind)
        {
            Ok(())
        } else {
            Err(Refusal::NotAllowed)
        }
    } else if resets(kind) {
        Ok(())
    } else {
        Err(Refusal::NoReset)
    }
}

// The refusal of a command as it is read: 7 before *RST, 1 and 2 by its text, 3 where one of the two refuses it.
#[tactic(auto, unfolding(crate::specs::Extremes::text_refusal))]
pub fn text_refusal(p: Parsed, b: Extremes) -> Outcome
    ensures { result ≡ text_refusal p b }
{
    match p {
        Ok(None) => Ok(()),
        Err(refusal) => Err(if b.begun { refusal } else { Refusal::NoReset }),
        Ok(Some(c)) => kind_refusal(c.kind, b),
    }
}

// What is carried past a command of the language that no course refuses.
fn kind_after(model: Model, kind: Kind, b: Extremes) -> Extremes
    ensures { result ≡ kind_after model kind b }
{
    let settings = effect::settings_after(b.settings, kind);
    Extremes {
        begun: b.begun || resets(kind),
        settings,
        low: effect::acquisition_after(settings, b.low, model.capacity, kind),
        high: effect::acquisition_after(settings, b.high, model.capacity, kind),
    }
}

// What is carried past a command that is not refused.
#[tactic(auto, unfolding(crate::specs::Extremes::text_after))]
pub fn text_after(model: Model, p: Parsed, b: Extremes) -> Extremes
    ensures { result ≡ text_after model p b }
{
    match p {
        Ok(None) | Err(_) => b,
        Ok(Some(c)) => kind_after(model, c.kind, b),
    }
}

// What is carried into a script.
pub fn start_extremes() -> Extremes
    ensures { result ≡ start_extremes }
{
    Extremes {
        begun: false,
        settings: Settings::start(),
        low: Acquisition::start(),
        high: Acquisition::start(),
    }
}
