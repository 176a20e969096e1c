// Events: a new latest pair, a tick, a trigger, a measured frequency, raised bits.
#![tactic(auto)]

ghost use Rattle.std.specs.Prelude.{◌≡◌, []};
ghost use Rattle.reply_buffer.specs.After.{Meets};
ghost use Rattle.event.specs.Event.{latest_taken, takes_frequency, with_external, measured_by, bits_raised};
ghost use Rattle.event.specs.Event.{event_effect, sampled_in, event_of};

use outcome::{Outcome, Refusal};
use state::{Pair, State};
use storage::StorageStep;

// LIA bit 3: a measured frequency is not taken.
const NOT_TAKEN: u8 = 0x08;

// What happens to a module beside its input.
#[derive(Clone, Copy)]
pub enum Event {
    // A new latest pair: the first trace's point and the second's.
    Latest(u32, u32),
    // The clock of the sample rate: a pair is stored where storage runs at a rate of its own.
    Tick,
    // The trigger input: what TRIG does.
    Trigger,
    // A measured external frequency, in units of 0.1 mHz.
    Measured(u32),
    // Bits that the hardware raises: LIA's and ERR's.
    Raised(u8, u8),
}

// What came of an event.
#[derive(Clone, Copy)]
pub struct EventEffect {
    // The state after it.
    pub state: State,
    // Whether it was refused.
    pub outcome: Outcome,
}

// A new latest pair, of two legal points.
fn new_pair(s: State, w: u32, v: u32) -> EventEffect
    ensures { result ≡ latest_taken w v s }
{
    let latest = Pair { one: w, two: v };
    if state::latest_valid(latest) {
        let mut t = s;
        t.latest = latest;
        return EventEffect {
            state: t,
            outcome: Ok(()),
        };
    }
    EventEffect {
        state: s,
        outcome: Err(Refusal::BadEvent),
    }
}

// Whether a measured frequency is taken: in its range, and the detection frequency would be within the limit.
fn takes_frequency(s: State, frequency: u32) -> bool
    ensures { result ≡ takes_frequency s frequency }
{
    let harmonic = settings::value_of(s.settings, settings::HARM) as u64;
    settings::frequency_in_range(frequency) && settings::within_limit(harmonic * frequency as u64)
}

// The state with another external frequency.
fn with_external(s: State, frequency: u32) -> State
    ensures { result ≡ with_external frequency s }
{
    let mut t = s;
    t.acquisition.external = frequency;
    t
}

// A measured frequency: ignored, taken, or not taken.
fn measured(s: State, frequency: u32) -> State
    ensures { result ≡ measured_by frequency s }
{
    if settings::is_internal(s.settings) {
        return s;
    }
    if takes_frequency(s, frequency) {
        return state::settled(with_external(s, frequency));
    }
    let mut t = s;
    t.registers = status::with_lia(s.registers, NOT_TAKEN);
    t
}

// Raised bits, where an event may raise them.
fn raised(s: State, lia: u8, errors: u8) -> EventEffect
    ensures { result ≡ bits_raised lia errors s }
{
    if status::may_raise(lia, errors) {
        let mut t = s;
        t.registers = status::with_raised(s.registers, lia, errors);
        return EventEffect {
            state: t,
            outcome: Ok(()),
        };
    }
    EventEffect {
        state: s,
        outcome: Err(Refusal::BadEvent),
    }
}

// A trigger or a tick: the latest pair goes into the traces where it is stored.
fn sample(s: State, p: StorageStep, one: &mut [u32], two: &mut [u32]) -> EventEffect
    ensures { Meets event_effect (sampled_in p s one.old two.old)
        result one.new two.new [] [] }
{
    state::store(s, p, one, two);
    EventEffect {
        state: state::sampled(s, p),
        outcome: Ok(()),
    }
}

// What an event does to the state and to the traces.
pub fn occur(s: State, e: Event, one: &mut [u32], two: &mut [u32]) -> EventEffect
    ensures { Meets event_effect (event_of e s one.old two.old)
        result one.new two.new [] [] }
{
    match e {
        Event::Latest(w, v) => new_pair(s, w, v),
        Event::Tick => sample(s, state::tick_of(s), one, two),
        Event::Trigger => sample(s, state::trigger_of(s), one, two),
        Event::Measured(frequency) => EventEffect {
            state: measured(s, frequency),
            outcome: Ok(()),
        },
        Event::Raised(lia, errors) => raised(s, lia, errors),
    }
}
