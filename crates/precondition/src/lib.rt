// What a command needs of the state: refusal 3.
#![tactic(auto)]

ghost use Rattle.std.specs.Prelude.{◌≡◌};
ghost use Rattle.precondition.specs.Allowed.{value_allowed, stays_within_limit, set_allowed, query_allowed, is_allowed};

use command::{Kind, QueryArgument, SetArgument};
use settings::Settings;
use state::Acquisition;

// Whether the detection frequency stays at most 102 kHz with another value at an entry.
fn stays_within_limit(s: Settings, m: Acquisition, entry: usize, value: u32) -> bool
    ensures { result ≡ stays_within_limit s m entry value }
{
    let changed = settings::with_value(s, entry, value);
    settings::within_limit(settings::detection(changed, m.external))
}

// Whether a setting's value is allowed.
fn value_allowed(s: Settings, m: Acquisition, entry: usize, value: u32) -> bool
    ensures { result ≡ value_allowed s m entry value }
{
    match entry {
        settings::FREQ => settings::is_internal(s) && stays_within_limit(s, m, entry, value),
        settings::HARM | settings::FMOD => stays_within_limit(s, m, entry, value),
        settings::OFLT => settings::time_constant_stands(m.range, value),
        settings::SEND => storage::is_reset(m.storage),
        _ => true,
    }
}

// Whether a set is allowed.
#[inline(always)]
fn set_allowed(s: Settings, m: Acquisition, a: SetArgument) -> bool
    ensures { result ≡ set_allowed s m a }
{
    match a {
        SetArgument::Value(entry, value) => value_allowed(s, m, entry, value),
        SetArgument::Pair(..) | SetArgument::Enable(..) | SetArgument::EnableBit(..) => true,
    }
}

// Whether a query is allowed: a trace is read only as far as points are held.
fn query_allowed(m: Acquisition, q: QueryArgument) -> bool
    ensures { result ≡ query_allowed m q }
{
    match q {
        QueryArgument::Trace(_, _, bin, count) => storage::holds(m.storage, bin, count),
        QueryArgument::Value(_) | QueryArgument::Pair(_) => true,
        QueryArgument::Enable(_) | QueryArgument::EnableBit(..) => true,
        QueryArgument::Status(_) | QueryArgument::StatusBit(..) => true,
        QueryArgument::Identity | QueryArgument::Points => true,
    }
}

// Whether a command is allowed: refused by 3 where it is not.
#[inline(always)]
pub fn is_allowed(s: Settings, m: Acquisition, kind: Kind) -> bool
    ensures { result ≡ is_allowed s m kind }
{
    match kind {
        Kind::Set(a) => set_allowed(s, m, a),
        Kind::Query(q) => query_allowed(m, q),
        Kind::Act(_) => true,
    }
}
