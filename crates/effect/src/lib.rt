// What a command changes: the settings, what events change too, the registers and the enables.
#![tactic(auto)]

ghost use Rattle.std.specs.Prelude.{◌≡◌};
ghost use Rattle.effect.specs.Effect.{is_rst, with_pair, set_in, restored_by, settings_after};
ghost use Rattle.effect.specs.Effect.{unstored, storage_by, storage_after, restarted_by, acquisition_by};
ghost use Rattle.effect.specs.Effect.{acquisition_after, registers_asked, enables_set};
ghost use Rattle.effect.specs.Effect.{set_by, queried_by, reset_by, cleared_by, acted_by, state_by};

use command::{Kind, QueryArgument, SetArgument};
use mnemonic::Action;
use settings::Settings;
use state::{Acquisition, State};
use status::{Enables, Registers};
use storage::{Sampling, Storage, StorageStep};

// The settings with two values, the second at the entry behind the first's.
fn pair_in(s: Settings, entry: usize, first: u32, second: u32) -> Settings
    ensures { result ≡ with_pair s entry first second }
{
    let one = settings::with_value(s, entry, first);
    settings::with_value(one, settings::next_entry(entry), second)
}

// The settings after a set.
fn set_in(s: Settings, a: SetArgument) -> Settings
    ensures { result ≡ set_in s a }
{
    match a {
        SetArgument::Value(entry, value) => settings::with_value(s, entry, value),
        SetArgument::Pair(entry, first, second) => pair_in(s, entry, first, second),
        SetArgument::Enable(_, _) | SetArgument::EnableBit(_, _, _) => s,
    }
}

// Whether an action is *RST.
pub fn is_rst(a: Action) -> bool
    ensures { result ≡ is_rst a }
{
    a == Action::Reset
}

// The settings after an action.
fn restored(s: Settings, a: Action) -> Settings
    ensures { result ≡ restored_by a s }
{
    // Returned early: as the value of an `if` the settings would be copied once more.
    if is_rst(a) {
        return Settings::start();
    }
    s
}

// The settings after a command, but for what the frequency range does to the time constant.
pub fn settings_after(s: Settings, kind: Kind) -> Settings
    ensures { result ≡ settings_after kind s }
{
    match kind {
        Kind::Set(a) => set_in(s, a),
        Kind::Query(_) => s,
        Kind::Act(a) => restored(s, a),
    }
}

// Storage with nothing stored and no bit set.
fn unstored(storage: Storage) -> StorageStep
    ensures { result ≡ unstored storage }
{
    StorageStep {
        storage,
        stores: false,
        bits: 0,
    }
}

// What an action does to storage.
#[inline(always)]
fn storage_by(s: Storage, capacity: u32, by: Sampling, a: Action) -> StorageStep
    ensures { result ≡ storage_by a s capacity by }
{
    match a {
        Action::Reset | Action::Empty => unstored(storage::emptied()),
        Action::Clear => unstored(s),
        Action::Start => unstored(storage::started(s)),
        Action::Pause => unstored(storage::paused(s)),
        Action::Trigger => storage::triggered(s, capacity, by),
    }
}

// What a command does to storage.
#[inline(always)]
pub fn storage_after(s: Settings, m: Acquisition, capacity: u32, kind: Kind) -> StorageStep
    ensures { result ≡ storage_after kind s m capacity }
{
    match kind {
        Kind::Set(_) | Kind::Query(_) => unstored(m.storage),
        Kind::Act(a) => storage_by(m.storage, capacity, state::sampling_of(s), a),
    }
}

// The acquisition after an action, but for what the action does to storage.
fn restarted(m: Acquisition, a: Action) -> Acquisition
    ensures { result ≡ restarted_by a m }
{
    // Returned early: as the value of an `if` the acquisition would be copied once more.
    if is_rst(a) {
        return Acquisition::start();
    }
    m
}

// The acquisition after an action that leaves these settings.
fn acquisition_by(s: Settings, m: Acquisition, capacity: u32, a: Action) -> Acquisition
    ensures { result ≡ acquisition_by a s m capacity }
{
    let p = storage_by(m.storage, capacity, state::sampling_of(s), a);
    let mut t = restarted(m, a);
    t.storage = p.storage;
    t
}

// The acquisition after a command that leaves these settings.
pub fn acquisition_after(s: Settings, m: Acquisition, capacity: u32, kind: Kind) -> Acquisition
    ensures { result ≡ acquisition_after kind s m capacity }
{
    match kind {
        Kind::Set(_) => state::range_settled(s, m),
        Kind::Query(_) => m,
        Kind::Act(a) => acquisition_by(s, m, capacity, a),
    }
}

// The registers after a query.
fn registers_asked(r: Registers, q: QueryArgument) -> Registers
    ensures { result ≡ registers_asked q r }
{
    match q {
        QueryArgument::Status(which) => status::cleared(r, which),
        QueryArgument::StatusBit(which, bit) => status::bit_cleared(r, which, bit),
        QueryArgument::Value(_)
        | QueryArgument::Pair(_)
        | QueryArgument::Enable(_)
        | QueryArgument::EnableBit(_, _)
        | QueryArgument::Identity
        | QueryArgument::Points
        | QueryArgument::Trace(_, _, _, _) => r,
    }
}

// The enables after a set.
fn enables_set(e: Enables, a: SetArgument) -> Enables
    ensures { result ≡ enables_set a e }
{
    match a {
        SetArgument::Enable(which, value) => status::with_enable(e, which, value),
        SetArgument::EnableBit(which, bit, value) => {
            status::with_enable_bit(e, which, bit, value)
        }
        SetArgument::Value(_, _) | SetArgument::Pair(_, _, _) => e,
    }
}

// The state after a set: what it names, and what the frequency range does.
fn set_state(s: State, a: SetArgument) -> State
    ensures { result ≡ set_by a s }
{
    let mut t = s;
    t.enables = enables_set(s.enables, a);
    t.settings = set_in(s.settings, a);
    state::settled(t)
}

// The state after a query.
fn queried(s: State, q: QueryArgument) -> State
    ensures { result ≡ queried_by q s }
{
    let mut t = s;
    t.registers = registers_asked(s.registers, q);
    t
}

// The state after *RST, which does `p` to storage.
fn reset(s: State, p: StorageStep) -> State
    ensures { result ≡ reset_by p s }
{
    let mut t = s;
    t.settings = Settings::start();
    t.acquisition = Acquisition::start();
    state::with_storage_of(t, p)
}

// The state after *CLS, which does `p` to storage.
fn cleared(s: State, p: StorageStep) -> State
    ensures { result ≡ cleared_by p s }
{
    let mut t = s;
    t.registers = status::all_cleared();
    state::with_storage_of(t, p)
}

// The state after an action that does `p` to storage.
fn acted(s: State, a: Action, p: StorageStep) -> State
    ensures { result ≡ acted_by a p s }
{
    match a {
        Action::Reset => reset(s, p),
        Action::Clear => cleared(s, p),
        Action::Start | Action::Pause | Action::Empty => state::with_storage_of(s, p),
        Action::Trigger => state::sampled(s, p),
    }
}

// The state after a command that is not refused, `p` being what it does to storage.
pub fn state_after(s: State, kind: Kind, p: StorageStep) -> State
    ensures { result ≡ state_by kind p s }
{
    match kind {
        Kind::Set(a) => set_state(s, a),
        Kind::Query(q) => queried(s, q),
        Kind::Act(a) => acted(s, a, p),
    }
}
