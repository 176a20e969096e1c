// The state of a module but for its queue: settings, frequencies, storage, status, the latest pair, and what is fixed
// at start.
#![tactic(auto)]

ghost use Rattle.std.specs.Prelude.{◌≡◌};
ghost use Rattle.state.specs.State.{start_acquisition, start_state, range_settled, settled, with_error_bit};
ghost use Rattle.state.specs.State.{with_storage_of, sampling_of};
ghost use Rattle.state.specs.Storing.{trigger_of, tick_of, sampled_by, stored_in};
ghost use Rattle.state.specs.Valid.{installation_valid, latest_valid, parts_valid, valid_state};

use outcome::Refusal;
use settings::{FrequencyRange, Settings};
use status::{Enables, Registers};
use storage::{Sampling, Storage, StorageStep};

// The ports, as numbers.
pub use queue::{GPIB, RS232};

// The highest serial number.
pub const SERIAL_MOST: u32 = 99999;

// What is fixed at start.
#[derive(Clone, Copy)]
pub struct Installation {
    // The serial number, at most SERIAL_MOST.
    pub serial: u32,
    // The port, RS232 or GPIB: a number and no enum, since a state may come with a port that there is not (refusal 11).
    pub port: u8,
    // The points that each trace has room for.
    pub capacity: u32,
}

// A point for each trace.
#[derive(Clone, Copy)]
pub struct Pair {
    // The first trace's point.
    pub one: u32,
    // The second trace's point.
    pub two: u32,
}

// What events change too.
#[derive(Clone, Copy)]
pub struct Acquisition {
    // The last measured external frequency, in units of 0.1 mHz.
    pub external: u32,
    // Which points the traces hold, and whether more are stored.
    pub storage: Storage,
    // The frequency range, by the detection frequency and the range before.
    pub range: FrequencyRange,
}

// The state. Only `State::start` and `Acquisition::start` list their fields: every other function changes a
// copy.
#[derive(Clone, Copy)]
pub struct State {
    // The value of each setting.
    pub settings: Settings,
    // What events change too.
    pub acquisition: Acquisition,
    // The event registers.
    pub registers: Registers,
    // The enable registers.
    pub enables: Enables,
    // The latest pair of points, which a trigger or a tick stores.
    pub latest: Pair,
    // What is fixed at start.
    pub installation: Installation,
}

impl Acquisition {
    // At start and after *RST.
    pub fn start() -> Acquisition
        ensures { result ≡ start_acquisition }
    {
        Acquisition {
            external: Settings::FREQUENCY_START,
            storage: storage::emptied(),
            range: FrequencyRange::Upper,
        }
    }
}

impl State {
    // A fresh state.
    pub fn start(installation: Installation) -> State
        ensures { result ≡ start_state installation }
    {
        State {
            settings: Settings::start(),
            acquisition: Acquisition::start(),
            registers: Registers::start(),
            enables: Enables::start(),
            latest: Pair { one: 0, two: 0 },
            installation,
        }
    }
}

// The acquisition once its detection frequency may have changed: the range is the one at that frequency.
pub fn range_settled(s: Settings, m: Acquisition) -> Acquisition
    ensures { result ≡ range_settled s m }
{
    let range = settings::range_at(settings::detection(s, m.external), m.range);
    Acquisition { range, ..m }
}

// The state once its detection frequency may have changed: the range acts on the time constant and on LIA.
pub fn settled(s: State) -> State
    ensures { result ≡ settled s }
{
    let before = s.acquisition;
    let acquisition = range_settled(s.settings, before);
    let old = before.range;
    let new = acquisition.range;
    let constant = settings::value_of(s.settings, settings::OFLT);
    let effect = settings::range_effect(old, new, constant);
    let mut t = s;
    t.settings = settings::with_value(s.settings, settings::OFLT, effect.constant);
    t.acquisition = acquisition;
    t.registers = status::with_lia(s.registers, effect.bits);
    t
}

// The state with a refusal's standard event bits set.
pub fn with_error_bit(s: State, refusal: Refusal) -> State
    ensures { result ≡ with_error_bit refusal s }
{
    let meaning = outcome::code_of(refusal);
    let mut t = s;
    t.registers = status::with_standard(s.registers, meaning.bits);
    t
}

// The settings that storing goes by.
pub fn sampling_of(s: Settings) -> Sampling
    ensures { result ≡ sampling_of s }
{
    Sampling {
        rate: settings::value_of(s, settings::SRAT),
        end: settings::value_of(s, settings::SEND),
        start: settings::value_of(s, settings::TSTR),
    }
}

// What a trigger does to storage.
pub fn trigger_of(s: State) -> StorageStep
    ensures { result ≡ trigger_of s }
{
    storage::triggered(
        s.acquisition.storage,
        s.installation.capacity,
        sampling_of(s.settings),
    )
}

// What a tick does to storage.
pub fn tick_of(s: State) -> StorageStep
    ensures { result ≡ tick_of s }
{
    storage::ticked(
        s.acquisition.storage,
        s.installation.capacity,
        sampling_of(s.settings),
    )
}

// The state with the storage that a step leaves.
pub fn with_storage_of(s: State, p: StorageStep) -> State
    ensures { result ≡ with_storage_of p s }
{
    let mut t = s;
    t.acquisition.storage = p.storage;
    t
}

// The state after a trigger or a tick.
pub fn sampled(s: State, p: StorageStep) -> State
    ensures { result ≡ sampled_by p s }
{
    let mut t = s;
    t.registers = status::with_lia(s.registers, p.bits);
    with_storage_of(t, p)
}

// Stores the latest pair of the state in the slot that its next point goes to, where a trigger or a tick stores it.
pub fn store(s: State, p: StorageStep, one: &mut [u32], two: &mut [u32])
    ensures { (one.new ≡ stored_in p s s.latest.one one.old)
        × (two.new ≡ stored_in p s s.latest.two two.old) }
{
    if p.stores {
        storage::put_pair(
            one,
            two,
            s.acquisition.storage.next,
            s.latest.one,
            s.latest.two,
        );
    }
}

// Whether a pair may be the latest one: both points are legal.
pub fn latest_valid(p: Pair) -> bool
    ensures { result ≡ latest_valid p }
{
    point::legal(p.one) && point::legal(p.two)
}

// Whether serial number, port and capacity are in their ranges.
fn installation_valid(u: Installation) -> bool
    ensures { result ≡ installation_valid u }
{
    let capacity = u.capacity;
    let fits = Settings::CAPACITY_LEAST <= capacity && capacity <= Settings::CAPACITY_MOST;
    u.serial <= SERIAL_MOST && u.port <= GPIB && fits
}

// Whether storage, status and settings are those of a valid state.
fn parts_valid(s: State) -> bool
    ensures { result ≡ parts_valid s }
{
    let end = settings::value_of(s.settings, settings::SEND);
    let stored = storage::is_valid(s.acquisition.storage, s.installation.capacity, end);
    settings::are_valid(s.settings, s.acquisition.external, s.acquisition.range)
        && stored
        && status::bits_valid(s.registers, s.enables)
}

// Whether the state is inside the ranges, steps and limits: not refused by 11.
pub fn is_valid(s: State) -> bool
    ensures { result ≡ valid_state s }
{
    parts_valid(s) && latest_valid(s.latest) && installation_valid(s.installation)
}
