// Storage of points: its phase, the points held and the slot that the next point goes to.
#![tactic(auto)]

ghost use Rattle.std.specs.Prelude.{◌≡◌, set};
ghost use Rattle.storage.specs.Storage.{is_reset, is_running, is_paused, is_done, at_rest};
ghost use Rattle.storage.specs.Storage.{emptied_storage, started_of, paused_of, readied_of, ticked_of, triggered_of};
ghost use Rattle.storage.specs.Storage.{next_slot, held_after, full_in_one_shot, stored_of, oldest_of, holds_of};
ghost use Rattle.storage.specs.Storage.{slots_kept, done_kept, reset_kept, is_valid};

// What storage is doing.
#[derive(Clone, Copy, PartialEq, Eq)]
pub enum Phase {
    // Empty, and not begun.
    Reset,
    // Storing points as they come.
    Running,
    // Held up by PAUS until STRT.
    Paused,
    // Full in one shot.
    Done,
}

// Storage of points, the points themselves aside.
#[derive(Clone, Copy)]
pub struct Storage {
    // What it is doing.
    pub phase: Phase,
    // How many points each trace holds.
    pub held: u32,
    // The slot that the next point goes to.
    pub next: u32,
}

// The settings that storing goes by: numbers, as `ticked_of` and `triggered_of` take those of any settings.
#[derive(Clone, Copy)]
pub struct Sampling {
    // SRAT: the rate, or EXTERNAL_RATE.
    pub rate: u32,
    // SEND: ONE_SHOT or loop.
    pub end: u32,
    // TSTR: whether a trigger starts storage.
    pub start: u32,
}

// What a trigger or a tick does.
#[derive(Clone, Copy)]
pub struct StorageStep {
    // Storage after it.
    pub storage: Storage,
    // Whether the latest pair is stored, in the slot `next` of the storage before: no value stands beside it.
    pub stores: bool,
    // The LIA bits that it sets.
    pub bits: u8,
}

// SRAT at which a trigger stores, and no tick.
pub const EXTERNAL_RATE: u32 = 14;

// SEND for one shot; loop is 1.
pub const ONE_SHOT: u32 = 0;

// TSTR with which a trigger starts storage.
pub const TRIGGER_STARTS: u32 = 1;

// LIA bit 6: a trigger set storage running or stored a pair.
pub const TRIGGERED: u8 = 0x40;

// Storage after REST: reset, with no point.
pub fn emptied() -> Storage
    ensures { result ≡ emptied_storage }
{
    Storage {
        phase: Phase::Reset,
        held: 0,
        next: 0,
    }
}

// Whether storage is reset.
pub fn is_reset(s: Storage) -> bool
    ensures { result ≡ is_reset s }
{
    s.phase == Phase::Reset
}

// Whether storage is running.
pub fn is_running(s: Storage) -> bool
    ensures { result ≡ is_running s }
{
    s.phase == Phase::Running
}

// Whether storage is paused.
fn is_paused(s: Storage) -> bool
    ensures { result ≡ is_paused s }
{
    s.phase == Phase::Paused
}

// Whether storage is done.
fn is_done(s: Storage) -> bool
    ensures { result ≡ is_done s }
{
    s.phase == Phase::Done
}

// Storage after STRT: running, if it was reset or paused.
pub fn started(s: Storage) -> Storage
    ensures { result ≡ started_of s }
{
    if is_reset(s) || is_paused(s) {
        Storage {
            phase: Phase::Running,
            ..s
        }
    } else {
        s
    }
}

// Storage after PAUS: paused, if it was running.
pub fn paused(s: Storage) -> Storage
    ensures { result ≡ paused_of s }
{
    if is_running(s) {
        Storage {
            phase: Phase::Paused,
            ..s
        }
    } else {
        s
    }
}

// Whether storage is reset or done: status bit 0.
pub fn at_rest(s: Storage) -> bool
    ensures { result ≡ at_rest s }
{
    is_reset(s) || is_done(s)
}

// The slot after a slot: the first one after the last.
fn next_slot(slot: u32, capacity: u32) -> u32
    ensures { result ≡ next_slot slot capacity }
{
    let after = slot as u64 + 1;
    if after < capacity as u64 {
        after as u32
    } else {
        0
    }
}

// How many points are held once one more is stored.
fn held_after(held: u32, capacity: u32) -> u32
    ensures { result ≡ held_after held capacity }
{
    held.saturating_add(1).min(capacity)
}

// Whether `held` points fill one-shot storage.
fn full_in_one_shot(held: u32, capacity: u32, end: u32) -> bool
    ensures { result ≡ full_in_one_shot held capacity end }
{
    end == ONE_SHOT && capacity <= held
}

// Storage once one more point is stored.
pub fn stored(s: Storage, capacity: u32, end: u32) -> Storage
    ensures { result ≡ stored_of s capacity end }
{
    let held = held_after(s.held, capacity);
    let next = next_slot(s.next, capacity);
    let phase = if full_in_one_shot(held, capacity, end) {
        Phase::Done
    } else {
        s.phase
    };
    Storage { phase, held, next }
}

// What a tick does: it stores if storage is running at any rate but the external one.
pub fn ticked(s: Storage, capacity: u32, by: Sampling) -> StorageStep
    ensures { result ≡ ticked_of s capacity by }
{
    let stores = is_running(s) && by.rate != EXTERNAL_RATE;
    StorageStep {
        storage: if stores {
            stored(s, capacity, by.end)
        } else {
            s
        },
        stores,
        bits: 0,
    }
}

// Storage once a trigger has started it, where TSTR says so.
fn readied(s: Storage, by: Sampling) -> Storage
    ensures { result ≡ readied_of s by }
{
    if by.start == TRIGGER_STARTS {
        started(s)
    } else {
        s
    }
}

// What a trigger does: it starts storage where TSTR says so, then stores if storage is running at the external rate.
pub fn triggered(s: Storage, capacity: u32, by: Sampling) -> StorageStep
    ensures { result ≡ triggered_of s capacity by }
{
    let ready = readied(s, by);
    let sets_running = !is_running(s) && is_running(ready);
    let stores = is_running(ready) && by.rate == EXTERNAL_RATE;
    StorageStep {
        storage: if stores {
            stored(ready, capacity, by.end)
        } else {
            ready
        },
        stores,
        bits: if sets_running || stores { TRIGGERED } else { 0 },
    }
}

// Where bin 0, the oldest point, is: bin j is in slot (oldest + j) mod capacity.
pub fn oldest(s: Storage, capacity: u32) -> u64
    ensures { result ≡ oldest_of s capacity }
{
    s.next as u64 + capacity.saturating_sub(s.held) as u64
}

// Whether storage holds `count` points from the bin `bin` on.
pub fn holds(s: Storage, bin: u32, count: u32) -> bool
    ensures { result ≡ holds_of s bin count }
{
    bin as u64 + count as u64 <= s.held as u64
}

// Whether the points held and the next slot fit the capacity, and one another.
fn slots_kept(s: Storage, capacity: u32) -> bool
    ensures { result ≡ slots_kept s capacity }
{
    s.held <= capacity && s.next < capacity && (capacity <= s.held || s.next == s.held)
}

// Whether storage is done exactly if it is full in one shot, and its next slot is then slot 0.
fn done_kept(s: Storage, capacity: u32, end: u32) -> bool
    ensures { result ≡ done_kept s capacity end }
{
    if full_in_one_shot(s.held, capacity, end) {
        is_done(s) && s.next == 0
    } else {
        !is_done(s)
    }
}

// Whether storage that is reset holds no point.
fn reset_kept(s: Storage) -> bool
    ensures { result ≡ reset_kept s }
{
    !is_reset(s) || s.held == 0
}

// Whether a state may have this storage: its part of refusal 11.
pub fn is_valid(s: Storage, capacity: u32, end: u32) -> bool
    ensures { result ≡ is_valid s capacity end }
{
    slots_kept(s, capacity) && done_kept(s, capacity, end) && reset_kept(s)
}

// Stores a word in a slot of a trace, if the trace has that slot.
fn put(trace: &mut [u32], slot: u32, word: u32)
    ensures { trace.new ≡ set trace.old slot word }
{
    // Not by `get_mut`: once its borrow is over, a proof knows the slice's length and not its elements.
    let at = slot as usize;
    if at < trace.len() {
        trace[at] = word;
    }
}

// Stores a pair: a word in the same slot of each trace, if the trace has that slot.
pub fn put_pair(one: &mut [u32], two: &mut [u32], slot: u32, first: u32, second: u32)
    ensures one_after { one.new ≡ set one.old slot first }
    ensures two_after { two.new ≡ set two.old slot second }
{
    put(one, slot, first);
    put(two, slot, second);
}
