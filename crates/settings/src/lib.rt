// The settings of a lock-in module, by the settings table (§5.1).
#![tactic(auto)]

ghost use Rattle.std.specs.Prelude.{◌≡◌, ◌&&◌, ◌%◌, leb, eqb};
ghost use Rattle.settings.specs.Table.{entries, row_of, start_settings, turned_of, next_entry, value_of, with_value};
ghost use Rattle.settings.specs.Frequency.{frequency_step, is_internal, in_force, detection_of, frequency_in_range};
ghost use Rattle.settings.specs.Frequency.{within_limit, is_upper, range_at, range_stands, time_constant_stands};
ghost use Rattle.settings.specs.Frequency.{change_bits, range_effect_of};
ghost use Rattle.settings.specs.Setting.{step_with};
ghost use Rattle.settings.specs.Parts.{range_of, value_taken};
ghost use Rattle.settings.specs.Valid.{every, values_valid, valid_settings};

mod table;

pub use table::row_of;

// The entries are numbers and no enum: `value_of`, `with_value` and `row_of` promise an answer past the table too.
// The phase of the reference.
pub const PHAS: usize = 0;

// The mode of the reference: internal or external.
pub const FMOD: usize = 1;

// The internal frequency.
pub const FREQ: usize = 2;

// The slope by which an external reference triggers.
pub const RSLP: usize = 3;

// The harmonic that is detected.
pub const HARM: usize = 4;

// The level of the sine output.
pub const SLVL: usize = 5;

// The source of the input.
pub const ISRC: usize = 6;

// The line filters.
pub const ILIN: usize = 7;

// The slope of the output filter.
pub const OFSL: usize = 8;

// The grounding of the input's shield.
pub const IGND: usize = 9;

// The coupling of the input.
pub const ICPL: usize = 10;

// The synchronous filter.
pub const SYNC: usize = 11;

// The sensitivity.
pub const SENS: usize = 12;

// The reserve.
pub const RMOD: usize = 13;

// The time constant of the output filter.
pub const OFLT: usize = 14;

// What display 1 shows.
pub const DDEF_1J: usize = 15;

// The ratio of display 1.
pub const DDEF_1K: usize = 16;

// What display 2 shows.
pub const DDEF_2J: usize = 17;

// The ratio of display 2.
pub const DDEF_2K: usize = 18;

// What front output 1 gives.
pub const FPOP_1: usize = 19;

// What front output 2 gives.
pub const FPOP_2: usize = 20;

// The offset of channel 1.
pub const OEXP_1X: usize = 21;

// The expand of channel 1.
pub const OEXP_1J: usize = 22;

// The offset of channel 2.
pub const OEXP_2X: usize = 23;

// The expand of channel 2.
pub const OEXP_2J: usize = 24;

// The offset of channel 3.
pub const OEXP_3X: usize = 25;

// The expand of channel 3.
pub const OEXP_3J: usize = 26;

// The voltage of auxiliary output 1.
pub const AUXV_1: usize = 27;

// The voltage of auxiliary output 2.
pub const AUXV_2: usize = 28;

// The voltage of auxiliary output 3.
pub const AUXV_3: usize = 29;

// The voltage of auxiliary output 4.
pub const AUXV_4: usize = 30;

// The rate of samples.
pub const SRAT: usize = 31;

// What happens at the end of storage: one shot or a loop.
pub const SEND: usize = 32;

// Whether a trigger starts storage.
pub const TSTR: usize = 33;

// The number of entries.
pub const ENTRIES: usize = TSTR + 1;

// FMOD with the internal frequency in force.
pub const INTERNAL: u32 = 1;

// The LIA bit, as a mask, of a change of range.
pub const RANGE_CHANGED: u8 = 1 << 4;

// The LIA bit, as a mask, of a time constant that the upper range made shorter.
pub const SHORTENED: u8 = 1 << 5;

// From the lowest phase kept to a whole turn.
const TO_TURN: u32 = table::TURN - table::PHASE_LEAST;

// A setting's row of the table. A value of x units of the last decimal is kept as x + bias, and so are all values here.
#[derive(Clone, Copy)]
pub struct Row {
    // What is added to a value, so that none is negative.
    pub bias: u32,
    // The lowest argument that is taken.
    pub low: u32,
    // The highest argument that is taken.
    pub high: u32,
    // The lowest value that a state keeps.
    pub least: u32,
    // The highest value that a state keeps.
    pub most: u32,
    // The step on which values lie, unless it goes by the value.
    pub step: u32,
    // Whether the step goes by the value.
    pub scales: bool,
    // Whether an argument is brought by whole turns into the range that is kept.
    pub turns: bool,
    // The decimals of the argument's unit.
    pub decimals: u8,
    // The value at start.
    pub start: u32,
}

// Every setting's value, by entry.
#[derive(Clone, Copy)]
pub struct Settings {
    // The values with their bias.
    pub values: [u32; ENTRIES],
}

// The frequency range: which time constants there are goes by it.
#[derive(Clone, Copy, PartialEq, Eq)]
pub enum FrequencyRange {
    // The one above the band: no long time constants.
    Upper,
    // The one below the band: all time constants.
    Lower,
}

// What the range does to the rest of a state.
#[derive(Clone, Copy)]
pub struct RangeEffect {
    // The time constant after it.
    pub constant: u32,
    // The LIA bits that it sets, as a mask.
    pub bits: u8,
}

impl Settings {
    // The least points of a trace.
    pub const CAPACITY_LEAST: u32 = 1;

    // The most points of a trace.
    pub const CAPACITY_MOST: u32 = 16383;

    // A hertz in the units of frequencies, 0.1 mHz.
    const HERTZ: u32 = 10000;

    // The lowest FREQ and external frequency, 0.001 Hz.
    pub const FREQUENCY_LOW: u32 = 10;

    // The highest FREQ and external frequency, 102 kHz.
    pub const FREQUENCY_HIGH: u32 = 102000 * Settings::HERTZ;

    // FREQ and the external frequency at start, 1 kHz.
    pub const FREQUENCY_START: u32 = 1000 * Settings::HERTZ;

    // The highest detection frequency, 102 kHz: a rule of its own beside FREQ's range.
    pub const DETECTION_LIMIT: u32 = 102000 * Settings::HERTZ;

    // The lowest detection frequency inside the band, 199.21 Hz.
    pub const BAND_LOW: u32 = 1_992_100;

    // The highest detection frequency inside the band, 203.12 Hz.
    pub const BAND_HIGH: u32 = 2_031_200;

    // The longest time constant in the upper range, 30 s.
    pub const UPPER_CONSTANT_MOST: u32 = 13;

    // Every value at start, with its bias.
    pub const START: [u32; ENTRIES] = [
        table::TURN, // PHAS
        INTERNAL, // FMOD
        Settings::FREQUENCY_START, // FREQ
        0, // RSLP
        1, // HARM
        1000, // SLVL
        0, // ISRC
        0, // ILIN
        1, // OFSL
        0, // IGND
        0, // ICPL
        0, // SYNC
        26, // SENS
        2, // RMOD
        8, // OFLT
        0, // DDEF 1 j
        0, // DDEF 1 k
        0, // DDEF 2 j
        0, // DDEF 2 k
        0, // FPOP 1
        0, // FPOP 2
        10500, // OEXP 1 x
        0, // OEXP 1 j
        10500, // OEXP 2 x
        0, // OEXP 2 j
        10500, // OEXP 3 x
        0, // OEXP 3 j
        10500, // AUXV 1
        10500, // AUXV 2
        10500, // AUXV 3
        10500, // AUXV 4
        4, // SRAT
        1, // SEND
        0, // TSTR
    ];

    // The settings at start and after *RST.
    pub fn start() -> Settings
        ensures { result ≡ start_settings }
    {
        Settings {
            values: Settings::START,
        }
    }
}

// The value of an entry, 0 past the table.
pub fn value_of(s: Settings, entry: usize) -> u32
    ensures { result ≡ value_of s entry }
{
    if entry < ENTRIES { s.values[entry] } else { 0 }
}

// The settings with another value at an entry, unchanged past the table.
pub fn with_value(s: Settings, entry: usize, value: u32) -> Settings
    ensures { result ≡ with_value s entry value }
{
    if entry < ENTRIES {
        let mut t = s;
        t.values[entry] = value;
        t
    } else {
        s
    }
}

// The entry behind an entry: the second value of a pair.
pub fn next_entry(entry: usize) -> usize
    ensures { result ≡ next_entry entry }
{
    if entry < ENTRIES {
        return entry + 1;
    }
    ENTRIES
}

// A phase brought by whole turns into the range that is kept.
pub fn turned(value: u32) -> u32
    ensures { result ≡ turned_of value }
{
    let x = value as u64;
    (table::PHASE_LEAST as u64 + (x + TO_TURN as u64) % table::TURN as u64) as u32
}

// The step that goes by the value: by its whole units before rounding.
pub fn frequency_step(whole: u64) -> u32
    ensures { result ≡ frequency_step whole }
{
    if whole < 100_000 {
        return 1;
    }
    if whole < 1_000_000 {
        return 10;
    }
    if whole < 10_000_000 {
        return 100;
    }
    if whole < 100_000_000 {
        return 1_000;
    }
    if whole < 1_000_000_000 {
        return 10_000;
    }
    100_000
}

// Whether the reference is the internal frequency.
pub fn is_internal(s: Settings) -> bool
    ensures { result ≡ is_internal s }
{
    value_of(s, FMOD) == INTERNAL
}

// The frequency in force: the internal one or the external one, by the reference's mode.
pub fn in_force(s: Settings, external: u32) -> u32
    ensures { result ≡ in_force s external }
{
    if is_internal(s) {
        return value_of(s, FREQ);
    }
    external
}

// The detection frequency: the harmonic times the frequency in force.
pub fn detection(s: Settings, external: u32) -> u64
    ensures { result ≡ detection_of s external }
{
    let harmonic = value_of(s, HARM) as u64;
    let frequency = in_force(s, external) as u64;
    harmonic * frequency
}

// Whether a detection frequency is at most 102 kHz.
pub fn within_limit(detection: u64) -> bool
    ensures { result ≡ within_limit detection }
{
    detection <= Settings::DETECTION_LIMIT as u64
}

// Whether a range is the upper one.
fn is_upper(range: FrequencyRange) -> bool
    ensures { result ≡ is_upper range }
{
    range == FrequencyRange::Upper
}

// The range at a detection frequency: inside the band it stays the old one.
pub fn range_at(detection: u64, old: FrequencyRange) -> FrequencyRange
    ensures { result ≡ range_at detection old }
{
    if (Settings::BAND_HIGH as u64) < detection {
        return FrequencyRange::Upper;
    }
    if detection < Settings::BAND_LOW as u64 {
        return FrequencyRange::Lower;
    }
    old
}

// Whether a state may have a range at a detection frequency: inside the band either.
fn range_stands(detection: u64, range: FrequencyRange) -> bool
    ensures { result ≡ range_stands detection range }
{
    match range {
        FrequencyRange::Upper => Settings::BAND_LOW as u64 <= detection,
        FrequencyRange::Lower => detection <= Settings::BAND_HIGH as u64,
    }
}

// Whether a time constant may stand in a range.
pub fn time_constant_stands(range: FrequencyRange, constant: u32) -> bool
    ensures { result ≡ time_constant_stands range constant }
{
    (constant <= Settings::UPPER_CONSTANT_MOST) | !is_upper(range)
}

// The LIA bits of a range that was old and is new, as a mask.
fn change_bits(old: FrequencyRange, new: FrequencyRange) -> u8
    ensures { result ≡ change_bits old new }
{
    if old == new { 0 } else { RANGE_CHANGED }
}

// What comes of a range that was old and is new.
pub fn range_effect(old: FrequencyRange, new: FrequencyRange, constant: u32) -> RangeEffect
    ensures { result ≡ range_effect_of old new constant }
{
    let bits = change_bits(old, new);
    if time_constant_stands(new, constant) {
        return RangeEffect { constant, bits };
    }
    RangeEffect {
        constant: Settings::UPPER_CONSTANT_MOST,
        bits: bits + SHORTENED,
    }
}

// Whether an external frequency is one that is taken.
pub fn frequency_in_range(frequency: u32) -> bool
    ensures { result ≡ frequency_in_range frequency }
{
    (Settings::FREQUENCY_LOW <= frequency) & (frequency <= Settings::FREQUENCY_HIGH)
}

// The step of a row's values, by the value's whole units before rounding.
fn step_of(row: Row, whole: u64) -> u32
    ensures { result ≡ step_with row (frequency_step whole) }
{
    if row.scales {
        return frequency_step(whole);
    }
    row.step
}

// The range of a row's argument, for a number by its whole units.
fn range_of(row: Row, whole: u64) -> number::Range
    ensures { result ≡ range_of row whole }
{
    let step = step_of(row, whole);
    number::Range {
        bias: row.bias,
        low: row.low,
        high: row.high,
        step,
        whole: row.decimals == 0,
    }
}

// A number taken as an entry's argument, or None, which is refusal 2: where the row turns, it is turned once it is
// rounded.
pub fn take_value(entry: usize, q: number::Quantity) -> Option<u32>
    ensures { result ≡ value_taken entry q }
{
    let row = row_of(entry);
    let range = range_of(row, q.whole);
    number::take(q, range).map(|value| if row.turns { turned(value) } else { value })
}

// Whether every value lies in its entry's range. No value ends the loop early: so it is unrolled whole, four values are
// tested at once, and neither column is made in memory. By index: unrolled so, the tables are constants.
fn in_ranges(s: Settings) -> bool
    ensures { result ≡ every
        (λ e. leb (row_of e).least (value_of s e) && leb (value_of s e) (row_of e).most) entries }
{
    let least = table::leasts();
    let most = table::mosts();
    let mut inside = true;
    for entry in 0..ENTRIES {
        let value = s.values[entry];
        inside &= (least[entry] <= value) & (value <= most[entry]);
    }
    inside
}

// Whether a frequency lies on its step: by constants, since a division by a variable takes long.
fn on_frequency_step(value: u32) -> bool
    ensures { result ≡ eqb (value % frequency_step value) 0 }
{
    match frequency_step(value as u64) {
        1 => true,
        10 => value % 10 == 0,
        100 => value % 100 == 0,
        1_000 => value % 1_000 == 0,
        10_000 => value % 10_000 == 0,
        _ => value % 100_000 == 0,
    }
}

// Whether a state may keep every value. FREQ and SLVL alone have steps that a value in its range can miss.
pub fn values_valid(s: Settings) -> bool
    ensures { result ≡ values_valid s }
{
    let steps = on_frequency_step(value_of(s, FREQ)) & (value_of(s, SLVL) % table::LEVEL_STEP == 0);
    in_ranges(s) & steps
}

// Whether a state may have the settings, the external frequency and the range: their part of refusal 11.
pub fn are_valid(s: Settings, external: u32, range: FrequencyRange) -> bool
    ensures { result ≡ valid_settings s external range }
{
    let frequency = detection(s, external);
    let stands = range_stands(frequency, range) & time_constant_stands(range, value_of(s, OFLT));
    values_valid(s) & (frequency_in_range(external) & (within_limit(frequency) & stands))
}
