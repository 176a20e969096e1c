// The settings table (§5.1), channel by channel. A row is found by a `match`, which is compiled to constants in memory.
// A constant array is written to the stack at each use: so only what is used whole, at constant places, is one.
ghost use Rattle.std.specs.Prelude.{◌≡◌, map, ◌+◌, ◌^◌, ◌<◌};
ghost use Rattle.settings.specs.Table.{plain_row, whole_row, signed, phase, frequency, table, row_of};

use super::{ENTRIES, Row, Settings};

// A whole turn of the phase, 360.00, which is its bias too.
pub const TURN: u32 = 36000;

// Half a turn, 180.00: kept as it is, and -180.00 as half a turn.
const HALF_TURN: u32 = 18000;

// The lowest phase kept, with the bias.
pub const PHASE_LEAST: u32 = TURN - HALF_TURN + 1;

// The highest phase kept, with the bias.
const PHASE_MOST: u32 = TURN + HALF_TURN;

// The highest phase that is taken, 729.99, with the bias.
const PHASE_HIGH: u32 = TURN + 72999;

// The lowest level of the sine output, 0.004 V.
const LEVEL_LEAST: u32 = 4;

// The highest level of the sine output, 5 V.
const LEVEL_MOST: u32 = 5000;

// The step of the level, 0.002 V.
pub const LEVEL_STEP: u32 = 2;

// A row whose arguments are all kept as they are, on a step of its own.
fn plain(bias: u32, low: u32, high: u32, step: u32, decimals: u8, start: u32) -> Row
    ensures { result ≡ plain_row bias low high step decimals start }
{
    Row {
        bias,
        low,
        high,
        least: low,
        most: high,
        step,
        scales: false,
        turns: false,
        decimals,
        start,
    }
}

// Whole numbers from low to high.
fn whole(low: u32, high: u32, start: u32) -> Row
    ensures { result ≡ whole_row low high start }
{
    plain(0, low, high, 1, 0, start)
}

// A value from -end to end that starts at 0.
fn signed(decimals: u8, end: u32) -> Row
    requires { end + end < 2 ^ 32 }
    ensures { result ≡ signed decimals end }
{
    plain(end, 0, end + end, 1, decimals, end)
}

// The phase: an argument may lie further out than a state keeps it.
fn phase() -> Row
    ensures { result ≡ phase }
{
    Row {
        bias: TURN,
        low: 0,
        high: PHASE_HIGH,
        least: PHASE_LEAST,
        most: PHASE_MOST,
        step: 1,
        scales: false,
        turns: true,
        decimals: 2,
        start: TURN,
    }
}

// The frequency: its step goes by the value, and is never finer than 1.
fn frequency() -> Row
    ensures { result ≡ frequency }
{
    Row {
        bias: 0,
        low: Settings::FREQUENCY_LOW,
        high: Settings::FREQUENCY_HIGH,
        least: Settings::FREQUENCY_LOW,
        most: Settings::FREQUENCY_HIGH,
        step: 1,
        scales: true,
        turns: false,
        decimals: 4,
        start: Settings::FREQUENCY_START,
    }
}

// The row of an entry; past the table one that takes no value.
pub fn row_of(entry: usize) -> Row
    ensures { result ≡ row_of entry }
{
    match entry {
        super::PHAS => phase(),
        super::FMOD => whole(0, 1, super::INTERNAL),
        super::FREQ => frequency(),
        super::RSLP => whole(0, 2, 0),
        super::HARM => whole(1, 19999, 1),
        super::SLVL => plain(0, LEVEL_LEAST, LEVEL_MOST, LEVEL_STEP, 3, 1000),
        super::ISRC => whole(0, 3, 0),
        super::ILIN => whole(0, 3, 0),
        super::OFSL => whole(0, 3, 1),
        super::IGND => whole(0, 1, 0),
        super::ICPL => whole(0, 1, 0),
        super::SYNC => whole(0, 1, 0),
        super::SENS => whole(0, 26, 26),
        super::RMOD => whole(0, 2, 2),
        super::OFLT => whole(0, 19, 8),
        super::DDEF_1J => whole(0, 4, 0),
        super::DDEF_1K => whole(0, 2, 0),
        super::DDEF_2J => whole(0, 4, 0),
        super::DDEF_2K => whole(0, 2, 0),
        super::FPOP_1 => whole(0, 1, 0),
        super::FPOP_2 => whole(0, 1, 0),
        super::OEXP_1X => signed(2, 10500),
        super::OEXP_1J => whole(0, 2, 0),
        super::OEXP_2X => signed(2, 10500),
        super::OEXP_2J => whole(0, 2, 0),
        super::OEXP_3X => signed(2, 10500),
        super::OEXP_3J => whole(0, 2, 0),
        super::AUXV_1 => signed(3, 10500),
        super::AUXV_2 => signed(3, 10500),
        super::AUXV_3 => signed(3, 10500),
        super::AUXV_4 => signed(3, 10500),
        super::SRAT => whole(0, 14, 4),
        super::SEND => whole(0, 1, 1),
        super::TSTR => whole(0, 1, 0),
        _ => whole(1, 0, 0),
    }
}

// The lowest value of each entry that a state keeps, with its bias.
const LEAST: [u32; ENTRIES] = [
    PHASE_LEAST, // PHAS
    0, // FMOD
    Settings::FREQUENCY_LOW, // FREQ
    0, // RSLP
    1, // HARM
    LEVEL_LEAST, // SLVL
    0, // ISRC
    0, // ILIN
    0, // OFSL
    0, // IGND
    0, // ICPL
    0, // SYNC
    0, // SENS
    0, // RMOD
    0, // OFLT
    0, // DDEF 1 j
    0, // DDEF 1 k
    0, // DDEF 2 j
    0, // DDEF 2 k
    0, // FPOP 1
    0, // FPOP 2
    0, // OEXP 1 x
    0, // OEXP 1 j
    0, // OEXP 2 x
    0, // OEXP 2 j
    0, // OEXP 3 x
    0, // OEXP 3 j
    0, // AUXV 1
    0, // AUXV 2
    0, // AUXV 3
    0, // AUXV 4
    0, // SRAT
    0, // SEND
    0, // TSTR
];

// The highest value of each entry that a state keeps, with its bias.
const MOST: [u32; ENTRIES] = [
    PHASE_MOST, // PHAS
    1, // FMOD
    Settings::FREQUENCY_HIGH, // FREQ
    2, // RSLP
    19999, // HARM
    LEVEL_MOST, // SLVL
    3, // ISRC
    3, // ILIN
    3, // OFSL
    1, // IGND
    1, // ICPL
    1, // SYNC
    26, // SENS
    2, // RMOD
    19, // OFLT
    4, // DDEF 1 j
    2, // DDEF 1 k
    4, // DDEF 2 j
    2, // DDEF 2 k
    1, // FPOP 1
    1, // FPOP 2
    21000, // OEXP 1 x
    2, // OEXP 1 j
    21000, // OEXP 2 x
    2, // OEXP 2 j
    21000, // OEXP 3 x
    2, // OEXP 3 j
    21000, // AUXV 1
    21000, // AUXV 2
    21000, // AUXV 3
    21000, // AUXV 4
    14, // SRAT
    1, // SEND
    1, // TSTR
];

// The lowest value of each entry that a state keeps. Not one function with `mosts`: an array is no const parameter.
pub fn leasts() -> [u32; ENTRIES]
    ensures { result ≡ map (λ row. row.least) table }
{
    LEAST
}

// The highest value of each entry that a state keeps.
pub fn mosts() -> [u32; ENTRIES]
    ensures { result ≡ map (λ row. row.most) table }
{
    MOST
}
