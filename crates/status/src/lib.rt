// The event registers, their enables and the status byte.
#![tactic(auto)]

ghost use Rattle.std.specs.Prelude.{◌≡◌, ◌<◌};
ghost use Rattle.std.specs.Int.Bits.{bit_or};
ghost use Rattle.status.specs.Bits.{bit_of, without_bit, with_bit, meets, only, flag};
ghost use Rattle.status.specs.Status.{start_registers, register_of, with_register, cleared_of, bit_cleared};
ghost use Rattle.status.specs.Status.{all_cleared, with_standard, with_lia, with_raised, may_raise};
ghost use Rattle.status.specs.Status.{start_enables, enable_of, with_enable_byte, with_enable, with_enable_bit};
ghost use Rattle.status.specs.Status.{other_bits, status_byte, is_valid};

use mnemonic::Register;

// PON, power on: standard event bit 7, the one that is set at start.
const PON: u8 = 0x80;

// An event register with no bit set.
const CLEARED: u8 = 0;

// The LIA bits that an event may raise: 0 to 3.
const LIA_RAISED: u8 = 0x0F;

// The ERR bits that an event may raise: 1, 2 and 4 to 7.
const ERRORS_RAISED: u8 = 0xF6;

// The standard event bits that nothing sets: 1 and 3.
const STANDARD_UNUSED: u8 = 0x0A;

// The LIA bit that nothing sets: 7.
const LIA_UNUSED: u8 = 0x80;

// The ERR bits that nothing sets: 0 and 3.
const ERRORS_UNUSED: u8 = 0x09;

// The number of the *SRE bit that stays 0.
const SERVICE_BIT: u32 = 6;

// The mask of the *SRE bit that stays 0.
const SERVICE_UNUSED: u8 = 0x40;

// The event registers.
#[derive(Clone, Copy)]
pub struct Registers {
    // What *ESR? replies.
    pub standard: u8,
    // What LIAS? replies.
    pub lia: u8,
    // What ERRS? replies.
    pub errors: u8,
}

// The enables: which bits of a register set a bit of the status byte.
#[derive(Clone, Copy)]
pub struct Enables {
    // *ESE, for the standard event register.
    pub standard: u8,
    // *SRE, for the status byte itself.
    pub service: u8,
    // LIAE, for the LIA register.
    pub lia: u8,
    // ERRE, for the ERR register.
    pub errors: u8,
}

// The bits of the status byte that no register gives.
#[derive(Clone, Copy)]
pub struct Poll {
    // Storage is reset or done.
    pub at_rest: bool,
    // No command is running.
    pub idle: bool,
    // Reply bytes of this line are waiting already.
    pub waiting: bool,
}

// A byte with the bits of `bits` set too.
pub fn with_bits(x: u8, bits: u8) -> u8
    ensures { result ≡ bit_or x bits }
{
    x | bits
}

// A bit of a byte, 0 or 1; past 7 it is 0.
pub fn bit_of(x: u8, bit: u32) -> u8
    ensures { result ≡ bit_of x bit }
{
    if bit < 8 { (x >> bit) % 2 } else { 0 }
}

// A byte with one bit cleared and the others as they are.
pub fn without_bit(x: u8, bit: u32) -> u8
    ensures { result ≡ without_bit x bit }
{
    if bit < 8 {
        x - (bit_of(x, bit) << bit)
    } else {
        x
    }
}

// A byte with a bit cleared where the value is 0, else set; past 7 it is unchanged.
pub fn with_bit(x: u8, bit: u32, value: u32) -> u8
    ensures { result ≡ with_bit x bit value }
{
    if 8 <= bit {
        x
    } else if value == 0 {
        without_bit(x, bit)
    } else {
        x | (1 << bit)
    }
}

// Whether two bytes have a bit in common.
fn common(x: u8, y: u8) -> bool
    ensures { result ≡ meets x y }
{
    x & y != 0
}

// Whether no bit is set but bits of `mask`.
fn only_of(mask: u8, x: u8) -> bool
    ensures { result ≡ only mask x }
{
    x & mask == x
}

impl Registers {
    // The event registers at start: only PON is set.
    pub fn start() -> Registers
        ensures { result ≡ start_registers }
    {
        Registers {
            standard: PON,
            lia: 0,
            errors: 0,
        }
    }
}

impl Enables {
    // The enables at start: nothing is enabled.
    pub fn start() -> Enables
        ensures { result ≡ start_enables }
    {
        Enables {
            standard: 0,
            service: 0,
            lia: 0,
            errors: 0,
        }
    }
}

// The event register `which`; 0 for the service register, which is no event register.
pub fn register_of(r: Registers, which: Register) -> u8
    ensures { result ≡ register_of r which }
{
    match which {
        Register::Standard => r.standard,
        Register::Service => 0,
        Register::Lia => r.lia,
        Register::Errors => r.errors,
    }
}

// The event registers with `value` in the register `which`.
fn with_register(r: Registers, which: Register, value: u8) -> Registers
    ensures { result ≡ with_register r which value }
{
    match which {
        Register::Standard => Registers {
            standard: value,
            ..r
        },
        Register::Service => r,
        Register::Lia => Registers { lia: value, ..r },
        Register::Errors => Registers { errors: value, ..r },
    }
}

// The event registers with one cleared, as its query leaves them.
pub fn cleared(r: Registers, which: Register) -> Registers
    ensures { result ≡ cleared_of r which }
{
    with_register(r, which, 0)
}

// The event registers with one bit of one cleared, as its query with a bit leaves them.
pub fn bit_cleared(r: Registers, which: Register, bit: u32) -> Registers
    ensures { result ≡ bit_cleared r which bit }
{
    let value = register_of(r, which);
    with_register(r, which, without_bit(value, bit))
}

// The event registers after *CLS: no bit is set.
pub fn all_cleared() -> Registers
    ensures { result ≡ all_cleared }
{
    Registers {
        standard: CLEARED,
        lia: CLEARED,
        errors: CLEARED,
    }
}

// The event registers with standard event bits set.
pub fn with_standard(r: Registers, bits: u8) -> Registers
    ensures { result ≡ with_standard r bits }
{
    Registers {
        standard: r.standard | bits,
        ..r
    }
}

// The event registers with LIA bits set.
pub fn with_lia(r: Registers, bits: u8) -> Registers
    ensures { result ≡ with_lia r bits }
{
    Registers {
        lia: r.lia | bits,
        ..r
    }
}

// The event registers with the bits set that an event raises.
pub fn with_raised(r: Registers, lia: u8, errors: u8) -> Registers
    ensures { result ≡ with_raised r lia errors }
{
    Registers {
        lia: r.lia | lia,
        errors: r.errors | errors,
        ..r
    }
}

// Whether an event may raise these LIA and ERR bits.
pub fn may_raise(lia: u8, errors: u8) -> bool
    ensures { result ≡ may_raise lia errors }
{
    only_of(LIA_RAISED, lia) && only_of(ERRORS_RAISED, errors)
}

// The enable of the register `which`: *ESE, *SRE, LIAE or ERRE.
pub fn enable_of(e: Enables, which: Register) -> u8
    ensures { result ≡ enable_of e which }
{
    match which {
        Register::Standard => e.standard,
        Register::Service => e.service,
        Register::Lia => e.lia,
        Register::Errors => e.errors,
    }
}

// The enables with `byte` in one of them, bit 6 of *SRE left out.
fn with_enable_byte(e: Enables, which: Register, byte: u8) -> Enables
    ensures { result ≡ with_enable_byte e which byte }
{
    match which {
        Register::Standard => Enables {
            standard: byte,
            ..e
        },
        Register::Service => Enables {
            service: without_bit(byte, SERVICE_BIT),
            ..e
        },
        Register::Lia => Enables { lia: byte, ..e },
        Register::Errors => Enables { errors: byte, ..e },
    }
}

// The enables with one set to the low byte of `value`.
pub fn with_enable(e: Enables, which: Register, value: u32) -> Enables
    ensures { result ≡ with_enable e which value }
{
    let byte = (value % 0x100) as u8;
    with_enable_byte(e, which, byte)
}

// The enables with one bit of one set, or cleared where `value` is 0.
pub fn with_enable_bit(e: Enables, which: Register, bit: u32, value: u32) -> Enables
    ensures { result ≡ with_enable_bit e which bit value }
{
    let byte = enable_of(e, which);
    with_enable_byte(e, which, with_bit(byte, bit, value))
}

// The weight of a bit where a test holds, else 0.
fn flag_of(test: bool, bit: u32) -> u8
    requires { bit < 8 }
    ensures { result ≡ flag test bit }
{
    u8::from(test) << bit
}

// Bits 0 to 5 of the status byte.
fn other_bits(r: Registers, e: Enables, p: Poll) -> u8
    ensures { result ≡ other_bits r e p }
{
    let at_rest = flag_of(p.at_rest, 0);
    let idle = flag_of(p.idle, 1);
    let errors = flag_of(common(r.errors, e.errors), 2);
    let lia = flag_of(common(r.lia, e.lia), 3);
    let waiting = flag_of(p.waiting, 4);
    let standard = flag_of(common(r.standard, e.standard), 5);
    at_rest + idle + errors + lia + waiting + standard
}

// The status byte: bits 0 to 5, and bit 6 where *SRE enables one of them.
pub fn status_byte(r: Registers, e: Enables, p: Poll) -> u8
    ensures { result ≡ status_byte r e p }
{
    let other = other_bits(r, e, p);
    other + flag_of(common(other, e.service), 6)
}

// Whether a state may have these registers and enables: their part of refusal 11.
pub fn bits_valid(r: Registers, e: Enables) -> bool
    ensures { result ≡ is_valid r e }
{
    !common(r.standard, STANDARD_UNUSED)
        && !common(r.lia, LIA_UNUSED)
        && !common(r.errors, ERRORS_UNUSED)
        && !common(e.service, SERVICE_UNUSED)
}
