// The text that a query replies, and the byte that ends it.
ghost use Rattle.std.specs.Prelude.{◌≡◌, ◌≤◌, length};
ghost use Rattle.format.specs.Text.{plain};
ghost use Rattle.format.specs.Parts.{bytes_of, appended};
ghost use Rattle.reply.specs.Text.{value_now, value_text, pair_text, status_now, status_of, identity_text};
ghost use Rattle.reply.specs.Text.{text_of, terminator_of};
ghost use Rattle.reply.specs.Reply.{terminated_text};

use command::QueryArgument;
use format::Text;
use mnemonic::Register;
use state::State;
use status::Poll;

// What stands before the serial number in the reply to *IDN?.
const MAKE: [u8; 13] = *b"LOCKIN,M1,s/n";

// What stands after it.
const VERSION: [u8; 9] = *b",ver1.000";

// The serial number is replied in five digits.
const SERIAL_DIGITS: u8 = 5;

// The value of an entry that a query replies: the frequency in force for FREQ.
fn value_now(s: State, entry: usize) -> u32
    ensures { result ≡ value_now s entry }
{
    if entry == settings::FREQ {
        settings::in_force(s.settings, s.acquisition.external)
    } else {
        settings::value_of(s.settings, entry)
    }
}

// The text of an entry's value, by its row.
fn value_text(s: State, entry: usize) -> Text
    ensures { (bytes_of result ≡ value_text s entry) × (length (bytes_of result) ≤ 12) }
{
    let row = settings::row_of(entry);
    format::push_value(Text::empty(), value_now(s, entry), row.bias, row.decimals)
}

// The texts of an entry's value and of the one after it, divided by a comma.
fn pair_text(s: State, entry: usize) -> Text
    ensures { (bytes_of result ≡ pair_text s entry) × (length (bytes_of result) ≤ 25) }
{
    let second = settings::next_entry(entry);
    let row = settings::row_of(second);
    format::push_next(
        value_text(s, entry),
        value_now(s, second),
        row.bias,
        row.decimals,
    )
}

// The status byte while a line runs.
fn status_now(s: State, waiting: bool) -> u8
    ensures { result ≡ status_now s waiting }
{
    let poll = Poll {
        at_rest: storage::at_rest(s.acquisition.storage),
        idle: false,
        waiting,
    };
    status::status_byte(s.registers, s.enables, poll)
}

// What a status query reads: the status byte or an event register.
fn status_of(s: State, waiting: bool, which: Register) -> u8
    ensures { result ≡ status_of s waiting which }
{
    match which {
        Register::Standard => status::register_of(s.registers, Register::Standard),
        Register::Service => status_now(s, waiting),
        Register::Lia => status::register_of(s.registers, Register::Lia),
        Register::Errors => status::register_of(s.registers, Register::Errors),
    }
}

// A whole number's text.
fn plain_text(value: u32) -> Text
    ensures { (bytes_of result ≡ plain value) × (length (bytes_of result) ≤ 10) }
{
    format::push_plain(Text::empty(), value)
}

// The text with these bytes after it, as far as it has room.
fn push_all(t: Text, bytes: &[u8]) -> Text
    ensures { bytes_of result ≡ appended (bytes_of t) bytes.now }
{
    let mut text = t;
    for b in bytes {
        text = format::push(text, *b);
    }
    text
}

// The reply to *IDN?.
fn identity_text(serial: u32) -> Text
    ensures { (bytes_of result ≡ identity_text serial) × (length (bytes_of result) ≤ 27) }
{
    let make = push_all(Text::empty(), &MAKE);
    let numbered = format::push_padded(make, serial, SERIAL_DIGITS);
    push_all(numbered, &VERSION)
}

// A reply that is a text, without its end; none for a trace read.
fn text_of(s: State, q: QueryArgument, waiting: bool) -> Text
    ensures { (bytes_of result ≡ text_of q s waiting) × (length (bytes_of result) ≤ 27) }
{
    match q {
        QueryArgument::Value(entry) => value_text(s, entry),
        QueryArgument::Pair(entry) => pair_text(s, entry),
        QueryArgument::Enable(which) => plain_text(status::enable_of(s.enables, which) as u32),
        QueryArgument::EnableBit(which, bit) => {
            plain_text(status::bit_of(status::enable_of(s.enables, which), bit) as u32)
        }
        QueryArgument::Status(which) => plain_text(status_of(s, waiting, which) as u32),
        QueryArgument::StatusBit(which, bit) => {
            plain_text(status::bit_of(status_of(s, waiting, which), bit) as u32)
        }
        QueryArgument::Identity => identity_text(s.installation.serial),
        QueryArgument::Points => plain_text(s.acquisition.storage.held),
        QueryArgument::Trace(_, _, _, _) => Text::empty(),
    }
}

// The byte that ends a reply on a port.
fn terminator_of(port: u8) -> u8
    ensures { result ≡ terminator_of port }
{
    if port == state::RS232 { b'\r' } else { b'\n' }
}

// The text that a query replies, with the byte that ends it on the port.
pub fn terminated_text(s: State, q: QueryArgument, waiting: bool) -> Text
    ensures { bytes_of result ≡ terminated_text q s waiting }
{
    format::push(text_of(s, q, waiting), terminator_of(s.installation.port))
}
