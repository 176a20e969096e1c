// Text that a program reads from standard input and writes to standard output: chunks and lines, numbers and bytes in
// hex, and bytes that wait in a buffer until they are written out.
#![tactic(auto)]

mod field;
mod hex;
mod input;
mod output;

pub use field::{decode_decimal, decode_hex};
pub use hex::decode_bytes;
pub use input::{Line, Lines, next_chunk};
pub use output::{Output, bytes_from, first_bytes, write_out};
