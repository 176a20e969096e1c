// The arguments of an operation, divided by single spaces, one after the other.
ghost use Rattle.std.specs.Prelude.{◌≤◌, length, IfSome};

use crate::fields::WORD_DIGITS;
use terminal::decode_decimal;

// How many hex digits a byte has.
const BYTE_DIGITS: usize = 2;

// What is left of an operation's text.
#[derive(Clone, Copy)]
pub struct Arguments<'t> {
    // The arguments that have not been read; none behind the last one.
    rest: Option<&'t [u8]>,
}

impl<'t> Arguments<'t> {
    // All of a text.
    pub(crate) fn of(text: &'t [u8]) -> Self {
        Arguments { rest: Some(text) }
    }

    // The next argument.
    pub(crate) fn next(&mut self) -> Option<&'t [u8]> {
        let rest = self.rest?;
        let n = split::span_of(rest, b' ');
        self.rest = rest.get(n + 1..);
        Some(&rest[..n])
    }

    // The next argument as a number, at most this one.
    pub(crate) fn number(&mut self, most: u32) -> Option<u32>
        ensures { IfSome result (λ n. n ≤ most) }
    {
        decode_decimal(self.next()?, most)
    }

    // The next argument as a length, at most this one.
    pub(crate) fn length(&mut self, most: usize) -> Option<usize>
        ensures { IfSome result (λ n. n ≤ most) }
    {
        let n = self.number(u32::MAX)? as usize;
        (n <= most).then_some(n)
    }

    // The next argument as a decimal number that is a byte.
    pub(crate) fn byte(&mut self) -> Option<u8> {
        u8::try_from(self.number(u32::MAX)?).ok()
    }

    // The next argument as 0 or 1.
    pub(crate) fn flag(&mut self) -> Option<bool> {
        self.number(1).map(|n| n == 1)
    }

    // The next argument as a byte in hex.
    pub(crate) fn hex_byte(&mut self) -> Option<u8> {
        u8::try_from(terminal::decode_hex(self.next()?, BYTE_DIGITS)?).ok()
    }

    // The next argument as a word in hex.
    pub(crate) fn word(&mut self) -> Option<u32> {
        terminal::decode_hex(self.next()?, WORD_DIGITS)
    }

    // The next argument as bytes in hex, stored at the start of a buffer.
    pub(crate) fn bytes<'b>(&mut self, buffer: &'b mut [u8]) -> Option<&'b [u8]>
        ensures { IfSome result (λ bytes. length bytes.now ≤ length buffer.old) }
    {
        terminal::decode_bytes(self.next()?, buffer)
    }

    // Whether all arguments have been read.
    pub(crate) fn is_empty(self) -> bool {
        self.rest.is_none()
    }
}
