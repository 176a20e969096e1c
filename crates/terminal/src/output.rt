// Bytes for standard output, which wait in a buffer until they are written out, and parts of a text.
ghost use Rattle.std.specs.Prelude.{◌≡◌, ◌≤◌, length, take, drop};

use crate::hex;
use std::fmt;
use std::fmt::Write;

// The first n bytes, all of them where there are fewer.
pub fn first_bytes(bytes: &[u8], n: usize) -> &[u8]
    ensures { result.now ≡ take n bytes.now }
{
    &bytes[..n.min(bytes.len())]
}

// The bytes behind the first n, none where there are fewer.
pub fn bytes_from(bytes: &[u8], n: usize) -> &[u8]
    ensures { result.now ≡ drop n bytes.now }
{
    &bytes[n.min(bytes.len())..]
}

// Writes bytes to standard output, where there are any. A write that fails is passed over.
pub fn write_out(rt: &impl Print, bytes: &[u8]) {
    if !bytes.is_empty() {
        let _ = rt.write_all(bytes);
    }
}

// How many bytes are written in hex at once.
const HEX_PART: usize = 128;

// Standard output, and the bytes that wait for it. A full buffer is written out first.
#[derive(Drop)]
pub struct Output<'r, 'b, R: Print> {
    // Where the bytes are written out.
    rt: &'r R,
    // Where they wait.
    buffer: &'b mut [u8],
    // How many wait.
    len: usize,
}

impl<'r, 'b, R: Print> Output<'r, 'b, R> {
    // Nothing waits in a buffer.
    pub fn new(rt: &'r R, buffer: &'b mut [u8]) -> Self
        ensures { result.len ≡ 0 }
    {
        Output { rt, buffer, len: 0 }
    }

    // Writes out all bytes that wait. Where that fails they are gone.
    pub fn flush(&mut self)
        ensures { self.new.len ≡ 0 }
    {
        let rt = self.rt;
        let len = self.len;
        write_out(rt, first_bytes(self.buffer, len));
        self.len = 0;
    }

    // Writes a byte.
    pub fn byte(&mut self, b: u8)
        ensures { self.new.len ≤ length self.new.buffer.now }
    {
        if self.buffer.len() <= self.len {
            self.flush();
        }
        if self.len < self.buffer.len() {
            self.buffer[self.len] = b;
            self.len += 1;
        }
    }

    // Stores bytes behind those that wait, where there is room for all of them.
    fn store(&mut self, bytes: &[u8]) -> Option<()> {
        let start = self.len;
        let end = start.checked_add(bytes.len())?;
        self.buffer.get_mut(start..end)?.copy_from_slice(bytes);
        self.len = end;
        Some(())
    }

    // Writes bytes.
    pub fn bytes(&mut self, bytes: &[u8]) {
        if self.store(bytes).is_none() {
            for b in bytes {
                self.byte(*b);
            }
        }
    }

    // Writes bytes in hex, `-` where there are none.
    pub fn hex_bytes(&mut self, bytes: &[u8]) {
        if bytes.is_empty() {
            self.byte(b'-');
        }
        for part in bytes.chunks(HEX_PART) {
            let mut digits = [0u8; 2 * HEX_PART];
            hex::store_digits(&mut digits, part);
            self.bytes(first_bytes(&digits, 2 * part.len()));
        }
    }

    // Writes a line's end, and writes out all bytes that wait.
    pub fn end_line(&mut self)
        ensures { self.new.len ≡ 0 }
    {
        self.byte(b'\n');
        self.flush();
    }
}

impl<R: Print> Write for Output<'_, '_, R> {
    // Writes a text, and never fails.
    fn write_str(&mut self, s: &str) -> fmt::Result {
        self.bytes(s.as_bytes());
        Ok(())
    }
}
