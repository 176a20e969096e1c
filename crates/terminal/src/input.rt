// Standard input: chunks of it, and its lines, each given as soon as its end is read.
ghost use Rattle.std.specs.Prelude.{length};
ghost use Rattle.std.specs.Option.{IfSome};
ghost use Rattle.io.specs.Counts.{IsPrefixLen};
ghost use Rattle.terminal.specs.Line.{FitsRoom};

use crate::output::{bytes_from, first_bytes};
use std::io::Read;

// Reads once: gives how many bytes were read to the start of the chunk, 0 where the input has ended. A read that fails
// ends the input.
pub fn next_chunk(reader: &mut impl Read, chunk: &mut [u8]) -> usize
    ensures { IsPrefixLen result chunk.new }
{
    reader.read(chunk).unwrap_or(0)
}

// A line of the input, its LF not counted.
#[derive(Clone, Copy)]
pub enum Line<'a> {
    // These bytes.
    Bytes(&'a [u8]),
    // More bytes than there is room for.
    TooLong,
}

// The line that has the first `len` bytes of a buffer.
fn line_of(buffer: &[u8], len: Option<usize>) -> Line<'_>
    ensures { FitsRoom (length buffer.now) result }
{
    match len {
        Some(len) => Line::Bytes(first_bytes(buffer, len)),
        None => Line::TooLong,
    }
}

// Stores a part of a line behind its first `len` bytes, and gives how many there are then; none where there is no room.
fn append(line: &mut [u8], len: usize, part: &[u8]) -> Option<usize> {
    let room = line.get_mut(len..)?;
    room.get_mut(..part.len())?.copy_from_slice(part);
    Some(len + part.len())
}

// The lines of an input, the last of which may lack its LF.
#[derive(Drop)]
pub struct Lines<'a, R: Read> {
    // Where the input is read from.
    reader: &'a mut R,
    // What was read last.
    chunk: &'a mut [u8],
    // Where the bytes that are part of no line yet start in the chunk.
    start: usize,
    // Where they end.
    end: usize,
    // Whether the input has ended.
    ended: bool,
}

impl<'a, R: Read> Lines<'a, R> {
    // The lines of an input, read by chunks.
    pub fn new(reader: &'a mut R, chunk: &'a mut [u8]) -> Self {
        Lines {
            reader,
            chunk,
            start: 0,
            end: 0,
            ended: false,
        }
    }

    // Reads the next chunk where no byte is left of this one, and gives whether there are bytes.
    fn fill(&mut self) -> bool {
        if self.end <= self.start {
            if self.ended {
                return false;
            }
            self.start = 0;
            self.end = next_chunk(self.reader, self.chunk);
            self.ended = self.end == 0;
        }
        !self.ended
    }

    // The next line, stored at the start of a buffer; none where the input has ended. A proved loop has to end, so this
    // one counts its turns, up to a number that no run reaches.
    pub fn next_line<'b>(&mut self, line: &'b mut [u8]) -> Option<Line<'b>>
        ensures { IfSome result (FitsRoom (length line.old)) }
    {
        let mut len = Some(0);
        for _ in 0..u64::MAX {
            if !self.fill() {
                break;
            }
            let start = self.start;
            let end = self.end;
            let rest = bytes_from(first_bytes(self.chunk, end), start);
            let n = split::span_of(rest, b'\n');
            let is_whole = n < rest.len();
            len = len.and_then(|len| append(line, len, &rest[..n]));
            if is_whole {
                self.start = start + n + 1;
                return Some(line_of(line, len));
            }
            self.start = end;
        }
        match len {
            Some(0) => None,
            _ => Some(line_of(line, len)),
        }
    }
}
