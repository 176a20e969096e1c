// The program ops: operations on standard input, one a line, on one module, and an answer to each on standard output,
// by docs/ops-protocol.md.
#![tactic(auto)]

use ops_protocol::{BYTES_MOST, LINE_MOST};
use ops_session::Session;
use terminal::{Line, Lines, Output};

// Runs the operations of all lines. A proved loop has to end, so this one counts its turns, up to a number that no run
// reaches.
fn main(rt: HostRuntime) {
    let mut stdin = rt.stdin();
    let mut chunk = io::large_buffer();
    let mut lines = Lines::new(&mut stdin, &mut chunk);
    let mut line = [0; LINE_MOST];
    let mut buffer = io::buffer();
    let mut out = Output::new(&rt, &mut buffer);
    let mut bytes = [0; BYTES_MOST];
    let mut session = Session::new();
    for _ in 0..u64::MAX {
        match lines.next_line(&mut line) {
            None => return,
            Some(Line::TooLong) => ops_session::write_invalid(&mut out),
            Some(Line::Bytes(text)) => session.run_line(&mut out, text, &mut bytes),
        }
    }
}
