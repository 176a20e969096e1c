// The program bench: hands the bytes of standard input to a fresh GPIB module (§2.2), and writes its replies to
// standard output.
#![tactic(auto)]

use lockin::Module;

// The module's serial number.
const SERIAL: u32 = 42;

// The module's port.
const PORT: u32 = state::GPIB as u32;

// The length of each trace.
const CAPACITY: usize = 8;

// Room for all replies of any one line: it has at most 256 bytes, so fewer than 43 queries of five bytes or more with a
// `;` between them, and a reply has at most 32 bytes, those of eight points. A run writes the replies of many lines,
// and stops before a line whose replies do not fit behind them.
const ROOM: usize = 8192;

// A module, its traces and its reply buffer.
#[derive(Drop)]
struct Bench {
    // The module.
    module: Module,
    // Trace 1.
    one: [u32; CAPACITY],
    // Trace 2.
    two: [u32; CAPACITY],
    // The reply buffer.
    reply: [u8; ROOM],
}

impl Bench {
    // A fresh module.
    fn start() -> Self {
        let one = [0; CAPACITY];
        let two = [0; CAPACITY];
        Bench {
            module: lockin::start(SERIAL, PORT, &one, &two).after,
            one,
            two,
            reply: [0; ROOM],
        }
    }

    // Hands bytes without an end mark to the module, as one run, and writes the replies. Gives how many it took.
    fn run(&mut self, rt: &impl Print, bytes: &[u8]) -> usize {
        let ran = lockin::take_run(
            self.module,
            bytes,
            false,
            &mut self.one,
            &mut self.two,
            &mut self.reply,
        );
        self.module = ran.after;
        terminal::write_out(
            rt,
            terminal::first_bytes(&self.reply, ran.report.report.length),
        );
        ran.report.taken
    }

    // Hands bytes to the module. Where a run stops, what is left is a run of its own; none comes behind a run that
    // takes nothing. No `for`: each run takes another number of bytes.
    fn run_chunk(&mut self, rt: &impl Print, chunk: &[u8]) {
        let mut rest = chunk;
        while !rest.is_empty() {
            let taken = self.run(rt, rest);
            if taken == 0 {
                return;
            }
            rest = terminal::bytes_from(rest, taken);
        }
    }
}

// Hands all of the input to a fresh module. A proved loop has to end, so this one counts its turns, up to a number that
// no run reaches.
fn main(rt: HostRuntime) {
    let mut stdin = rt.stdin();
    let mut chunk = io::large_buffer();
    let mut bench = Bench::start();
    for _ in 0..u64::MAX {
        let n = terminal::next_chunk(&mut stdin, &mut chunk);
        if n == 0 {
            return;
        }
        bench.run_chunk(&rt, &chunk[..n]);
    }
}
