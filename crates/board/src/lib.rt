// A run of bytes for a module that stays where it is: the record behind a reference is read, the call by value is made,
// and the record that comes back is stored in its place.
#![tactic(auto)]

ghost use Rattle.std.specs.Prelude.{◌≡◌, length};
ghost use Rattle.reply_buffer.specs.After.{Meets};
ghost use Rattle.lockin.specs.Run.{run_call, run_result, run_numbers_of};
ghost use Rattle.board.specs.Board.{run_as};

use lockin::{RunReport, RunResult};
use module::Module;

// What a run of bytes reports, where the module lies behind `m`. The module, the traces and the reply are then as
// `lockin::take_run` leaves them.
pub fn run_in_place(
    m: &mut Module,
    bytes: &[u8],
    mark: bool,
    one: &mut [u32],
    two: &mut [u32],
    reply: &mut [u8],
) -> RunReport
    ensures meets { Meets run_result
        (run_call (length reply.old) bytes.now mark
        m.old one.old two.old)
        (run_as m.new result) one.new two.new reply.new reply.old }
    ensures numbers { run_numbers_of result ≡ run_numbers_of
        (run_call (length reply.old) bytes.now mark
        m.old one.old two.old).report }
{
    let ran = lockin::take_run(*m, bytes, mark, one, two, reply);
    *m = ran.after;
    ran.report
}

// The same for a module by value, which is held here while `run_in_place` works on it: its promise is that of
// `lockin::take_run`.
pub fn take_run(
    m: Module,
    bytes: &[u8],
    mark: bool,
    one: &mut [u32],
    two: &mut [u32],
    reply: &mut [u8],
) -> RunResult
    ensures meets { Meets run_result
        (run_call (length reply.old) bytes.now mark m one.old two.old)
        result one.new two.new reply.new reply.old }
    ensures numbers { run_numbers_of result.report ≡ run_numbers_of
        (run_call (length reply.old) bytes.now mark m
        one.old two.old).report }
{
    let mut held = m;
    let report = run_in_place(&mut held, bytes, mark, one, two, reply);
    RunResult {
        after: held,
        report,
    }
}
