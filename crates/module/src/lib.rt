// A module: its state and its queue, fresh or at any time; its status byte; and refusals 9, 10 and 11.
#![tactic(auto)]

ghost use Rattle.std.specs.Prelude.{◌≡◌};
ghost use Rattle.module.specs.Start.{installation_known, traces_fit, fresh_module};
ghost use Rattle.module.specs.Module.{valid_module, guard_of, status_between};

use outcome::{Outcome, Refusal};
use queue::Queue;
use settings::Settings;
use state::{Installation, State};
use status::Poll;

// A module: its state, and the bytes that wait for their line's end. The queue stands first: behind a state whose
// length is no multiple of 8, unused bytes would precede it, and its 256 bytes would be copied once more for each byte
// that is taken.
#[derive(Clone, Copy)]
pub struct Module {
    pub queue: Queue,
    pub state: State,
}

impl Module {
    // Whether 11 does not refuse the module, which is lent and not copied.
    pub fn is_valid(&self) -> bool
        ensures { result ≡ valid_module self.now }
    {
        state::is_valid(self.state) && self.queue.is_valid(self.state.installation.port)
    }

    // Refusals 11 and 9 for the module and traces of these lengths.
    pub fn guard(&self, first: usize, second: usize) -> Outcome
        ensures { result ≡ guard_of self.now first second }
    {
        let capacity = self.state.installation.capacity as usize;
        if !self.is_valid() {
            Err(Refusal::BadState)
        } else if first == capacity && second == capacity {
            Ok(())
        } else {
            Err(Refusal::BadTraces)
        }
    }
}

// Serial number and port as a start takes them, else refusal 10.
pub fn installation_known(serial: u32, port: u32) -> bool
    ensures { result ≡ installation_known serial port }
{
    serial <= state::SERIAL_MOST && port <= state::GPIB as u32
}

// The lengths of both traces as a start takes them, else refusal 9.
pub fn traces_fit(first: usize, second: usize) -> bool
    ensures { result ≡ traces_fit first second }
{
    let least = Settings::CAPACITY_LEAST as usize;
    let most = Settings::CAPACITY_MOST as usize;
    first == second && least <= first && first <= most
}

// A module at its start.
pub fn fresh(installation: Installation) -> Module
    ensures { result ≡ fresh_module installation }
{
    Module {
        state: State::start(installation),
        queue: Queue::empty(),
    }
}

// The status byte between lines.
pub fn status_between(s: State) -> u8
    ensures { result ≡ status_between s }
{
    let poll = Poll {
        at_rest: storage::at_rest(s.acquisition.storage),
        idle: true,
        waiting: false,
    };
    status::status_byte(s.registers, s.enables, poll)
}
