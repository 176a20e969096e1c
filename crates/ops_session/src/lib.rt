// What each operation of docs/ops-protocol.md does to one module and its traces, and the answer that it writes.
#![tactic(auto)]

mod alter;
mod answer;
mod dump;
mod session;

pub use answer::write_invalid;
pub use session::Session;
