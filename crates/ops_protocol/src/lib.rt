// The text of docs/ops-protocol.md: the operations and what their arguments say, the fields of a state, and the largest
// sizes of all these.
#![tactic(auto)]

mod alter;
mod arguments;
mod fields;
mod operation;
mod sizes;

pub use alter::Alteration;
pub use fields::{FIELDS, Field, phase_word, range_word};
pub use operation::{Operation, Trace, decode_operation};
pub use sizes::{BYTES_MOST, LINE_MOST, REPLY_MOST, TRACE_MOST};
