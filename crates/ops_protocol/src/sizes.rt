// The largest sizes that an operation can have.
use settings::Settings;

// The most words of a trace: one more than a module takes, so that a start with too long a trace can be tried.
pub const TRACE_MOST: usize = Settings::CAPACITY_MOST as usize + 1;

// The most bytes of a reply buffer.
pub const REPLY_MOST: usize = 131072;

// The most bytes of an operation: a longer line is no operation.
pub const LINE_MOST: usize = 131072;

// The most bytes that an operation brings in hex, two digits each.
pub const BYTES_MOST: usize = LINE_MOST / 2;
