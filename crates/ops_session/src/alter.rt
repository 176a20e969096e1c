// The operation `alter`: a module with another value in a field of its state or its queue.
use line_text::LINE;
use lockin::Module;
use ops_protocol::Alteration;
use queue::Queue;

// The queue of these bytes: of more than 256 it has the first ones, and the length of them all.
fn queue_of_bytes(bytes: &[u8], discarding: bool) -> Queue {
    let mut first = [0u8; LINE];
    for (place, b) in first.iter_mut().zip(bytes) {
        *place = *b;
    }
    Queue {
        bytes: first,
        len: bytes.len(),
        discarding,
    }
}

// Gives a field another value.
pub fn alter(m: &mut Module, alteration: Alteration<'_>) {
    match alteration {
        Alteration::Serial(serial) => m.state.installation.serial = serial,
        Alteration::Port(port) => m.state.installation.port = port,
        Alteration::Capacity(capacity) => m.state.installation.capacity = capacity,
        Alteration::Setting(entry, value) => {
            m.state.settings = settings::with_value(m.state.settings, entry, value);
        }
        Alteration::External(frequency) => m.state.acquisition.external = frequency,
        Alteration::Phase(phase) => m.state.acquisition.storage.phase = phase,
        Alteration::Held(held) => m.state.acquisition.storage.held = held,
        Alteration::Next(slot) => m.state.acquisition.storage.next = slot,
        Alteration::LatestOne(word) => m.state.latest.one = word,
        Alteration::LatestTwo(word) => m.state.latest.two = word,
        Alteration::Standard(bits) => m.state.registers.standard = bits,
        Alteration::Lia(bits) => m.state.registers.lia = bits,
        Alteration::Errors(bits) => m.state.registers.errors = bits,
        Alteration::StandardEnables(bits) => m.state.enables.standard = bits,
        Alteration::ServiceEnables(bits) => m.state.enables.service = bits,
        Alteration::LiaEnables(bits) => m.state.enables.lia = bits,
        Alteration::ErrorEnables(bits) => m.state.enables.errors = bits,
        Alteration::Queue(bytes) => m.queue = queue_of_bytes(bytes, m.queue.discarding),
        Alteration::Discarding(discarding) => m.queue.discarding = discarding,
        Alteration::Range(range) => m.state.acquisition.range = range,
    }
}
