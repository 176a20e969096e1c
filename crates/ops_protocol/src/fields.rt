// The fields of a state that `dump` writes and `alter` changes, and the words for their values.
ghost use Rattle.std.specs.Prelude.{◌≡◌, IfSome};
ghost use Rattle.ops_protocol.specs.Words.{phase_word, range_word};

use settings::FrequencyRange;
use storage::Phase;

// How many hex digits a word has.
pub(crate) const WORD_DIGITS: usize = 8;

// A field of a state.
#[derive(Clone, Copy, PartialEq, Eq)]
pub enum Field {
    // The serial number.
    Serial,
    // The port's number.
    Port,
    // The capacity.
    Capacity,
    // A setting, by its entry.
    Setting(usize),
    // The external frequency, which is no setting.
    External,
    // The phase of storage.
    Phase,
    // The number of points held.
    Held,
    // The slot that the next point goes to.
    Next,
    // The latest point for trace 1.
    LatestOne,
    // The latest point for trace 2.
    LatestTwo,
    // The standard event register.
    Standard,
    // The LIA register.
    Lia,
    // The error register.
    Errors,
    // The enables of the standard event register.
    StandardEnables,
    // The enables of a service request.
    ServiceEnables,
    // The enables of the LIA register.
    LiaEnables,
    // The enables of the error register.
    ErrorEnables,
    // The bytes that wait for their line's end.
    Queue,
    // Whether bytes are discarded until their line's end.
    Discarding,
    // The frequency range.
    Range,
}

// The fields in the order of `dump`, each behind its name; that of a part of a list has a point and the part's place,
// from 0.
pub static FIELDS: [(&str, Field); 53] = [
    ("serial", Field::Serial),
    ("port", Field::Port),
    ("cap", Field::Capacity),
    ("phas", Field::Setting(settings::PHAS)),
    ("fmod", Field::Setting(settings::FMOD)),
    ("freq", Field::Setting(settings::FREQ)),
    ("ext", Field::External),
    ("rslp", Field::Setting(settings::RSLP)),
    ("harm", Field::Setting(settings::HARM)),
    ("slvl", Field::Setting(settings::SLVL)),
    ("isrc", Field::Setting(settings::ISRC)),
    ("ilin", Field::Setting(settings::ILIN)),
    ("ofsl", Field::Setting(settings::OFSL)),
    ("ignd", Field::Setting(settings::IGND)),
    ("icpl", Field::Setting(settings::ICPL)),
    ("sync", Field::Setting(settings::SYNC)),
    ("sens", Field::Setting(settings::SENS)),
    ("rmod", Field::Setting(settings::RMOD)),
    ("oflt", Field::Setting(settings::OFLT)),
    ("ddef.0", Field::Setting(settings::DDEF_1J)),
    ("ddef.1", Field::Setting(settings::DDEF_1K)),
    ("ddef.2", Field::Setting(settings::DDEF_2J)),
    ("ddef.3", Field::Setting(settings::DDEF_2K)),
    ("fpop.0", Field::Setting(settings::FPOP_1)),
    ("fpop.1", Field::Setting(settings::FPOP_2)),
    ("oexp.0", Field::Setting(settings::OEXP_1X)),
    ("oexp.1", Field::Setting(settings::OEXP_1J)),
    ("oexp.2", Field::Setting(settings::OEXP_2X)),
    ("oexp.3", Field::Setting(settings::OEXP_2J)),
    ("oexp.4", Field::Setting(settings::OEXP_3X)),
    ("oexp.5", Field::Setting(settings::OEXP_3J)),
    ("auxv.0", Field::Setting(settings::AUXV_1)),
    ("auxv.1", Field::Setting(settings::AUXV_2)),
    ("auxv.2", Field::Setting(settings::AUXV_3)),
    ("auxv.3", Field::Setting(settings::AUXV_4)),
    ("srat", Field::Setting(settings::SRAT)),
    ("send", Field::Setting(settings::SEND)),
    ("tstr", Field::Setting(settings::TSTR)),
    ("storage", Field::Phase),
    ("held", Field::Held),
    ("next", Field::Next),
    ("pair.0", Field::LatestOne),
    ("pair.1", Field::LatestTwo),
    ("esr", Field::Standard),
    ("lia", Field::Lia),
    ("err", Field::Errors),
    ("ese", Field::StandardEnables),
    ("sre", Field::ServiceEnables),
    ("liae", Field::LiaEnables),
    ("erre", Field::ErrorEnables),
    ("queue", Field::Queue),
    ("dropping", Field::Discarding),
    ("range", Field::Range),
];

// The field with a name.
pub(crate) fn field_of(name: &[u8]) -> Option<Field> {
    let (_, field) = FIELDS.iter().find(|(known, _)| known.as_bytes() == name)?;
    Some(*field)
}

// The word for a phase.
pub fn phase_word(phase: Phase) -> &'static str
    ensures { result.now ≡ phase_word phase }
{
    match phase {
        Phase::Reset => "reset",
        Phase::Running => "running",
        Phase::Paused => "paused",
        Phase::Done => "done",
    }
}

// The phase that a word stands for.
pub(crate) fn phase_of(word: &[u8]) -> Option<Phase>
    ensures { IfSome result (λ phase. word.now ≡ phase_word phase) }
{
    match word {
        b"reset" => Some(Phase::Reset),
        b"running" => Some(Phase::Running),
        b"paused" => Some(Phase::Paused),
        b"done" => Some(Phase::Done),
        _ => None,
    }
}

// The word for a frequency range.
pub fn range_word(range: FrequencyRange) -> &'static str
    ensures { result.now ≡ range_word range }
{
    match range {
        FrequencyRange::Upper => "upper",
        FrequencyRange::Lower => "lower",
    }
}

// The frequency range that a word stands for.
pub(crate) fn range_of(word: &[u8]) -> Option<FrequencyRange>
    ensures { IfSome result (λ range. word.now ≡ range_word range) }
{
    match word {
        b"upper" => Some(FrequencyRange::Upper),
        b"lower" => Some(FrequencyRange::Lower),
        _ => None,
    }
}
