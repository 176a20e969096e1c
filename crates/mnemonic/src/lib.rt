// The command names, in one list in alphabetical order, and what each stands for.
#![tactic(auto)]

ghost use Rattle.std.specs.Prelude.{◌≡◌};
ghost use Rattle.mnemonic.specs.Parts.{found_of};

// The registers that a command reads, clears or enables.
#[derive(Clone, Copy)]
pub enum Register {
    // The standard event register.
    Standard,
    // The status byte, with the enables of a service request.
    Service,
    // The register of the lock-in amplifier's own events.
    Lia,
    // The register of errors.
    Errors,
}

// What is done at once, with no argument.
#[derive(Clone, Copy, PartialEq, Eq)]
pub enum Action {
    // The settings and storage go back to their start.
    Reset,
    // The status registers are cleared.
    Clear,
    // Storing points starts or goes on.
    Start,
    // Storing points pauses.
    Pause,
    // The traces are emptied.
    Empty,
    // What a trigger from outside does.
    Trigger,
}

// How the points of a trace are sent.
#[derive(Clone, Copy)]
pub enum Form {
    // As words of the module's own format.
    Words,
    // As numbers of IEEE 754.
    Floats,
}

// What a name stands for.
#[derive(Clone, Copy)]
pub enum Meaning {
    // A setting, by its entry in the settings table.
    Setting(usize),
    // A setting of each channel, by the first one's entry and the number of channels.
    Channel { base: u8, channels: u8 },
    // Two settings of each channel, which are set and asked together.
    ChannelPair { base: u8, channels: u8 },
    // The enables of a register.
    Enable(Register),
    // A register that is read.
    Status(Register),
    // The text that identifies the module.
    Identity,
    // The number of points that are held.
    Points,
    // The points of a trace.
    Trace(Form),
    // An action.
    Act(Action),
}

// The entry of the first auxiliary output.
const AUXV: u8 = settings::AUXV_1 as u8;

// The first entry of the first display.
const DDEF: u8 = settings::DDEF_1J as u8;

// The entry of the first front output.
const FPOP: u8 = settings::FPOP_1 as u8;

// The first entry of the first offset and expand.
const OEXP: u8 = settings::OEXP_1X as u8;

// What a name stands for, by its four bytes as one number, the first byte highest; none is no command's name. A `match`
// is compiled to comparisons and constants; a constant array of names would be written to the stack at each call.
#[tactic(auto, unfolding(crate::specs::Parts::found_in))]
pub fn find(word: u32) -> Option<Meaning>
    ensures { result ≡ found_of word }
{
    let meaning = match word {
        0x2A434C53 => Meaning::Act(Action::Clear), // *CLS
        0x2A455345 => Meaning::Enable(Register::Standard), // *ESE
        0x2A455352 => Meaning::Status(Register::Standard), // *ESR
        0x2A49444E => Meaning::Identity, // *IDN
        0x2A525354 => Meaning::Act(Action::Reset), // *RST
        0x2A535245 => Meaning::Enable(Register::Service), // *SRE
        0x2A535442 => Meaning::Status(Register::Service), // *STB
        0x41555856 => Meaning::Channel {
            base: AUXV,
            channels: 4,
        }, // AUXV
        0x44444546 => Meaning::ChannelPair {
            base: DDEF,
            channels: 2,
        }, // DDEF
        0x45525245 => Meaning::Enable(Register::Errors), // ERRE
        0x45525253 => Meaning::Status(Register::Errors), // ERRS
        0x464D4F44 => Meaning::Setting(settings::FMOD), // FMOD
        0x46504F50 => Meaning::Channel {
            base: FPOP,
            channels: 2,
        }, // FPOP
        0x46524551 => Meaning::Setting(settings::FREQ), // FREQ
        0x4841524D => Meaning::Setting(settings::HARM), // HARM
        0x4943504C => Meaning::Setting(settings::ICPL), // ICPL
        0x49474E44 => Meaning::Setting(settings::IGND), // IGND
        0x494C494E => Meaning::Setting(settings::ILIN), // ILIN
        0x49535243 => Meaning::Setting(settings::ISRC), // ISRC
        0x4C494145 => Meaning::Enable(Register::Lia), // LIAE
        0x4C494153 => Meaning::Status(Register::Lia), // LIAS
        0x4F455850 => Meaning::ChannelPair {
            base: OEXP,
            channels: 3,
        }, // OEXP
        0x4F464C54 => Meaning::Setting(settings::OFLT), // OFLT
        0x4F46534C => Meaning::Setting(settings::OFSL), // OFSL
        0x50415553 => Meaning::Act(Action::Pause), // PAUS
        0x50484153 => Meaning::Setting(settings::PHAS), // PHAS
        0x52455354 => Meaning::Act(Action::Empty), // REST
        0x524D4F44 => Meaning::Setting(settings::RMOD), // RMOD
        0x52534C50 => Meaning::Setting(settings::RSLP), // RSLP
        0x53454E44 => Meaning::Setting(settings::SEND), // SEND
        0x53454E53 => Meaning::Setting(settings::SENS), // SENS
        0x534C564C => Meaning::Setting(settings::SLVL), // SLVL
        0x53505453 => Meaning::Points, // SPTS
        0x53524154 => Meaning::Setting(settings::SRAT), // SRAT
        0x53545254 => Meaning::Act(Action::Start), // STRT
        0x53594E43 => Meaning::Setting(settings::SYNC), // SYNC
        0x54524342 => Meaning::Trace(Form::Floats), // TRCB
        0x5452434C => Meaning::Trace(Form::Words), // TRCL
        0x54524947 => Meaning::Act(Action::Trigger), // TRIG
        0x54535452 => Meaning::Setting(settings::TSTR), // TSTR
        _ => return None,
    };
    Some(meaning)
}
