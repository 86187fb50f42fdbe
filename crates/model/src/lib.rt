// The types that every other crate speaks of: a setup, a machine, its events and its answers.
#![tactic(auto)]

ghost use Rattle.std.specs.Prelude.{◌≡◌};

pub mod promises;

// The largest value of a request, and the value that a request of 65535 gives.
#[derive(Clone, Copy, Debug, PartialEq, Eq)]
pub struct Limit {
    pub largest: u16,
    pub safe: u16,
}

// What is fixed when the shelf is built: the supported bays as a nibble, the two limits in mA and mV, the terminal voltages in mV
// that set and clear a bay's low mark, and the wake pair, which is supplied to a pack that has not asked yet; 0 mA switches it off.
#[derive(Clone, Copy, Debug, PartialEq, Eq)]
pub struct Setup {
    pub supported: u16,
    pub current: Limit,
    pub voltage: Limit,
    pub low: u16,
    pub restart: u16,
    pub wake: Output,
}

// What the analogue board makes of a safety signal: under range and hot, hot, plain, cold, over range and cold.
#[derive(Clone, Copy, Debug, PartialEq, Eq)]
pub enum Class {
    Under,
    Hot,
    Plain,
    Cold,
    Over,
}

// An edge of the safety signal's ranges, in ohms, and the class of the readings below it that reach the edge before.
#[derive(Clone, Copy, Debug, PartialEq, Eq)]
pub struct Edge(pub u32, pub Class);

// A bay: whether it holds a pack, and of that pack its OK mark, its low mark, and the reading of its safety signal in ohms, none while
// the signal has not been read since the pack was put in.
#[derive(Clone, Copy, Debug, PartialEq, Eq)]
pub struct Bay {
    pub present: bool,
    pub ok: bool,
    pub low: bool,
    pub reading: Option<u32>,
}

// A request for current or voltage: the word, its age in ticks, and its rewrite mark.
#[derive(Clone, Copy, Debug, PartialEq, Eq)]
pub struct Request {
    pub word: u16,
    pub age: u16,
    pub mark: bool,
}

// Wake-up: its age in ticks, from the later of the latest fresh start and the latest AC arrival; and whether it is spent, by a current
// word, a voltage word or a zeroing of both requests since the latest fresh start.
#[derive(Clone, Copy, Debug, PartialEq, Eq)]
pub struct Wake {
    pub age: u16,
    pub spent: bool,
}

#[derive(Clone, Copy, Debug, PartialEq, Eq)]
pub struct Charger {
    pub current: Request,
    pub voltage: Request,
    pub wake: Wake,
    pub hold: bool,
    pub inhibit: bool,
}

// The four nibbles SMB, POWER_BY, CHARGE and USE_NEXT: each 0 or the bit of one bay.
#[derive(Clone, Copy, Debug, PartialEq, Eq)]
pub struct Selector {
    pub smb: u16,
    pub power: u16,
    pub charge: u16,
    pub next: u16,
}

// A shelf at one moment. The order is one that costs few instructions, in a step and in a listing.
#[derive(Clone, Copy, Debug, PartialEq, Eq)]
pub struct Machine {
    pub setup: Setup,
    pub selector: Selector,
    pub charger: Charger,
    pub ac: bool,
    pub notice: bool,
    pub bays: [Bay; 4],
}

#[derive(Clone, Copy, Debug, PartialEq, Eq)]
pub enum Event {
    HostWrite { address: u8, code: u8, word: u16 },
    HostRead { address: u8, code: u8 },
    BayWord { bay: u8, code: u8, word: u16 },
    Insertion { bay: u8 },
    Removal { bay: u8 },
    Signal { bay: u8, ohms: u32 },
    Terminal { bay: u8, millivolts: u16 },
    Ac { present: bool },
    Tick,
}

// Why something is refused, in the order of the paper's numbers 1 to 15.
#[derive(Clone, Copy, Debug, PartialEq, Eq)]
pub enum Refusal {
    BadSetup,
    UnsupportedBay,
    NoSuchWord,
    NotChargingBay,
    BadNibble,
    SmbElsewhere,
    NotUsable,
    SameBay,
    WrongPresence,
    RecordCutOff,
    BadLength,
    UnknownKind,
    BadAcByte,
    NoRoom,
    BadMachine,
}

// Done, a word that was read, or a refusal.
#[derive(Clone, Copy, Debug, PartialEq, Eq)]
pub enum Answer {
    Done,
    Word(u16),
    Refused(Refusal),
}

// An answer beside the machine after it.
#[derive(Clone, Copy, Debug, PartialEq, Eq)]
pub struct Stepped {
    pub answer: Answer,
    pub machine: Machine,
}

// What the charger supplies: both values, or 0 and 0.
#[derive(Clone, Copy, Debug, PartialEq, Eq)]
pub struct Output {
    pub milliamps: u16,
    pub millivolts: u16,
}

// The paper's number of a refusal.
impl From<Refusal> for u8 {
    ghost use Rattle.model.specs.Numbers.{number_of};

    ghost from_gives = { λ refusal n. n ≡ number_of refusal };

    fn from(refusal: Refusal) -> u8 {
        match refusal {
            Refusal::BadSetup => 1,
            Refusal::UnsupportedBay => 2,
            Refusal::NoSuchWord => 3,
            Refusal::NotChargingBay => 4,
            Refusal::BadNibble => 5,
            Refusal::SmbElsewhere => 6,
            Refusal::NotUsable => 7,
            Refusal::SameBay => 8,
            Refusal::WrongPresence => 9,
            Refusal::RecordCutOff => 10,
            Refusal::BadLength => 11,
            Refusal::UnknownKind => 12,
            Refusal::BadAcByte => 13,
            Refusal::NoRoom => 14,
            Refusal::BadMachine => 15,
        }
    }
}
