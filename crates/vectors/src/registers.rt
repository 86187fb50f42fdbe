// The registers of a machine, by the numbers that the table gives them.
use crate::rows::low_word;
use model::{Bay, Machine};

#[derive(Clone, Copy, Debug, PartialEq, Eq)]
pub enum Register {
    Supported,
    LargestMilliamps,
    SafeMilliamps,
    LargestMillivolts,
    SafeMillivolts,
    Low,
    Restart,
    Smb,
    PowerBy,
    Charge,
    UseNext,
    CurrentWord,
    CurrentAge,
    CurrentMark,
    VoltageWord,
    VoltageAge,
    VoltageMark,
    Hold,
    Inhibit,
    AcPresent,
    Notice,
    BayPresent,
    BayOk,
    BayLow,
    BayReading,
    WakeMilliamps,
    WakeMillivolts,
    WakeAge,
    WakeSpent,
}

// A number that no register has.
#[derive(Clone, Copy, Debug, PartialEq, Eq)]
pub struct NoSuchRegister(pub u32);

impl TryFrom<u32> for Register {
    type Error = NoSuchRegister;

    fn try_from(number: u32) -> Result<Self, NoSuchRegister> {
        Ok(match number {
            0 => Register::Supported,
            1 => Register::LargestMilliamps,
            2 => Register::SafeMilliamps,
            3 => Register::LargestMillivolts,
            4 => Register::SafeMillivolts,
            5 => Register::Low,
            6 => Register::Restart,
            7 => Register::Smb,
            8 => Register::PowerBy,
            9 => Register::Charge,
            10 => Register::UseNext,
            11 => Register::CurrentWord,
            12 => Register::CurrentAge,
            13 => Register::CurrentMark,
            14 => Register::VoltageWord,
            15 => Register::VoltageAge,
            16 => Register::VoltageMark,
            17 => Register::Hold,
            18 => Register::Inhibit,
            19 => Register::AcPresent,
            20 => Register::Notice,
            21 => Register::BayPresent,
            22 => Register::BayOk,
            23 => Register::BayLow,
            24 => Register::BayReading,
            25 => Register::WakeMilliamps,
            26 => Register::WakeMillivolts,
            27 => Register::WakeAge,
            28 => Register::WakeSpent,
            _ => return Err(NoSuchRegister(number)),
        })
    }
}

impl Register {
    // Whether each bay has one.
    pub(crate) fn is_of_bay(self) -> bool {
        matches!(
            self,
            Register::BayPresent | Register::BayOk | Register::BayLow | Register::BayReading
        )
    }
}

// Another value in a register, if there is that register; a bay's register is that of this bay.
#[derive(Clone, Copy, Debug, PartialEq, Eq)]
pub struct Change {
    pub register: Option<Register>,
    pub bay: usize,
    pub value: u32,
}

impl Change {
    // The machine with the other value.
    pub(crate) fn made_in(self, old: Machine) -> Machine {
        let mut machine = old;
        if let Some(register) = self.register {
            self.put(&mut machine, register);
        }
        machine
    }

    fn put(self, m: &mut Machine, register: Register) {
        let word = low_word(self.value);
        let is_set = self.value == 1;
        match register {
            Register::Supported => m.setup.supported = word,
            Register::LargestMilliamps => m.setup.current.largest = word,
            Register::SafeMilliamps => m.setup.current.safe = word,
            Register::LargestMillivolts => m.setup.voltage.largest = word,
            Register::SafeMillivolts => m.setup.voltage.safe = word,
            Register::Low => m.setup.low = word,
            Register::Restart => m.setup.restart = word,
            Register::Smb => m.selector.smb = word,
            Register::PowerBy => m.selector.power = word,
            Register::Charge => m.selector.charge = word,
            Register::UseNext => m.selector.next = word,
            Register::CurrentWord => m.charger.current.word = word,
            Register::CurrentAge => m.charger.current.age = word,
            Register::CurrentMark => m.charger.current.mark = is_set,
            Register::VoltageWord => m.charger.voltage.word = word,
            Register::VoltageAge => m.charger.voltage.age = word,
            Register::VoltageMark => m.charger.voltage.mark = is_set,
            Register::Hold => m.charger.hold = is_set,
            Register::Inhibit => m.charger.inhibit = is_set,
            Register::AcPresent => m.ac = is_set,
            Register::Notice => m.notice = is_set,
            Register::BayPresent => self.in_bay(m, |bay| bay.present = is_set),
            Register::BayOk => self.in_bay(m, |bay| bay.ok = is_set),
            Register::BayLow => self.in_bay(m, |bay| bay.low = is_set),
            Register::BayReading => self.in_bay(m, |bay| bay.reading = Some(self.value)),
            Register::WakeMilliamps => m.setup.wake.milliamps = word,
            Register::WakeMillivolts => m.setup.wake.millivolts = word,
            Register::WakeAge => m.charger.wake.age = word,
            Register::WakeSpent => m.charger.wake.spent = is_set,
        }
    }

    // Changes its bay, if there is one with this number.
    fn in_bay<F: FnOnce(&mut Bay)>(self, machine: &mut Machine, change: F)
        requires { F.IsAlwaysCallable change }
    {
        if let Some(bay) = machine.bays.get_mut(self.bay) {
            change(bay);
        }
    }
}
