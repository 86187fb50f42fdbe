// The face of the library, for firmware. `power_on` makes a machine of a setup, `step` takes one event, `charge` says what
// the board has to do. Nothing has to be vetted first: every value gets an answer, and a refusal changes nothing.
#![tactic(auto)]

ghost use Rattle.std.specs.Prelude.{◌≡◌};
ghost use Rattle.model.specs.Machines.{program_setup, power_on};
ghost use Rattle.model.specs.Step.{told, step_spec, power_on_spec};
ghost use Rattle.shelf.specs.Outputs.{shown, charge_spec};

use model::{
    Answer, Charger, Event, Limit, Machine, Output, Refusal, Request, Selector, Setup, Stepped,
    Wake,
};

// What the board has to drive: the charge output and the notice.
#[derive(Clone, Copy, Debug, PartialEq, Eq)]
pub struct Drive {
    pub milliamps: u16,
    pub millivolts: u16,
    pub notice: bool,
}

// The machine at power-on. A setup out of its ranges is refused with 1, beside the machine of the program's setup.
#[inline(always)]
#[tactic(auto, unfolding(model::specs::Step::told, model::specs::Step::power_on_spec))]
pub fn power_on(setup: Setup) -> Stepped
    ensures { told result ≡ power_on_spec setup }
{
    if machine::is_good_setup(setup) {
        Stepped {
            answer: Answer::Done,
            machine: power_on_of(setup),
        }
    } else {
        actions::refuse(power_on_of(program_setup()), Refusal::BadSetup)
    }
}

// One event: the answer, and the machine after it. Refused with 15, 2, 3, 4, 5, 6, 7, 8 or 9, in that order, the machine is
// handed back as it stood.
#[inline(always)]
#[tactic(auto, unfolding(model::specs::Step::told), using(crate::proofs::Steps::of_bad, actions::proofs::Ends::of_good))]
pub fn step(machine: Machine, event: Event) -> Stepped
    ensures { told result ≡ step_spec machine event }
{
    if machine::is_bad(machine) {
        actions::refuse(machine, Refusal::BadMachine)
    } else {
        actions::finish(actions::perform(machine, actions::decide(machine, event)))
    }
}

// What the board needs after each step; 15 for a machine that breaks a bound.
#[inline(always)]
#[tactic(auto, unfolding(crate::specs::Outputs::charge_spec))]
pub fn charge(machine: Machine) -> Result<Drive, Refusal>
    ensures { shown result ≡ charge_spec machine }
{
    if machine::is_bad(machine) {
        Err(Refusal::BadMachine)
    } else {
        let Output {
            milliamps,
            millivolts,
        } = charger::output_of(machine);
        Ok(Drive {
            milliamps,
            millivolts,
            notice: machine.notice,
        })
    }
}

// AC absent, all bays empty, no request, no nibble, no notice, not inhibited.
#[inline(always)]
#[tactic(auto, unfolding(model::specs::Machines::power_on))]
fn power_on_of(setup: Setup) -> Machine
    ensures { result ≡ power_on setup }
{
    let none = Request {
        word: 0,
        age: 0,
        mark: false,
    };
    let wake = Wake {
        age: 0,
        spent: false,
    };
    let charger = Charger {
        current: none,
        voltage: none,
        hold: false,
        inhibit: false,
        wake,
    };
    let selector = Selector {
        smb: 0,
        power: 0,
        charge: 0,
        next: 0,
    };
    Machine {
        setup,
        bays: [machine::empty_bay(); 4],
        charger,
        selector,
        ac: false,
        notice: false,
    }
}

// The setup of the program, to which a refused one falls back.
#[inline(always)]
pub fn program_setup() -> Setup
    ensures { result ≡ program_setup }
{
    let current = Limit {
        largest: 3000,
        safe: 2000,
    };
    let voltage = Limit {
        largest: 18000,
        safe: 16800,
    };
    let wake = Output {
        milliamps: 0,
        millivolts: 16800,
    };
    Setup {
        supported: 3,
        current,
        voltage,
        low: 9000,
        restart: 10500,
        wake,
    }
}
