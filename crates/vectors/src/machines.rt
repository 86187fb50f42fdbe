// The rows that a machine answers.
use crate::registers::Change;
use crate::told::{Driven, Told, kept};
use model::{Event, Machine, Setup, Stepped};
use std::io::{self, Write};

// Power-on: the answer, and whether the machine is the one of the program's setup.
pub(crate) fn start<W: Write>(out: &mut W, setup: Setup) -> io::Result<Machine> {
    let Stepped { answer, machine } = shelf::power_on(setup);
    let program = shelf::power_on(shelf::program_setup()).machine;
    write!(out, "{} |{}", Told(answer), kept(program == machine))?;
    Ok(machine)
}

// What an event is answered, the last time if it comes several times; what the board has to drive then; and whether the
// machine is as it was.
pub(crate) fn step<W: Write>(
    out: &mut W,
    before: Machine,
    event: Event,
    times: u32,
) -> io::Result<Machine> {
    let Stepped { answer, machine } = last_step(before, event, times);
    let drive = shelf::charge(machine);
    write!(
        out,
        "{} |{} |{}",
        Told(answer),
        Driven(drive),
        kept(before == machine)
    )?;
    Ok(machine)
}

// Whether another value changes the machine that is handed in; what the event is answered then.
pub(crate) fn hand_in<W: Write>(
    out: &mut W,
    machine: Machine,
    change: Change,
    event: Event,
) -> io::Result<()> {
    let other = change.made_in(machine);
    write!(out, "{} |", kept(machine == other))?;
    step(out, other, event, 1)?;
    Ok(())
}

// The last of several steps with one event, at least one.
fn last_step(start: Machine, event: Event, times: u32) -> Stepped {
    let mut machine = start;
    for _ in 1..times {
        machine = shelf::step(machine, event).machine;
    }
    shelf::step(machine, event)
}
