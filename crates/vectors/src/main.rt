// Reads a table of cases and prints each row with its outcome: what is run and not proved, each refusal, and where
// slips are easy. The table is the file stdin beside this folder, what it has to come to the file stdout.
#![tactic(auto)]

mod log;
mod machines;
mod registers;
mod rows;
mod told;

use model::Machine;
use rows::Case;
use std::io::{self, Write};
use told::Unheard;
use window::{read_full, say};

// A table is shorter, in bytes.
const SIZE: usize = 65536;

fn main(rt: HostRuntime) {
    let mut table = [0u8; SIZE];
    let length = read_full(&mut rt.stdin(), &mut table);
    if length < SIZE {
        // Of what is told no failure is heard.
        let _ = tell_all(&mut Unheard(rt.stdout()), &table[..length]);
    } else {
        say(&mut rt.stderr(), b"the table is longer than 65535 bytes\n");
    }
}

// Each row, at the machine that the rows before it left.
fn tell_all<W: Write>(out: &mut W, table: &[u8]) -> io::Result<()> {
    let mut machine = shelf::power_on(shelf::program_setup()).machine;
    for line in table.split_inclusive(|b| *b == b'\n') {
        let row = line.strip_suffix(b"\n").unwrap_or(line);
        machine = tell(out, machine, row)?;
    }
    Ok(())
}

// A row as it stands, and behind it what it comes to; the machine after it. An empty row and one that begins with # are
// for people.
fn tell<W: Write>(out: &mut W, machine: Machine, row: &[u8]) -> io::Result<Machine> {
    out.write_all(row)?;
    let mut after = machine;
    if !matches!(row.first(), None | Some(b'#')) {
        write!(out, " |")?;
        match Case::of_row(row) {
            Some(case) => after = tell_case(out, machine, case)?,
            None => write!(out, " no such row")?,
        }
    }
    writeln!(out)?;
    Ok(after)
}

// What a row comes to, and the machine after it. A machine that is handed in with another value in a register meets the
// event that the row ends with; the story goes on without it.
fn tell_case<W: Write>(out: &mut W, machine: Machine, case: Case) -> io::Result<Machine> {
    match case {
        Case::Start(setup) => return machines::start(out, setup),
        Case::Step { event, times } => return machines::step(out, machine, event, times),
        Case::Handed { change, event } => machines::hand_in(out, machine, change, event)?,
        Case::Read { bytes, count } => log::read(out, bytes.get(..count).unwrap_or(&bytes))?,
        Case::Write { size, place, event } => log::write(out, size, place, event)?,
    }
    Ok(machine)
}
