// The library without its listing, to measure it: goes so many times through the first 65536 bytes of the log on standard input, with
// one machine. `rounds read COUNT` only reads the records, `rounds step COUNT` also steps the machine. Prints one line: the records of
// all rounds, the sum of the answers or of the bytes read as four hex digits, and what the board has to drive at the end.
#![tactic(auto)]

use figures::figure_in;
use layout::Record;
use model::{Answer, Machine, Stepped};
use std::rt::Env;
use window::{read_full, say};

// What the rounds came to: the machine, how many records, and the sum.
#[derive(Clone, Copy, Debug, PartialEq, Eq)]
struct Total {
    pub machine: Machine,
    pub records: u64,
    pub sum: u16,
}

fn main(rt: HostRuntime) {
    // The first letter of the mode tells it.
    let mut mode = [0u8; 4096];
    let _ = rt.arg(1, &mut mode);
    let letter = mode[0];
    let is_stepping = letter == b's';
    let count = match count_given(rt) {
        Some(count) if is_stepping | (letter == b'r') => count,
        _ => {
            say(&mut rt.stderr(), b"usage: rounds read|step COUNT < LOG\n");
            return;
        }
    };
    let mut log = [0u8; 65536];
    let size = read_full(&mut rt.stdin(), &mut log);
    print(rt, all_rounds(&log[0..size], count, is_stepping));
}

// So many rounds, from power-on. Whether the machine is stepped is a truth value, asked at each record: handed in as a
// closure the step would be set in at another place than it was measured at so far.
#[inline(always)]
fn all_rounds(log: &[u8], count: u16, is_stepping: bool) -> Total {
    let Stepped { machine, .. } = shelf::power_on(shelf::program_setup());
    let mut total = Total {
        machine,
        records: 0,
        sum: 0,
    };
    for _ in 0..count {
        total = go_round(total, log, is_stepping);
    }
    total
}

// The second argument.
#[inline(always)]
fn count_given(rt: HostRuntime) -> Option<u16> {
    let mut text = [0u8; 4096];
    let n = rt.arg(2, &mut text).unwrap_or(0);
    figure_in(&text[..n], 0)
}

// One round: up to the first bad record or the end.
#[inline(always)]
fn go_round(total: Total, log: &[u8], is_stepping: bool) -> Total {
    let Total {
        mut machine,
        mut records,
        mut sum,
    } = total;
    let mut rest = log;
    // Whether a byte is left is asked first: with `while let` alone a record costs up to a twentieth more.
    while !rest.is_empty() {
        let Ok(Record { event, taken }) = reader::read(rest) else {
            break;
        };
        if is_stepping {
            let stepped = shelf::step(machine, event);
            machine = stepped.machine;
            sum = sum.wrapping_add(value_of(stepped.answer));
        } else {
            sum = sum.wrapping_add(taken as u16);
        }
        records = records.wrapping_add(1);
        rest = &rest[taken..];
    }
    Total {
        machine,
        records,
        sum,
    }
}

// An answer as a number: 0, the word, or the refusal's.
#[inline(always)]
fn value_of(answer: Answer) -> u16 {
    match answer {
        Answer::Done => 0,
        Answer::Word(word) => word,
        Answer::Refused(why) => u8::from(why) as u16,
    }
}

// The line.
#[inline(always)]
fn print(rt: HostRuntime, total: Total) {
    let mut out = [0u8; 4096];
    let machine = total.machine;
    let put = lines::line(
        &mut out,
        0,
        total.records,
        Answer::Word(total.sum),
        charger::output_of(machine),
        machine.notice,
    );
    let Ok(end) = put else {
        return;
    };
    if end <= 4096 {
        say(&mut rt.stdout(), &out[0..end]);
    }
}
