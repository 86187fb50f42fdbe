// Prints the listing of the log on standard input, under a setup that nine arguments give: the supported bays as a nibble, largest and
// safe mA, largest and safe mV, low and restart level in mV, wake current in mA and wake voltage in mV.
#![tactic(auto)]

use figures::{figure_in, no_figure};
use model::{Limit, Output, Setup};
use std::env::FillError;
use std::rt::Env;
use window::say;

// A place of the setup: how messages name it, and the word that stands for a number above 65535. Each place refuses
// that word as it would the number: 0, but 65535 for the wake current, which may be 0.
#[derive(Clone, Copy, Debug, PartialEq, Eq)]
struct Place {
    name: &'static [u8],
    beyond: u16,
}

// The places, in the order of the arguments.
const PLACES: [Place; 9] = [
    Place {
        name: b"bays",
        beyond: 0,
    },
    Place {
        name: b"largest mA",
        beyond: 0,
    },
    Place {
        name: b"safe mA",
        beyond: 0,
    },
    Place {
        name: b"largest mV",
        beyond: 0,
    },
    Place {
        name: b"safe mV",
        beyond: 0,
    },
    Place {
        name: b"low mV",
        beyond: 0,
    },
    Place {
        name: b"restart mV",
        beyond: 0,
    },
    Place {
        name: b"wake mA",
        beyond: 65535,
    },
    Place {
        name: b"wake mV",
        beyond: 0,
    },
];

fn main(rt: HostRuntime) {
    let Some(setup) = setup_given(rt) else {
        say_usage(rt);
        return;
    };
    stream::replay(setup, &mut rt.stdin(), &mut rt.stdout(), &mut rt.stderr());
}

// The setup that the arguments give. What is wrong is said of each of them.
fn setup_given(rt: HostRuntime) -> Option<Setup> {
    let [
        bays,
        largest_ma,
        safe_ma,
        largest_mv,
        safe_mv,
        low,
        restart,
        wake_ma,
        wake_mv,
    ]: [Option<u16>; 9] = std::array::from_fn(|i| argument(rt, i + 1, &PLACES[i]));
    if !are_nine(rt) {
        return None;
    }
    Some(Setup {
        supported: bays?,
        current: Limit {
            largest: largest_ma?,
            safe: safe_ma?,
        },
        voltage: Limit {
            largest: largest_mv?,
            safe: safe_mv?,
        },
        low: low?,
        restart: restart?,
        wake: Output {
            milliamps: wake_ma?,
            millivolts: wake_mv?,
        },
    })
}

// An argument as a number; what is wrong with it is said. The buffer is of a fixed size: no heap can run out.
fn argument(rt: HostRuntime, i: usize, place: &Place) -> Option<u16> {
    let mut text = [0u8; 4096];
    let wrong: &[u8] = match rt.arg(i, &mut text) {
        Err(FillError::NotPresent) => b" is missing\n",
        Err(FillError::TooLong) => b" is too long\n",
        Ok(0) => b" is empty\n",
        Ok(n) => match figure_in(&text[..n], place.beyond) {
            Some(word) => return Some(word),
            None => b" is no decimal number\n",
        },
    };
    complain(rt, place.name, wrong);
    no_figure()
}

fn complain(rt: HostRuntime, name: &[u8], what: &[u8]) {
    let mut errors = rt.stderr();
    say(&mut errors, b"replay_with: ");
    say(&mut errors, name);
    say(&mut errors, what);
}

// No argument follows the ninth.
fn are_nine(rt: HostRuntime) -> bool {
    let mut text = [0u8; 1];
    let none_follows = matches!(rt.arg(10, &mut text), Err(FillError::NotPresent));
    if !none_follows {
        say(&mut rt.stderr(), b"replay_with: more than nine arguments\n");
    }
    none_follows
}

fn say_usage(rt: HostRuntime) {
    say(
        &mut rt.stderr(),
        b"usage: replay_with BAYS LARGEST_MA SAFE_MA LARGEST_MV SAFE_MV LOW_MV RESTART_MV WAKE_MA WAKE_MV < LOG\n",
    );
}
