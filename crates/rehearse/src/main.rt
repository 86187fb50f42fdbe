// Prints the listings of the logs that lie beside it, each behind its name: the paper's, short examples, one log at least for each way in
// which a log can end, one under a setup that is refused, and a folder, which cannot be read and so has no end line. Its buffers are
// small, so that each log is read in many pieces and written in many.
#![tactic(auto)]

use model::Setup;
use std::fs::File;
use window::{say, say_failed};

fn main(rt: HostRuntime) {
    let setup = shelf::program_setup();
    show(rt, "paper.log", setup);
    show(rt, "swap.log", setup);
    show(rt, "ac_lost.log", setup);
    show(rt, "refusals.log", setup);
    show(rt, "fixed_resistor.log", setup);
    show(rt, "empty.log", setup);
    show(rt, "one_byte.log", setup);
    show(rt, "cut_off.log", setup);
    show(rt, "bad_length.log", setup);
    show(rt, "other_length.log", setup);
    show(rt, "unknown_kind.log", setup);
    show(rt, "bad_ac_byte.log", setup);
    show(rt, "swap.log", without_bays(setup));
    show(rt, ".", setup);
}

fn show(rt: HostRuntime, name: &str, setup: Setup) {
    let mut listing = rt.stdout();
    let mut errors = rt.stderr();
    say(&mut listing, name.as_bytes());
    say(&mut listing, b"\n");
    let mut log = match File::open(&rt, name) {
        Ok(log) => log,
        Err(why) => {
            say_failed(&mut errors, name.as_bytes(), why);
            return;
        }
    };
    let mut window = [0u8; 16];
    let mut out = [0u8; 64];
    stream::replay_in(
        setup,
        &mut log,
        &mut listing,
        &mut errors,
        &mut window,
        &mut out,
    );
}

// A setup that is refused.
fn without_bays(s: Setup) -> Setup {
    Setup { supported: 0, ..s }
}
