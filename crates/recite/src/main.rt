// Runs the texts and logs that lie beside it through the smallest buffers, so that each is read in many pieces and written in many. Of a
// text it shows the log that is made, as text again, and what is said of a line that is wrong; of a log its text, and what is said of a
// bad record. A folder, which cannot be read, makes an empty log, and has no text.
#![tactic(auto)]

use std::fs::File;
use window::{say, say_failed};

// The log that is made of a text.
const MADE: &str = "made.log";

fn main(rt: HostRuntime) {
    of_text(rt, "paper.txt");
    of_text(rt, "spellings.txt");
    of_text(rt, "empty.txt");
    of_text(rt, "wrong_event.txt");
    of_text(rt, "wrong_second_word.txt");
    of_text(rt, "wrong_bay.txt");
    of_text(rt, "wrong_address.txt");
    of_text(rt, "wrong_code.txt");
    of_text(rt, "wrong_word.txt");
    of_text(rt, "wrong_ohms.txt");
    of_text(rt, "wrong_millivolts.txt");
    of_text(rt, "wrong_ac.txt");
    of_text(rt, "wrong_ticks.txt");
    of_text(rt, "wrong_end.txt");
    of_text(rt, "wrong_length.txt");
    of_text(rt, ".");
    of_log(rt, "paper.log");
    of_log(rt, "empty.log");
    of_log(rt, "cut_off.log");
    of_log(rt, "bad_length.log");
    of_log(rt, "unknown_kind.log");
    of_log(rt, "bad_ac_byte.log");
    of_log(rt, ".");
}

// Makes the log of a text, and shows it.
fn of_text(rt: HostRuntime, name: &str) {
    let mut errors = rt.stderr();
    let mut text = match File::open(&rt, name) {
        Ok(text) => text,
        Err(why) => {
            say_failed(&mut errors, name.as_bytes(), why);
            return;
        }
    };
    let mut log = match File::create(&rt, MADE) {
        Ok(log) => log,
        Err(why) => {
            say_failed(&mut errors, name.as_bytes(), why);
            return;
        }
    };
    show(rt, name);
    let mut window = [0u8; 1025];
    let mut out = [0u8; 165];
    scribe::record_in(
        &mut text,
        &mut log,
        &mut rt.stdout(),
        &mut errors,
        &mut window,
        &mut out,
    );
    drop(text);
    drop(log);
    of_log(rt, MADE);
}

// Shows the text of a log.
fn of_log(rt: HostRuntime, name: &str) {
    let mut errors = rt.stderr();
    let mut log = match File::open(&rt, name) {
        Ok(log) => log,
        Err(why) => {
            say_failed(&mut errors, name.as_bytes(), why);
            return;
        }
    };
    show(rt, name);
    let mut window = [0u8; 9];
    let mut out = [0u8; 88];
    scribe::transcribe_in(
        &mut log,
        &mut rt.stdout(),
        &mut rt.stdout(),
        &mut errors,
        &mut window,
        &mut out,
    );
}

// The name of a file, in front of what comes of it.
fn show(rt: HostRuntime, name: &str) {
    let mut out = rt.stdout();
    say(&mut out, b"== ");
    say(&mut out, name.as_bytes());
    say(&mut out, b"\n");
}
