// Writes the text of the log on standard input: a line for each record, which log_from_text reads back.
#![tactic(auto)]

fn main(rt: HostRuntime) {
    scribe::transcribe(
        &mut rt.stdin(),
        &mut rt.stdout(),
        &mut rt.stderr(),
        &mut rt.stderr(),
    );
}
