// Writes the log of the text on standard input, up to the first line that is wrong.
#![tactic(auto)]

fn main(rt: HostRuntime) {
    scribe::record(
        &mut rt.stdin(),
        &mut rt.stdout(),
        &mut rt.stderr(),
        &mut rt.stderr(),
    );
}
