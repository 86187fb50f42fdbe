// Prints the listing of the log on standard input, under the program's setup.
#![tactic(auto)]

fn main(rt: HostRuntime) {
    let setup = shelf::program_setup();
    stream::replay(setup, &mut rt.stdin(), &mut rt.stdout(), &mut rt.stderr());
}
