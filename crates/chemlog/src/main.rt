// Writes the log of a run: a kind digit and the file from standard input, the log to standard output.
#![tactic(auto)]

// Kept: (a) a program for each reading (docs/changes/05.md), and a main of its own: only a main takes the streams of the system.
fn main(rt: HostRuntime) {
    logger::run(
        streams::Mode::Plain,
        &mut rt.stdin(),
        &mut rt.stdout(),
        &mut rt.stderr(),
    );
}
