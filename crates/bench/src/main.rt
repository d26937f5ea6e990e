// Program bench: frames as lines of hexadecimal from standard input, and what the controller says to each on standard output.
// The main of program reader differs from this one in usage and machine alone: they share `console`.
#![tactic(auto)]

use console::Streams;

fn main(rt: HostRuntime) {
    let streams = Streams::standard(&rt);
    if console::explained(
        &rt,
        streams,
        b"usage: bench <FRAMES\nbench takes no arguments: it reads frames from standard input, a line each in hexadecimal.\n",
    ) {
        return;
    }
    console::serve_controller(streams);
}
