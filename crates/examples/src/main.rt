// Program examples: the controller's items of document 01's "Examples" as frames, through the same loop as bench. The file stdin has
// the frames, and stdout what document 01 answers to them.
#![tactic(auto)]

use console::Streams;

fn main(rt: HostRuntime) {
    console::serve_controller(Streams::standard(&rt));
}
