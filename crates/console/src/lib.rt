// Programs bench and reader: a fresh machine, and the loop that serves standard input to its end.
#![tactic(auto)]

ghost use Rattle.std.specs.Prelude.{◌≡◌};
ghost use Rattle.answering.specs.Machines.{begun};

use answering::Machine;
use saying::Program;
pub use saying::Streams;
use session::Desk;
use std::env::{Env, FillError};
use text::Text;

// The programs take no arguments: to any, says how a program is used on standard error, and answers true, so that nobody waits for
// a program that waits for standard input.
pub fn explained(arguments: &impl Env, streams: Streams, usage: &[u8]) -> bool {
    let mut first = [0u8; 1];
    if let Err(FillError::NotPresent) = arguments.arg(1, &mut first) {
        return false;
    }
    saying::write_all(&streams.errors, usage);
    true
}

// Serves standard input to its end, from a state that was started.
fn serve(program: Program, state: &mut [u8])
    requires { state.old ≡ begun program.machine }
{
    let mut chunk = [0u8; 65536];
    let mut desk = Desk::new();
    let mut text = Text::<65536>::new();
    dialogue::run(program, &mut chunk, &mut desk, state, &mut text);
}

// Program bench: serves from a fresh controller.
pub fn serve_controller(streams: Streams) {
    let mut state = [0u8; 8715];
    // no refusal, since that many bytes are enough
    let _ = controller::start(&mut state);
    let machine = Machine::Controller;
    serve(Program { machine, streams }, &mut state);
}

// Program reader: serves from a fresh reader. Length, start and machine are all that these two are made of: there is nothing to share.
pub fn serve_reader(streams: Streams) {
    let mut state = [0u8; 9962];
    // no refusal, since that many bytes are enough
    let _ = shelving::start(&mut state);
    let machine = Machine::Reader;
    serve(Program { machine, streams }, &mut state);
}
