// What a chunk of input gets: each of its lines is answered, and the answers are written.
//
// What a write did is a count of bytes, no more: so `answer_all` promises how many bytes of text the output took, and `Desk::fill`
// which they are.
#![tactic(auto)]

ghost use Rattle.std.specs.Prelude.{[], ◌≤◌, length};
ghost use Rattle.lines.specs.Talk.{talk};
ghost use Rattle.programs.specs.Programs.{longest};
ghost use Rattle.answering.specs.Machines.{answer_to, most_text};
ghost use Rattle.saying.specs.Served.{Served};

use answering::Machine;
use session::Desk;
use std::io::{Print, Stderr, Stdin, Stdout};
use text::Text;

// The standard streams of a program.
#[derive(Clone, Copy)]
pub struct Streams {
    pub input: Stdin,
    pub output: Stdout,
    pub errors: Stderr,
}

impl Streams {
    // Those of a program that was given this.
    pub fn standard(rt: &HostRuntime) -> Self {
        Streams {
            input: rt.stdin(),
            output: rt.stdout(),
            errors: rt.stderr(),
        }
    }
}

// A program that speaks for a machine.
#[derive(Clone, Copy)]
pub struct Program {
    pub machine: Machine,
    pub streams: Streams,
}

// Writes all of a text, and answers whether it was taken: it stops at the first write that takes nothing, fails or is interrupted.
// std's method of this name goes on after an interruption.
pub fn write_all(to: &impl Print, text: &[u8]) -> bool {
    let mut done = 0;
    while done < text.len() {
        match to.write_some(&text[done..]) {
            Ok(n) if n > 0 => done += n,
            _ => return false,
        }
    }
    true
}

// Writes a text, and answers how many of its bytes the output took: all, or else there is a message.
fn say(streams: Streams, text: &[u8]) -> usize
    ensures { result ≤ length text.now }
{
    if write_all(&streams.output, text) {
        return text.len();
    }
    write_all(&streams.errors, b"standard output cannot be written\n");
    0
}

// Answers the lines of a chunk, and writes the answers: whenever the text is full, and at the end. Answers how many bytes of text the
// output took, as an error where that was not all of it.
pub fn answer_all<const N: usize>(
    program: Program,
    chunk: &[u8],
    desk: &mut Desk,
    state: &mut [u8],
    text: &mut Text<N>,
) -> Result<usize, usize>
    requires { (length chunk.now ≤ 65536) × (most_text ≤ N) × (N ≤ 65536) }
    ensures { Served (talk longest (answer_to program.machine) [] desk.old.line state.old chunk.now) desk.new.line state.new result }
{
    // from one full text to the next: by no count
    let mut at = 0;
    let mut said = 0;
    while at < chunk.len() {
        at = desk.fill(program.machine, chunk, at, state, text);
        let due = text.as_bytes();
        let took = say(program.streams, due);
        said += took;
        if took < due.len() {
            return Err(said);
        }
    }
    Ok(said)
}
