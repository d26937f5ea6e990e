// The library of programs bench and reader, without a stream: chunks of input go in, and what the answers say is written into a text
// that the caller owns. One loop serves both.
#![tactic(auto)]

ghost use Rattle.std.specs.Prelude.{◌≡◌, ◌+◌, ◌≤◌, ◌<◌, [], length};
ghost use Rattle.lines.specs.Lines.{kept};
ghost use Rattle.answering.specs.Machines.{most_text};
ghost use Rattle.session.specs.Turns.{GoesOn, Within};

use answering::Machine;
use hexline::OpenLine;
use straight::Ended;
use text::Text;

// How many bytes of text the longest answer has.
const MOST_TEXT: usize = 1556;

// What a program works with, beside the state of its machine and the text of the answers: the line that is still open, room for the
// frame of a line, and room for what the machine puts out. The text is a struct of its own: within this one, a byte of text might
// change that room for all that the compiler knows, and reader took twice as many instructions.
#[derive(Drop)]
pub struct Desk {
    pub line: OpenLine<1028>,
    frame: [u8; 514],
    output: [u8; 776],
}

impl Desk {
    // With no line open.
    pub fn new() -> Self
        ensures { result.line ≡ kept [] }
    {
        Desk {
            line: OpenLine::new(),
            frame: [0; 514],
            output: [0; 776],
        }
    }

    // Goes on to the next LF, or to the chunk's end, and answers a line that ended: answers the place in the chunk where it stopped.
    fn one<const N: usize>(
        &mut self,
        machine: Machine,
        chunk: &[u8],
        from: usize,
        state: &mut [u8],
        text: &mut Text<N>,
    ) -> usize
        requires { (from ≤ length chunk.now) × (length text.old + most_text ≤ N) }
        ensures within { Within from (length chunk.now) result }
        ensures goes_on { GoesOn machine from result chunk.now text.old self.old.line state.old text.new self.new.line state.new }
    {
        let found = straight::next(chunk, from, &mut self.line, &mut self.frame);
        let Some(Ended { at, size }) = found else {
            return chunk.len();
        };
        answering::answer(machine, &self.frame[..size], &mut self.output, state, text);
        at
    }

    // Answers lines until the chunk ends or the text has no room for one more answer: answers the place in the chunk where it stopped.
    // What is still to come from there, behind the text, is what was to come where it began.
    pub fn fill<const N: usize>(
        &mut self,
        machine: Machine,
        chunk: &[u8],
        from: usize,
        state: &mut [u8],
        text: &mut Text<N>,
    ) -> usize
        requires { (from ≤ length chunk.now) × (most_text ≤ N) }
        ensures within { Within from (length chunk.now) result }
        ensures goes_on { GoesOn machine from result chunk.now [] self.old.line state.old text.new self.new.line state.new }
    {
        text.clear();
        // from line to line: by no count
        let mut at = from;
        while at < chunk.len() && text.room() >= MOST_TEXT {
            at = self.one(machine, chunk, at, state, text);
        }
        at
    }
}
