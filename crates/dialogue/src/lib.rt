// The loop of a program that speaks with a machine, the controller or the reader: what a read brings is answered, and the answers
// are written, before the next read, so that whoever types a line, or sends one through a pipe, has its answer.
//
// What a read brings is taken as any bytes.
#![tactic(auto)]

ghost use Rattle.std.specs.Prelude.{◌≡◌, ◌&&◌, ◌≤◌, true, is_ok, List, ℕ, length};
ghost use Rattle.answering.specs.Machines.{begun, most_text};
ghost use Rattle.incoming.specs.Brought.{brought, brings, count_read};
ghost use Rattle.saying.specs.Served.{Served};
ghost use Rattle.dialogue.specs.Loop.{comes, Ran};

use saying::Program;
use session::Desk;
use std::io::{Read, Stdin};
use text::Text;

// One read: how many bytes it brought to the start of the chunk, and None where it failed or was interrupted.
fn read(mut input: Stdin, chunk: &mut [u8]) -> Option<usize> {
    input.read(chunk).ok()
}

// Whether to read on after a read: it brought bytes, so that there may be more.
fn brings_more(got: Option<usize>) -> bool
    ensures { (chunk : List ℕ) → result ≡ brings (brought (count_read got) chunk) }
{
    got.is_some_and(|n| n > 0)
}

// Whether to read on after a read and what came of it: the read brought bytes, and the output took all that there was to say.
fn reads_on(answered: Result<usize, usize>, got: Option<usize>) -> bool
    ensures { (chunk : List ℕ) → result ≡ (is_ok answered && brings (brought (count_read got) chunk)) }
{
    answered.is_ok() & brings_more(got)
}

// Answers what a read brought: `got` is its answer, and the chunk what it left there.
fn heard<const N: usize>(
    program: Program,
    got: Option<usize>,
    chunk: &mut [u8],
    desk: &mut Desk,
    state: &mut [u8],
    text: &mut Text<N>,
) -> Result<usize, usize>
    requires { (1 ≤ length chunk.old) × (length chunk.old ≤ 65536) × (most_text ≤ N) × (N ≤ 65536) }
    ensures { Served (comes program.machine (brought (count_read got) chunk.old) desk.old.line state.old) desk.new.line state.new result }
{
    let k = incoming::input_of(got, desk.line.count(), chunk);
    saying::answer_all(program, &chunk[..k], desk, state, text)
}

// Serves standard input to its end, from a line of no characters on, and answers whether the output took all that there was to say.
// A proved loop has to end, and nothing says that the input does: so its turns are counted up to a number that no run comes to.
pub fn run<const N: usize>(
    program: Program,
    chunk: &mut [u8],
    desk: &mut Desk,
    state: &mut [u8],
    text: &mut Text<N>,
) -> bool
    requires sizes { (1 ≤ length chunk.old) × (length chunk.old ≤ 65536) × (most_text ≤ N) × (N ≤ 65536) }
    requires fresh { state.old ≡ begun program.machine }
    ensures { result ≡ true → Ran program.machine state.new }
{
    desk.line.clear();
    for _ in 0..u64::MAX {
        let got = read(program.streams.input, chunk);
        let answered = heard(program, got, chunk, desk, state, text);
        if !reads_on(answered, got) {
            if got.is_none() {
                saying::write_all(&program.streams.errors, b"standard input cannot be read\n");
            }
            return answered.is_ok();
        }
    }
    true
}
