// A frame or packet answered, as a line of text. Which of the two machines answers is a value that is handed through, and `answer` alone
// looks at it.
#![tactic(auto)]

ghost use Rattle.std.specs.Prelude.{◌≡◌, ◌++◌, ◌+◌, ◌≤◌, length};
ghost use Rattle.programs.specs.Bench as Bench;
ghost use Rattle.programs.specs.Reader as Reader;
ghost use Rattle.answering.specs.Machines.{most_text, answer_to};

use text::Text;

// Who answers: the controller in program bench, the reader in program reader.
#[derive(Clone, Copy)]
pub enum Machine {
    Controller,
    Reader,
}

// Hands a frame to the controller with an output, and appends the line of what comes of it. What stood in the output is not shown.
fn answer_controller<const N: usize>(
    f: &[u8],
    output: &mut [u8],
    state: &mut [u8],
    text: &mut Text<N>,
)
    requires { (length output.old ≡ 126) × (length text.old + most_text ≤ N) }
    ensures text_after { text.new ≡ text.old ++ (Bench.answer_to state.old f.now).text }
    ensures state_after { state.new ≡ (Bench.answer_to state.old f.now).state }
{
    let outcome = controller::frame(state, f, output);
    let reply = replies::reply(outcome);
    let n = wording::bytes_written(reply, f);
    wording::put_line(reply, &output[..n], text);
}

// Hands a packet to the reader with an output, and appends the line of what comes of it. What stood in the output is not shown.
// Like the one above but for the call, the bytes that are shown and their printing: a trait of those three would be longer than both.
fn answer_reader<const N: usize>(f: &[u8], output: &mut [u8], state: &mut [u8], text: &mut Text<N>)
    requires { (length output.old ≡ 776) × (length text.old + most_text ≤ N) }
    ensures text_after { text.new ≡ text.old ++ (Reader.answer_to state.old f.now).text }
    ensures state_after { state.new ≡ (Reader.answer_to state.old f.now).state }
{
    let outcome = gather::packet(state, f, output);
    let reply = replies::reply(outcome);
    let n = wording::handed(reply, f);
    wording::put_heard(reply, &output[..n], text);
}

// Appends the line of what the machine says to a frame. What it puts out stands in `output` meanwhile. One match of two
// arms: with a trait in its place each clause that says `answer_to machine` would name a bound's member, for one match.
pub fn answer<const N: usize>(
    machine: Machine,
    f: &[u8],
    output: &mut [u8],
    state: &mut [u8],
    text: &mut Text<N>,
)
    requires { (776 ≤ length output.old) × (length text.old + most_text ≤ N) }
    ensures text_after { text.new ≡ text.old ++ (answer_to machine state.old f.now).text }
    ensures state_after { state.new ≡ (answer_to machine state.old f.now).state }
{
    match machine {
        Machine::Controller => answer_controller(f, &mut output[..126], state, text),
        Machine::Reader => answer_reader(f, &mut output[..776], state, text),
    }
}
