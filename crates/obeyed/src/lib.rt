// What a command does: it is counted, accepted or refused, and obeyed.
#![tactic(auto)]

ghost use Rattle.std.specs.Prelude.{◌≡◌, true};
ghost use Rattle.paper.specs.Commands as Commands;
ghost use Rattle.paper.specs.Streams.{hk};
ghost use Rattle.paper.specs.Step.{queues};
ghost use Rattle.replies.specs.Numbers.{refused_with};
ghost use Rattle.modes.specs.Meaning.{bits};
ghost use Rattle.frames.specs.Meaning.{channel};
ghost use Rattle.command.specs.Meaning.{asked};
ghost use Rattle.state.specs.Range.{Whole};
ghost use Rattle.machine.specs.Stores.{Free};
ghost use Rattle.machine.specs.Obeyed.{noted_on, erred_on, commanded_on, obeyed_on};

use command::Request;
use frames::Side;
use modes::Nibble;
use replies::{Numbered, Refusal};
use state::{COMMANDS, ERRORS, FURTHER, PACKETS, SEQUENCE, TIME};

// An accepted command is counted, and its sequence and id are kept.
#[tactic(auto, unfolding(machine::specs::Obeyed::noted_on))]
pub fn note(s: &mut [u8], side: Side, id: u16, sequence: u16)
    requires { Whole s.old }
    ensures { s.new ≡ noted_on s.old (channel side) id sequence }
{
    wire::raise16(s, state::channel_at(PACKETS, side));
    wire::raise16(s, COMMANDS);
    let [_, sequence_low] = sequence.to_be_bytes();
    let [_, id_low] = id.to_be_bytes();
    let last = [sequence_low, id_low];
    wire::copy_to(s, SEQUENCE, &last);
}

// A refused command is counted, and its error.
#[tactic(auto, unfolding(machine::specs::Obeyed::erred_on))]
pub fn err(s: &mut [u8], side: Side, refusal: Refusal)
    requires { Whole s.old }
    ensures { s.new ≡ erred_on s.old (channel side) (refused_with refusal) }
{
    let errors = s[ERRORS];
    wire::raise16(s, state::channel_at(PACKETS, side));
    let last = [errors.wrapping_add(1), refusal.number()];
    wire::copy_to(s, ERRORS, &last);
}

// Sets the mode: an entry, which abandons a running collection.
#[tactic(auto, unfolding(machine::specs::Obeyed::commanded_on))]
fn set_mode(s: &mut [u8], nibble: Nibble)
    requires { Whole s.old }
    ensures { s.new ≡ commanded_on s.old (bits nibble) }
{
    let t = clock::seconds(wire::get(s, TIME));
    wire::set(s, FURTHER, 0u16);
    entry::enter(s, nibble, t);
}

// Acts on a request.
#[tactic(auto, unfolding(machine::specs::Obeyed::obeyed_on))]
pub fn obey(s: &mut [u8], request: Request)
    requires { (Whole s.old) × (queues (Commands.request (asked request)) ≡ true → Free s.old hk) }
    ensures { s.new ≡ obeyed_on s.old (asked request) }
{
    match request {
        Request::Clear(mask) => clearing::clear(s, mask),
        Request::Housekeeping => housekeeping::housekeeping(s),
        Request::SetMode(nibble) => set_mode(s, nibble),
    }
}
