// Frame 02, a command: decoded to a request with its fields or a refusal, and obeyed.
#![tactic(auto)]

ghost use Rattle.std.specs.Prelude.{◌≡◌, ◌≤◌, length, drop};
ghost use Rattle.wire.specs.Wire.{be16};
ghost use Rattle.paper.specs.Commands as Commands;
ghost use Rattle.paper.specs.Step.{queues};
ghost use Rattle.replies.specs.Numbers.{reply};
ghost use Rattle.frames.specs.declared.Kind.TheVariants.{Command};
ghost use Rattle.frames.specs.Meaning as Meaning;
ghost use Rattle.command.specs.Meaning.{asked, meant};
ghost use Rattle.state.specs.Range.{Whole};
ghost use Rattle.lent.specs.Told.{told};
ghost use Rattle.machine.specs.Called.{told_on};

use command::Request;
use frames::Side;
use replies::Refusal;
use streams::Stream;

// Whether a request queues a packet.
fn queues_packet(request: Request) -> bool
    ensures { result ≡ queues (Commands.request (asked request)) }
{
    match request {
        Request::Clear(_) => false,
        Request::Housekeeping => true,
        Request::SetMode(_) => false,
    }
}

// What the command of a frame comes to.
fn decode(f: &[u8]) -> Result<Request, Refusal>
    requires { 6 ≤ length f.now }
    ensures { meant result ≡ Commands.decoded (be16 f.now 2) (drop 6 f.now) }
{
    command::decode(wire::get(f, 2), &f[6..])
}

// The reply to a command.
#[tactic(auto, using(crate::proofs::CommandReply::refuses, crate::proofs::CommandReply::crowds, crate::proofs::CommandReply::takes))]
pub fn frame(s: &mut [u8], side: Side, f: &[u8]) -> Result<(), Refusal>
    requires { (Whole s.old) × (6 ≤ length f.now) }
    ensures { told (reply result) s.new ≡ told_on s.old (Meaning.meant (Command side) f.now) 126 }
{
    let decoded = decode(f);
    let Ok(request) = decoded else {
        let refusal = decoded.unwrap_err();
        obeyed::err(s, side, refusal);
        return Err(refusal);
    };
    if queues_packet(request) & slots::crowded(s, Stream::Hk) {
        obeyed::err(s, side, Refusal::NoRoom);
        return Err(Refusal::NoRoom);
    }
    obeyed::note(s, side, wire::get(f, 2), wire::get(f, 4));
    obeyed::obey(s, request);
    Ok(())
}
