// The reference controller on lent bytes: start, and one frame.
#![tactic(auto)]

ghost use Rattle.std.specs.Prelude.{◌≡◌, ◌≤◌, length};
ghost use Rattle.wire.specs.Wire.{part, put};
ghost use Rattle.replies.specs.Numbers.{reply};
ghost use Rattle.frames.specs.Meaning.{meant, Sized};
ghost use Rattle.state.specs.Layout.{housed_at};
ghost use Rattle.state.specs.Range.{Whole};
ghost use Rattle.lent.specs.Told.{told, res};
ghost use Rattle.machine.specs.Called.{replied_on, step_of, start_of};

use frames::Kind;
use replies::Refusal;
use state::{BYTES, HOUSED, MARK};

// A packet's bytes, for which an output has to have room. A slice and no array of as many: later bytes stay.
const PACKET_BYTES: usize = 126;

// Bytes for a fresh controller, unless they are too few.
#[tactic(auto, unfolding(machine::specs::Called::start_of))]
pub fn start(s: &mut [u8]) -> Result<(), Refusal>
    ensures { told (reply result) s.new ≡ start_of s.old }
{
    if s.len() < BYTES {
        return Err(Refusal::UnfitState);
    }
    state::start(s);
    Ok(())
}

// The 58 bytes of a frame 07 are kept. By way of an array a few wide moves do it: 23 instructions fewer than from slice to slice.
fn house(s: &mut [u8], f: &[u8])
    requires { (Whole s.old) × (length f.now ≡ 59) }
    ensures { s.new ≡ put s.old housed_at (part f.now 1 58) }
{
    let mut kept = [0u8; 58];
    kept.copy_from_slice(&f[1..]);
    wire::copy_to(s, HOUSED, &kept);
}

// The reply to a frame of a kind, with an output that is long enough.
fn handle(k: Kind, s: &mut [u8], f: &[u8], out: &mut [u8]) -> Result<(), Refusal>
    requires { (Whole s.old) × (Sized k f.now) × (126 ≤ length out.old) }
    ensures { res (reply result) out.new s.new ≡ replied_on s.old (meant k f.now) out.old }
{
    match k {
        Kind::Broadcast(side) => broadcast::frame(s, side, f),
        Kind::Command(side) => order::frame(s, side, f),
        Kind::Tick => tick::frame(s, f),
        Kind::Sample => sample::frame(s, f),
        Kind::Poll(side) => answer::poll(s, side, out),
        Kind::Status(side) => {
            answer::status(s, side, f, out);
            Ok(())
        }
        Kind::Analogue => {
            house(s, f);
            Ok(())
        }
        Kind::Faulty => Err(Refusal::NoFrame),
    }
}

// The reply to a frame.
#[tactic(auto, unfolding(machine::specs::Called::step_of))]
pub fn frame(s: &mut [u8], f: &[u8], out: &mut [u8]) -> Result<(), Refusal>
    ensures { res (reply result) out.new s.new ≡ step_of s.old f.now out.old }
{
    if !lent::fits(s, BYTES, MARK) {
        return Err(Refusal::UnfitState);
    }
    if out.len() < PACKET_BYTES {
        return Err(Refusal::ShortOutput);
    }
    handle(frames::parse(f), s, f, out)
}
