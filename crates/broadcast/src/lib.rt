// Frame 01, a broadcast: refused where it is late, else heard, and the mode rule applied.
#![tactic(auto)]

ghost use Rattle.std.specs.Prelude.{◌≡◌, ◌<◌, length};
ghost use Rattle.wire.specs.Wire.{be16};
ghost use Rattle.paper.specs.Frames.{byte};
ghost use Rattle.replies.specs.Numbers.{reply};
ghost use Rattle.frames.specs.declared.Kind.TheVariants.{Broadcast};
ghost use Rattle.frames.specs.Meaning.{channel, meant};
ghost use Rattle.state.specs.Range.{Whole};
ghost use Rattle.lent.specs.Told.{told};
ghost use Rattle.machine.specs.Heard.{heard_on, moved_on};
ghost use Rattle.machine.specs.Called.{told_on};

use clock::SspTime;
use frames::Side;
use modes::Nibble;
use replies::Refusal;
use state::{ALTITUDE, BROADCASTS, ENTRY_TIME, FURTHER, REFERENCE, TIME};

// Its count is raised, its words are stored, and m is 0.
#[tactic(auto, unfolding(machine::specs::Heard::heard_on))]
fn hear(s: &mut [u8], side: Side, f: &[u8])
    requires { (Whole s.old) × (length f.now ≡ 8) }
    ensures { s.new ≡ heard_on s.old (channel side) (be16 f.now 2) (be16 f.now 4) (byte f.now 6) (byte f.now 7) }
{
    wire::raise16(s, state::channel_at(BROADCASTS, side));
    let words = [f[2], f[3], f[4], f[5], f[6], f[7], 0, 0];
    wire::copy_to(s, TIME, &words);
}

// The mode rule, and the entry where it changes the mode.
#[tactic(auto, using(crate::proofs::Rule::collects_is, crate::proofs::Rule::locked_stays, crate::proofs::Rule::same_stays, crate::proofs::Rule::other_enters))]
fn move_on(s: &mut [u8])
    requires { Whole s.old }
    ensures { s.new ≡ moved_on s.old }
{
    let Nibble { mode, locked } = state::nibble(s);
    if locked {
        return;
    }
    let t = clock::seconds(wire::get(s, TIME));
    let entered = wire::get::<SspTime>(s, ENTRY_TIME).seconds();
    let reference = wire::get(s, REFERENCE);
    let altitude = wire::get(s, ALTITUDE);
    let collecting = wire::get::<u16>(s, FURTHER) != 0;
    let next = clock::next_mode(mode, entered, reference, t, altitude, collecting);
    if next != mode {
        let unlocked = Nibble { mode: next, locked };
        entry::enter(s, unlocked, t);
    }
}

// The reply to a broadcast.
#[tactic(auto, unfolding(machine::specs::Called::told_on, machine::specs::Called::left_on, machine::specs::Called::acted_on, machine::specs::Called::refused_on, paper::specs::Step::reply, state::specs::View::view, state::specs::View::clock_in))]
pub fn frame(s: &mut [u8], side: Side, f: &[u8]) -> Result<(), Refusal>
    requires { (Whole s.old) × (length f.now ≡ 8) }
    ensures { told (reply result) s.new ≡ told_on s.old (meant (Broadcast side) f.now) 126 }
{
    if clock::seconds(wire::get(f, 2)) < clock::seconds(wire::get(s, TIME)) {
        wire::raise16(s, state::channel_at(BROADCASTS, side));
        return Err(Refusal::TimeBack);
    }
    hear(s, side, f);
    move_on(s);
    Ok(())
}
