// Frames 05 and 06, which are answered in the output: a poll by a packet, a status frame by a status word.
#![tactic(auto)]

ghost use Rattle.std.specs.Prelude.{◌≡◌, ◌<◌, ◌≤◌, length};
ghost use Rattle.wire.specs.Wire.{put};
ghost use Rattle.paper.specs.Frames as Frames;
ghost use Rattle.paper.specs.Packets.{packet_id};
ghost use Rattle.paper.specs.Acts as Acts;
ghost use Rattle.replies.specs.Numbers.{reply};
ghost use Rattle.frames.specs.declared.Kind.TheVariants.{Status};
ghost use Rattle.frames.specs.Meaning.{channel, meant};
ghost use Rattle.state.specs.View.{waiting_in, view};
ghost use Rattle.state.specs.Range.{Whole};
ghost use Rattle.lent.specs.Told.{res};
ghost use Rattle.machine.specs.Called.{replied_on};

use frames::Side;
use replies::Refusal;
use state::{COMMANDS, FLAG, TELEMETRY};

// The packet ID of a channel.
fn packet_id(side: Side) -> u16
    ensures { result ≡ packet_id (channel side) }
{
    match side {
        Side::A => 0x0F94,
        Side::B => 0x0FB4,
    }
}

// Shows the first piece that waits.
fn show(s: &[u8], side: Side, out: &mut [u8])
    requires { (Whole s.now) × (0 < waiting_in s.now) × (126 ≤ length out.old) }
    ensures { out.new ≡ put out.old 0 (Acts.answer (view s.now) (Frames.poll (channel side))) }
{
    let id = packet_id(side);
    let sequence = 0xC000 + wire::get::<u16>(s, state::channel_at(TELEMETRY, side)) % 16384;
    let [id_high, id_low] = id.to_be_bytes();
    let [sequence_high, sequence_low] = sequence.to_be_bytes();
    let front = [id_high, id_low, sequence_high, sequence_low, 0x00, 0x77];
    wire::copy_to(out, 0, &front);
    wire::copy_part(out, 6, s, state::slot_at(state::first(s)), 120);
}

// The reply to a poll.
#[tactic(auto, unfolding(machine::specs::Called::replied_on, machine::specs::Called::told_on, machine::specs::Called::left_on, machine::specs::Called::acted_on, machine::specs::Called::refused_on, paper::specs::Step::reply, state::specs::View::view, state::specs::View::pieces_in, machine::specs::Polled::poll_answered_on))]
pub fn poll(s: &mut [u8], side: Side, out: &mut [u8]) -> Result<(), Refusal>
    requires { (Whole s.old) × (126 ≤ length out.old) }
    ensures { res (reply result) out.new s.new ≡ replied_on s.old (Frames.poll (channel side)) out.old }
{
    if state::waiting(s) == 0 {
        return Err(Refusal::NothingWaits);
    }
    show(s, side, out);
    slots::drop_first(s);
    wire::raise16(s, state::channel_at(TELEMETRY, side));
    Ok(())
}

// The status word of a channel.
#[tactic(auto, unfolding(paper::specs::Acts::status_word, state::specs::View::view, state::specs::View::standing_in, state::specs::View::impact_in, state::specs::View::tallies_in))]
fn word(s: &[u8], side: Side, low: u8, flags: u8) -> u16
    requires { Whole s.now }
    ensures { result ≡ Acts.status_word (view s.now) (channel side) low flags }
{
    let impact = s[FLAG] == 1;
    let commands = wire::get(s, COMMANDS);
    match side {
        Side::A => status::word_a(low, flags, impact, state::nibble(s).mode, commands),
        Side::B => status::word_b(low, flags, impact, commands),
    }
}

// Answers a status frame, which is always accepted.
#[tactic(auto, unfolding(paper::specs::Acts::answer, paper::specs::Step::reply, machine::specs::Called::replied_on, machine::specs::Called::told_on, machine::specs::Called::left_on, machine::specs::Called::acted_on))]
pub fn status(s: &[u8], side: Side, f: &[u8], out: &mut [u8])
    requires { (Whole s.now) × (length f.now ≡ 4) × (126 ≤ length out.old) }
    ensures { res 0 out.new s.now ≡ replied_on s.now (meant (Status side) f.now) out.old }
{
    let word = word(s, side, f[2], f[3]);
    wire::set(out, 0, word);
}
