// The reader's reply to a packet.
#![tactic(auto)]

ghost use Rattle.std.specs.Prelude.{◌≡◌, ◌<◌, ◌≤◌, length, drop};
ghost use Rattle.paper.specs.Reader as Reader;
ghost use Rattle.lent.specs.Told.{res};
ghost use Rattle.replies.specs.Numbers.{heard_reply};
ghost use Rattle.streams.specs.Meaning.{number};
ghost use Rattle.shelf.specs.Range as Range;
ghost use Rattle.shelf.specs.Received.{understood_to, read_of};

use replies::{Heard, ReaderRefusal};
use shelf::{BYTES, MARK};
use streams::Stream;
use track::Move;

// The longest packet, for which an output has to have room. A slice and no array of as many: later bytes stay.
const PACKET_ROOM: usize = 776;

// The reply to a packet of a stream.
fn receive(
    s: &mut [u8],
    stream: Stream,
    count: u16,
    f: &[u8],
    out: &mut [u8],
) -> Result<Heard, ReaderRefusal>
    requires { (Range.Fit s.old) × (count < 4096) × (length f.now ≡ 126) × (776 ≤ length out.old) }
    ensures { res (heard_reply result) out.new s.new ≡ understood_to s.old (Reader.packet (number stream) count (drop 8 f.now)) out.old }
{
    let mut track = shelving::recorded(s, stream);
    match track.arrive(stream.row().pieces, count) {
        Move::Repeat => Err(ReaderRefusal::Repeat),
        Move::Dropped => {
            shelving::note(s, stream, track);
            Ok(Heard::Taken)
        }
        Move::Kept => {
            shelving::keep(s, stream, track.place, f);
            shelving::note(s, stream, track);
            Ok(Heard::Taken)
        }
        Move::Finished => {
            shelving::keep(s, stream, track.place, f);
            shelving::note(s, stream, track);
            shelving::hand_out(s, stream, out)
        }
    }
}

// The reply to a packet.
#[tactic(auto, using(crate::proofs::Receiving::unfit, crate::proofs::Receiving::a_reader, crate::proofs::Receiving::no_room, crate::proofs::Receiving::known, crate::proofs::Receiving::no_packet_lem, crate::proofs::Receiving::long, crate::proofs::Receiving::not_carried_lem))]
pub fn packet(s: &mut [u8], f: &[u8], out: &mut [u8]) -> Result<Heard, ReaderRefusal>
    ensures { res (heard_reply result) out.new s.new ≡ read_of s.old f.now out.old }
{
    if !lent::fits(s, BYTES, MARK) {
        return Err(ReaderRefusal::UnfitState);
    }
    if out.len() < PACKET_ROOM {
        return Err(ReaderRefusal::ShortOutput);
    }
    if !intact::well_formed(f) {
        return Err(ReaderRefusal::NoPacket);
    }
    // four bits are narrowed: no `From` does it, and the error of `TryFrom` cannot be
    let tag = wire::get::<u16>(f, 6);
    let Ok(stream) = Stream::try_from((tag % 16) as u8) else {
        return Err(ReaderRefusal::NotCarried);
    };
    receive(s, stream, tag / 16, f, out)
}
