// The reader's lent bytes: a start, a stream's record, a piece at its place, and a whole packet handed out.
#![tactic(auto)]

ghost use Rattle.std.specs.Prelude.{◌≡◌, ◌+◌, ◌*◌, ◌-◌, ◌<◌, ◌≤◌, length, drop};
ghost use Rattle.wire.specs.Wire.{put};
ghost use Rattle.paper.specs.Streams as Streams;
ghost use Rattle.paper.specs.Status.{bit};
ghost use Rattle.lent.specs.Told.{told, res};
ghost use Rattle.replies.specs.Numbers.{heard_reply, started_reply};
ghost use Rattle.streams.specs.Meaning.{number};
ghost use Rattle.shelf.specs.Layout.{gather_at, reader_bytes};
ghost use Rattle.shelf.specs.View.{last_in, place_in, runs_in};
ghost use Rattle.shelf.specs.Fresh.{fresh_on, start_of};
ghost use Rattle.shelf.specs.Received.{recorded_on, hands_to};

use replies::{Heard, ReaderRefusal};
use shelf::{BYTES, MARK};
use streams::Stream;
use track::Track;

// The record of the place of any number below 12, anew: a start goes over all twelve, used or not.
#[tactic(auto, unfolding(shelf::specs::Received::recorded_on))]
pub fn note_at(s: &mut [u8], stream: u8, t: Track)
    requires { (reader_bytes ≤ length s.old) × (stream < 12) }
    ensures { s.new ≡ recorded_on s.old stream t.last t.place (bit t.running) }
{
    let [high, low] = t.last.to_be_bytes();
    let run = [high, low, t.place, u8::from(t.running)];
    wire::copy_to(s, shelf::record_at(stream), &run);
}

// The record of a stream, anew.
pub fn note(s: &mut [u8], stream: Stream, t: Track)
    requires { reader_bytes ≤ length s.old }
    ensures { s.new ≡ recorded_on s.old (number stream) t.last t.place (bit t.running) }
{
    note_at(s, u8::from(stream), t);
}

// The record of a stream as it stands: its count and its place go round, whatever the bytes are.
pub fn recorded(s: &[u8], stream: Stream) -> Track
    requires { reader_bytes ≤ length s.now }
    ensures { result ≡ record { last = last_in s.now (number stream); place = place_in s.now (number stream); running = runs_in s.now (number stream) } }
{
    let at = shelf::record_at(u8::from(stream));
    Track {
        last: wire::get::<u16>(s, at) % 4096,
        place: s[at + 2] % stream.row().pieces,
        running: s[at + 3] == 1,
    }
}

// The last place of a number's packet, 0 where no stream has that number.
#[tactic(auto, using(crate::proofs::Records::no_pieces))]
fn last_place(number: u8) -> u8
    ensures { result ≡ Streams.pieces number - 1 }
{
    Stream::try_from(number).map_or(0, |stream| stream.row().pieces - 1)
}

// The records of all streams, fresh: last count 4095, the last place, no gathering.
#[tactic(auto, using(crate::proofs::Records::fresh_none, crate::proofs::Records::fresh_more),)]
fn fresh_records(s: &mut [u8])
    requires { reader_bytes ≤ length s.old }
    ensures { s.new ≡ fresh_on s.old 12 }
{
    for stream in 0..12 {
        let fresh = Track {
            last: 4095,
            place: last_place(stream),
            running: false,
        };
        note_at(s, stream, fresh);
    }
}

// Fresh bytes, or a refusal where they are too few.
#[tactic(auto, unfolding(shelf::specs::Fresh::start_of, shelf::specs::Fresh::started_on))]
pub fn start(s: &mut [u8]) -> Result<(), ReaderRefusal>
    ensures { told (started_reply result) s.new ≡ start_of s.old }
{
    if s.len() < BYTES {
        return Err(ReaderRefusal::UnfitState);
    }
    lent::blank(s, BYTES, MARK);
    fresh_records(s);
    Ok(())
}

// The body of a packet stands at its place.
pub fn keep(s: &mut [u8], stream: Stream, place: u8, f: &[u8])
    requires { (reader_bytes ≤ length s.old) × (place < 7) × (length f.now ≡ 126) }
    ensures { s.new ≡ put s.old (gather_at (number stream) + 118 * place) (drop 8 f.now) }
{
    let at = shelf::gather_at(u8::from(stream)) + 118 * usize::from(place);
    wire::copy_to(s, at, &f[8..]);
}

// A whole packet is handed out at its listed length, or refused where it is spoilt.
#[tactic(auto, unfolding(shelf::specs::Received::hands_to))]
pub fn hand_out(s: &[u8], stream: Stream, out: &mut [u8]) -> Result<Heard, ReaderRefusal>
    requires { (reader_bytes ≤ length s.now) × (776 ≤ length out.old) }
    ensures { res (heard_reply result) out.new s.now ≡ hands_to s.now (number stream) out.old }
{
    if !intact::sound(s, stream) {
        return Err(ReaderRefusal::Spoilt);
    }
    let n = usize::from(stream.listed());
    wire::copy_part(out, 0, s, shelf::gather_at(u8::from(stream)), n);
    Ok(Heard::HandedOut)
}
