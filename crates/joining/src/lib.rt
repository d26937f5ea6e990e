// A packet's pieces join the queue.
#![tactic(auto)]

ghost use Rattle.std.specs.Prelude.{◌≡◌, ◌+◌, ◌*◌, ◌<◌, ◌≤◌, length};
ghost use Rattle.paper.specs.Streams as Streams;
ghost use Rattle.streams.specs.Meaning.{number};
ghost use Rattle.state.specs.View.{waiting_in};
ghost use Rattle.state.specs.Range.{Whole};
ghost use Rattle.machine.specs.Stores.{Free, queued_on};

use state::{SLOTS, WAITING};
use streams::Stream;

// So many pieces of a stream join the queue, which has room for them.
#[tactic(auto, using(crate::proofs::Steps::lay_more, crate::proofs::Steps::queued_end), unfolding(machine::specs::Stores::laid),)]
fn queue_pieces(s: &mut [u8], stream: Stream, pieces: usize, packet: &[u8])
    requires whole { (Whole s.old) × (118 * pieces ≤ length packet.now) }
    requires pieces_bound { waiting_in s.old + pieces ≤ 48 }
    ensures { s.new ≡ queued_on s.old (number stream) pieces packet.now }
{
    let first = state::first(s);
    let waiting = state::waiting(s);
    let at = state::count_at(u8::from(stream));
    let count: u16 = wire::get(s, at);
    for j in 0..pieces {
        let tag = slots::tag_of(usize::from(count) + j, stream);
        slots::lay(s, (first + waiting + j) % SLOTS, tag, packet, 118 * j);
    }
    // both narrow a number that is shown small: no `From` does, and the error of `TryFrom` cannot be
    wire::set(s, WAITING, (waiting + pieces) as u8);
    wire::set(s, at, count.wrapping_add(pieces as u16));
}

// A stream's packet joins the queue, which has room for it. `Free` stays a clause, here and in the callers: it is true of a moment of the
// state, and a value that said it would have to hold the state.
pub fn queue_packet(s: &mut [u8], stream: Stream, packet: &[u8])
    requires whole { (Whole s.old) × (118 * Streams.pieces (number stream) ≤ length packet.now) }
    requires free { Free s.old (number stream) }
    ensures { s.new ≡ queued_on s.old (number stream) (Streams.pieces (number stream)) packet.now }
{
    queue_pieces(s, stream, stream.pieces(), packet);
}
