// What the reader asks of bytes before it believes them: a packet that is well-formed, and a whole datastream packet that is sound.
#![tactic(auto)]

ghost use Rattle.std.specs.Prelude.{◌≡◌, ℕ, eqb, ◌*◌, ◌≤◌, length};
ghost use Rattle.std.specs.List.{list_all};
ghost use Rattle.wire.specs.Wire.{part};
ghost use Rattle.paper.specs.Streams as Streams;
ghost use Rattle.paper.specs.Reader as Reader;
ghost use Rattle.streams.specs.Meaning.{number};
ghost use Rattle.shelf.specs.Layout.{gather_at, reader_bytes};

use streams::{CLOSING, OPENING, Stream};

// The byte that fills a packet up.
const FILL: u8 = 0x99;

// A packet's size, ID, top two sequence bits and length.
#[tactic(auto, unfolding(paper::specs::Reader::well_formed))]
pub fn well_formed(f: &[u8]) -> bool
    ensures { result ≡ Reader.well_formed f.now }
{
    if f.len() != 126 {
        return false;
    }
    let id = wire::get::<u16>(f, 0);
    (id == 0x0F94 || id == 0x0FB4) && f[2] / 64 == 3 && wire::get::<u16>(f, 4) == 0x0077
}

// Whether the bytes are all fill.
fn all_fill(bytes: &[u8]) -> bool
    ensures { result ≡ list_all (λ (x : ℕ). eqb x 0x99) bytes.now }
{
    bytes.iter().all(|byte| *byte == FILL)
}

// Whether opening, closing and fill bytes are right, of the bytes in which a stream's whole packet stands.
#[tactic(auto, using(crate::proofs::Marks::sound_parts, crate::proofs::Marks::listed_fits))]
fn marked(whole: &[u8], stream: Stream) -> bool
    requires { length whole.now ≡ 118 * Streams.pieces (number stream) }
    ensures { result ≡ Reader.sound (number stream) whole.now }
{
    let (packet, fill) = whole.split_at(usize::from(stream.listed()));
    packet.starts_with(&OPENING) && packet.ends_with(&CLOSING) && all_fill(fill)
}

// Whether opening, closing and fill bytes of a stream's whole packet are right.
pub fn sound(s: &[u8], stream: Stream) -> bool
    requires { reader_bytes ≤ length s.now }
    ensures { result ≡ Reader.sound (number stream) (part s.now (gather_at (number stream)) (118 * Streams.pieces (number stream))) }
{
    let at = shelf::gather_at(u8::from(stream));
    marked(&s[at..at + 118 * stream.pieces()], stream)
}
