// A run of digits, read where it stands in a chunk. A long one is read in blocks, and only its first eight pairs and its end pair by pair.
#![tactic(auto)]

ghost use Rattle.std.specs.Prelude.{◌+◌, ◌*◌, ◌≤◌, length};
ghost use Rattle.hexrun.specs.Reading.{Reading};

// Goes on to read digits in blocks of 32. The count is the answer wherever the loop ends, so it stands outside the loop.
fn blocks(chunk: &[u8], from: usize, frame: &mut [u8], k: usize) -> usize
    requires { Reading from k chunk.now frame.old }
    ensures { Reading from result chunk.now frame.new }
{
    let mut n = k;
    while n + 16 <= frame.len() {
        let Some(text) = chunk[from + 2 * n..].first_chunk() else {
            return n;
        };
        // where a line ends, one character tells it
        if text[0] == b'\n' {
            return n;
        }
        let Some(bytes) = hexblock::block(text) else {
            return n;
        };
        frame[n..n + 16].copy_from_slice(&bytes);
        n += 16;
    }
    n
}

// Goes on to read pairs of digits, until there are `most` or something else stands there.
fn pairs(chunk: &[u8], from: usize, frame: &mut [u8], k: usize, most: usize) -> usize
    requires { (Reading from k chunk.now frame.old) × (k ≤ most) × (from + 2 * most ≤ length chunk.now) × (most ≤ length frame.old) }
    ensures { Reading from result chunk.now frame.new }
{
    for n in k..most {
        let i = from + 2 * n;
        let Some(byte) = hexdigits::byte(chunk[i], chunk[i + 1]) else {
            return n;
        };
        frame[n] = byte;
    }
    most
}

// Reads digits straight from a chunk: how many bytes of `frame` they are. It may stop before their end.
#[tactic(auto, using(crate::proofs::Runs::reading_none))]
pub fn read(chunk: &[u8], from: usize, frame: &mut [u8]) -> usize
    requires { from ≤ length chunk.now }
    ensures { Reading from result chunk.now frame.new }
{
    let room = ((chunk.len() - from) / 2).min(frame.len());
    if room < 8 {
        return pairs(chunk, from, frame, 0, room);
    }
    // most lines end within eight pairs, and the loop of a constant number of turns is unrolled
    let n = pairs(chunk, from, frame, 0, 8);
    if n < 8 {
        return n;
    }
    let m = blocks(chunk, from, frame, n);
    pairs(chunk, from, frame, m, room)
}
