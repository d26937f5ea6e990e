// The next line of a chunk, and its frame. A line that stands whole in the chunk is read where it stands, without a copy of its
// characters; one that a read cut is gathered.
//
// A chunk and `from` travel as two, and not as a slice of the rest: what is found is said as a place of the whole chunk.
#![tactic(auto)]

ghost use Rattle.std.specs.Prelude.{◌≡◌, ◌+◌, ◌*◌, ◌≤◌, ◌<◌, IfSome, length};
ghost use Rattle.straight.specs.Found.{WholeLine, Found, FoundIn};

use hexline::OpenLine;

// A line that ended: `at` is past its LF, and `size` bytes of the frame's buffer are its frame.
#[derive(Drop)]
pub struct Ended {
    pub at: usize,
    pub size: usize,
}

// Goes on to the next LF, or to the chunk's end: it is found by position, and what comes before is copied into the open line, which
// is empty again after an LF.
fn by_gathering<const N: usize>(
    chunk: &[u8],
    from: usize,
    line: &mut OpenLine<N>,
    frame: &mut [u8],
) -> Option<Ended>
    requires { (from ≤ length chunk.now) × (N ≤ 2 * length frame.old) }
    ensures found { Found from (length chunk.now) (length frame.old) result }
    ensures found_in { FoundIn N from chunk.now line.old line.new frame.new result }
{
    let at = line.gather(chunk, from)?;
    let size = line.frame(frame);
    line.clear();
    Some(Ended { at, size })
}

// Reads a line of digits where it stands, if no characters of it came before and it ends in the chunk: how many bytes of `frame` it
// is.
fn whole<const N: usize>(
    chunk: &[u8],
    from: usize,
    line: &OpenLine<N>,
    frame: &mut [u8],
) -> Option<usize>
    requires { (from ≤ length chunk.now) × (8 ≤ length frame.old) }
    ensures { IfSome result (λ size. WholeLine from size line.now chunk.now frame.new) }
{
    if line.count() != 0 {
        return None;
    }
    let size = hexrun::read(chunk, from, frame);
    let end = from + 2 * size;
    if end < chunk.len() && chunk[end] == b'\n' {
        return Some(size);
    }
    None
}

// Goes on to the next LF, or to the chunk's end. A line of digits that stands whole in the chunk is read where it stands; whatever
// else there is is found by position and copied. After an LF the open line is empty.
pub fn next<const N: usize>(
    chunk: &[u8],
    from: usize,
    line: &mut OpenLine<N>,
    frame: &mut [u8],
) -> Option<Ended>
    requires { (from ≤ length chunk.now) × (N ≡ 2 * length frame.old) × (8 ≤ length frame.old) }
    ensures found { Found from (length chunk.now) (length frame.old) result }
    ensures found_in { FoundIn N from chunk.now line.old line.new frame.new result }
{
    if let Some(size) = whole(chunk, from, line, frame) {
        let at = from + 2 * size + 1;
        return Some(Ended { at, size });
    }
    by_gathering(chunk, from, line, frame)
}
