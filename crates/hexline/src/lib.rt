// Lines of hexadecimal: a line is gathered from chunks of input, and read as the frame that it stands for.
//
// A line that is still open is kept in an array as long as the longest line that counts. One that has more characters is kept as a
// count of one more.
#![tactic(auto)]

ghost use Rattle.std.specs.Prelude.{◌≡◌, ◌≢◌, ◌+◌, ◌*◌, ◌≤◌, ◌<◌, IfSome, MatchOption, All, [], length, take, drop, get_or};
ghost use Rattle.lines.specs.Lines.{kept, over, scan, frame_of_line};
ghost use Rattle.hexline.specs.Open.{count_of, more_by, scanned};

use std::marker::Model;

// A line that is still open, of which at most N characters count: the characters that came so far, and how many, or N + 1 for any
// number above N.
#[derive(Drop)]
pub struct OpenLine<const N: usize> {
    characters: [u8; N],
    count: usize,
}

// Clauses see the line so far.
impl<const N: usize> Model for OpenLine<N> {
    ghost use Rattle.std.specs.Prelude.{◌+◌, ◌≤◌};
    ghost use Rattle.lines.specs.Lines.{LineSoFar, line_of};

    ghost Value = { LineSoFar };

    ghost view = { λ o. line_of N o.count o.characters };

    ghost invariant = { λ o. o.count ≤ N + 1 };
}

// How many characters come before the first LF, or all.
fn before_line_feed(s: &[u8]) -> usize
    ensures within { result ≤ length s.now }
    ensures before { All (λ c. c ≢ 10) (take result s.now) }
    ensures found { result < length s.now → get_or s.now result 0 ≡ 10 }
{
    s.iter().position(|c| *c == b'\n').unwrap_or(s.len())
}

impl<const N: usize> OpenLine<N> {
    // A line of no characters.
    pub fn new() -> Self
        ensures { result ≡ kept [] }
    {
        OpenLine {
            characters: [0; N],
            count: 0,
        }
    }

    // How many characters there are, or N + 1 for any number above N.
    pub fn count(&self) -> usize
        ensures value { result ≡ count_of N self.now }
        ensures small { result ≤ N + 1 }
    {
        self.count
    }

    // The next line begins.
    pub fn clear(&mut self)
        ensures { self.new ≡ kept [] }
    {
        self.count = 0;
    }

    // The characters, unless there are too many.
    pub fn characters(&self) -> Option<&[u8]>
        ensures { MatchOption result (self.now ≡ over) (λ s. (self.now ≡ kept s.now) × (length s.now ≤ N)) }
    {
        if N < self.count {
            return None;
        }
        Some(&self.characters[..self.count])
    }

    // Takes more characters, whatever they are.
    pub fn append(&mut self, s: &[u8])
        ensures { self.new ≡ more_by N self.old s.now }
    {
        let n = self.count;
        if n + s.len() <= N {
            let characters = &mut self.characters[..];
            characters[n..n + s.len()].copy_from_slice(s);
            self.count += s.len();
        } else {
            self.count = N + 1;
        }
    }

    // Takes the characters of chunk from index `from` up to the next LF, or to the chunk's end: answers the index past the LF, if there
    // is one.
    pub fn gather(&mut self, chunk: &[u8], from: usize) -> Option<usize>
        requires { from ≤ length chunk.now }
        ensures in_chunk { IfSome result (λ at. (from < at) × (at ≤ length chunk.now)) }
        ensures chunk_after { scanned result self.new chunk.now ≡ scan N self.old (drop from chunk.now) }
    {
        let rest = &chunk[from..];
        let n = before_line_feed(rest);
        self.append(&rest[..n]);
        if n < rest.len() {
            Some(from + n + 1)
        } else {
            None
        }
    }

    // The frame that the line stands for: how many bytes of `frame` it has.
    pub fn frame(&self, frame: &mut [u8]) -> usize
        requires { N ≤ 2 * length frame.old }
        ensures upper_bound { result ≤ length frame.old }
        ensures frame_after { take result frame.new ≡ frame_of_line self.now }
    {
        let Some(characters) = self.characters() else {
            return 0;
        };
        hexdigits::decode(characters, frame).unwrap_or(0)
    }
}
