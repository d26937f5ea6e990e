// What the two machines on lent bytes, the controller's and the reader's, have in common: the mark in front, and bytes that are fresh
// but for it.
#![tactic(auto)]

ghost use Rattle.std.specs.Prelude.{◌≡◌, ◌≤◌, length};
ghost use Rattle.lent.specs.Fitting.{fitting, blank_on};

const MARK_AT: usize = 0;

// Whether lent bytes are as many as a machine needs, with its mark in front. Byte by byte it takes fewer instructions than as a word.
#[tactic(auto, using(crate::proofs::Fitting::other_high, crate::proofs::Fitting::same_high), unfolding(crate::specs::Fitting::fitting),)]
pub fn fits(s: &[u8], bytes: usize, mark: u16) -> bool
    requires { 2 ≤ bytes }
    ensures { result ≡ fitting bytes mark s.now }
{
    let [high, low] = mark.to_be_bytes();
    if s.len() < bytes {
        return false;
    }
    if s[MARK_AT] != high {
        return false;
    }
    s[MARK_AT + 1] == low
}

// So many zeros, the mark in front.
#[tactic(auto, unfolding(crate::specs::Fitting::blank_on))]
pub fn blank(s: &mut [u8], bytes: usize, mark: u16)
    requires { (2 ≤ bytes) × (bytes ≤ length s.old) }
    ensures { s.new ≡ blank_on bytes mark s.old }
{
    wire::fill(s, 0, bytes, 0);
    wire::set(s, MARK_AT, mark);
}
