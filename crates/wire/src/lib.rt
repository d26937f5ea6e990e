// Numbers and runs of bytes at an offset of a slice.
// Every store is said as `put`: the run is there, and the rest is as it was.
#![tactic(auto)]

ghost use Rattle.std.specs.Prelude.{◌≡◌, ℕ, List, ◌+◌, ◌≤◌, ◌<◌, [], ◌∷◌, length, replicate, slice_index};
ghost use Rattle.std.proofs.Common.{refl};
ghost use Rattle.wire.specs.Wire.{be16, bytes16, part, put, raised_on};

// A number that is kept in so many bytes, the highest first: of whatever type, it is read and stored in one way.
pub trait Number {
    ghost size: { ℕ };

    ghost bytes: { Self → List ℕ };

    // What stands at an offset of some bytes, as a number.
    ghost reads: { List ℕ → ℕ → Self → Type 0 };
    // The number that stands at an offset.
    fn load(s: &[u8], at: usize) -> Self
        requires { at + size ≤ length s.now }
        ensures { reads s.now at result };

    // Stores the number at an offset.
    fn store(self, s: &mut [u8], at: usize)
        requires { at + size ≤ length s.old }
        ensures { s.new ≡ put s.old at (bytes self) };

    // Each number takes the same number of bytes.
    ghost sized: { (v : Self) → length (bytes v) ≡ size };
}

impl Number for u8 {
    ghost size = { 1 };

    ghost bytes = { λ v. v ∷ [] };

    ghost reads = { λ s at v. v ≡ slice_index s at };

    fn load(s: &[u8], at: usize) -> u8 {
        s[at]
    }

    fn store(self, s: &mut [u8], at: usize) {
        s[at..at + 1].copy_from_slice(&[self]);
    }

    ghost sized = { λ v. refl };
}

impl Number for u16 {
    ghost size = { 2 };

    ghost bytes = { bytes16 };

    ghost reads = { λ s at v. v ≡ be16 s at };

    fn load(s: &[u8], at: usize) -> u16 {
        u16::from_be_bytes([s[at], s[at + 1]])
    }

    fn store(self, s: &mut [u8], at: usize) {
        s[at..at + 2].copy_from_slice(&self.to_be_bytes());
    }

    ghost sized = { λ v. refl };
}

// The number that stands at an offset.
pub fn get<N: Number>(s: &[u8], at: usize) -> N
    requires { at + N.size ≤ length s.now }
    ensures { N.reads s.now at result }
{
    N::load(s, at)
}

// s with a number at an offset.
pub fn set<N: Number>(s: &mut [u8], at: usize, v: N)
    requires { at + N.size ≤ length s.old }
    ensures { s.new ≡ put s.old at (N.bytes v) }
{
    v.store(s, at);
}

// Raises a number of 16 bits, which goes from 65535 to 0 on purpose.
#[tactic(auto, unfolding(crate::specs::Wire::raised_on))]
pub fn raise16(s: &mut [u8], at: usize)
    requires { at + 1 < length s.old }
    ensures { s.new ≡ raised_on s.old at }
{
    let count = get::<u16>(s, at);
    set(s, at, count.wrapping_add(1));
}

// d with all of s at an offset. Byte by byte: of two slices that it cannot tell apart the compiler makes std's copy a call of memmove,
// which a caller in C would have to have.
pub fn copy_to(d: &mut [u8], at: usize, s: &[u8])
    requires { at + length s.now ≤ length d.old }
    ensures { d.new ≡ put d.old at s.now }
{
    for i in 0..s.len() {
        d[at + i] = s[i];
    }
}

// d with the n bytes of s from one offset at another.
pub fn copy_part(d: &mut [u8], to: usize, s: &[u8], from: usize, n: usize)
    requires { (to + n ≤ length d.old) × (from + n ≤ length s.now) }
    ensures { d.new ≡ put d.old to (part s.now from n) }
{
    copy_to(d, to, &s[from..from + n]);
}

// d with n times the byte v at an offset.
pub fn fill(d: &mut [u8], at: usize, n: usize, v: u8)
    requires { at + n ≤ length d.old }
    ensures { d.new ≡ put d.old at (replicate n v) }
{
    d[at..at + n].fill(v);
}

// d with the 120 bytes from one offset at another too. They go by way of an array, so the two places may overlap.
pub fn move_slot(d: &mut [u8], to: usize, from: usize)
    requires { (to + 120 ≤ length d.old) × (from + 120 ≤ length d.old) }
    ensures { d.new ≡ put d.old to (part d.old from 120) }
{
    let mut slot = [0u8; 120];
    slot.copy_from_slice(&d[from..from + 120]);
    copy_to(d, to, &slot);
}
