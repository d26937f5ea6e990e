// A text that is written piece by piece into an array: what of it is written so far is what contracts see of it.
#![tactic(auto)]

ghost use Rattle.std.specs.Prelude.{◌≡◌, ℕ, List, ◌+◌, ◌*◌, ◌/◌, ◌%◌, ◌≤◌, ◌<◌, [], ◌∷◌, ◌++◌, length, take};
ghost use Rattle.lines.specs.Hex.{digit_of, hex_of, decimal_of};

use std::marker::Model;

// Room for N bytes, of which the first `used` are written: an array and a count, since there is no heap.
#[derive(Drop)]
pub struct Text<const N: usize> {
    bytes: [u8; N],
    used: usize,
}

impl<const N: usize> Model for Text<N> {
    ghost Value = { List ℕ };

    ghost view = { λ t. take t.used t.bytes };

    ghost invariant = { λ t. t.used ≤ N };
}

impl<const N: usize> Text<N> {
    // Nothing is written yet.
    pub fn new() -> Self
        ensures { result ≡ [] }
    {
        Text {
            bytes: [0; N],
            used: 0,
        }
    }

    // How many bytes have room still.
    pub fn room(&self) -> usize
        ensures { result + length self.now ≡ N }
    {
        N - self.used
    }

    // What is written.
    pub fn as_bytes(&self) -> &[u8]
        ensures text { result.now ≡ self.now }
        ensures size { length self.now ≤ N }
    {
        &self.bytes[..self.used]
    }

    // Begins anew.
    pub fn clear(&mut self)
        ensures { self.new ≡ [] }
    {
        self.used = 0;
    }

    // Writes one more byte.
    pub fn push(&mut self, byte: u8)
        requires { length self.old < N }
        ensures { self.new ≡ self.old ++ byte ∷ [] }
    {
        let at = self.used;
        self.bytes[at] = byte;
        self.used = at + 1;
    }

    // Writes two more: one step for both takes fewer instructions than two.
    pub fn push_pair(&mut self, first: u8, second: u8)
        requires { length self.old + 2 ≤ N }
        ensures { self.new ≡ self.old ++ first ∷ second ∷ [] }
    {
        let at = self.used;
        self.bytes[at] = first;
        self.bytes[at + 1] = second;
        self.used = at + 2;
    }

    // Writes the two digits of a byte.
    pub fn push_hex(&mut self, byte: u8)
        requires { length self.old + 2 ≤ N }
        ensures { self.new ≡ self.old ++ digit_of (byte / 16) ∷ digit_of (byte % 16) ∷ [] }
    {
        self.push_pair(hexdigits::digit(byte / 16), hexdigits::digit(byte % 16));
    }

    // Writes the digits of the bytes of s. They go into a slice of the room: byte by byte, with the count kept behind a reference at
    // each step, reader took more than twice the instructions.
    pub fn append_hex(&mut self, s: &[u8])
        requires { length self.old + 2 * length s.now ≤ N }
        ensures size { length self.new ≡ length self.old + 2 * length s.now }
        ensures text_after { self.new ≡ self.old ++ hex_of s.now }
    {
        let end = self.used + 2 * s.len();
        let room = &mut self.bytes[..];
        hexdigits::encode(s, &mut room[self.used..end]);
        self.used = end;
    }

    // Writes a number below 100 in decimal, without a leading zero.
    pub fn push_decimal(&mut self, v: u8)
        requires { (v < 100) × (length self.old + 2 ≤ N) }
        ensures bounds { (length self.old < length self.new) × (length self.new ≤ length self.old + 2) }
        ensures text_after { self.new ≡ self.old ++ decimal_of v }
    {
        if v < 10 {
            self.push(b'0' + v);
        } else {
            self.push_pair(b'0' + v / 10, b'0' + v % 10);
        }
    }
}
