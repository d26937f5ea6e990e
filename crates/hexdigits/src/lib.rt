// Digits and bytes: a text of hexadecimal read as bytes, and bytes and small numbers written as text.
#![tactic(auto)]

ghost use Rattle.std.specs.Prelude.{◌≡◌, ◌++◌, ◌+◌, ◌*◌, ◌≤◌, ◌<◌, length, take, MatchOption};
ghost use Rattle.lines.specs.Hex.{Read, value_of, pair, read_hex, digit_of, hex_of};
ghost use Rattle.hexdigits.specs.Decodes.{byte_in_front, read_in, byte_count};

// The value of a digit, or None for a character that is none.
// Each test takes a subtraction and one comparison. A `match` on the ranges takes two branches: bench was slower than the fast C with it.
pub fn value(c: u8) -> Option<u8>
    ensures { MatchOption result (value_of c ≡ 16) (λ v. (v ≡ value_of c) × (v < 16)) }
{
    if (b'0' <= c) & (c <= b'9') {
        Some(c - b'0')
    } else if (b'A' <= c) & (c <= b'F') {
        Some(c - b'A' + 10)
    } else if (b'a' <= c) & (c <= b'f') {
        Some(c - b'a' + 10)
    } else {
        None
    }
}

// The byte that two characters stand for, if they are digits.
pub fn byte(high: u8, low: u8) -> Option<u8>
    ensures { (r : Read) → pair (value_of high) (value_of low) r ≡ byte_in_front result r }
{
    let h = value(high)?;
    let l = value(low)?;
    Some(h * 16 + l)
}

// Reads the text s, two digits to a byte, into out: how many bytes stand at its start, or None for a text that stands for none.
// What stands in out past that count, or at all after None, is not said.
pub fn decode(s: &[u8], out: &mut [u8]) -> Option<usize>
    requires { length s.now ≤ 2 * length out.old }
    ensures result_in_bounds { byte_count result ≤ length out.old }
    ensures out_after { read_in result out.new ≡ read_hex s.now }
{
    let size = s.len() / 2;
    for n in 0..size {
        out[n] = byte(s[2 * n], s[2 * n + 1])?;
    }
    (s.len() % 2 == 0).then_some(size)
}

// The capital digit of a value below 16. Digits are printed by hand: std's formatter writes to a Write, whose error cannot be here, and
// to no slice.
pub fn digit(v: u8) -> u8
    requires { v < 16 }
    ensures { result ≡ digit_of v }
{
    if v < 10 { b'0' + v } else { b'A' + (v - 10) }
}

// Writes the digits of the bytes of s to the start of out, which has two places or more for each.
pub fn encode(s: &[u8], out: &mut [u8])
    requires { 2 * length s.now ≤ length out.old }
    ensures { take (2 * length s.now) out.new ≡ hex_of s.now }
{
    for n in 0..s.len() {
        out[2 * n] = digit(s[n] / 16);
        out[2 * n + 1] = digit(s[n] % 16);
    }
}
