// The text of an answer: how many bytes go with a reply, and the line of a reply and its bytes. A reply is a number here: it is
// printed, whatever it is.
#![tactic(auto)]

ghost use Rattle.std.specs.Prelude.{◌≡◌, [], ◌∷◌, ◌++◌, ◌+◌, ◌*◌, ◌≤◌, ◌<◌, length};
ghost use Rattle.lines.specs.Hex.{hex_of};
ghost use Rattle.programs.specs.Bench as Bench;
ghost use Rattle.programs.specs.Reader as Reader;

use text::Text;

// How many bytes a frame that got that reply wrote.
#[tactic(auto, unfolding(programs::specs::Bench::bytes_written))]
pub fn bytes_written(reply: u8, f: &[u8]) -> usize
    ensures upper_bound { result ≤ 126 }
    ensures value { result ≡ Bench.bytes_written reply f.now }
{
    match (reply, f) {
        (0, [5, ..]) => 126,
        (0, [6, ..]) => 2,
        _ => 0,
    }
}

// Appends the line of a reply and bytes.
#[tactic(auto, unfolding(lines::specs::Hex::hex_of))]
pub fn put_line<const N: usize>(reply: u8, bytes: &[u8], text: &mut Text<N>)
    requires { length text.old + 2 * length bytes.now + 3 ≤ N }
    ensures { text.new ≡ text.old ++ (hex_of (reply ∷ bytes.now) ++ (10 ∷ [])) }
{
    text.push_hex(reply);
    text.append_hex(bytes);
    text.push(b'\n');
}

// How many bytes are handed out with that reply to a packet: the listed length of its stream, or none.
#[tactic(auto, unfolding(programs::specs::Reader::handed))]
pub fn handed(reply: u8, f: &[u8]) -> usize
    requires { reply ≡ 1 → length f.now ≡ 126 }
    ensures upper_bound { result ≤ 776 }
    ensures value { result ≡ Reader.handed reply f.now }
{
    if reply != 1 {
        return 0;
    }
    // below 16: no From narrows, and try_from has an error that cannot be here
    let stream = (wire::get::<u16>(f, 6) % 16) as u8;
    usize::from(streams::listed_of(stream))
}

// Appends a space and the text of bytes, or nothing where there are none.
#[tactic(auto, unfolding(lines::specs::Hex::hex_of))]
fn put_spaced<const N: usize>(bytes: &[u8], text: &mut Text<N>)
    requires { length text.old + 2 * length bytes.now + 1 ≤ N }
    ensures upper_bound { length text.new ≤ length text.old + 2 * length bytes.now + 1 }
    ensures text_after { text.new ≡ text.old ++ Reader.spaced bytes.now }
{
    if bytes.is_empty() {
        return;
    }
    text.push(b' ');
    text.append_hex(bytes);
}

// Appends the line of the reader's reply and the bytes that are handed out. Not one with put_line: that writes two digits and never
// a space, this a decimal, and a space only before bytes. They share the LF.
pub fn put_heard<const N: usize>(reply: u8, bytes: &[u8], text: &mut Text<N>)
    requires { (reply < 100) × (length text.old + 2 * length bytes.now + 4 ≤ N) }
    ensures { text.new ≡ text.old ++ Reader.line_for reply bytes.now }
{
    text.push_decimal(reply);
    put_spaced(bytes, text);
    text.push(b'\n');
}
