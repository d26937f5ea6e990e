// Program reader: packets as lines of hexadecimal from standard input, and what the reader says to each on standard output.
//
// The stored run, in its order: a housekeeping packet, handed out; the same again, a repeat; document 01's "ACC-E pieces 0, 1, 3 to
// 9: only the second packet"; an ACC-E packet of five pieces; of faulty lines an empty one, three bytes, an odd count of digits and
// no digits; a wrong ID, wrong top sequence bits and a wrong length; a stream that is not carried; a DEN packet whose last fill byte
// is wrong, the right one then a repeat, and the next one whole, in small letters; an impact record of seven pieces, its last line
// without an LF.
//
// The main of program bench differs from this one in usage and machine alone: they share `console`.
#![tactic(auto)]

use console::Streams;

fn main(rt: HostRuntime) {
    let streams = Streams::standard(&rt);
    if console::explained(
        &rt,
        streams,
        b"usage: reader <PACKETS\nreader takes no arguments: it reads packets from standard input, a line each in hexadecimal.\n",
    ) {
        return;
    }
    console::serve_reader(streams);
}
