// One stream's record at the reader: its last count, its place and whether a gathering runs, and how an arriving piece moves it.
// The pieces themselves are kept elsewhere: what happens to them is told by a move, whose meaning is in specs/Moves.antt.
#![tactic(auto)]

ghost use Rattle.std.specs.Prelude.{◌≡◌, ◌<◌};
ghost use Rattle.paper.specs.Reader as paper;
ghost use Rattle.track.specs.Moves.{InRange, Right};

// What the reader keeps of a stream, besides the gathered pieces.
#[derive(Clone, Copy)]
pub struct Track {
    pub last: u16,
    pub place: u8,
    pub running: bool,
}

// What an arriving piece does.
#[derive(Clone, Copy, PartialEq, Eq)]
pub enum Move {
    // nothing changes
    Repeat,
    // the place moved on, and no gathering runs
    Dropped,
    // the piece is gathered at its place, and the gathering goes on
    Kept,
    // the piece is gathered at its place, the packet is whole, and the gathering has ended
    Finished,
}

// How far a count is ahead of the last one.
pub fn distance(last: u16, count: u16) -> u16
    requires { (last < 4096) × (count < 4096) }
    ensures { (result ≡ paper.distance last count) × (result < 4096) }
{
    (count + 4096 - last) % 4096
}

// The place d pieces further.
pub fn placed(pieces: u8, place: u8, d: u16) -> u8
    requires { (0 < pieces) × (d < 4096) }
    ensures { (result ≡ paper.placed pieces place d) × (result < pieces) }
{
    // narrows a number that is shown small: no `From` does, and the error of `TryFrom` cannot be
    ((u16::from(place) + d) % u16::from(pieces)) as u8
}

impl Track {
    // The core, by value: a piece with its count arrives at the record of a stream whose packets have so many pieces.
    #[tactic(auto, unfolding(paper::specs::Reader::arrive))]
    pub fn arrived(self, pieces: u8, count: u16) -> (Track, Move)
        requires { InRange self pieces count }
        ensures { Right self pieces count (record { track = result.0; step = result.1 }) }
    {
        let d = distance(self.last, count);
        if d == 0 {
            return (self, Move::Repeat);
        }
        let place = placed(pieces, self.place, d);
        let gathers = place == 0 || (d == 1 && self.running);
        let step = match (gathers, place == pieces - 1) {
            (false, _) => Move::Dropped,
            (true, false) => Move::Kept,
            (true, true) => Move::Finished,
        };
        let after = Track {
            last: count,
            place,
            running: step == Move::Kept,
        };
        (after, step)
    }

    // The record that an arriving piece finds and leaves updated: the core over a lent record.
    pub fn arrive(&mut self, pieces: u8, count: u16) -> Move
        requires { InRange self.old pieces count }
        ensures { Right self.old pieces count (record { track = self.new; step = result }) }
    {
        let (after, step) = self.arrived(pieces, count);
        *self = after;
        step
    }
}
