// Frames: which kind a frame's bytes are of.
#![tactic(auto)]

ghost use Rattle.std.specs.Prelude.{◌≡◌};
ghost use Rattle.paper.specs.Frames.{frame_of};
ghost use Rattle.frames.specs.Meaning.{meant, Sized, SideOf};

// The channel that a frame came by or asks.
#[derive(Clone, Copy)]
pub enum Side {
    A,
    B,
}

// A frame's numbers stay in its bytes; the kind says where they stand. A faulty frame is a kind of its own and no error, as it
// is in document 01.
#[derive(Clone, Copy)]
pub enum Kind {
    Broadcast(Side),
    Command(Side),
    Tick,
    Sample,
    Poll(Side),
    Status(Side),
    Analogue,
    Faulty,
}

// A channel byte of neither side.
#[derive(Clone, Copy)]
pub struct NoChannel;

// The side of a channel byte.
impl TryFrom<u8> for Side {
    type Error = NoChannel;

    ghost try_from_gives = { SideOf };

    #[tactic(auto, unfolding(paper::specs::Frames::on_channel))]
    fn try_from(cc: u8) -> Result<Side, NoChannel> {
        match cc {
            0x0A => Ok(Side::A),
            0x0B => Ok(Side::B),
            _ => Err(NoChannel),
        }
    }
}

// The kind of a frame: a row for each of document 01's, which its first byte and its size choose. Kinds without a channel come first: a side
// is looked for only where there is one, which takes fourteen instructions off a tick.
#[tactic(auto, unfolding(paper::specs::Frames::frame_of))]
pub fn parse(f: &[u8]) -> Kind
    ensures { (meant result f.now ≡ frame_of f.now) × Sized result f.now }
{
    let n = f.len();
    if n < 2 {
        return Kind::Faulty;
    }
    match f[0] {
        3 if n == 3 => Kind::Tick,
        4 => Kind::Sample,
        7 if n == 59 => Kind::Analogue,
        kind => match (kind, Side::try_from(f[1])) {
            (1, Ok(side)) if n == 8 => Kind::Broadcast(side),
            (2, Ok(side)) if 6 <= n => Kind::Command(side),
            (5, Ok(side)) if n == 2 => Kind::Poll(side),
            (6, Ok(side)) if n == 4 => Kind::Status(side),
            _ => Kind::Faulty,
        },
    }
}
