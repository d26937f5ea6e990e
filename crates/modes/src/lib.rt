// The eight modes, and a mode with its lock as status words, packets and entries keep them: four bits of a byte.
#![tactic(auto)]

ghost use Rattle.std.specs.Prelude.{◌≡◌, ◌%◌, ◌<◌, leb};
ghost use Rattle.paper.specs.Mode.{mode_of};
ghost use Rattle.modes.specs.Meaning.{mode_meant, number_meant, bits, Keeps};

// The manual's names, with the paper's numbers.
#[derive(Clone, Copy, PartialEq, Eq, PartialOrd, Ord)]
pub enum Mode {
    Emc = 0,
    Upper = 1,
    Mid = 2,
    Lower = 3,
    Proximity = 4,
    Surface = 5,
    Extended = 6,
    Diagnostic = 7,
}

impl Mode {
    // The mode of the three lowest bits of a number: there is one for each.
    #[tactic(auto, unfolding(paper::specs::Mode::mode_of))]
    pub fn of(number: u8) -> Self
        ensures { mode_meant result ≡ mode_of (number % 8) }
    {
        match number % 8 {
            0 => Mode::Emc,
            1 => Mode::Upper,
            2 => Mode::Mid,
            3 => Mode::Lower,
            4 => Mode::Proximity,
            5 => Mode::Surface,
            6 => Mode::Extended,
            _ => Mode::Diagnostic,
        }
    }
}

// An enum's number is its case's, which `as` gives.
#[tactic(auto, using(crate::proofs::Numbers::place_is_number))]
impl From<Mode> for u8 {
    ghost from_gives = { λ mode y. y ≡ number_meant mode };

    fn from(mode: Mode) -> u8 {
        mode as u8
    }
}

// A mode and whether it is locked.
#[derive(Clone, Copy, PartialEq, Eq)]
pub struct Nibble {
    pub mode: Mode,
    pub locked: bool,
}

// The four lowest bits of any byte are one: a kept byte says a mode whatever it holds.
impl From<u8> for Nibble {
    ghost from_gives = { Keeps };

    fn from(byte: u8) -> Self {
        Nibble {
            mode: Mode::of(byte),
            locked: 8 <= byte % 16,
        }
    }
}

#[tactic(auto, using(crate::proofs::Numbers::number_small), unfolding(paper::specs::Mode::nibble))]
impl From<Nibble> for u8 {
    ghost from_gives = { λ nibble y. y ≡ bits nibble };

    fn from(nibble: Nibble) -> u8 {
        let number = u8::from(nibble.mode);
        if nibble.locked { number + 8 } else { number }
    }
}
