// Seconds, SSP time and the mode rule: what "Time and mode" of document 01 computes, by value.
// The mode rule takes mode and numbers, and not a record of them: its caller keeps them in a state of bytes, and there is one.
#![tactic(auto)]

ghost use Rattle.std.specs.Prelude.{◌≡◌, ◌<◌, ◌≤◌};
ghost use Rattle.std.proofs.Common.{refl};
ghost use Rattle.wire.specs.Wire.{be24, bytes24};
ghost use Rattle.paper.specs.Clock as Clock;
ghost use Rattle.paper.specs.Mode as rule;
ghost use Rattle.modes.specs.Meaning.{mode_meant};

use modes::Mode;
use wire::Number;

// The count of ticks stays at this one.
const LAST_TICK: u16 = 1023;

// The seconds of a broadcast's time word. A number and no type of its own: `SspTime::new` alone asks how great it is, or the ticks are.
pub fn seconds(time: u16) -> u16
    ensures { (result ≡ Clock.seconds time) × (result ≤ 16383) }
{
    time / 4
}

// SSP time: 1024 for each second, and one for each tick since the broadcast.
#[derive(Clone, Copy, PartialEq, Eq)]
pub struct SspTime {
    pub ticks: u32,
    ghost in_24_bits: { ticks < 16777216 },
}

impl SspTime {
    // The bounds keep it in 24 bits.
    pub fn new(t: u16, m: u16) -> Self
        requires { (t ≤ 16383) × (m ≤ 1023) }
        ensures { result.ticks ≡ Clock.ssp_time t m }
    {
        SspTime {
            ticks: 1024 * u32::from(t) + u32::from(m),
        }
    }

    pub fn seconds(self) -> u16
        ensures { (result ≡ Clock.seconds_of self.ticks) × (result ≤ 16383) }
    {
        // narrows a number that is shown small: no `From` does, and the error of `TryFrom` cannot be
        (self.ticks / 1024) as u16
    }

    // The highest byte first, as packets and entries keep it.
    pub fn to_be_bytes(self) -> [u8; 3]
        ensures { result ≡ bytes24 self.ticks }
    {
        let [_, top, middle, low] = self.ticks.to_be_bytes();
        [top, middle, low]
    }

    pub fn from_be_bytes(bytes: [u8; 3]) -> Self
        ensures { result.ticks ≡ be24 bytes 0 }
    {
        SspTime {
            ticks: u32::from_be_bytes([0, bytes[0], bytes[1], bytes[2]]),
        }
    }
}

// It stands in three bytes of what is kept.
impl Number for SspTime {
    ghost size = { 3 };

    ghost bytes = { λ time. bytes24 time.ticks };

    ghost reads = { λ s at time. time.ticks ≡ be24 s at };

    fn load(s: &[u8], at: usize) -> SspTime {
        SspTime::from_be_bytes([s[at], s[at + 1], s[at + 2]])
    }

    fn store(self, s: &mut [u8], at: usize) {
        wire::copy_to(s, at, &self.to_be_bytes());
    }

    ghost sized = { λ time. refl };
}

// The count of ticks after one more.
#[tactic(auto, unfolding(paper::specs::Clock::ticked))]
pub fn ticked(m: u16) -> u16
    ensures { (result ≡ Clock.ticked m) × (result ≤ 1023) }
{
    m.saturating_add(1).min(LAST_TICK)
}

// The mode that height and time call for while descending. Bit 15 of the altitude word is no part of the height.
#[tactic(auto, unfolding(paper::specs::Mode::target))]
fn target(t: u16, altitude: u16) -> Mode
    ensures { mode_meant result ≡ rule.target t altitude }
{
    if (altitude % 32768 <= 700) | (7200 <= t) {
        return Mode::Proximity;
    }
    if 5100 <= t {
        return Mode::Lower;
    }
    if 600 <= t {
        return Mode::Mid;
    }
    Mode::Upper
}

// The mode that an accepted broadcast leads an unlocked controller to. Both seconds are kept ones, so that the sums fit.
#[tactic(auto, using(modes::proofs::Order::max_is_greater), unfolding(paper::specs::Mode::next))]
pub fn next_mode(
    mode: Mode,
    entered: u16,
    reference: u16,
    t: u16,
    altitude: u16,
    collecting: bool,
) -> Mode
    ensures { mode_meant result ≡ rule.next (mode_meant mode) entered reference
        (record { t = t; altitude = altitude; collecting = collecting }) }
{
    match mode {
        Mode::Upper | Mode::Mid | Mode::Lower => mode.max(target(t, altitude)),
        Mode::Proximity => {
            if !collecting & (u32::from(entered) + 1860 <= u32::from(t)) {
                Mode::Surface
            } else {
                mode
            }
        }
        Mode::Surface => {
            if u32::from(reference) + 180 <= u32::from(t) {
                Mode::Extended
            } else {
                mode
            }
        }
        Mode::Emc | Mode::Extended | Mode::Diagnostic => mode,
    }
}
