// Entries to a mode.
#![tactic(auto)]

ghost use Rattle.std.specs.Prelude.{◌≡◌};
ghost use Rattle.wire.specs.Wire.{put};
ghost use Rattle.modes.specs.Meaning.{bits};
ghost use Rattle.state.specs.Layout.{nibble_at};
ghost use Rattle.state.specs.Range.{Whole};
ghost use Rattle.machine.specs.Entered.{emptied_on, entry_run, entered_on};

use modes::{Mode, Nibble};
use state::{ALTITUDE, FLAG, NIBBLE, RING, WINDOW};

// Window and ring are emptied, and the impact flag is cleared.
#[tactic(auto, unfolding(machine::specs::Entered::emptied_on, machine::specs::Entered::no_ring))]
fn empty(s: &mut [u8])
    requires { Whole s.old }
    ensures { s.new ≡ emptied_on s.old }
{
    wire::set(s, FLAG, 0u8);
    wire::set(s, WINDOW, 0u8);
    wire::fill(s, RING, 1024, 0);
}

// Stores an entry.
fn note(s: &mut [u8], nibble: Nibble, reference: u16)
    requires { Whole s.old }
    ensures { s.new ≡ put s.old nibble_at (entry_run s.old (bits nibble) reference) }
{
    let [top, middle, low] = state::now_in(s).to_be_bytes();
    let [reference_high, reference_low] = reference.to_be_bytes();
    let run = [
        u8::from(nibble),
        top,
        middle,
        low,
        u8::from(state::nibble(s)),
        s[ALTITUDE],
        s[ALTITUDE + 1],
        reference_high,
        reference_low,
    ];
    wire::copy_to(s, NIBBLE, &run);
}

// Enters a mode, with its lock.
#[tactic(auto, unfolding(machine::specs::Entered::entered_on))]
pub fn enter(s: &mut [u8], nibble: Nibble, reference: u16)
    requires { Whole s.old }
    ensures { s.new ≡ entered_on s.old (bits nibble) reference }
{
    note(s, nibble, reference);
    if nibble.mode == Mode::Proximity {
        empty(s);
    }
}
