// The status words, each built by value from an empty one, a named bit at a time, in ascending order.
// A and B have a type each, with a method for each named bit, so that no name of the one's bits sets a bit of the other: document
// 01 names this form, so the methods are written out though their bodies are alike.
#![tactic(auto)]

ghost use Rattle.std.specs.Prelude.{◌≡◌, ◌<◌, ◌≤◌};
ghost use Rattle.paper.specs.Mode as paper;
ghost use Rattle.paper.specs.Status.{bit_of, empty_with, flags_of, word_a, word_b};
ghost use Rattle.modes.specs.Meaning.{mode_meant};
ghost use Rattle.status.specs.Word.{Set, shown};

use modes::Mode;

// Document 01's flags of a status frame, from bit 0.
const WATCHDOG_OK: u16 = 0;

const ALL_OK: u16 = 1;

const VOLTS12_OK: u16 = 2;

const DDB_LOSS: u16 = 3;

const BCP_LOSS: u16 = 4;

const REDUNDANT12V: u16 = 5;

const NOMINAL12V: u16 = 6;

const SOUNDER: u16 = 7;

// What the named bits of a word weigh.
const BIT_8: u16 = 256;

const BIT_9: u16 = 512;

const BIT_10: u16 = 1024;

const BIT_11: u16 = 2048;

const BIT_12: u16 = 4096;

const BIT_13: u16 = 8192;

const BIT_14: u16 = 16384;

const BIT_15: u16 = 32768;

// Whether a number's bit k is set.
fn bit_of(n: u16, k: u16) -> bool
    requires { k < 16 }
    ensures { result ≡ bit_of n k }
{
    (n >> k) % 2 == 1
}

// Channel A's word. Each method asks that no bit is set yet from its own up, so the chain is in ascending order.
#[derive(Drop)]
pub struct WordA {
    bits: u16,
}

impl WordA {
    // No named bit is set; the low byte is passed through.
    pub fn empty_with(low: u8) -> Self
        ensures { (result.bits ≡ empty_with low) × (result.bits < 256) }
    {
        WordA {
            bits: u16::from(low),
        }
    }

    pub fn volts12_ok(self, on: bool) -> Self
        requires { self.bits < 256 }
        ensures { Set self.bits on 8 result.bits }
    {
        WordA {
            bits: self.bits + u16::from(on) * BIT_8,
        }
    }

    pub fn mode_bit_0(self, on: bool) -> Self
        requires { self.bits < 512 }
        ensures { Set self.bits on 9 result.bits }
    {
        WordA {
            bits: self.bits + u16::from(on) * BIT_9,
        }
    }

    pub fn mode_bit_1(self, on: bool) -> Self
        requires { self.bits < 1024 }
        ensures { Set self.bits on 10 result.bits }
    {
        WordA {
            bits: self.bits + u16::from(on) * BIT_10,
        }
    }

    pub fn mode_bit_2(self, on: bool) -> Self
        requires { self.bits < 2048 }
        ensures { Set self.bits on 11 result.bits }
    {
        WordA {
            bits: self.bits + u16::from(on) * BIT_11,
        }
    }

    pub fn command_bit(self, on: bool) -> Self
        requires { self.bits < 4096 }
        ensures { Set self.bits on 12 result.bits }
    {
        WordA {
            bits: self.bits + u16::from(on) * BIT_12,
        }
    }

    pub fn all_ok(self, on: bool) -> Self
        requires { self.bits < 8192 }
        ensures { Set self.bits on 13 result.bits }
    {
        WordA {
            bits: self.bits + u16::from(on) * BIT_13,
        }
    }

    pub fn watchdog_ok(self, on: bool) -> Self
        requires { self.bits < 16384 }
        ensures { Set self.bits on 14 result.bits }
    {
        WordA {
            bits: self.bits + u16::from(on) * BIT_14,
        }
    }

    pub fn impact(self, on: bool) -> Self
        requires { self.bits < 32768 }
        ensures { Set self.bits on 15 result.bits }
    {
        WordA {
            bits: self.bits + u16::from(on) * BIT_15,
        }
    }
}

// The word that channel A is answered with.
#[tactic(auto, unfolding(paper::specs::Status::word_a))]
pub fn word_a(low: u8, flags: u8, impact: bool, mode: Mode, commands: u16) -> u16
    ensures { result ≡ word_a low (flags_of flags) (shown impact (mode_meant mode) commands) }
{
    let given = u16::from(flags);
    let number = u16::from(u8::from(mode));
    WordA::empty_with(low)
        .volts12_ok(bit_of(given, VOLTS12_OK))
        .mode_bit_0(bit_of(number, 0))
        .mode_bit_1(bit_of(number, 1))
        .mode_bit_2(bit_of(number, 2))
        .command_bit(bit_of(commands, 0))
        .all_ok(bit_of(given, ALL_OK))
        .watchdog_ok(bit_of(given, WATCHDOG_OK))
        .impact(impact)
        .bits
}

// Channel B's word, in the same way.
#[derive(Drop)]
pub struct WordB {
    bits: u16,
}

impl WordB {
    // No named bit is set; the low byte is passed through.
    pub fn empty_with(low: u8) -> Self
        ensures { (result.bits ≡ empty_with low) × (result.bits < 256) }
    {
        WordB {
            bits: u16::from(low),
        }
    }

    pub fn nominal12v(self, on: bool) -> Self
        requires { self.bits < 256 }
        ensures { Set self.bits on 8 result.bits }
    {
        WordB {
            bits: self.bits + u16::from(on) * BIT_8,
        }
    }

    pub fn redundant12v(self, on: bool) -> Self
        requires { self.bits < 512 }
        ensures { Set self.bits on 9 result.bits }
    {
        WordB {
            bits: self.bits + u16::from(on) * BIT_9,
        }
    }

    pub fn bcp_loss(self, on: bool) -> Self
        requires { self.bits < 1024 }
        ensures { Set self.bits on 10 result.bits }
    {
        WordB {
            bits: self.bits + u16::from(on) * BIT_10,
        }
    }

    pub fn ddb_loss(self, on: bool) -> Self
        requires { self.bits < 2048 }
        ensures { Set self.bits on 11 result.bits }
    {
        WordB {
            bits: self.bits + u16::from(on) * BIT_11,
        }
    }

    pub fn command_bit(self, on: bool) -> Self
        requires { self.bits < 4096 }
        ensures { Set self.bits on 12 result.bits }
    {
        WordB {
            bits: self.bits + u16::from(on) * BIT_12,
        }
    }

    pub fn all_ok(self, on: bool) -> Self
        requires { self.bits < 8192 }
        ensures { Set self.bits on 13 result.bits }
    {
        WordB {
            bits: self.bits + u16::from(on) * BIT_13,
        }
    }

    pub fn sounder(self, on: bool) -> Self
        requires { self.bits < 16384 }
        ensures { Set self.bits on 14 result.bits }
    {
        WordB {
            bits: self.bits + u16::from(on) * BIT_14,
        }
    }

    pub fn impact(self, on: bool) -> Self
        requires { self.bits < 32768 }
        ensures { Set self.bits on 15 result.bits }
    {
        WordB {
            bits: self.bits + u16::from(on) * BIT_15,
        }
    }
}

// The word that channel B is answered with, whatever the mode.
#[tactic(auto, unfolding(paper::specs::Status::word_b))]
pub fn word_b(low: u8, flags: u8, impact: bool, commands: u16) -> u16
    ensures { (mode : paper.Mode) → result ≡ word_b low (flags_of flags) (shown impact mode commands) }
{
    let given = u16::from(flags);
    WordB::empty_with(low)
        .nominal12v(bit_of(given, NOMINAL12V))
        .redundant12v(bit_of(given, REDUNDANT12V))
        .bcp_loss(bit_of(given, BCP_LOSS))
        .ddb_loss(bit_of(given, DDB_LOSS))
        .command_bit(bit_of(commands, 0))
        .all_ok(bit_of(given, ALL_OK))
        .sounder(bit_of(given, SOUNDER))
        .impact(impact)
        .bits
}
