// What a call is answered with: a refusal of the controller's or of the reader's, or what the reader's acceptance comes to;
// and each one's number, which is what the C entries and the programs give.
#![tactic(auto)]

ghost use Rattle.std.specs.Prelude.{◌≡◌, ℕ};
ghost use Rattle.replies.specs.Numbers.{heard_as, number_of, refused_with, spurned_with};

// Why the controller refuses, by document 01's numbers: "Tested in the order 10, 8, 1, 2, 3, 4, 5, 6, 7, 9".
#[derive(Clone, Copy, PartialEq, Eq)]
pub enum Refusal {
    // empty, unknown kind or channel, or wrong size
    NoFrame = 1,
    // command id or stream not carried
    NotCarried = 2,
    // wrong parameter or sample length
    WrongLength = 3,
    // value out of range
    OutOfRange = 4,
    // broadcast seconds below the last accepted
    TimeBack = 5,
    // sample not taken in this mode
    NotInThisMode = 6,
    // too few free queue slots
    NoRoom = 7,
    // output shorter than 126 bytes
    ShortOutput = 8,
    // poll, queue empty
    NothingWaits = 9,
    // state buffer too short, or a number kept in it outside its range
    UnfitState = 10,
}

// Why the reader refuses: "Order 25, 24, 20, 21, 22, 23."
#[derive(Clone, Copy, PartialEq, Eq)]
pub enum ReaderRefusal {
    // not 126 bytes, or a wrong ID, length or top two sequence bits
    NoPacket = 20,
    // stream not carried
    NotCarried = 21,
    // repeat
    Repeat = 22,
    // finished, but opening, closing or fill bytes are wrong
    Spoilt = 23,
    // output under 776 bytes
    ShortOutput = 24,
    // lent state unfit, as the controller's 10
    UnfitState = 25,
}

// What a packet comes to that the reader accepts.
#[derive(Clone, Copy, PartialEq, Eq)]
pub enum Heard {
    // noted, and nothing is finished with it
    Taken = 0,
    // the last piece of a packet, which is handed out
    HandedOut = 1,
}

// What an outcome of a call is made of, accepted or refused: it has a number. An enum's is its case's, which `as` gives for a type that is named alone:
// so each impl says it.
pub trait Numbered {
    ghost numbered: { Self → ℕ };

    fn number(self) -> u8
        ensures { result ≡ numbered self };
}

// "0 accepted"
impl Numbered for () {
    ghost numbered = { λ _. 0 };

    fn number(self) -> u8 {
        0
    }
}

impl Numbered for Refusal {
    ghost numbered = { refused_with };

    fn number(self) -> u8 {
        self as u8
    }
}

impl Numbered for ReaderRefusal {
    ghost numbered = { spurned_with };

    fn number(self) -> u8 {
        self as u8
    }
}

impl Numbered for Heard {
    ghost numbered = { heard_as };

    fn number(self) -> u8 {
        self as u8
    }
}

// The number of a reply, which C and the programs give.
pub fn reply<T: Numbered, E: Numbered>(outcome: Result<T, E>) -> u8
    ensures { result ≡ number_of T.numbered E.numbered outcome }
{
    match outcome {
        Ok(accepted) => accepted.number(),
        Err(refusal) => refusal.number(),
    }
}
