// The reader's lent bytes: the mark that they begin with, and where a stream's record and its gathered pieces stand. docs/STATE.md
// lists the same.
#![tactic(auto)]

ghost use Rattle.std.specs.Prelude.{◌≡◌, ◌+◌, ◌<◌, ◌≤◌};
ghost use Rattle.shelf.specs.Layout.{record_at, gather_at, reader_bytes};

pub const MARK: u16 = 0x5352;

// As many bytes as a reader needs. Each function below a call asks for them, as the controller's do (`state`, for the reason given there).
pub const BYTES: usize = 9962;

// Where a stream's record stands. It takes any number below 12: a start goes over all twelve places, used or not.
pub fn record_at(stream: u8) -> usize
    requires { stream < 12 }
    ensures { (result ≡ record_at stream) × (result + 4 ≤ gather_at 0) }
{
    2 + 4 * usize::from(stream)
}

// Where its gathered pieces stand, of any such number too.
pub fn gather_at(stream: u8) -> usize
    requires { stream < 12 }
    ensures { (result ≡ gather_at stream) × (result + 826 ≤ reader_bytes) }
{
    50 + 826 * usize::from(stream)
}
