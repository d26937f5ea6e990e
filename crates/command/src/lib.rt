// What a command says: a request with its fields, or the refusal of it.
// The values are decided here once, so whoever acts on a request finds fields that are in range.
#![tactic(auto)]

ghost use Rattle.std.specs.Prelude.{◌≡◌};
ghost use Rattle.paper.specs.Commands as Commands;
ghost use Rattle.command.specs.Meaning.{meant};

use modes::Nibble;
use replies::Refusal;
use streams::NOT_CARRIED;

// The ids of the carried commands.
const CLEAR_STREAMS: u16 = 0x0013;

const SEND_HOUSEKEEPING: u16 = 0x0016;

const SET_MODE: u16 = 0x0032;

// A request with its fields: streams to clear, or the mode with its lock to set.
#[derive(Clone, Copy)]
pub enum Request {
    Clear(u16),
    Housekeeping,
    SetMode(Nibble),
}

// Whether a mask has a bit that names no stream.
fn outside(mask: u16) -> bool
    ensures { result ≡ Commands.outside mask }
{
    mask & NOT_CARRIED != 0
}

// What the command `id` comes to with its parameters.
#[tactic(auto, unfolding(paper::specs::Commands::decoded))]
pub fn decode(id: u16, parameters: &[u8]) -> Result<Request, Refusal>
    ensures { meant result ≡ Commands.decoded id parameters.now }
{
    match (id, parameters) {
        (CLEAR_STREAMS, &[high, low]) => {
            let mask = u16::from_be_bytes([high, low]);
            if outside(mask) {
                return Err(Refusal::OutOfRange);
            }
            Ok(Request::Clear(mask))
        }
        (SEND_HOUSEKEEPING, []) => Ok(Request::Housekeeping),
        (SET_MODE, &[0, value @ 0..=15]) => Ok(Request::SetMode(Nibble::from(value))),
        (SET_MODE, [_, _]) => Err(Refusal::OutOfRange),
        (CLEAR_STREAMS | SEND_HOUSEKEEPING | SET_MODE, _) => Err(Refusal::WrongLength),
        _ => Err(Refusal::NotCarried),
    }
}
