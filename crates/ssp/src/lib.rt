// The calls of the library, as C has them (ssp_c) and as a crate of Rattle may have them. Each hands its arguments on, and gives
// numbers of replies, since C has no Result.
#![tactic(auto)]

ghost use Rattle.std.specs.Prelude.{◌≡◌};
ghost use Rattle.lent.specs.Told.{told, res};
ghost use Rattle.machine.specs.Called as Controller;
ghost use Rattle.shelf.specs.Fresh as Reader;
ghost use Rattle.shelf.specs.Received.{read_of};
ghost use Rattle.paper.specs.Streams.{listed};

// Makes the first SSP_STATE_BYTES of state a fresh controller: 0, or 10 where they are too few.
pub fn ssp_start(state: &mut [u8]) -> u8
    ensures { told result state.new ≡ Controller.start_of state.old }
{
    replies::reply(controller::start(state))
}

// Hands a frame to the controller in state: the reply, with its bytes at the front of out.
pub fn ssp_frame(state: &mut [u8], frame: &[u8], out: &mut [u8]) -> u8
    ensures { res result out.new state.new ≡ Controller.step_of state.old frame.now out.old }
{
    replies::reply(controller::frame(state, frame, out))
}

// Makes the first SSP_READER_BYTES of state a fresh reader: 0, or 25 where they are too few.
pub fn ssp_reader_start(state: &mut [u8]) -> u8
    ensures { told result state.new ≡ Reader.start_of state.old }
{
    replies::reply(shelving::start(state))
}

// Hands a packet to the reader in state: the reply, with a finished datastream packet at the front of out.
pub fn ssp_reader_packet(state: &mut [u8], packet: &[u8], out: &mut [u8]) -> u8
    ensures { res result out.new state.new ≡ read_of state.old packet.now out.old }
{
    replies::reply(gather::packet(state, packet, out))
}

// The listed length of a stream's datastream packet, 0 where the stream is not carried.
pub fn ssp_stream_length(stream: u8) -> u16
    ensures { result ≡ listed stream }
{
    streams::listed_of(stream)
}
