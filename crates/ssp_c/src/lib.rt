// The C entries. Each calls the function of ssp that has its name, and states its clauses again; a slice is a pointer and a length.
// Twins, since a crate is either a library of Rattle or an archive for C, and C has no Result and calls no generic function.
#![tactic(auto)]

ghost use Rattle.std.specs.Prelude.{◌≡◌};
ghost use Rattle.lent.specs.Told.{told, res};
ghost use Rattle.machine.specs.Called as Controller;
ghost use Rattle.shelf.specs.Fresh as Reader;
ghost use Rattle.shelf.specs.Received.{read_of};
ghost use Rattle.paper.specs.Streams.{listed};

// Makes the first SSP_STATE_BYTES of state a fresh controller: 0, or 10 where they are too few.
#[unsafe(no_mangle)]
pub extern "C" fn ssp_start(state: &mut [u8]) -> u8
    ensures { told result state.new ≡ Controller.start_of state.old }
{
    ssp::ssp_start(state)
}

// Hands a frame to the controller in state: the reply, with its bytes at the front of out.
#[unsafe(no_mangle)]
pub extern "C" fn ssp_frame(state: &mut [u8], frame: &[u8], out: &mut [u8]) -> u8
    ensures { res result out.new state.new ≡ Controller.step_of state.old frame.now out.old }
{
    ssp::ssp_frame(state, frame, out)
}

// Makes the first SSP_READER_BYTES of state a fresh reader: 0, or 25 where they are too few.
#[unsafe(no_mangle)]
pub extern "C" fn ssp_reader_start(state: &mut [u8]) -> u8
    ensures { told result state.new ≡ Reader.start_of state.old }
{
    ssp::ssp_reader_start(state)
}

// Hands a packet to the reader in state: the reply, with a finished datastream packet at the front of out.
#[unsafe(no_mangle)]
pub extern "C" fn ssp_reader_packet(state: &mut [u8], packet: &[u8], out: &mut [u8]) -> u8
    ensures { res result out.new state.new ≡ read_of state.old packet.now out.old }
{
    ssp::ssp_reader_packet(state, packet, out)
}

// The listed length of a stream's datastream packet, 0 where the stream is not carried.
#[unsafe(no_mangle)]
pub extern "C" fn ssp_stream_length(stream: u8) -> u16
    ensures { result ≡ listed stream }
{
    ssp::ssp_stream_length(stream)
}
