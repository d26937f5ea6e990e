// What a read brings: its bytes, or the end of the input, where a line still open is answered as if an LF came.
#![tactic(auto)]

ghost use Rattle.std.specs.Prelude.{◌≡◌, ◌≤◌, length, take};
ghost use Rattle.incoming.specs.Brought.{brought, fed, count_read};

// How many bytes of the chunk are to be answered: those that a read brought, or, at the end of the input, an LF for a line still open.
#[tactic(auto, using(crate::proofs::Arriving::feed_fed))]
pub fn input_of(got: Option<usize>, n: usize, chunk: &mut [u8]) -> usize
    requires { 1 ≤ length chunk.old }
    ensures upper_bound { result ≤ length chunk.old }
    ensures chunk_after { take result chunk.new ≡ fed n (brought (count_read got) chunk.old) }
{
    let Some(most) = got else { return 0 };
    if most > 0 {
        return chunk.len().min(most);
    }
    if n == 0 {
        return 0;
    }
    chunk[0] = b'\n';
    1
}
