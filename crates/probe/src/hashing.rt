// The permutation, many times over, and the hashes that are exported to tests alone.
ghost use Rattle.std.specs.Prelude.{◌≡◌, [], length};
ghost use Rattle.keccak.specs.Rounds.{f1600};
ghost use Rattle.sponge.specs.Bytes.{bytes};
ghost use Rattle.sponge.specs.Sponge.{iterate};
ghost use Rattle.sponge.specs.Hashes.{shake128, shake256};
ghost use Rattle.image.specs.Calls.{seen, sized};
ghost use Rattle.probe.specs.States.{lanes_of};

use crate::{STATE, lanes_of};
use refusal::Refusal;

// A state of 200 bytes in block order, permuted where it stands.
#[unsafe(no_mangle)]
pub extern "C" fn probe_permute(state: &mut [u8]) -> u8
    ensures { seen result state.new [] ≡ sized 200 state.old [] (seen 0 (bytes 64 (iterate f1600 (lanes_of state.old) 1)) []) }
{
    probe_permute_times(state, 1)
}

// The same, many times in one call.
#[tactic(auto, using(image::proofs::Calls::other_length, image::proofs::Calls::right_length))]
#[unsafe(no_mangle)]
pub extern "C" fn probe_permute_times(state: &mut [u8], times: u64) -> u8
    ensures { seen result state.new [] ≡ sized 200 state.old [] (seen 0 (bytes 64 (iterate f1600 (lanes_of state.old) times)) []) }
{
    let Some(state) = state.as_mut_array::<STATE>() else {
        return u8::from(Refusal::NoRoom);
    };
    *state = sponge::state_bytes(permuted_times(lanes_of(state), times));
    0
}

#[tactic(auto, unfolding(sponge::specs::Sponge::iterate))]
fn permuted_times(mut a: [u64; 25], times: u64) -> [u64; 25]
    ensures { result ≡ iterate f1600 a times }
{
    for _turn in 0..times {
        // Named first: laid straight over the array that it takes, the call's result gets no proof in this loop.
        let next = keccak::permuted(a);
        a = next;
    }
    a
}

#[unsafe(no_mangle)]
pub extern "C" fn probe_shake128(message: &[u8], out: &mut [u8])
    ensures { out.new ≡ shake128 message.now (length out.old) }
{
    sponge::shake128(message, out);
}

#[unsafe(no_mangle)]
pub extern "C" fn probe_shake256(message: &[u8], out: &mut [u8])
    ensures { out.new ≡ shake256 message.now (length out.old) }
{
    sponge::shake256(message, out);
}
