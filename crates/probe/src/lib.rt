// Exports for tests and benchmarks, and nothing else: what the desks call is in `desk`. They answer numbers, as C does.
#![tactic(auto)]

mod hashing; // hashing.rt: the permutation and the hashes
mod object; // object.rt: the duplex object
mod sessions; // sessions.rt: sessions that travel as images
mod bundles; // bundles.rt: bundles

ghost use Rattle.std.specs.Prelude.{◌≡◌, ◌≤◌, length};
ghost use Rattle.probe.specs.States.{lanes_of};

// How many bytes a state has.
const STATE: usize = 200;

// The lanes of the state that bytes in block order begin with: of a state, or of a duplex object, which has more bytes.
// It takes a slice of either: an array of 200 was tried, and asks an object for an `unwrap` and for a second proof that its first bytes are its lanes.
fn lanes_of(b: &[u8]) -> [u64; 25]
    requires { 200 ≤ length b.now }
    ensures { result ≡ lanes_of b.now }
{
    sponge::mixed([0u64; 25], &b[..STATE])
}
