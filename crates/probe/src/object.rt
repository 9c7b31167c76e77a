// The duplex object, in 202 bytes between the calls.
ghost use Rattle.std.specs.Prelude.{◌≡◌, []};
ghost use Rattle.sponge.specs.Sponge.{zeros};
ghost use Rattle.duplex.specs.Object.{duplexes};
ghost use Rattle.image.specs.Calls.{seen, sized};
ghost use Rattle.probe.specs.States.{object_length, object_of, duplex_of, of_object};

use crate::{STATE, lanes_of};
use duplex::Duplex;
use fields::Number;
use refusal::Refusal;

// How many bytes a duplex object has: the state in block order, then the rate, big-endian.
const OBJECT: usize = 202;

// The duplex object that its bytes hold.
#[tactic(auto, unfolding(crate::specs::States::duplex_of))]
fn object_of(object: &[u8; OBJECT]) -> Duplex
    ensures { result ≡ duplex_of object.now }
{
    Duplex {
        lanes: lanes_of(object),
        rate: u16::read(object, STATE),
    }
}

// A duplex object laid over the whole of its bytes.
fn put_object(duplex: Duplex, object: &mut [u8; OBJECT])
    ensures { object.new ≡ object_of duplex }
{
    sponge::put_bytes(duplex.lanes, &mut object[..STATE]);
    duplex.rate.put(object, STATE);
}

// A fresh duplex object at any rate.
#[tactic(auto, using(image::proofs::Calls::other_length, image::proofs::Calls::right_length))]
#[unsafe(no_mangle)]
pub extern "C" fn probe_new_duplex(rate: u16, object: &mut [u8]) -> u8
    ensures { seen result object.new [] ≡ sized object_length object.old [] (seen 0 (object_of (record { lanes = zeros; rate = rate })) []) }
{
    let Some(object) = object.as_mut_array() else {
        return u8::from(Refusal::NoRoom);
    };
    put_object(Duplex::new(rate), object);
    0
}

// One duplexing, which answers 0 where it is done and 1 where it is not. The object that it left goes back either way.
#[tactic(auto, using(image::proofs::Calls::other_length, image::proofs::Calls::right_length))]
#[unsafe(no_mangle)]
pub extern "C" fn probe_duplexing(
    object: &mut [u8],
    piece: &[u8],
    frame: bool,
    out: &mut [u8],
) -> u8
    ensures { seen result object.new out.new ≡ sized object_length object.old out.old (of_object (duplexes (duplex_of object.old) piece.now frame out.old)) }
{
    let Some(object) = object.as_mut_array() else {
        return u8::from(Refusal::NoRoom);
    };
    match object_of(object).duplexing(piece, frame, out) {
        Ok(duplex) => {
            put_object(duplex, object);
            0
        }
        Err(refused) => {
            put_object(refused.duplex, object);
            1
        }
    }
}
