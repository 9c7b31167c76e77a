// The limits, and each call's tests in their order. The numbers are those of a key, a tag's length and a header.
ghost use Rattle.std.specs.Prelude.{◌≡◌};
ghost use Rattle.refusal.specs.Rows.{first};
ghost use Rattle.refusal.specs.Numbers.{told};
ghost use Rattle.kmac.specs.Refusals.{cshake_rows, kmac_rows, kmacxof_rows};

use refusal::{Refusal, bad_size};

// Names and customisations have so many bytes at most, as headers do.
const MOST_STRING: usize = 65_535;

#[tactic(auto, using(refusal::proofs::Rows::rows))]
pub fn of_cshake(name: usize, customisation: usize) -> Result<(), Refusal>
    ensures { told result ≡ first (cshake_rows name customisation) }
{
    if MOST_STRING < name {
        return Err(Refusal::LongHeader);
    }
    if MOST_STRING < customisation {
        return Err(Refusal::LongHeader);
    }
    Ok(())
}

#[tactic(auto, using(refusal::proofs::Rows::rows))]
pub fn of_kmac(key: usize, out: usize, customisation: usize) -> Result<(), Refusal>
    ensures { told result ≡ first (kmac_rows key out customisation) }
{
    if bad_size(key) {
        return Err(Refusal::BadKey);
    }
    if bad_size(out) {
        return Err(Refusal::BadTagLength);
    }
    if MOST_STRING < customisation {
        return Err(Refusal::LongHeader);
    }
    Ok(())
}

#[tactic(auto, using(refusal::proofs::Rows::rows))]
pub fn of_kmacxof(key: usize, customisation: usize) -> Result<(), Refusal>
    ensures { told result ≡ first (kmacxof_rows key customisation) }
{
    if bad_size(key) {
        return Err(Refusal::BadKey);
    }
    if MOST_STRING < customisation {
        return Err(Refusal::LongHeader);
    }
    Ok(())
}
