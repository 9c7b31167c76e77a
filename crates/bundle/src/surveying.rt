// The survey: whether bytes are a bundle.
ghost use Rattle.std.specs.Prelude.{◌≡◌};
ghost use Rattle.bundle.specs.Format.{version1};
ghost use Rattle.bundle.specs.Answers.{survey_told};
ghost use Rattle.bundle.specs.Survey.{unlabelled, entries_from, surveys};

use crate::{Entry, Fault, NoEntry, format};
use fields::Number;
use refusal::Refusal;

const MOST_ENTRIES: usize = 65_535;

// Whether what stands in the place of entry zero is unfit to be it.
#[tactic(auto, unfolding(crate::specs::Survey::unlabelled))]
fn is_unlabelled(zero: Result<Entry, NoEntry>) -> bool
    ensures { result ≡ unlabelled zero }
{
    match zero {
        Ok(entry) => entry.body != 0 || format::bad_label(entry.header),
        Err(_) => true,
    }
}

// The entries of a bundle whose first bytes are right, in one pass; last, entry zero. The place goes on by what each entry says of the
// next, and not by an index: an iterator would hand on place and cause with each entry, and be no plainer.
#[tactic(auto, using(crate::proofs::Entries::walk_rules))]
fn survey_entries(bundle: &[u8]) -> Result<usize, Fault>
    ensures { survey_told result ≡ entries_from version1 bundle.now 5 0 }
{
    let mut place = format::FIRST;
    let mut count = 0;
    while place < bundle.len() {
        if count == MOST_ENTRIES {
            return Err(Fault {
                refusal: Refusal::Full,
                place,
            });
        }
        match format::entry_at(bundle, place) {
            Ok(entry) => place = entry.next,
            Err(cause) => return Err(cause.at(place)),
        }
        count += 1;
    }
    if is_unlabelled(format::entry_at(bundle, format::FIRST)) {
        return Err(Fault {
            refusal: Refusal::NoLabel,
            place: format::FIRST,
        });
    }
    Ok(count)
}

// The survey (document 01, "Bundle, version 1"): whether bytes are a bundle, and of how many entries. No tag is looked at: a bundle is open when each entry has opened.
#[tactic(auto, using(crate::proofs::Tables::tables), unfolding(crate::specs::Survey::surveys))]
pub fn survey(bundle: &[u8]) -> Result<usize, Fault>
    ensures { survey_told result ≡ surveys version1 bundle.now }
{
    let bytes = bundle.len();
    if bytes == 0 || format::MOST_BYTES < bytes {
        return Err(Refusal::Malformed.into());
    }
    if bundle[0] != format::VERSION {
        return Err(Refusal::OtherVersion.into());
    }
    if bytes < format::FIRST || u32::read(bundle, 1) as usize != bytes - format::FIRST {
        return Err(Fault {
            refusal: Refusal::Malformed,
            place: 1,
        });
    }
    survey_entries(bundle)
}
