// Runs every case of NIST's response files for SHA3-256, SHAKE128 and SHAKE256 through the library, and of the files of sessions
// and bundles that a program apart from it made, and prints for each file how many cases it has, how many agree, and the first that
// does not. Then document 01's examples that are run.
#![tactic(auto)]

ghost use Rattle.std.specs.Prelude.{◌≤◌};

mod bundles;
mod cases;
mod chains;
mod entries;
mod examples;
mod hashes;
mod lines;
mod messages;
mod named;
mod pairs;
mod sessions;
mod tally;
mod text;

use bundles::Bundles;
use cases::Cases;
use chains::Chains;
use hashes::Hash;
use lines::Lines;
use messages::Messages;
use sessions::Sessions;
use std::rt::Files;
use std::{fs, io};

// How many lines are read of a file of NIST's, and of one of sessions or bundles.
const NIST_LINES: u64 = 65_536;

const OTHER_LINES: u64 = 65_535;

// Runs a file of no more than `most` lines through its cases and prints what came of it.
fn reported(
    rt: &(impl Files + Print),
    name: &str,
    cases: &mut impl Cases,
    most: u64,
) -> io::Result<()>
    requires { most ≤ 65536 }
{
    let Ok(file) = fs::open(rt, name) else {
        return tally::print_missing(rt, name);
    };
    let mut buffer = [0u8; 65536];
    let mut lines = Lines::new(file, &mut buffer);
    let tally = cases::run(&mut lines, cases, most);
    tally::print_tally(rt, name, tally)
}

// The files of one hash: of single messages, and of Monte Carlo chains.
fn hash_reported(
    rt: &(impl Files + Print),
    hash: Hash,
    messages: &[&str],
    chains: &str,
) -> io::Result<()> {
    for name in messages {
        reported(rt, name, &mut Messages::new(hash), NIST_LINES)?;
    }
    reported(rt, chains, &mut Chains::new(hash), NIST_LINES)
}

fn main(rt: HostRuntime) -> io::Result<()> {
    hash_reported(
        &rt,
        Hash::Sha3_256,
        &["SHA3_256ShortMsg.rsp", "SHA3_256LongMsg.rsp"],
        "SHA3_256Monte.rsp",
    )?;
    hash_reported(
        &rt,
        Hash::Shake128,
        &[
            "SHAKE128ShortMsg.rsp",
            "SHAKE128LongMsg.rsp",
            "SHAKE128VariableOut.rsp",
        ],
        "SHAKE128Monte.rsp",
    )?;
    hash_reported(
        &rt,
        Hash::Shake256,
        &[
            "SHAKE256ShortMsg.rsp",
            "SHAKE256LongMsg.rsp",
            "SHAKE256VariableOut.rsp",
        ],
        "SHAKE256Monte.rsp",
    )?;
    reported(
        &rt,
        "SpongeWrap_sessions.rsp",
        &mut Sessions::new(),
        OTHER_LINES,
    )?;
    reported(&rt, "Bundle_v1.rsp", &mut Bundles::new(), OTHER_LINES)?;
    examples::print_all(&rt)
}
