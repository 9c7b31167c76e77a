// Running a file: its lines are read one after the other, and its cases counted.
ghost use Rattle.std.specs.Prelude.{◌≤◌, ◌↔◌, List, ℕ, IsSome};
ghost use Rattle.vectors.specs.Bounds.{Tallied};

use crate::lines::Lines;
use crate::tally::Tally;
use std::io::Read;

// A file of some kind as far as it is read.
pub trait Cases {
    // Which lines end a case.
    ghost Ends: { List ℕ → Type 0 };

    // Reads one more line. Where that ends a case, answers whether the case agrees.
    fn read(&mut self, line: &[u8]) -> Option<bool>
        ensures { IsSome result ↔ Ends line.now };
}

// Runs every case of a file of no more than `most` lines.
pub fn run<R: Read>(lines: &mut Lines<'_, R>, cases: &mut impl Cases, most: u64) -> Tally
    requires { most ≤ 65536 }
    ensures { Tallied result most }
{
    let mut tally = Tally::default();
    for _ in 0..most {
        let Some(line) = lines.next() else {
            break;
        };
        if let Some(agrees) = cases.read(line) {
            tally = tally.counted(agrees);
        }
    }
    tally
}
