// What came of a file's cases, and the line that says so.
ghost use Rattle.std.specs.Prelude.{◌≡◌, false, ◌+◌, ◌≤◌, ◌<◌};
ghost use Rattle.vectors.specs.Bounds.{differing, more};

use std::io;

// How many cases were run, how many agreed, and which was the first that did not, counted from 0 as NIST's COUNT is.
#[derive(Clone, Copy, Default)]
pub struct Tally {
    pub run: u64,
    pub agreed: u64,
    pub first: Option<u64>,
}

impl Tally {
    // One more case. It counts as agreeing only where it agrees.
    pub fn counted(self, agrees: bool) -> Tally
        requires { (self.agreed ≤ self.run) × (self.run < 65536) }
        ensures { (result.run ≡ self.run + 1) × (result.agreed ≡ more agrees self.agreed) × (result.agreed ≤ result.run) × (result.first ≡ differing agrees self) }
    {
        if agrees {
            return Tally {
                run: self.run + 1,
                agreed: self.agreed + 1,
                first: self.first,
            };
        }
        Tally {
            run: self.run + 1,
            agreed: self.agreed,
            first: self.first_differing(),
        }
    }

    // The first that differs once one more does: that one, where all before agreed.
    #[tactic(auto, using(refusal::proofs::Rows::rows))]
    fn first_differing(self) -> Option<u64>
        ensures { result ≡ differing false self }
    {
        if self.agreed == self.run {
            Some(self.run)
        } else {
            self.first
        }
    }
}

// The line of a file: its name in a column of 23, the longest, and its numbers in columns of 7.
pub fn print_tally(rt: &impl Print, name: &str, tally: Tally) -> io::Result<()> {
    let run = tally.run;
    let agreed = tally.agreed;
    print!(rt; "{name:23}{run:>7} cases{agreed:>7} agree")?;
    if let Some(first) = tally.first {
        print!(rt; "   first differs: case {first}")?;
    }
    println!(rt; "")
}

// The line of a file that is not there.
pub fn print_missing(rt: &impl Print, name: &str) -> io::Result<()> {
    println!(rt; "{name:23}   cannot be opened")
}

// The line of a worked example.
pub fn print_example(rt: &impl Print, text: &str, agrees: bool) -> io::Result<()> {
    let word = if agrees { "agrees" } else { "differs" };
    println!(rt; "{text}   {word}")
}
