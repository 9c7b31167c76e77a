// What is refused, and by which number. Nobody else spells a number out.
#![tactic(auto)]

ghost use Rattle.std.specs.Prelude.{◌≡◌, ◌+◌, Some};
ghost use Rattle.std.specs.Fmt.{decimal};
ghost use Rattle.refusal.specs.Rows.{outside, short};
ghost use Rattle.refusal.specs.Limits.{bad_size};
ghost use Rattle.refusal.specs.Numbers.{number_of, told};

use std::error::Error;
use std::fmt;

// Why a call is refused (document 01, "Refusal numbers"). The last three are a bundle's own.
#[derive(Clone, Copy, Debug, PartialEq, Eq, Hash)]
pub enum Refusal {
    BadRate = 1,
    BadKey = 2,
    BadTagLength = 3,
    LongHeader = 4,
    LongBody = 5,
    NoRoom = 6,
    Full = 7,
    WrongTag = 8,
    Malformed = 9,
    OtherVersion = 10,
    NoLabel = 11,
}

impl From<Refusal> for u8 {
    ghost from_gives = { λ refusal n. n ≡ number_of refusal };

    fn from(refusal: Refusal) -> u8 {
        refusal as u8
    }
}

// A refusal is told by its number.
impl fmt::Display for Refusal {
    ghost output = { λ refusal. Some (decimal (number_of refusal)) };

    fn fmt<W: fmt::Write>(&self, f: &mut fmt::Formatter<W>) -> fmt::Result {
        write!(f, "{}", u8::from(*self))
    }
}

impl Error for Refusal {}

// The number of an answer, for callers that take no enum: its refusal's, or 0 where it is accepted.
pub fn number(answer: Result<(), Refusal>) -> u8
    ensures { result ≡ told answer }
{
    match answer {
        Ok(()) => 0,
        Err(refusal) => u8::from(refusal),
    }
}

// Whether a number is under the least or over the most that is taken.
pub fn outside(least: usize, most: usize, n: usize) -> bool
    ensures { result ≡ outside least most n }
{
    n < least || most < n
}

// Whether a lent output lacks room for two strings. The sum of their lengths could wrap, so it is not made.
pub fn is_short(out: usize, first: usize, second: usize) -> bool
    ensures { result ≡ short out (first + second) }
{
    if out < first {
        return true;
    }
    out - first < second
}

// Keys, tags and codes have so many bytes at least and at most.
const LEAST_SIZE: usize = 16;

const MOST_SIZE: usize = 256;

// Whether a key, a tag or a code would have too few or too many bytes.
pub fn bad_size(n: usize) -> bool
    ensures { result ≡ bad_size n }
{
    outside(LEAST_SIZE, MOST_SIZE, n)
}
