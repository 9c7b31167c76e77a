// The fields of a line: a name, and a number or bytes in hexadecimal digits after it.
ghost use Rattle.std.specs.Prelude.{◌≡◌, ◌≤◌, ◌<◌, [], ◌++◌, length, drop, MatchOption, IfSome, IsNone, IsSome, ◌↔◌};
ghost use Rattle.vectors.specs.Spelled.{HasResult, IsWhole, byte, bytes, digit, is_named, number_after, number_from, value};

// Whether the line starts with the name.
#[tactic(auto, using(crate::proofs::Spelled::named_is))]
pub fn is_named(line: &[u8], name: &[u8]) -> bool
    ensures { result ≡ is_named line.now name.now }
{
    line.starts_with(name)
}

// What follows the name; none where the line has another, or nothing follows.
#[tactic(auto, using(crate::proofs::Spelled::value_other, crate::proofs::Spelled::value_named, crate::proofs::Spelled::value_empty))]
pub(crate) fn value<'a>(line: &'a [u8], name: &[u8]) -> Option<&'a [u8]>
    ensures { MatchOption result (value line.now name.now ≡ []) (λ v. (v.now ≡ value line.now name.now) × (0 < length v.now)) }
{
    let after = line.strip_prefix(name)?;
    if after.is_empty() { None } else { Some(after) }
}

// The value of a digit; none where the byte is no digit. By hand, since std's `to_digit` takes capital letters too.
fn digit(b: u8) -> Option<u8>
    ensures { MatchOption result (digit b ≡ 16) (λ d. (d ≡ digit b) × (d < 16)) }
{
    match b {
        b'0'..=b'9' => Some(b - b'0'),
        b'a'..=b'f' => Some(b - b'a' + 10),
        _ => None,
    }
}

// The decimal number that the text starts with. The largest of the files is below a million. By hand, since std's `parse` refuses
// a text with more behind the number.
#[tactic(auto, using(crate::proofs::Spelled::read_none, crate::proofs::Spelled::read_more, crate::proofs::Spelled::read_stop, crate::proofs::Spelled::read_all))]
fn number(text: &[u8]) -> usize
    ensures { result ≡ number_from 0 text.now }
{
    let mut n = 0;
    for b in text {
        let Some(d @ 0..=9) = digit(*b) else {
            return n;
        };
        if 999_999 < n {
            return n;
        }
        n = 10 * n + d as usize;
    }
    n
}

// The byte that two digits spell; none where they spell none.
#[tactic(auto, using(crate::proofs::Spelled::byte_no_high, crate::proofs::Spelled::byte_no_low, crate::proofs::Spelled::byte_both))]
fn byte(high: u8, low: u8) -> Option<u8>
    ensures { MatchOption result (byte high low ≡ 256) (λ b. (b ≡ byte high low) × (b < 256)) }
{
    Some(16 * digit(high)? + digit(low)?)
}

// Puts the bytes that the digits spell to the front of `out` and answers how many there are; none where the text is not whole
// bytes or `out` is too short.
pub(crate) fn decode(digits: &[u8], out: &mut [u8]) -> Option<usize>
    ensures within { IfSome result (λ n. n ≤ length out.new) }
    ensures whole { IfSome result (λ n. IsWhole digits.now × (n ≡ length (bytes digits.now)) × (out.new ≡ bytes digits.now ++ drop n out.old)) }
    ensures none { IsNone result → IsWhole digits.now → length out.old < length (bytes digits.now) }
{
    let (pairs, rest) = digits.as_chunks::<2>();
    if !rest.is_empty() || out.len() < pairs.len() {
        return None;
    }
    for (i, [high, low]) in pairs.iter().enumerate() {
        out[i] = byte(*high, *low)?;
    }
    Some(pairs.len())
}

// The number of the named field, or what it was before where the line has another.
#[tactic(auto, using(crate::proofs::Spelled::number_none, crate::proofs::Spelled::number_some))]
pub fn number_after(line: &[u8], name: &[u8], before: usize) -> usize
    ensures { result ≡ number_after line.now name.now before }
{
    value(line, name).map_or(before, number)
}

// The digits of a line that ends a case: of its digest or its output. None where the line has neither.
pub fn result(line: &[u8]) -> Option<&[u8]>
    ensures { IsSome result ↔ HasResult line.now }
{
    value(line, b"MD = ").or(value(line, b"Output = "))
}
