// The Monte Carlo files, by the rules of NIST's SHA3VS: a case is the last output of a chain of a thousand hashes, each of which
// hashes the output before it. For SHA3-256 the message is the whole digest. For SHAKE it is the first 16 bytes of the output, filled up with
// zeros if that is shorter, and the last two bytes of an output choose how long the next one is. The chain's first output has the most bytes.
ghost use Rattle.std.specs.Prelude.{◌≡◌, ◌+◌, ◌-◌, ◌%◌, ◌≤◌};
ghost use Rattle.vectors.specs.Bounds.{Chain};
ghost use Rattle.vectors.specs.Chains.{chosen, linked, links};
ghost use Rattle.vectors.specs.Spelled.{HasResult};

use crate::cases::Cases;
use crate::hashes::Hash;
use crate::{hashes, named};

// The lengths of a file's outputs in bits: the least, the most, and that of the case.
#[derive(Clone, Copy, Default)]
struct Lengths {
    least: usize,
    most: usize,
    output: usize,
}

impl Lengths {
    // Reads one more line.
    fn read(&mut self, line: &[u8]) {
        self.least = named::number_after(line, b"[L = ", self.least);
        self.most = named::number_after(line, b"[L = ", self.most);
        self.output = named::number_after(line, b"[L = ", self.output);
        self.least = named::number_after(line, b"[Minimum Output Length (bits) = ", self.least);
        self.most = named::number_after(line, b"[Maximum Output Length (bits) = ", self.most);
        self.output = named::number_after(line, b"Outputlen = ", self.output);
    }
}

// A link of the chain: one output, at the front of 256 bytes of zeros; how long it is, and how long the next one will be. The
// definition of a chain speaks of these three, so the length stands beside the bytes.
#[derive(Clone, Copy)]
struct Link {
    output: [u8; 256],
    length: usize,
    next: usize,
}

// The number from `least` to `most` that `x` chooses.
fn within(x: usize, least: usize, most: usize) -> usize
    requires { (least ≤ most) × (most ≤ 256) }
    ensures { (result ≡ least + x % (most - least + 1)) × (least ≤ result) × (result ≤ most) }
{
    least + x % (most - least + 1)
}

// The length of the next output, chosen by the last two bytes of this one, big-endian.
fn next_length(output: [u8; 256], length: usize, least: usize, most: usize) -> usize
    requires { Chain least length most }
    ensures { (result ≡ chosen output length least most) × Chain least result most }
{
    let last = u16::from_be_bytes([output[length - 2], output[length - 1]]);
    within(last as usize, least, most)
}

// One hash more.
fn linked(link: Link, hash: Hash, least: usize, most: usize) -> Link
    requires { Chain least link.next most }
    ensures { (result ≡ linked hash least most link) × Chain least result.next most }
{
    let length = link.next;
    let output = hashes::chained(hash, link.output, length);
    Link {
        output,
        length,
        next: next_length(output, length, least, most),
    }
}

// A thousand hashes more.
#[tactic(auto, using(crate::proofs::Links::links_more), unfolding(crate::specs::Chains::links))]
fn thousand(link: Link, hash: Hash, least: usize, most: usize) -> Link
    requires { Chain least link.next most }
    ensures { result ≡ links hash least most 1000 link }
{
    let mut last = link;
    'chain: for _ in 0..1000u32 {
        last = linked(last, hash, least, most);
    }
    last
}

// A chain as far as it is read. There is no link before the chain's start, and none where the file's lengths make no chain.
#[derive(Clone, Copy)]
pub struct Chains {
    hash: Hash,
    lengths: Lengths,
    link: Option<Link>,
}

impl Chains {
    // Nothing read yet.
    pub(crate) fn new(hash: Hash) -> Chains {
        Chains {
            hash,
            lengths: Lengths::default(),
            link: None,
        }
    }

    // The link at the end of the next case.
    fn case_end(&self) -> Option<Link> {
        let link = self.link?;
        let least = self.lengths.least / 8;
        let most = self.lengths.most / 8;
        if 2 <= least && least <= link.next && link.next <= most && most <= 256 {
            Some(thousand(link, self.hash, least, most))
        } else {
            None
        }
    }

    // The chain's start where the line has it: an output that is the first message.
    fn started(&self, line: &[u8]) -> Option<Link> {
        let digits = named::value(line, b"Seed = ").or(named::value(line, b"Msg = "))?;
        let mut output = [0u8; 256];
        let length = named::decode(digits, &mut output)?;
        Some(Link {
            output,
            length,
            next: self.lengths.most / 8,
        })
    }

    // Whether the link at the end of a case is the output that the digits spell.
    fn agrees(&self, digits: &[u8]) -> bool {
        let mut expected = [0u8; 256];
        let (Some(link), Some(n)) = (self.link, named::decode(digits, &mut expected)) else {
            return false;
        };
        self.lengths.output == 8 * n && link.length == n && link.output == expected
    }
}

impl Cases for Chains {
    ghost Ends = { HasResult };

    fn read(&mut self, line: &[u8]) -> Option<bool> {
        self.lengths.read(line);
        let Some(digits) = named::result(line) else {
            self.link = self.started(line).or(self.link);
            return None;
        };
        self.link = self.case_end();
        Some(self.agrees(digits))
    }
}
