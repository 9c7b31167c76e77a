// The lines of a file, one after the other, through a buffer that is refilled.
ghost use Rattle.std.specs.Prelude.{◌≡◌, ◌≤◌, ◌+◌, [], ◌++◌, List, ℕ, None, Some, slice_range, IfSome, MatchOption};
ghost use Rattle.std.specs.Io.KnownBytes.{Consumes};
ghost use Rattle.vectors.specs.Bounds.{Part};
ghost use Rattle.vectors.specs.FirstLine.{IsFirst, first_line, newline, unreturned};

use std::io::Read;

// How many bytes a line has, without the return and newline that end it, and how many with them.
#[derive(Clone, Copy)]
struct Size {
    line: usize,
    whole: usize,
}

// Where the first newline stands; none where there is none.
fn newline(bytes: &[u8]) -> Option<usize>
    ensures { result ≡ newline bytes.now }
{
    bytes.iter().position(|b| *b == b'\n')
}

// A line without the return at its end, if there is one.
#[tactic(auto, using(crate::proofs::FirstLine::unreturned_empty, crate::proofs::FirstLine::unreturned_return, crate::proofs::FirstLine::unreturned_other))]
fn without_return(line: &[u8]) -> &[u8]
    ensures { result.now ≡ unreturned line.now }
{
    match line {
        [front @ .., b'\r'] => front,
        _ => line,
    }
}

// The size of the first line; none where no newline is there.
#[tactic(auto, using(crate::proofs::FirstLine::first_none))]
fn first(bytes: &[u8]) -> Option<Size>
    ensures { IsFirst result bytes.now }
{
    let at = newline(bytes)?;
    let line = without_return(&bytes[..at]);
    Some(Size {
        line: line.len(),
        whole: at + 1,
    })
}

// A file, and the part of the buffer that holds bytes which were read from it and not yet handed out.
#[derive(Drop)]
pub struct Lines<'a, R: Read> {
    file: R,
    buffer: &'a mut [u8],
    start: usize,
    end: usize,
    ghost unread: { Part start end buffer.now },
}

impl<'a, R: Read> Lines<'a, R> {
    pub(crate) fn new(file: R, buffer: &'a mut [u8]) -> Lines<'a, R>
        ensures file { result.file ≡ file }
        ensures unread { slice_range result.buffer.now result.start result.end ≡ [] }
    {
        Lines {
            file,
            buffer,
            start: 0,
            end: 0,
        }
    }

    // What is unread.
    fn unread(&self) -> &[u8]
        ensures { result.now ≡ slice_range self.now.buffer.now self.now.start self.now.end }
    {
        &self.buffer[self.start..self.end]
    }

    // Keeps what is unread and fills the buffer up behind it from the file.
    fn refill(&mut self)
        ensures { (more : List ℕ) × Consumes (R.remaining self.old.file) (R.remaining self.new.file) more × (slice_range self.new.buffer.now self.new.start self.new.end ≡ slice_range self.old.buffer.now self.old.start self.old.end ++ more) }
    {
        let kept = self.end - self.start;
        self.buffer.copy_within(self.start..self.end, 0);
        self.start = 0;
        self.end = kept + reading::read_full(&mut self.file, &mut self.buffer[kept..]);
    }

    // The size of the first line that is unread, after the buffer is refilled if it holds no whole line.
    fn sized(&mut self) -> Option<Size>
        ensures reads { (more : List ℕ) × Consumes (R.remaining self.old.file) (R.remaining self.new.file) more × (slice_range self.new.buffer.now self.new.start self.new.end ≡ slice_range self.old.buffer.now self.old.start self.old.end ++ more) }
        ensures sized { IsFirst result (slice_range self.new.buffer.now self.new.start self.new.end) }
    {
        let size = first(self.unread());
        if size.is_some() {
            return size;
        }
        self.refill();
        first(self.unread())
    }

    // Takes the next line out of what is unread, and answers where it stands in the buffer.
    fn taken(&mut self) -> Option<(usize, usize)>
        ensures within { IfSome result (λ line. Part line.0 line.1 self.new.buffer.now) }
        ensures taken { (more : List ℕ) × Consumes (R.remaining self.old.file) (R.remaining self.new.file) more × MatchOption result (first_line (slice_range self.old.buffer.now self.old.start self.old.end ++ more) ≡ None × (slice_range self.new.buffer.now self.new.start self.new.end ≡ slice_range self.old.buffer.now self.old.start self.old.end ++ more)) (λ line. first_line (slice_range self.old.buffer.now self.old.start self.old.end ++ more) ≡ Some (slice_range self.new.buffer.now line.0 line.1, slice_range self.new.buffer.now self.new.start self.new.end)) }
    {
        let size = self.sized()?;
        let start = self.start;
        self.start += size.whole;
        Some((start, start + size.line))
    }

    // The next line of the file, without the newline that ends it (or the return and newline). There is none at the end of the
    // file, and none where a line is longer than the buffer.
    pub fn next(&mut self) -> Option<&[u8]>
        ensures { (more : List ℕ) × MatchOption result (first_line (slice_range self.old.buffer.now self.old.start self.old.end ++ more) ≡ None) (λ line. (rest : List ℕ) × (first_line (slice_range self.old.buffer.now self.old.start self.old.end ++ more) ≡ Some (line.now, rest))) }
    {
        let (start, end) = self.taken()?;
        Some(&self.buffer[start..end])
    }
}
