//! The cursor: a buffer and a place in it, by value. Each read hands it back moved, or says what stops it.
ghost use Rattle.std.specs.Prelude.{◌≤◌, length};

use crate::scan;
use refusal::Stop;

/// A place in a buffer.
#[derive(Clone, Copy)]
pub struct Cursor<'a> {
    pub src: &'a [u8],
    pub at: usize,
    pub ghost within: { at ≤ length src.now },
}

impl<'a> Cursor<'a> {
    ghost use Rattle.std.specs.Prelude.{◌≡◌, ◌+◌, ◌≤◌, length, drop, IfOk, IfSome};
    ghost use Rattle.meaning.specs.Demand.{line_len};
    ghost use Rattle.text.specs.Lines.{found_of};
    ghost use Rattle.text.specs.Reads.{Gives, Over, reads, told, byte_p, skip_p, text_p};

    /// The next byte.
    #[inline(always)]
    #[tactic(auto, using(crate::proofs::Chain::finding))]
    pub fn byte(self) -> Result<(u8, Cursor<'a>), Stop>
        ensures { Gives byte_p (λ b. b) self.entry result }
    {
        if self.at < self.src.len() {
            Ok((
                self.src[self.at],
                Cursor {
                    src: self.src,
                    at: self.at + 1,
                },
            ))
        } else {
            Err(Stop::Unfinished)
        }
    }

    /// The byte at any place, and the cursor behind it; at a place past the end none is there yet.
    #[inline(always)]
    #[tactic(auto, using(crate::proofs::Chain::finding))]
    pub fn byte_at(src: &'a [u8], at: usize) -> Result<(u8, Cursor<'a>), Stop>
        ensures means { reads byte_p src.now at ≡ told (λ b. b) result }
        ensures over { Over src.now result }
    {
        if at < src.len() {
            Cursor { src, at }.byte()
        } else {
            Err(Stop::Unfinished)
        }
    }

    /// The next n bytes. n may be as large as u64's largest, so it is compared with what is left before a sum is formed.
    #[inline(always)]
    #[tactic(auto, using(crate::proofs::Chain::finding))]
    pub fn skip(self, n: u64) -> Result<(&'a [u8], Cursor<'a>), Stop>
        ensures text { Gives (skip_p n) (λ t. t.now) self.entry result }
        ensures size { IfOk result (λ r. length r.0.now ≡ n) }
    {
        let left = (self.src.len() - self.at) as u64;
        if n <= left {
            let end = self.at + n as usize;
            Ok((
                &self.src[self.at..end],
                Cursor {
                    src: self.src,
                    at: end,
                },
            ))
        } else {
            Err(Stop::Unfinished)
        }
    }

    /// The text of the line that starts here and ends at a place, without its CR LF; none: the line has no end yet.
    #[inline(always)]
    #[tactic(auto, using(crate::proofs::Chain::finding))]
    fn line_to(self, end: Option<usize>) -> Result<(&'a [u8], Cursor<'a>), Stop>
        requires value { end ≡ found_of self.at (line_len (drop self.at self.src.now)) }
        requires bounds { IfSome end (λ n. (self.at + 2 ≤ n) × (n ≤ length self.src.now)) }
        ensures text { Gives text_p (λ t. t.now) self.entry result }
        ensures place { IfOk result (λ r. self.entry.at + length r.0.now + 2 ≡ r.1.at) }
    {
        match end {
            Some(next) => Ok((
                &self.src[self.at..next - 2],
                Cursor {
                    src: self.src,
                    at: next,
                },
            )),
            None => Err(Stop::Unfinished),
        }
    }

    /// The text of the line that starts here, without its CR LF.
    #[inline(always)]
    pub fn line(self) -> Result<(&'a [u8], Cursor<'a>), Stop>
        ensures text { Gives text_p (λ t. t.now) self.entry result }
        ensures place { IfOk result (λ r. self.entry.at + length r.0.now + 2 ≡ r.1.at) }
    {
        self.line_to(scan::line_end(self.src, self.at))
    }

    /// The same, by a call that looks for its end: little code, for a line that is seldom read in the loop that asks.
    #[inline(always)]
    pub fn far_line(self) -> Result<(&'a [u8], Cursor<'a>), Stop>
        ensures text { Gives text_p (λ t. t.now) self.entry result }
        ensures place { IfOk result (λ r. self.entry.at + length r.0.now + 2 ≡ r.1.at) }
    {
        self.line_to(scan::called_line_end(self.src, self.at))
    }
}
