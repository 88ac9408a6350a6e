//! The parts of a line, cut at each space, each with the place where it stands.
ghost use Rattle.std.specs.Prelude.{◌≡◌, ◌≤◌, [], ◌∷◌, length};
ghost use Rattle.std.specs.Option.{option_map_or};
ghost use Rattle.meaning.specs.Text.{parts};

use crate::hello::Span;

// A part, and where it stands.
#[derive(Clone, Copy)]
pub(crate) struct Part<'a> {
    pub(crate) text: &'a [u8],
    pub(crate) span: Span,
}

// The parts that are left of a line, in what is left of its text. end: the place of the line's end.
#[derive(Drop)]
pub(crate) struct Parts<'a> {
    left: Option<&'a [u8]>,
    end: usize,
    ghost within: { option_map_or (λ text. length text.now) left 0 ≤ end },
}

impl<'a> Parts<'a> {
    ghost use Rattle.std.specs.Prelude.{◌≡◌, ◌+◌, ◌^◌, ◌<◌, length};
    ghost use Rattle.meaning.specs.Text.{parts};
    ghost use Rattle.text3.specs.Parts.{parts_left, place, IsOnly};

    // The parts of a text that starts at a place.
    pub(crate) fn new(text: &'a [u8], at: usize) -> Parts<'a>
        requires { at + length text.now < 2 ^ 64 }
        ensures left { parts_left result ≡ parts text.now }
        ensures place { place result ≡ at }
    {
        Parts {
            left: Some(text),
            end: at + text.len(),
        }
    }

    // Where the one part stands that is left; none where it is not one.
    pub(crate) fn only(mut self) -> Option<Span>
        ensures { IsOnly self.entry result }
    {
        let part = self.next()?;
        match self.next() {
            None => Some(part.span),
            Some(_) => None,
        }
    }
}

impl<'a> Iterator for Parts<'a> {
    ghost use Rattle.std.specs.Iterator.{item_count};
    ghost use Rattle.text3.specs.Parts.{parts_left, GivesPart};

    type Item = Part<'a>;

    ghost next_gives = { GivesPart };

    ghost remaining = { item_count parts_left };

    fn next(&mut self) -> Option<Part<'a>> {
        let left = self.left?;
        let from = self.end - left.len();
        let (text, left) = cut(left);
        self.left = left;
        Some(Part {
            text,
            span: Span {
                from,
                to: from + text.len(),
            },
        })
    }
}

// The first part of a text, and what follows the space behind it, if one stands there.
fn cut(text: &[u8]) -> (&[u8], Option<&[u8]>)
    ensures parts { parts text.now ≡ result.0.now ∷ option_map_or (λ rest. parts rest.now) result.1 [] }
    ensures within { length result.0.now ≤ length text.now }
    ensures rest { option_map_or (λ rest. length rest.now) result.1 0 ≤ length text.now }
{
    match text.iter().position(|byte| *byte == b' ') {
        Some(end) => (&text[..end], Some(&text[end + 1..])),
        None => (text, None),
    }
}
