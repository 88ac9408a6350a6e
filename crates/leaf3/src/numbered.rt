//! A line whose text is ignored, where any number stands for the kind.
ghost use Rattle.meaning.specs.Kinds.{resp3};
ghost use Rattle.meaning.specs.Frames.{blank_p};
ghost use Rattle.text.specs.Reads.{Gives};
ghost use Rattle.leaf.specs.Numbered.{words_of};

use leaf::numbered::Words;
use refusal::Stop;
use text::Cursor;

/// A line whose text is ignored.
#[tactic(auto, using(text::proofs::Chain::reading))]
#[inline(always)]
pub fn blank<'a>(c: Cursor<'a>, kind: u64) -> Result<(Words, Cursor<'a>), Stop>
    ensures { Gives (blank_p resp3 kind) words_of c.entry result }
{
    let (_, next) = c.line()?;
    let words = Words {
        kind,
        w1: 0,
        w2: 0,
        w3: 0,
    };
    Ok((words, next))
}
