//! One frame from a place of a buffer, into rows that the caller lends.
ghost use Rattle.std.specs.Prelude.{◌≡◌, ◌*◌, ◌≤◌, ◌<◌, length, OnErr, true};
ghost use Rattle.meaning.specs.Rows.{row_width, rows_in, most_rows};
ghost use Rattle.kinds.specs.Codes.{coded};
ghost use Rattle.answers.specs.Answers.{Decoded};
ghost use Rattle.walk.specs.Walks.{Walks};
ghost use Rattle.walk.specs.Tops.{Known, Holds, moded, held_p, judged_p, call_p};

use crate::apart::{FEW, Held, NESTED, apart, rows_to_try, walk_held};
use crate::frames::{anew, is_attribute, is_marker};
use crate::hello::hello;
use crate::walked::{Room, Walked, put_leaf};
use answers::Answer;
use heads::{Head, head_of, near_head, near_holder};
use kinds::{Kind, Profile};
use refusal::{Refusal, Stop};
use text::Cursor;

/// A holder or an attribute at the top: walked without a row written first, so that what is refused or unfinished leaves t.
#[inline(never)]
fn twice<'a, P: Profile>(
    held: Held,
    c: Cursor<'a>,
    t: &mut [u64],
    lim: usize,
    depth: usize,
    complete: bool,
) -> Result<(Walked, Cursor<'a>), Stop>
    requires one { 0 < lim }
    requires few { lim ≤ most_rows }
    requires known { Holds P.profile held }
    ensures walks { Walks (judged_p complete (held_p P.profile depth held)) true c.entry lim 1 0 t.old t.new result }
    ensures kept { OnErr result (t.new ≡ t.old) }
{
    let room = Room { lim, used: 0 };
    let (walked, end) = walk_held::<P, false>(held, c, t, room, depth)?;
    if complete & is_marker(walked.kind) {
        return Err(Stop::Refused(Refusal::Marker, end.at));
    }
    walk_held::<P, true>(held, c, t, room, depth)
}

/// The same, first in ROWS rows beside the table, where it is walked once.
#[inline(always)]
fn tried<'a, P: Profile, const ROWS: usize>(
    held: Held,
    c: Cursor<'a>,
    t: &mut [u64],
    lim: usize,
    depth: usize,
    complete: bool,
) -> Result<(Walked, Cursor<'a>), Stop>
    requires rows { (0 < ROWS) × (ROWS ≤ most_rows) }
    requires one { 0 < lim }
    requires few { lim ≤ most_rows }
    requires table { row_width * lim ≤ length t.old }
    requires known { Holds P.profile held }
    ensures walks { Walks (judged_p complete (held_p P.profile depth held)) true c.entry lim 1 0 t.old t.new result }
    ensures kept { OnErr result (t.new ≡ t.old) }
{
    if let Some(walk) = apart::<P, ROWS>(held, c, t, lim, depth, complete) {
        return walk;
    }
    twice::<P>(held, c, t, lim, depth, complete)
}

/// The same, tried in as many rows as its first bytes ask for.
#[inline(always)]
fn top_held<'a, P: Profile>(
    held: Held,
    c: Cursor<'a>,
    t: &mut [u64],
    lim: usize,
    depth: usize,
    complete: bool,
) -> Result<(Walked, Cursor<'a>), Stop>
    requires one { 0 < lim }
    requires few { lim ≤ most_rows }
    requires table { row_width * lim ≤ length t.old }
    requires known { Holds P.profile held }
    ensures walks { Walks (judged_p complete (held_p P.profile depth held)) true c.entry lim 1 0 t.old t.new result }
    ensures kept { OnErr result (t.new ≡ t.old) }
{
    let most = rows_to_try(held, c);
    if most == FEW {
        return tried::<P, FEW>(held, c, t, lim, depth, complete);
    }
    // In RESP2 half of IMRAZGUL_STACK holds for all, and those rows are too many beside 32 arrays in one another.
    if P::THREE && most == NESTED {
        return tried::<P, NESTED>(held, c, t, lim, depth, complete);
    }
    twice::<P>(held, c, t, lim, depth, complete)
}

/// The frame at the top, behind its type byte, whatever it is. The count of a holder that the next bytes tell is read with no call; a leaf's row is written at once, and a HELLO's rows.
#[inline(never)]
fn far_frame<'a, P: Profile>(
    kind: Option<Kind>,
    c: Cursor<'a>,
    t: &mut [u64],
    depth: usize,
    complete: bool,
) -> Result<(Walked, Cursor<'a>), Stop>
    requires one { 0 < rows_in (length t.old) }
    requires known { Known P.profile (coded kind) }
    ensures walks { Walks (call_p P.profile complete depth (coded kind)) true c.entry (rows_in (length t.old)) 1 0 t.old t.new result }
    ensures kept { OnErr result (t.new ≡ t.old) }
{
    let lim = rows::rows_of(t.len());
    if is_attribute::<P>(kind) {
        return top_held::<P>(Held::Attribute, c, t, lim, depth, complete);
    }
    if let Some(((held, n), next)) = near_holder::<P>(kind, c) {
        return top_held::<P>(Held::Frames(held, n), next, t, lim, depth, complete);
    }
    let (head, next) = head_of::<P>(kind, c)?;
    match head {
        Head::Leaf(leaf) => {
            if complete & is_marker(leaf.kind) {
                return Err(Stop::Refused(Refusal::Marker, next.at));
            }
            put_leaf::<true>(t, 0, leaf, 0);
            let walked = Walked {
                used: 1,
                kind: leaf.kind,
            };
            Ok((walked, next))
        }
        Head::Hello(g) => hello::<true>(g, next, t, Room { lim, used: 0 }, 0),
        Head::Holder(kind, n) => {
            top_held::<P>(Held::Frames(kind, n), next, t, lim, depth, complete)
        }
    }
}

/// The same: a leaf that the next bytes tell is read here, without the stack that the rest takes. A function of its own, so that `decode`, which is short, is compiled into the exported calls: what has no byte is answered there.
#[inline(never)]
fn top_frame<'a, P: Profile>(
    kind: Option<Kind>,
    c: Cursor<'a>,
    t: &mut [u64],
    depth: usize,
    complete: bool,
) -> Result<(Walked, Cursor<'a>), Stop>
    requires one { 0 < rows_in (length t.old) }
    requires known { Known P.profile (coded kind) }
    ensures walks { Walks (call_p P.profile complete depth (coded kind)) true c.entry (rows_in (length t.old)) 1 0 t.old t.new result }
    ensures kept { OnErr result (t.new ≡ t.old) }
{
    if let Some(read) = near_head::<P>(kind, c) {
        let (near, next) = read?;
        put_leaf::<true>(t, 0, near, 0);
        let walked = Walked {
            used: 1,
            kind: near.kind,
        };
        return Ok((walked, next));
    }
    anew(far_frame::<P>(kind, c, t, depth, complete))
}

/// Whether it is a holder, and so no near leaf: in RESP2 one that no minus follows. It chooses a way, and no answer.
#[inline(always)]
fn is_far<P: Profile>(kind: Option<Kind>, c: Cursor) -> bool {
    match kind {
        Some(Kind::Array | Kind::Map | Kind::Set | Kind::Push | Kind::Attribute) => {
            P::THREE || c.at == c.src.len() || c.src[c.at] != b'-'
        }
        _ => false,
    }
}

/// The frame at the top: what is no near leaf has one call less.
#[inline(always)]
fn top<'a, P: Profile>(
    kind: Option<Kind>,
    c: Cursor<'a>,
    t: &mut [u64],
    depth: usize,
    complete: bool,
) -> Result<(Walked, Cursor<'a>), Stop>
    requires one { 0 < rows_in (length t.old) }
    requires known { Known P.profile (coded kind) }
    ensures walks { Walks (call_p P.profile complete depth (coded kind)) true c.entry (rows_in (length t.old)) 1 0 t.old t.new result }
    ensures kept { OnErr result (t.new ≡ t.old) }
{
    if is_far::<P>(kind, c) {
        return far_frame::<P>(kind, c, t, depth, complete);
    }
    top_frame::<P>(kind, c, t, depth, complete)
}

/// One frame from a place of src on, its rows in t, with at most `depth` frames in one another; where it is not `complete`, a marker is an answer too. An unfinished or refused decode leaves t as it was.
#[inline(always)]
pub fn decode<P: Profile>(
    src: &[u8],
    at: usize,
    t: &mut [u64],
    depth: usize,
    complete: bool,
) -> Result<Answer, Stop>
    ensures { Decoded (moded P.profile complete) depth src.now at t.old t.new result }
{
    if depth == 0 {
        return Err(Stop::Refused(Refusal::Depth, at));
    }
    if rows::rows_of(t.len()) == 0 {
        return Err(Stop::Refused(Refusal::Rows, at));
    }
    if src.len() < at {
        return Err(Stop::Unfinished);
    }
    let (b, c) = Cursor { src, at }.byte()?;
    let (walked, end) = top::<P>(P::kind(b), c, t, depth - 1, complete)?;
    let n = end.at - at;
    if is_marker(walked.kind) {
        return Ok(Answer::Marker(n, walked.used));
    }
    Ok(Answer::Frame(n, walked.used))
}
