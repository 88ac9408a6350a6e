//! The rows that a walk may use, what it says of a frame, and a row that it writes or only counts.
ghost use Rattle.std.specs.Prelude.{◌≡◌, ◌≤◌};
ghost use Rattle.meaning.specs.Rows.{node_of, most_rows};
ghost use Rattle.kinds.specs.Codes.{code_of};
ghost use Rattle.rows.specs.Put.{row_of};
ghost use Rattle.walk.specs.Walks.{put_if};

use kinds::Kind;
use leaf::Leaf;
use rows::Row;

/// How many rows a walk may use, and how many are used. That one is left is no part of the type: a walk may end with none. It is handed on beside the cursor, the table and the depth: a call changes all but the table, so that a struct of them would be made anew at each.
#[derive(Clone, Copy)]
pub struct Room {
    pub lim: usize,
    pub used: usize,
    pub ghost counted: { used ≤ lim },
    pub ghost few: { lim ≤ most_rows },
}

/// How many rows are used behind a frame, and the frame's kind.
#[derive(Clone, Copy)]
pub struct Walked {
    pub kind: Kind,
    pub used: usize,
}

/// A row, written where WRITE is true.
#[inline(always)]
pub(crate) fn put<const WRITE: bool>(t: &mut [u64], row: usize, r: Row)
    ensures { t.new ≡ put_if WRITE t.old row r }
{
    if WRITE {
        rows::put(t, row, r);
    }
}

/// A leaf's row. `attribute`: word 5.
#[inline(always)]
pub(crate) fn put_leaf<const WRITE: bool>(t: &mut [u64], row: usize, leaf: Leaf, attribute: u64)
    ensures { t.new ≡ put_if WRITE t.old row (row_of (node_of (code_of leaf.kind) leaf.w1 leaf.w2 leaf.w3 attribute) 1) }
{
    put::<WRITE>(
        t,
        row,
        Row {
            kind: leaf.kind.code(),
            w1: leaf.w1,
            w2: leaf.w2,
            w3: leaf.w3,
            span: 1,
            attribute,
        },
    );
}
