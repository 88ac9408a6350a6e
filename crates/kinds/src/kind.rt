//! A kind, its code, its columns, and the kind of each type byte.
ghost use Rattle.std.specs.Prelude.{◌≡◌, ltb};
ghost use Rattle.meaning.specs.Choice.{pick};
ghost use Rattle.meaning.specs.Kinds.{resp2, resp3, kind_of, may_key, may_carry, has_children};
ghost use Rattle.kinds.specs.Codes.{code_of, coded};
ghost use Rattle.kinds.specs.Entries.{IsKinds, IsColumns};

/// What a row is: a kind of frame, a marker, or a field of a Hello.
#[derive(Clone, Copy, Debug, PartialEq, Eq)]
pub enum Kind {
    SimpleString,
    SimpleError,
    Number,
    Double,
    Boolean,
    Null,
    BlobString,
    BlobError,
    Verbatim,
    BigNumber,
    ChunkedString,
    EndStream,
    Array,
    Map,
    Set,
    Push,
    Attribute,
    Hello,
    Marker,
    User,
    Password,
    Name,
}

/// Indexed by the type byte: the code of its kind in RESP2, 0 where there is none.
const KINDS2: [u8; 256] = [
    0, 0, 0, 0, 0, 0, 0, 0, 0, 0, 0, 0, 0, 0, 0, 0, 0, 0, 0, 0, 0, 0, 0, 0, 0, 0, 0, 0, 0, 0, 0, 0,
    0, 0, 0, 0, 7, // $
    0, 0, 0, 0, 0, 13, // *
    1, // +
    0, 2, // -
    0, 0, 0, 0, 0, 0, 0, 0, 0, 0, 0, 0, 3, // :
    0, 0, 0, 0, 0, 0, 0, 0, 0, 0, 0, 0, 0, 0, 0, 0, 0, 0, 0, 0, 0, 0, 0, 0, 0, 0, 0, 0, 0, 0, 0, 0,
    0, 0, 0, 0, 0, 0, 0, 0, 0, 0, 0, 0, 0, 0, 0, 0, 0, 0, 0, 0, 0, 0, 0, 0, 0, 0, 0, 0, 0, 0, 0, 0,
    0, 0, 0, 0, 0, 0, 0, 0, 0, 0, 0, 0, 0, 0, 0, 0, 0, 0, 0, 0, 0, 0, 0, 0, 0, 0, 0, 0, 0, 0, 0, 0,
    0, 0, 0, 0, 0, 0, 0, 0, 0, 0, 0, 0, 0, 0, 0, 0, 0, 0, 0, 0, 0, 0, 0, 0, 0, 0, 0, 0, 0, 0, 0, 0,
    0, 0, 0, 0, 0, 0, 0, 0, 0, 0, 0, 0, 0, 0, 0, 0, 0, 0, 0, 0, 0, 0, 0, 0, 0, 0, 0, 0, 0, 0, 0, 0,
    0, 0, 0, 0, 0, 0, 0, 0, 0, 0, 0, 0, 0, 0, 0, 0, 0, 0, 0, 0, 0, 0, 0, 0, 0, 0, 0, 0, 0, 0, 0, 0,
    0, 0, 0, 0, 0,
];

/// The same in RESP3.
const KINDS3: [u8; 256] = [
    0, 0, 0, 0, 0, 0, 0, 0, 0, 0, 0, 0, 0, 0, 0, 0, 0, 0, 0, 0, 0, 0, 0, 0, 0, 0, 0, 0, 0, 0, 0, 0,
    0, 8, // !
    0, 5, // #
    7, // $
    14, // %
    0, 0, 10, // (
    0, 13, // *
    1, // +
    4, // ,
    2, // -
    12, // .
    0, 0, 0, 0, 0, 0, 0, 0, 0, 0, 0, 3, // :
    11, // ;
    0, 9, // =
    16, // >
    0, 0, 0, 0, 0, 0, 0, 0, 0, 18, // H
    0, 0, 0, 0, 0, 0, 0, 0, 0, 0, 0, 0, 0, 0, 0, 0, 0, 0, 0, 0, 0, 0, 6, // _
    0, 0, 0, 0, 0, 0, 0, 0, 0, 0, 0, 0, 0, 0, 0, 0, 0, 0, 0, 0, 0, 0, 0, 0, 0, 0, 0, 0, 17, // |
    0, 15, // ~
    0, 0, 0, 0, 0, 0, 0, 0, 0, 0, 0, 0, 0, 0, 0, 0, 0, 0, 0, 0, 0, 0, 0, 0, 0, 0, 0, 0, 0, 0, 0, 0,
    0, 0, 0, 0, 0, 0, 0, 0, 0, 0, 0, 0, 0, 0, 0, 0, 0, 0, 0, 0, 0, 0, 0, 0, 0, 0, 0, 0, 0, 0, 0, 0,
    0, 0, 0, 0, 0, 0, 0, 0, 0, 0, 0, 0, 0, 0, 0, 0, 0, 0, 0, 0, 0, 0, 0, 0, 0, 0, 0, 0, 0, 0, 0, 0,
    0, 0, 0, 0, 0, 0, 0, 0, 0, 0, 0, 0, 0, 0, 0, 0, 0, 0, 0, 0, 0, 0, 0, 0, 0, 0, 0, 0, 0, 0, 0, 0,
    0,
];

/// The column of a kind that says whether it may be a key or a set member.
pub const KEY: usize = 0;

/// The column that says whether it may carry an attribute.
pub const CARRY: usize = 1;

/// The column that says whether it has children.
pub const CHILDREN: usize = 2;

/// Indexed by the code: whether it may be a key or a set member, may carry an attribute, has children.
const COLUMNS: [[bool; 3]; 23] = [
    [false, false, false], // 0, no kind
    [true, true, false], // 1 SimpleString
    [true, true, false], // 2 SimpleError
    [true, true, false], // 3 Number
    [true, true, false], // 4 Double
    [true, true, false], // 5 Boolean
    [true, false, false], // 6 Null
    [true, true, false], // 7 BlobString
    [true, true, false], // 8 BlobError
    [true, true, false], // 9 Verbatim
    [true, true, false], // 10 BigNumber
    [true, false, false], // 11 ChunkedString
    [true, false, false], // 12 EndStream
    [false, true, true], // 13 Array
    [false, true, true], // 14 Map
    [false, true, true], // 15 Set
    [false, true, true], // 16 Push
    [false, false, true], // 17 Attribute
    [false, false, false], // 18 Hello
    [false, true, false], // 19 a streaming marker
    [false, false, false], // 20 Hello's user
    [false, false, false], // 21 Hello's password
    [false, false, false], // 22 Hello's name
];

/// RESP2's entries, where they stand.
#[inline(always)]
pub fn all2() -> &'static [u8; 256]
    ensures { IsKinds resp2 result.now }
{
    &KINDS2
}

/// RESP3's.
#[inline(always)]
pub fn all3() -> &'static [u8; 256]
    ensures { IsKinds resp3 result.now }
{
    &KINDS3
}

/// The columns, by code.
#[inline(always)]
pub fn all_columns() -> &'static [[bool; 3]; 23]
    ensures { IsColumns result.now }
{
    &COLUMNS
}

impl Kind {
    /// The code by which a row's word 0 names it, 1 to 22.
    #[inline(always)]
    pub fn code(self) -> u64
        ensures { result ≡ code_of self }
    {
        self as u64 + 1
    }

    /// The kind that a code names. By a `match`, not `TryFrom`: a code is what a row's word holds, and no error says more than that there is no such kind.
    #[inline(always)]
    pub fn from_code(code: u64) -> Option<Kind>
        ensures { coded result ≡ pick (ltb code 23) code 0 }
    {
        match code {
            1 => Some(Kind::SimpleString),
            2 => Some(Kind::SimpleError),
            3 => Some(Kind::Number),
            4 => Some(Kind::Double),
            5 => Some(Kind::Boolean),
            6 => Some(Kind::Null),
            7 => Some(Kind::BlobString),
            8 => Some(Kind::BlobError),
            9 => Some(Kind::Verbatim),
            10 => Some(Kind::BigNumber),
            11 => Some(Kind::ChunkedString),
            12 => Some(Kind::EndStream),
            13 => Some(Kind::Array),
            14 => Some(Kind::Map),
            15 => Some(Kind::Set),
            16 => Some(Kind::Push),
            17 => Some(Kind::Attribute),
            18 => Some(Kind::Hello),
            19 => Some(Kind::Marker),
            20 => Some(Kind::User),
            21 => Some(Kind::Password),
            22 => Some(Kind::Name),
            _ => None,
        }
    }

    /// The kind of a type byte of RESP2. No `TryFrom<u8>`: a byte has a kind by protocol.
    #[tactic(auto, using(crate::proofs::AllBytes::named))]
    #[inline(always)]
    pub fn of_resp2(b: u8) -> Option<Kind>
        ensures { coded result ≡ kind_of resp2 b }
    {
        Kind::from_code(all2()[b as usize] as u64)
    }

    /// The kind of a type byte of RESP3.
    #[tactic(auto, using(crate::proofs::AllBytes::named))]
    #[inline(always)]
    pub fn of_resp3(b: u8) -> Option<Kind>
        ensures { coded result ≡ kind_of resp3 b }
    {
        Kind::from_code(all3()[b as usize] as u64)
    }

    /// Whether it may be a key or a set member.
    #[inline(always)]
    pub fn may_be_key(self) -> bool
        ensures { result ≡ may_key (code_of self) }
    {
        COLUMNS[self.code() as usize][KEY]
    }

    /// Whether it may carry an attribute.
    #[inline(always)]
    pub fn may_carry(self) -> bool
        ensures { result ≡ may_carry (code_of self) }
    {
        COLUMNS[self.code() as usize][CARRY]
    }

    /// Whether it has children.
    #[inline(always)]
    pub fn has_children(self) -> bool
        ensures { result ≡ has_children (code_of self) }
    {
        COLUMNS[self.code() as usize][CHILDREN]
    }
}
