//! The protocols as types: code over a profile is compiled apart for each.
ghost use Rattle.std.specs.Prelude.{◌≡◌, Bool, true, false, refl};
ghost use Rattle.meaning.specs.Kinds.{kind_of, resp2, resp3};
ghost use Rattle.meaning.specs.Kinds as spec;
ghost use Rattle.kinds.specs.Codes.{coded};

use crate::kind::Kind;

/// A protocol: its type bytes, and whether it is RESP3. The definition's profile also has a mode, complete or streaming, which only the top of a call asks for; here it is complete.
pub trait Profile {
    /// What the definition knows it by.
    ghost profile: { spec.Profile };

    ghost THREE: { Bool };

    /// Whether it is RESP3.
    const THREE: bool;

    /// The kind of a type byte.
    fn kind(b: u8) -> Option<Kind>
        ensures { coded result ≡ kind_of profile b };

    ghost three: { profile.three ≡ THREE };
}

pub struct Resp2;

impl Profile for Resp2 {
    ghost profile = { resp2 };

    ghost THREE = { false };

    const THREE: bool = false;

    ghost three = { refl };

    #[inline(always)]
    fn kind(b: u8) -> Option<Kind> {
        Kind::of_resp2(b)
    }
}

pub struct Resp3;

impl Profile for Resp3 {
    ghost profile = { resp3 };

    ghost THREE = { true };

    const THREE: bool = true;

    ghost three = { refl };

    #[inline(always)]
    fn kind(b: u8) -> Option<Kind> {
        Kind::of_resp3(b)
    }
}
