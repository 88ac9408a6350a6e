//! What any number says of a kind: what the kind says whose code it is, and else no.
ghost use Rattle.std.specs.Prelude.{◌≡◌};
ghost use Rattle.meaning.specs.Kinds.{may_key, may_carry, has_children};

use crate::kind::Kind;

/// Whether it is the code of a kind that may be a key or a set member.
#[inline(always)]
#[tactic(auto, using(crate::proofs::Numbers::known))]
pub fn may_key(code: u64) -> bool
    ensures { result ≡ may_key code }
{
    match Kind::from_code(code) {
        Some(kind) => kind.may_be_key(),
        None => false,
    }
}

/// Whether it is the code of a kind that may carry an attribute.
#[inline(always)]
#[tactic(auto, using(crate::proofs::Numbers::known))]
pub fn may_carry(code: u64) -> bool
    ensures { result ≡ may_carry code }
{
    match Kind::from_code(code) {
        Some(carrier) => carrier.may_carry(),
        None => false,
    }
}

/// Whether it is the code of a kind that has children.
#[inline(always)]
#[tactic(auto, using(crate::proofs::Numbers::known))]
pub fn has_children(code: u64) -> bool
    ensures { result ≡ has_children code }
{
    match Kind::from_code(code) {
        Some(holder) => holder.has_children(),
        None => false,
    }
}
