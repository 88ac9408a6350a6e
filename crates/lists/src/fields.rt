//! The numbers of a list, the high byte first, each with what stands behind it.
ghost use Rattle.std.specs.Prelude.{◌≡◌, ◌+◌, ◌<◌, length, take, drop, MatchOption};
ghost use Rattle.std.specs.Int.{w16, w64, from_be_bytes};
ghost use Rattle.std.specs.List.{IsFirstAndRest};

/// The first byte of `s` and what follows it; none where `s` is empty.
pub fn one(s: &[u8]) -> Option<(u8, &[u8])>
    ensures { MatchOption result (length s.now ≡ 0) (λ p. IsFirstAndRest s.now p.0 p.1.now) }
{
    let (byte, rest) = s.split_first()?;
    Some((*byte, rest))
}

/// The number that the first two bytes of `s` hold and what follows them; none where there are fewer.
pub fn two(s: &[u8]) -> Option<(u16, &[u8])>
    ensures { MatchOption result (length s.now < 2) (λ p. (p.0 ≡ from_be_bytes w16 (take 2 s.now)) × (p.1.now ≡ drop 2 s.now) × (length p.1.now + 2 ≡ length s.now)) }
{
    let (bytes, rest) = s.split_first_chunk::<2>()?;
    Some((u16::from_be_bytes(*bytes), rest))
}

/// The number that the first eight bytes of `s` hold and what follows them; none where there are fewer.
pub fn eight(s: &[u8]) -> Option<(u64, &[u8])>
    ensures { MatchOption result (length s.now < 8) (λ p. (p.0 ≡ from_be_bytes w64 (take 8 s.now)) × (p.1.now ≡ drop 8 s.now) × (length p.1.now + 8 ≡ length s.now)) }
{
    let (bytes, rest) = s.split_first_chunk::<8>()?;
    Some((u64::from_be_bytes(*bytes), rest))
}
