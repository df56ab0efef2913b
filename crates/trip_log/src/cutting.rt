//! Bytes, cut at a byte.
ghost use Rattle.std.specs.Prelude.{◌≡◌, MatchOption, None, Some};
ghost use Rattle.trip_log.specs.inner.Cuts.{cut_at, front_of};

/// The bytes before the first one that is this byte, and those after it.
pub(crate) fn cut(bytes: &[u8], byte: u8) -> Option<(&[u8], &[u8])>
    ensures { MatchOption result (cut_at byte bytes.now ≡ None)
        (λ cut. cut_at byte bytes.now ≡ Some (cut.0.now, cut.1.now)) }
{
    for (place, b) in bytes.iter().enumerate() {
        if *b == byte {
            return Some((&bytes[..place], &bytes[place + 1..]));
        }
    }
    None
}

/// The bytes without the last one.
pub(crate) fn front(bytes: &[u8]) -> &[u8]
    ensures { result.now ≡ front_of bytes.now }
{
    if bytes.is_empty() {
        return bytes;
    }
    &bytes[..bytes.len() - 1]
}
