//! Bytes cut at the first LF.
ghost use Rattle.std.specs.Prelude.{◌≡◌, [], ◌∷◌, MatchOption};
ghost use Rattle.cap_deriv.specs.Told.{ended_lines};

/// The first line, and what follows its LF.
pub(crate) fn first_line(bytes: &[u8]) -> Option<(&[u8], &[u8])>
    ensures { MatchOption result (ended_lines bytes.now ≡ [])
        (λ p. ended_lines bytes.now ≡ p.0.now ∷ ended_lines p.1.now) }
{
    if bytes.is_empty() {
        return None;
    }
    for (i, byte) in bytes.iter().enumerate() {
        if *byte == b'\n' {
            return Some((&bytes[..i], &bytes[i + 1..]));
        }
    }
    Some((bytes, &[]))
}
