//! Numbers in words.
ghost use Rattle.std.specs.Prelude.{◌≡◌, ◌≤◌, IfSome};
ghost use Rattle.cap_top_words.specs.Number.{begins_number, number_within};

// The text begins with a digit, which is 0 only where it stands alone.
fn begins_number(text: &str) -> bool
    ensures { result ≡ begins_number text.now }
{
    match text.as_bytes() {
        [] => false,
        [only] => b'0' <= *only && *only <= b'9',
        [first, ..] => b'1' <= *first && *first <= b'9',
    }
}

/// The number from `least` to `most` that the text writes in decimal, without leading zeros.
pub(crate) fn number(text: &str, least: u64, most: u64) -> Option<u64>
    ensures exact { result ≡ number_within least most text.now }
    ensures within { IfSome result (λ n. n ≤ most) }
{
    if !begins_number(text) {
        return None;
    }
    match text.parse::<u64>() {
        Ok(number) if least <= number && number <= most => Some(number),
        _ => None,
    }
}
