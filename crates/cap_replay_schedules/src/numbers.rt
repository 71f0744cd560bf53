//! Numbers, and the pieces of a text between separators.
ghost use Rattle.std.specs.Prelude.{◌≡◌, ◌≤◌, ◌<◌, ◌∷◌, length, IfSome, option_map};
ghost use Rattle.cap_replay_schedules.specs.Numbers.{more_digits, natural, number as the_number};
ghost use Rattle.cap_replay_schedules.specs.Pieces.{pieces, pieces_behind};

// The number that goes on with these digits.
fn more_digits(limit: u128, value: u128, digits: &[u8]) -> Option<u128>
    requires { value ≤ limit }
    ensures is { result ≡ more_digits limit value digits.now }
    ensures limit { IfSome result (λ n. n ≤ limit) }
{
    match digits {
        [] => Some(value),
        [digit, rest @ ..] => {
            if !digit.is_ascii_digit() {
                return None;
            }
            let next = value
                .checked_mul(10)?
                .checked_add(u128::from(*digit - b'0'))?;
            if next > limit {
                return None;
            }
            more_digits(limit, next, rest)
        }
    }
}

/// A number of at most the limit, without leading zeros.
pub(crate) fn natural(limit: u128, word: &[u8]) -> Option<u128>
    requires { 9 ≤ limit }
    ensures is { result ≡ natural limit word.now }
    ensures limit { IfSome result (λ n. n ≤ limit) }
{
    match word {
        [] => None,
        [first, rest @ ..] => {
            if *first == b'0' {
                return if rest.is_empty() { Some(0) } else { None };
            }
            if !first.is_ascii_digit() {
                return None;
            }
            more_digits(limit, u128::from(*first - b'0'), rest)
        }
    }
}

/// A number within 128 bits.
pub(crate) fn number(word: &[u8]) -> Option<i128>
    ensures { result ≡ the_number word.now }
{
    match word {
        [] => None,
        [first, rest @ ..] => {
            if *first == b'-' {
                let amount = natural(1 << 127, rest)?;
                return if amount == 0 {
                    None
                } else {
                    Some(-1 - (amount - 1) as i128)
                };
            }
            let amount = natural((1 << 127) - 1, word)?;
            Some(amount as i128)
        }
    }
}

/// The first piece of a text, and the text behind its separator, where there is one.
pub(crate) fn cut(bytes: &[u8], separator: u8) -> (&[u8], Option<&[u8]>)
    ensures cuts { pieces separator bytes.now
        ≡ result.0.now ∷ pieces_behind separator (option_map (λ r. r.now) result.1) }
    ensures shorter { IfSome result.1 (λ r. length r.now < length bytes.now) }
{
    for (i, byte) in bytes.iter().enumerate() {
        if *byte == separator {
            return (&bytes[..i], Some(&bytes[i + 1..]));
        }
    }
    (bytes, None)
}
