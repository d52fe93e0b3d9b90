//! Decimal numbers of any length: the lengths in a head are compared as numbers, however many digits they have.
ghost use Rattle.std.specs.Prelude.{◌≡◌, ◌≢◌, ◌≤◌, ◌<◌, ◌^◌, ◌==◌, true, length, get_or, MatchOption};
ghost use Rattle.std.specs.List.{list_all};
ghost use Rattle.std.specs.Char.{is_ascii_digit};
ghost use Rattle.un_http.specs.Head.{is_number, number};

fn are_digits(text: &[u8]) -> bool
    ensures { result ≡ list_all is_ascii_digit text.now }
{
    text.iter().all(|byte| byte.is_ascii_digit())
}

/// Whether the text is one or more decimal digits.
pub(crate) fn is_number(text: &[u8]) -> bool
    ensures { result ≡ is_number text.now }
{
    !text.is_empty() && are_digits(text)
}

// The digits without leading zeros.
fn without_zeros(digits: &[u8]) -> &[u8]
    requires { list_all is_ascii_digit digits.now ≡ true }
    ensures digits { list_all is_ascii_digit result.now ≡ true }
    ensures same { number result.now ≡ number digits.now }
    ensures first { 0 < length result.now → get_or result.now 0 0 ≢ 48 }
{
    let mut rest = digits;
    while let [b'0', tail @ ..] = rest {
        rest = tail;
    }
    rest
}

/// Whether two texts of digits are the same number.
pub(crate) fn same_number(one: &[u8], other: &[u8]) -> bool
    requires one { is_number one.now ≡ true }
    requires other { is_number other.now ≡ true }
    ensures { result ≡ (number one.now == number other.now) }
{
    without_zeros(one) == without_zeros(other)
}

/// The number that the digits stand for, or `None` if it is over `most`.
pub(crate) fn small_number(digits: &[u8], most: u64) -> Option<u64>
    requires digits { is_number digits.now ≡ true }
    requires most { most ≤ 2 ^ 56 }
    ensures { MatchOption result (most < number digits.now)
        (λ size. (size ≡ number digits.now) × (size ≤ most)) }
{
    let mut size: u64 = 0;
    for digit in digits {
        size = size * 10 + (*digit - b'0') as u64;
        if size > most {
            return None;
        }
    }
    Some(size)
}
