//! Numbers as words: decimal, without a sign and without leading zeros.
ghost use Rattle.std.specs.Prelude.{◌≡◌, ◌≢◌, ◌<◌, ◌^◌, ◌⊎◌, ◌↔◌, ℕ, IsTrue, true, get_or, length, MatchOption, decimal};
ghost use Rattle.un_words.specs.Numbers.{ReadsNumber};

// Whether the text begins with a plus, or with a zero that isn't all of it.
fn has_prefix(text: &[u8]) -> bool
    ensures { IsTrue result ↔ ((get_or text.now 0 0 ≡ 43) ⊎ ((get_or text.now 0 0 ≡ 48) × (1 < length text.now))) }
{
    matches!(text, [b'+', ..] | [b'0', _, ..])
}

// The number that the text writes.
fn read_number(text: &str) -> Option<u32>
    ensures { MatchOption result ((number : ℕ) → number < 2 ^ 32 → text.now ≢ decimal number)
        (λ number. text.now ≡ decimal number) }
{
    if has_prefix(text.as_bytes()) {
        return None;
    }
    text.parse::<u32>().ok()
}

/// The number that the text writes, if it is in this range.
pub fn number_within(text: &str, least: u32, most: u32) -> Option<u32>
    ensures { ReadsNumber text.now least most result }
{
    let number = read_number(text)?;
    if number < least || number > most {
        return None;
    }
    Some(number)
}
