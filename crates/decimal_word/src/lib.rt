//! Numbers as decimal words.
#![tactic(auto)]

ghost use Rattle.std.specs.Prelude.{◌≡◌, ◌≤◌, ◌<◌, IfSome, IfNone};
ghost use Rattle.std.specs.List.{list_all};
ghost use Rattle.std.specs.Char.{is_ascii_digit};
ghost use Rattle.decimal_word.specs.Numbers.{add_digit, is_decimal, number_of, value_of};

// Whether all bytes are decimal digits.
fn all_digits(word: &[u8]) -> bool
    ensures { result ≡ list_all is_ascii_digit word.now }
{
    word.iter().all(|byte| byte.is_ascii_digit())
}

// Whether a word is decimal digits without a leading zero, `0` itself apart.
fn is_decimal(word: &[u8]) -> bool
    ensures { result ≡ is_decimal word.now }
{
    if word.is_empty() {
        return false;
    }
    if word[0] == b'0' {
        return word.len() == 1;
    }
    all_digits(word)
}

// A value with a digit more at its end, None where that is above `high`.
fn add_digit(value: u64, digit: u8, high: u64) -> Option<u64>
    ensures value { IfSome result (λ more. more ≡ add_digit value digit) }
    ensures within { IfSome result (λ more. more ≤ high) }
    ensures above { IfNone result (high < add_digit value digit) }
{
    let more = u128::from(value) * 10 + u128::from(digit.saturating_sub(b'0'));
    if more > u128::from(high) {
        return None;
    }
    Some(more as u64)
}

// The value of decimal digits, None where it is above `high`.
fn value_within(digits: &[u8], high: u64) -> Option<u64>
    ensures value { IfSome result (λ value. value ≡ value_of digits.now) }
    ensures within { IfSome result (λ value. value ≤ high) }
    ensures above { IfNone result (high < value_of digits.now) }
{
    let mut value = 0;
    'digits: for digit in digits {
        let Some(more) = add_digit(value, *digit, high) else {
            return None;
        };
        value = more;
    }
    Some(value)
}

/// The number that a word is, None exactly where it is none from `low` to `high`.
pub fn number_of(word: &[u8], low: u64, high: u64) -> Option<u64>
    ensures number { result ≡ number_of low high word.now }
    ensures range { IfSome result (λ number. (low ≤ number) × (number ≤ high)) }
{
    if !is_decimal(word) {
        return None;
    }
    let Some(value) = value_within(word, high) else {
        return None;
    };
    if value < low {
        return None;
    }
    Some(value)
}
