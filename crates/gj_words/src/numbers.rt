//! The values of options.
ghost use Rattle.std.specs.Prelude.{◌≡◌, ◌+◌, ◌-◌, ◌*◌, ◌≤◌, min};
ghost use Rattle.std.specs.Char.{is_ascii_digit};
ghost use Rattle.std.specs.List.{list_all};
ghost use Rattle.gj_words.specs.Values.{has_digits, digits_value, number_of};

/// The numbers that an option takes.
#[derive(Clone, Copy, Debug)]
pub struct Range {
    pub least: u64,
    pub most: u64,
}

/// The number that a text of one to twenty digits spells, where it is in range.
pub fn number_of(range: Range, text: &str) -> Option<u64>
    ensures { result ≡ number_of range text.now }
{
    let digits = text.as_bytes();
    if !has_digits(digits) {
        return None;
    }
    let value = digits_value(digits);
    if u128::from(range.least) <= value && value <= u128::from(range.most) {
        Some(value as u64)
    } else {
        None
    }
}

/// One to twenty ASCII digits.
fn has_digits(text: &[u8]) -> bool
    ensures { result ≡ has_digits text.now }
{
    1 <= text.len() && text.len() <= 20 && has_only_digits(text)
}

fn has_only_digits(text: &[u8]) -> bool
    ensures { result ≡ list_all is_ascii_digit text.now }
{
    text.iter().all(|digit| digit.is_ascii_digit())
}

/// The number that digits spell; the largest `u128` stands for what is above it.
fn digits_value(text: &[u8]) -> u128
    ensures { result ≡ min (digits_value text.now) u128.MAX }
{
    let mut value: u128 = 0;
    for digit in text {
        value = with_digit(value, *digit);
    }
    value
}

fn with_digit(value: u128, digit: u8) -> u128
    ensures { result ≡ min (10 * value + (digit - 48)) u128.MAX }
{
    value
        .saturating_mul(10)
        .saturating_add(u128::from(digit.saturating_sub(b'0')))
}
