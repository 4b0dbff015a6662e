//! The number at the end of a path.
ghost use Rattle.std.specs.Prelude.{◌≡◌, ◌+◌, ◌-◌, ◌*◌, ◌≤◌, ◌<◌, IfOk, Some, min};
ghost use Rattle.std.specs.Char.{is_ascii_digit};
ghost use Rattle.std.specs.List.{list_all};
ghost use Rattle.gj_request.specs.Requests.{are_digits, digits_value, path_number};

use crate::name::Name;
use crate::refusal::Reason;

/// The number that a text spells, in any number of digits, where it is at most so much.
#[tactic(auto, unfolding(crate::specs::Requests::path_number))]
pub fn read_path_number(name: Name, text: &str, most: u64) -> Result<u64, Reason>
    requires below { most < u64.MAX }
    ensures exact { result ≡ path_number name most (Some text.now) }
    ensures in_range { IfOk result (λ n. n ≤ most) }
{
    if !are_digits(text.as_bytes()) {
        return Err(Reason::Field(name));
    }
    let value = capped_value(text.as_bytes());
    if value <= most {
        Ok(value)
    } else {
        Err(Reason::Range(name))
    }
}

fn are_digits(text: &[u8]) -> bool
    ensures { result ≡ are_digits text.now }
{
    !text.is_empty() && has_only_digits(text)
}

fn has_only_digits(text: &[u8]) -> bool
    ensures { result ≡ list_all is_ascii_digit text.now }
{
    text.iter().all(|digit| digit.is_ascii_digit())
}

/// The number that digits spell; the largest `u64` stands for what is above it.
fn capped_value(text: &[u8]) -> u64
    ensures { result ≡ min (digits_value text.now) u64.MAX }
{
    let mut value: u64 = 0;
    for digit in text {
        value = with_digit(value, *digit);
    }
    value
}

fn with_digit(value: u64, digit: u8) -> u64
    ensures { result ≡ min (10 * value + (digit - 48)) u64.MAX }
{
    value
        .saturating_mul(10)
        .saturating_add(u64::from(digit.saturating_sub(b'0')))
}
