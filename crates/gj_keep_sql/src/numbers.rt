//! Numbers of a row. SQLite's are signed.
ghost use Rattle.std.specs.Prelude.{◌≡◌, ◌^◌, ◌≤◌, pos, IfOk, IfErr};
ghost use Rattle.gj_keep_sql.specs.Numbers.{number_of};

use sqlite::{Error, Row};

/// The number, where a negative one stands for the largest: no check of a kept number lets that pass.
pub fn number_of(number: i64) -> u64
    ensures { result ≡ number_of number }
{
    if number < 0 { u64::MAX } else { number as u64 }
}

/// The number in the column.
pub fn number_at(row: &Row, column: usize) -> Result<u64, Error> {
    let number: i64 = row.get(column)?;
    Ok(number_of(number))
}

/// The number in the column. A negative one is refused.
pub fn unsigned_at(row: &Row, column: usize) -> Result<i64, Error> {
    let number: i64 = row.get(column)?;
    if number < 0 {
        return Err(Error::IntegralValueOutOfRange(column));
    }
    Ok(number)
}

/// The number as SQLite's. One that has none is refused, as the parameter at this place.
pub fn signed(number: u64, place: usize) -> Result<i64, Error>
    ensures ok { IfOk result (λ n. n ≡ pos number) }
    ensures err { IfErr result (λ why. (2 ^ 63 ≤ number) × (why ≡ Error.IntegralValueOutOfRange place)) }
{
    match i64::try_from(number) {
        Ok(number) => Ok(number),
        Err(_) => Err(Error::IntegralValueOutOfRange(place)),
    }
}
