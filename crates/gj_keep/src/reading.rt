//! Which rows are bad.
ghost use Rattle.std.specs.Prelude.{◌≡◌, ◌<◌, ◌^◌};
ghost use Rattle.gj_keep.specs.Rows.{is_in_range, first_apart, may_begin, first_bad, first_place};

use gj_base::{Conf, HISTORY_END, KeptItem, MAX_ID};

/// Whether the numbers of the row are in their ranges.
fn in_range(row: &KeptItem) -> bool
    ensures { result ≡ is_in_range row.now }
{
    row.user <= MAX_ID
        && row.post <= MAX_ID
        && row.kind <= 4
        && row.moment <= MAX_ID
        && row.place < HISTORY_END
}

/// Whether so many rows may begin at the place. Their last place may pass all that a `u64` has.
fn begins(conf: Conf, place: u64, count: u64) -> bool
    requires { 0 < count }
    ensures { result ≡ may_begin conf place count }
{
    let capacity = u64::from(conf.capacity());
    let retained = u64::from(conf.room()) - capacity;
    place % capacity == 0 && (place == 0 || retained < count)
}

/// The index of the first row that is out of range, or doesn't stand at the next place.
fn apart(first: u64, rows: &[KeptItem]) -> Option<u64>
    requires { first < 2 ^ 48 }
    ensures { result ≡ first_apart first 0 rows.now }
{
    let mut place = first;
    for (i, row) in rows.iter().enumerate() {
        if !in_range(row) || row.place != place {
            return Some(i as u64);
        }
        place += 1;
    }
    None
}

/// The place of the first row, 0 where there is none.
pub(crate) fn first_of(rows: &[KeptItem]) -> u64
    ensures { result ≡ first_place rows.now }
{
    match rows.first() {
        Some(row) => row.place,
        None => 0,
    }
}

/// The index of the first bad row.
pub(crate) fn bad_row(conf: Conf, rows: &[KeptItem]) -> Option<u64>
    ensures { result ≡ first_bad conf rows.now }
{
    let Some(row) = rows.first() else {
        return None;
    };
    if row.place >= HISTORY_END || !begins(conf, row.place, rows.len() as u64) {
        return Some(0);
    }
    apart(row.place, rows)
}
