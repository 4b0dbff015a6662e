//! Laws of the levels.
ghost use Rattle.std.specs.Prelude.{◌≡◌, ℕ, ◌+◌, ◌*◌, ◌^◌, ◌<◌, ◌≤◌};
ghost use Rattle.gj_pool.specs.Levels.{hops_to, spent};

/// The slices of the levels from 1 that hold a list, links counted, have at most three cells for each cell of the list.
pub fn spent_is_small()
    ensures small { (degree : ℕ) → spent degree ≤ 3 * degree }
{}

/// The links to place `i` are one less than the largest number whose power of 2 is at most `i + 2`.
pub fn hops_are_by_powers()
    ensures reached { (i : ℕ) → 2 ^ (hops_to i + 1) ≤ i + 2 }
    ensures no_more { (i : ℕ) → i + 2 < 2 ^ (hops_to i + 2) }
{}
