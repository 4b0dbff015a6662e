//! The level of a place.
ghost use Rattle.std.specs.Prelude.{◌≡◌, ◌^◌, ◌<◌};
ghost use Rattle.gj_pool.specs.Levels.{hops_to};

/// The number of links that lead to a place.
pub fn links_to(place: u64) -> u32
    requires { place < 2 ^ 33 }
    ensures { result ≡ hops_to place }
{
    (place + 2).ilog2() - 1
}
