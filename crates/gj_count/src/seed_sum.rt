//! A sum over seeds.
ghost use Rattle.std.specs.Prelude.{◌≡◌, ◌≤◌};
ghost use Rattle.gj_count.specs.Sums.{no_sum, with_seed, IsWithin};

/// A sum to which each seed adds once, however often it is met. Seeds come in turns, which are counted from 1.
#[derive(Clone, Copy)]
pub struct SeedSum {
    pub total: u64,
    /// The turn of the last seed that added; 0 where none did.
    pub last: u64,
}

impl SeedSum {
    /// No seed has added.
    pub fn new() -> SeedSum
        ensures { result ≡ no_sum }
    {
        SeedSum { total: 0, last: 0 }
    }

    /// After the seed of this turn added an amount, if it had not before.
    pub fn with_seed(self, turn: u64, amount: u64) -> SeedSum
        requires turn { turn ≤ 1000 }
        requires amount { amount ≤ 1000000 }
        requires within { IsWithin turn self }
        ensures exact { result ≡ with_seed self turn amount }
        ensures within { IsWithin turn result }
    {
        if self.last == turn {
            return self;
        }
        SeedSum {
            total: self.total + amount,
            last: turn,
        }
    }
}
