//! The sums of one post.
ghost use Rattle.std.specs.Prelude.{◌≡◌, ◌≤◌};
ghost use Rattle.gj_count.specs.Sums.{no_sums, with_end, has_least, AreWithin};

use crate::seed_sum::SeedSum;
use gj_base::{Kind, KindLeast};

/// What the seeds add to a post: the sum of their weights, and how many there are of each kind.
#[derive(Clone, Copy)]
pub struct PostSums {
    pub weight: SeedSum,
    pub click: SeedSum,
    pub favorite: SeedSum,
    pub retweet: SeedSum,
    pub reply: SeedSum,
    pub tweet: SeedSum,
}

impl PostSums {
    /// No seed has added.
    pub fn new() -> PostSums
        ensures { result ≡ no_sums }
    {
        PostSums {
            weight: SeedSum::new(),
            click: SeedSum::new(),
            favorite: SeedSum::new(),
            retweet: SeedSum::new(),
            reply: SeedSum::new(),
            tweet: SeedSum::new(),
        }
    }

    /// After the seed of this turn, which has this weight, is met by an interaction of a kind.
    pub fn with_end(self, kind: Kind, turn: u64, weight: u64) -> PostSums
        requires turn { turn ≤ 1000 }
        requires weight { weight ≤ 1000000 }
        requires within { AreWithin turn self }
        ensures exact { result ≡ with_end turn weight self kind }
        ensures within { AreWithin turn result }
    {
        let weight = self.weight.with_seed(turn, weight);
        match kind {
            Kind::Click => PostSums {
                weight,
                click: self.click.with_seed(turn, 1),
                ..self
            },
            Kind::Favorite => PostSums {
                weight,
                favorite: self.favorite.with_seed(turn, 1),
                ..self
            },
            Kind::Retweet => PostSums {
                weight,
                retweet: self.retweet.with_seed(turn, 1),
                ..self
            },
            Kind::Reply => PostSums {
                weight,
                reply: self.reply.with_seed(turn, 1),
                ..self
            },
            Kind::Tweet => PostSums {
                weight,
                tweet: self.tweet.with_seed(turn, 1),
                ..self
            },
        }
    }

    /// Whether enough seeds were met, kind by kind.
    pub fn has_least(self, least: KindLeast) -> bool
        ensures { result ≡ has_least least self }
    {
        least.click as u64 <= self.click.total
            && least.favorite as u64 <= self.favorite.total
            && least.retweet as u64 <= self.retweet.total
            && least.reply as u64 <= self.reply.total
            && least.tweet as u64 <= self.tweet.total
    }
}
