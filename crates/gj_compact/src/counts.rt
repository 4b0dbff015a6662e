//! Counts of kinds.
ghost use Rattle.std.specs.Prelude.{◌≡◌, ◌<◌, ◌≤◌, ◌^◌, if◌then◌else◌};
ghost use Rattle.gj_base.specs.Kinds.{has_kind, same_kind};

use gj_base::{Kind, Mask};

/// How many there are of each kind.
#[derive(Clone, Copy)]
pub struct Counts {
    pub click: u32,
    pub favorite: u32,
    pub retweet: u32,
    pub reply: u32,
    pub tweet: u32,
}

/// Nothing counted.
pub const NO_COUNTS: Counts = Counts {
    click: 0,
    favorite: 0,
    retweet: 0,
    reply: 0,
    tweet: 0,
};

impl Counts {
    ghost use Rattle.std.specs.Prelude.{◌≡◌, ◌+◌, ◌<◌, if◌then◌else◌};
    ghost use Rattle.gj_base.specs.declared.kind.Kind.{Kind};
    ghost use Rattle.gj_base.specs.Kinds.{same_kind};
    ghost use Rattle.gj_compact.specs.Counting.{kind_count, counted};

    /// One more of this kind.
    pub fn more(self, kind: Kind) -> Counts
        requires { (other : Kind) → kind_count self other < 4294967295 }
        ensures { (other : Kind) → kind_count result other ≡ kind_count self other + (if same_kind other kind then 1 else 0) }
    {
        Counts {
            click: self.click + one(kind, Kind::Click),
            favorite: self.favorite + one(kind, Kind::Favorite),
            retweet: self.retweet + one(kind, Kind::Retweet),
            reply: self.reply + one(kind, Kind::Reply),
            tweet: self.tweet + one(kind, Kind::Tweet),
        }
    }

    /// One less of this kind.
    pub fn less(self, kind: Kind) -> Counts
        requires { 0 < kind_count self kind }
        ensures { (other : Kind) → kind_count result other + (if same_kind other kind then 1 else 0) ≡ kind_count self other }
    {
        let mut counts = self;
        match kind {
            Kind::Click => counts.click -= 1,
            Kind::Favorite => counts.favorite -= 1,
            Kind::Retweet => counts.retweet -= 1,
            Kind::Reply => counts.reply -= 1,
            Kind::Tweet => counts.tweet -= 1,
        }
        counts
    }

    /// How many there are of the mask's kinds, at all moments.
    pub fn of(self, mask: Mask) -> usize
        ensures { result ≡ counted mask self }
    {
        pick(mask, Kind::Click, self.click)
            + pick(mask, Kind::Favorite, self.favorite)
            + pick(mask, Kind::Retweet, self.retweet)
            + pick(mask, Kind::Reply, self.reply)
            + pick(mask, Kind::Tweet, self.tweet)
    }
}

/// 1, where it is that kind. There is no branch in it, since kinds come in any order.
#[inline]
fn one(kind: Kind, other: Kind) -> u32
    ensures exact { result ≡ (if same_kind other kind then 1 else 0) }
    ensures in_range { result ≤ 1 }
{
    u32::from(kind == other)
}

/// The count, where the mask has the kind.
#[inline]
fn pick(mask: Mask, kind: Kind, count: u32) -> usize
    ensures exact { result ≡ (if has_kind mask kind then count else 0) }
    ensures in_range { result < 2 ^ 32 }
{
    if mask.has(kind) { count as usize } else { 0 }
}
