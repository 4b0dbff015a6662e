//! A page of a history.

use gj_base::ItemList;
use std::marker::Model;

/// The most interactions of a page. The least is 0.
pub const MAX_PAGE: u64 = 1000;

/// Interactions of a history at their places: `items` stand from the place `from` on. The history had `length`
/// interactions, counted from place 0, when the page was made.
#[derive(Debug, Drop)]
pub struct Page {
    pub length: u64,
    pub from: u64,
    pub items: ItemList,
}

impl Model for Page {
    ghost use Rattle.gj_follow.specs.Pages.{Paged, IsPaged};

    ghost Value = { Paged };

    ghost view = { λ p. record { total = p.length; from = p.from; items = p.items } };

    ghost invariant = { λ p. IsPaged (record { total = p.length; from = p.from; items = p.items }) };
}
