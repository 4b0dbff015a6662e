//! How many entries of the history each seat posted.
ghost use Rattle.std.specs.Prelude.{◌≡◌, ◌+◌, ◌<◌, ◌≤◌, ◌^◌, length, replicate, slice_index_or, slice_set, IfSome};

use std::alloc::Global;
use std::marker::Model;

/// A number for each seat, from seat 1 on. Contracts see the list of them.
#[derive(Drop)]
pub struct Counted {
    numbers: Vec<u64>,
}

impl Model for Counted {
    ghost use Rattle.std.specs.Prelude.{ℕ, List};

    ghost Value = { List ℕ };

    ghost view = { λ c. c.numbers.items };
}

impl Counted {
    /// So many zeros. `None` is want of memory.
    pub fn zeros(alloc: Global, places: u32) -> Option<Counted>
        ensures { IfSome result (λ c. c ≡ replicate places 0) }
    {
        match vec![in alloc; 0; places as usize] {
            Ok(numbers) => Some(Counted { numbers }),
            Err(_) => None,
        }
    }

    /// The number at this index.
    pub fn get(&self, i: usize) -> u64
        requires { i < length self.now }
        ensures { result ≡ slice_index_or self.now i 0 }
    {
        self.numbers[i]
    }

    /// Raises the number at this index.
    pub fn add(&mut self, i: usize, count: u64)
        requires inside { i < length self.old }
        requires room { slice_index_or self.old i 0 + count ≤ 2 ^ 48 }
        ensures { self.new ≡ slice_set self.old i (slice_index_or self.old i 0 + count) }
    {
        self.numbers[i] += count;
    }
}
