//! The segments of a window, in both forms.
ghost use Rattle.std.specs.Prelude.{◌≡◌, ◌+◌, ◌*◌, ◌≤◌, [], length, IfOk};
ghost use Rattle.gj_base.specs.Configuration.{IsConfiguration};
ghost use Rattle.gj_window.specs.Segments.{items_of, pooled_in, contiguous_in, any_of};

use gj_base::{Conf, Memory, SegmentView};
use gj_directory::Directory;
use gj_segment::PoolSegment;
use std::alloc::Global;
use std::marker::Model;

/// The directory has `whole` full segments laid out. What is not laid out is in the pools: a full segment, or none, in
/// `older`, and then the newest one.
#[derive(Drop)]
pub struct Segments {
    pub(crate) conf: Conf,
    pub(crate) directory: Directory,
    pub(crate) older: PoolSegment,
    pub(crate) newest: PoolSegment,
    pub(crate) whole: u32,
}

impl Model for Segments {
    ghost use Rattle.gj_window.specs.Segments.{Segmented, seen_of, IsSegmented};

    ghost Value = { Segmented };

    ghost view = { seen_of };

    ghost invariant = { IsSegmented };
}

/// 1, where the pool is in use.
fn in_use(pool: &PoolSegment) -> u32
    ensures { result ≡ any_of pool.now.items }
{
    if pool.len() == 0 { 0 } else { 1 }
}

/// How many identifiers have numbers at most.
fn names_for(conf: Conf) -> u32
    ensures room { conf.capacity * conf.segments + conf.capacity ≤ result }
    ensures fits { result ≤ 8388608 }
{
    let room = conf.room();
    room + room / 16 + 2 * conf.capacity()
}

impl Segments {
    /// No segment yet. It takes all memory that they will use.
    pub fn new(alloc: Global, conf: Conf) -> Result<Segments, Memory>
        ensures conf { IfOk result (λ s. s.conf ≡ conf) }
        ensures empty { IfOk result (λ s. items_of s ≡ []) }
        ensures in_range { IfOk result (λ _. IsConfiguration conf.capacity conf.segments) }
    {
        let capacity = conf.capacity();
        let directory = Directory::new(alloc, conf.room(), names_for(conf))?;
        let older = PoolSegment::new(alloc, capacity)?;
        let newest = PoolSegment::new(alloc, capacity)?;
        Ok(Segments {
            conf,
            directory,
            older,
            newest,
            whole: 0,
        })
    }

    /// How much they hold at most.
    pub fn conf(&self) -> Conf
        ensures exact { result ≡ self.now.conf }
        ensures in_range { IsConfiguration result.capacity result.segments }
    {
        self.conf
    }

    /// How many of them are in pool form, and how many in contiguous form.
    pub fn forms(&self) -> (u32, u32)
        ensures pooled { result.0 ≡ pooled_in self.now }
        ensures contiguous { result.1 ≡ contiguous_in self.now }
    {
        (in_use(&self.older) + in_use(&self.newest), self.whole)
    }
}
