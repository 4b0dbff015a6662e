//! How the segments of a window come and go.
ghost use Rattle.std.specs.Prelude.{◌≡◌, ◌+◌, ◌*◌, ◌/◌, ◌%◌, ◌<◌, ◌≤◌, ◌==◌, ◌++◌, [], ◌∷◌, length, take, drop, if◌then◌else◌};
ghost use Rattle.gj_directory.specs.Directories.{held};
ghost use Rattle.gj_window.specs.Segments.{contiguous_in, going, items_of, pooled_in};

use crate::segments::Segments;
use gj_base::{Item, SegmentView};
use gj_directory::Directory;
use gj_segment::PoolSegment;

/// Lays out what the pool has, with which begins all that is not laid out, and empties the pool.
fn lay_out(directory: &mut Directory, pool: &mut PoolSegment)
    requires few { length pool.old.items ≤ length directory.old.fresh }
    requires begins { take (length pool.old.items) directory.old.fresh ≡ pool.old.items }
    ensures full { directory.new.full ≡ directory.old.full ++ pool.old.items }
    ensures fresh { directory.new.fresh ≡ drop (length pool.old.items) directory.old.fresh }
    ensures room { directory.new.room ≡ directory.old.room }
    ensures names { directory.new.names ≡ directory.old.names }
    ensures users { directory.new.users ≡ directory.old.users }
    ensures posts { directory.new.posts ≡ directory.old.posts }
    ensures pool { pool.new.items ≡ [] }
    ensures pool_room { pool.new.room ≡ pool.old.room }
{
    directory.settle(pool.len());
    pool.clear();
}

/// Where a segment begins, sees to it that all its identifiers find room: those of vertices that left are dropped.
fn make_names(directory: &mut Directory, capacity: u32, taken: u32)
    requires room { length (held directory.old) + capacity ≤ directory.old.names }
    requires users { 0 < taken → length directory.old.users + capacity ≤ directory.old.names + taken }
    requires posts { 0 < taken → length directory.old.posts + capacity ≤ directory.old.names + taken }
    ensures users { length directory.new.users + capacity ≤ directory.new.names + taken }
    ensures posts { length directory.new.posts + capacity ≤ directory.new.names + taken }
    ensures full { directory.new.full ≡ directory.old.full }
    ensures fresh { directory.new.fresh ≡ directory.old.fresh }
    ensures size { directory.new.room ≡ directory.old.room }
    ensures names { directory.new.names ≡ directory.old.names }
{
    if taken == 0 && !directory.has_spare(capacity) {
        directory.rename();
    }
}

impl Segments {
    /// Lays out the full segment that is in pool form, where there is one.
    fn settle_older(&mut self)
        ensures full { self.new.full ≡ self.old.full ++ self.old.older }
        ensures older { self.new.older ≡ [] }
        ensures newest { self.new.newest ≡ self.old.newest }
        ensures conf { self.new.conf ≡ self.old.conf }
    {
        if self.older.len() > 0 {
            lay_out(&mut self.directory, &mut self.older);
            self.whole += 1;
        }
    }

    /// Lays out the newest segment, where it is full.
    fn settle_newest(&mut self)
        requires { self.old.older ≡ [] }
        ensures items { items_of self.new ≡ items_of self.old }
        ensures older { self.new.older ≡ [] }
        ensures short { length self.new.newest < self.new.conf.capacity }
        ensures whole { length self.new.full % self.new.conf.capacity ≡ 0 }
        ensures conf { self.new.conf ≡ self.old.conf }
    {
        if self.newest.is_full() {
            lay_out(&mut self.directory, &mut self.newest);
            self.whole += 1;
        }
    }

    /// Lays out all that is full.
    pub fn compact(&mut self)
        ensures items { items_of self.new ≡ items_of self.old }
        ensures contiguous { contiguous_in self.new ≡ length (items_of self.new) / self.new.conf.capacity }
        ensures pooled { pooled_in self.new ≡ (if length (items_of self.new) % self.new.conf.capacity == 0 then 0 else 1) }
        ensures conf { self.new.conf ≡ self.old.conf }
    {
        self.settle_older();
        self.settle_newest();
    }

    /// Makes a full newest segment the older one, so that a newest one can begin.
    fn turn(&mut self)
        ensures items { items_of self.new ≡ items_of self.old }
        ensures short { length self.new.newest < self.new.conf.capacity }
        ensures conf { self.new.conf ≡ self.old.conf }
    {
        if self.newest.is_full() {
            std::mem::swap(&mut self.older, &mut self.newest);
        }
    }

    /// Sees to it that a segment is laid out.
    fn lay_out_one(&mut self)
        requires { self.old.conf.capacity ≤ length self.old.full + length self.old.older }
        ensures some { self.new.conf.capacity ≤ length self.new.full }
        ensures same { self.new.full ++ self.new.older ≡ self.old.full ++ self.old.older }
        ensures newest { self.new.newest ≡ self.old.newest }
        ensures conf { self.new.conf ≡ self.old.conf }
    {
        if self.whole == 0 {
            self.settle_older();
        }
    }

    /// Drops the oldest segment.
    fn drop_oldest(&mut self)
        requires { self.old.conf.capacity ≤ length self.old.full + length self.old.older }
        ensures left { items_of self.new ≡ drop self.old.conf.capacity (items_of self.old) }
        ensures newest { self.new.newest ≡ self.old.newest }
        ensures conf { self.new.conf ≡ self.old.conf }
    {
        self.lay_out_one();
        self.directory.rotate(self.conf.capacity());
        self.whole -= 1;
    }

    /// Drops the oldest segment where the window is full, and gives the number of interactions that went.
    fn make_room(&mut self) -> u32
        requires { length self.old.newest < self.old.conf.capacity }
        ensures exact { result ≡ going self.old }
        ensures in_range { result ≤ 65536 }
        ensures left { items_of self.new ≡ drop result (items_of self.old) }
        ensures room { length (items_of self.new) < self.new.conf.capacity * self.new.conf.segments }
        ensures newest { self.new.newest ≡ self.old.newest }
        ensures conf { self.new.conf ≡ self.old.conf }
    {
        if self.directory.len() < self.conf.room() {
            return 0;
        }
        self.drop_oldest();
        self.conf.capacity()
    }

    /// Puts the interaction behind the others. Where it fills the newest segment, the older one is laid out.
    fn put(&mut self, item: Item)
        requires short { length self.old.newest < self.old.conf.capacity }
        requires room { length (items_of self.old) < self.old.conf.capacity * self.old.conf.segments }
        ensures items { items_of self.new ≡ items_of self.old ++ item ∷ [] }
        ensures conf { self.new.conf ≡ self.old.conf }
    {
        make_names(&mut self.directory, self.conf.capacity(), self.newest.len());
        self.newest.add(item);
        self.directory.note(item);
        if self.newest.is_full() && self.older.len() > 0 {
            lay_out(&mut self.directory, &mut self.older);
            self.whole += 1;
        }
    }

    /// Puts the interaction at the end, and gives the number of the oldest ones that went before.
    pub fn add(&mut self, item: Item) -> u32
        ensures exact { result ≡ going self.old }
        ensures in_range { result ≤ 65536 }
        ensures items { items_of self.new ≡ drop result (items_of self.old) ++ item ∷ [] }
        ensures conf { self.new.conf ≡ self.old.conf }
    {
        self.turn();
        let went = self.make_room();
        self.put(item);
        went
    }
}
