//! A segment, as its readers see it.

use crate::kind::Kind;
use crate::mask::Mask;
use crate::side::Side;

/// The interactions of one segment, at most 65536. The vertices of each side are numbered in the order of their first
/// appearance, from 0; a place and an index count from 0 too. No call takes memory.
pub trait SegmentView {
    ghost use Rattle.std.specs.Prelude.{◌≡◌, ◌<◌, ◌≤◌, List, length, count_by, Some, IfSome, slice_get, slice_index};
    ghost use Rattle.gj_base.specs.declared.item.Item.{Item};
    ghost use Rattle.gj_base.specs.Ends.{ends, passes};
    ghost use Rattle.gj_base.specs.Firsts.{place_of};
    ghost use Rattle.gj_base.specs.Kinds.{all_kinds};
    ghost use Rattle.gj_base.specs.Numbered.{vertices_of, numbered, dated_ends};

    // The interactions that it holds, in order.
    ghost listed: { Self → List Item };

    /// How many interactions it holds.
    fn len(&self) -> u32
        ensures exact { result ≡ length (listed self.now) }
        ensures in_range { result ≤ 65536 };

    /// The interaction at a place: the number of its user, the number of its post, its kind and its moment.
    fn item(&self, i: u32) -> (u32, u32, Kind, u64)
        requires { i < length (listed self.now) }
        ensures { slice_get (numbered (listed self.now)) i ≡ Some (record { user = result.0; post = result.1; kind = result.2; at = result.3 }) };

    /// How many vertices the side has.
    fn vertices(&self, side: Side) -> u32
        ensures exact { result ≡ length (vertices_of (listed self.now) side) }
        ensures in_range { result ≤ 65536 };

    /// The identifier of a vertex.
    fn id_of(&self, side: Side, v: u32) -> u64
        requires { v < length (vertices_of (listed self.now) side) }
        ensures { result ≡ slice_index (vertices_of (listed self.now) side) v };

    /// The number of the vertex with this identifier, and `None` exactly where no interaction is at it.
    fn number_of(&self, side: Side, id: u64) -> Option<u32>
        ensures exact { result ≡ place_of (vertices_of (listed self.now) side) id }
        ensures in_range { IfSome result (λ v. v < length (vertices_of (listed self.now) side)) };

    /// How many interactions are at the vertex.
    fn degree(&self, side: Side, v: u32) -> u32
        requires { v < length (vertices_of (listed self.now) side) }
        ensures exact { result ≡ length (ends (numbered (listed self.now)) side v all_kinds) }
        ensures in_range { result ≤ 65536 };

    /// One of the interactions at the vertex, by its index in order: the number of the vertex across, its kind and its
    /// moment.
    fn dated_edge(&self, side: Side, v: u32, i: u32) -> (u32, Kind, u64)
        requires vertex { v < length (vertices_of (listed self.now) side) }
        requires index { i < length (ends (numbered (listed self.now)) side v all_kinds) }
        ensures { slice_get (dated_ends (numbered (listed self.now)) side v) i ≡ Some result };

    /// How many interactions the mask lets through.
    fn total(&self, mask: Mask) -> u32
        ensures exact { result ≡ count_by (passes mask) (listed self.now) }
        ensures in_range { result ≤ 65536 };

    /// One of the interactions at the vertex, by its index in order: the number of the vertex across, and its kind.
    fn edge(&self, side: Side, v: u32, i: u32) -> (u32, Kind)
        requires vertex { v < length (vertices_of (listed self.now) side) }
        requires index { i < length (ends (numbered (listed self.now)) side v all_kinds) }
        ensures { slice_get (ends (numbered (listed self.now)) side v all_kinds) i ≡ Some result }
    {
        let (end, kind, _at) = self.dated_edge(side, v, i);
        (end, kind)
    }

    /// How many interactions are at the vertex and eligible.
    fn count_of(&self, side: Side, v: u32, mask: Mask) -> u32
        requires { v < length (vertices_of (listed self.now) side) }
        ensures exact { result ≡ length (ends (numbered (listed self.now)) side v mask) }
        ensures in_range { result ≤ 65536 }
    {
        if mask == Mask::all() {
            return self.degree(side, v);
        }
        let mut count = 0;
        for i in 0..self.degree(side, v) {
            let (_end, kind, at) = self.dated_edge(side, v, i);
            if mask.lets(kind, at) {
                count += 1;
            }
        }
        count
    }

    /// One of the eligible interactions at the vertex, by its index in order: the number of the vertex across, and its
    /// kind.
    fn nth_of(&self, side: Side, v: u32, mask: Mask, i: u32) -> (u32, Kind)
        requires vertex { v < length (vertices_of (listed self.now) side) }
        requires index { i < length (ends (numbered (listed self.now)) side v mask) }
        ensures { slice_get (ends (numbered (listed self.now)) side v mask) i ≡ Some result }
    {
        if mask == Mask::all() {
            return self.edge(side, v, i);
        }
        let mut left = i;
        for k in 0..self.degree(side, v) {
            let (end, kind, at) = self.dated_edge(side, v, k);
            if mask.lets(kind, at) {
                if left == 0 {
                    return (end, kind);
                }
                left -= 1;
            }
        }
        unreachable!()
    }
}
