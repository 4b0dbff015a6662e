ghost use Rattle.std.specs.Prelude.{◌<◌};

use super::*;
use crate::table::{Table, first_slot};
use std::alloc::{AllocError, Global};
use std::test::Fail;

// The identifiers up to `last` that share its first slot.
fn sharing(alloc: Global, shift: u32, last: u64) -> Result<Vec<u64>, AllocError>
    requires { shift < 64 }
{
    let mut ids = Vec::new(alloc);
    for id in 0..=last {
        if first_slot(shift, id) == first_slot(shift, last) {
            ids.push(id)?;
        }
    }
    Ok(ids)
}

#[test]
fn the_first_three_identifiers_of_one_first_slot_are_told_apart(
    rt: HostRuntime,
) -> Result<(), Fail> {
    let shift = Table::new(rt.alloc(), 16)?.shift;
    for last in 0..56 {
        assert!(rt; sharing(rt.alloc(), shift, last)?.len() < 3, "at {last}");
    }
    let ids = sharing(rt.alloc(), shift, 90)?;
    assert_eq!(rt; ids.as_slice(), [1, 22, 56, 90].as_slice());
    let mut map = IdMap::new(rt.alloc(), 16)?;
    for (id, place) in [(56, 0), (22, 1), (1, 2)] {
        assert!(rt; map.spare() > 0);
        assert_eq!(rt; map.put(id), place, "put {id}");
    }
    for (id, place) in [(56, Some(0)), (22, Some(1)), (1, Some(2)), (90, None)] {
        assert_eq!(rt; map.find(id), place, "find {id}");
    }
    Ok(())
}

#[test]
fn a_full_map_answers_and_starts_anew_when_cleared(rt: HostRuntime) -> Result<(), Fail> {
    let mut map = IdMap::new(rt.alloc(), 2)?;
    assert_eq!(rt; (map.len(), map.spare()), (0, 2));
    for id in [u64::MAX, 0] {
        assert!(rt; map.spare() > 0);
        let _place = map.put(id);
    }
    assert_eq!(rt; (map.len(), map.spare()), (2, 0));
    assert_eq!(rt; map.find(7), None);
    map.clear();
    assert_eq!(rt; map.find(0), None);
    assert!(rt; map.spare() > 0);
    assert_eq!(rt; map.put(0), 0);
    assert_eq!(rt; map.id_of(0), 0);
    Ok(())
}

#[test]
fn the_largest_room_takes_65536_identifiers(rt: HostRuntime) -> Result<(), Fail> {
    let mut map = IdMap::new(rt.alloc(), 65536)?;
    for place in 0..65536u32 {
        assert!(rt; map.spare() > 0);
        assert_eq!(rt; map.put(1000 * u64::from(place)), place);
    }
    for place in 0..65536u32 {
        assert_eq!(rt; map.find(1000 * u64::from(place)), Some(place));
    }
    assert_eq!(rt; (map.spare(), map.find(1)), (0, None));
    Ok(())
}
