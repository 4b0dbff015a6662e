use super::*;
use crate::table::first_slot;
use std::test::Fail;

// The search for each begins at the last of 16 slots, so that all but one are seated from the first slot on.
const SHARING: [u64; 8] = [8, 21, 42, 55, 76, 97, 110, 131];

// How many of the multiples of 1000 are put at the place of their turn, or found there once all are put: the fewer.
fn kept(names: &mut Names, count: u32) -> u32 {
    let mut put: u32 = 0;
    for place in 0..count {
        if names.spare() > 0 && names.put(1000 * u64::from(place)) == place {
            put = put.saturating_add(1);
        }
    }
    let mut found: u32 = 0;
    for place in 0..count {
        if names.find(1000 * u64::from(place)) == Some(place) {
            found = found.saturating_add(1);
        }
    }
    put.min(found)
}

#[test]
fn identifiers_of_one_first_slot_are_told_apart(rt: HostRuntime) -> Result<(), Fail> {
    let mut names = Names::new(rt.alloc(), 8)?;
    for (place, id) in SHARING.iter().enumerate() {
        assert_eq!(rt; first_slot(60, *id), 15, "of {id}");
        assert!(rt; names.spare() > 0);
        assert_eq!(rt; names.put(*id) as usize, place, "put {id}");
    }
    assert_eq!(rt; (names.len(), names.spare()), (8, 0));
    for (place, id) in SHARING.iter().enumerate() {
        let place = place as u32;
        assert_eq!(rt; names.find(*id), Some(place), "find {id}");
        for near in [place, 0, 8, u32::MAX] {
            assert_eq!(rt;
                names.find_near(*id, near),
                Some(place),
                "find {id} near {near}"
            );
        }
    }
    assert_eq!(rt; (first_slot(60, 144), names.find(144)), (15, None));
    assert_eq!(rt; names.find_near(144, 0), None);
    Ok(())
}

#[test]
fn names_stay_through_each_doubling_and_go_when_cleared(rt: HostRuntime) -> Result<(), Fail> {
    let mut names = Names::new(rt.alloc(), 70000)?;
    assert_eq!(rt; kept(&mut names, 70000), 70000);
    assert_eq!(rt; (names.len(), names.spare()), (70000, 0));
    names.clear();
    assert_eq!(rt; (names.len(), names.find(0)), (0, None));
    assert_eq!(rt; kept(&mut names, 100), 100);
    Ok(())
}
