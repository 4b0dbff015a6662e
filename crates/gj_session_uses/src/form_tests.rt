//! A batch that fills a segment leaves it in contiguous form.
ghost use Rattle.std.specs.Prelude.{◌≡◌, ◌<◌, ◌^◌, Some, IfSome, length};
ghost use Rattle.gj_base.specs.History.{empty_history};

use gj_base::{Conf, Item, ItemList, Kind};
use gj_keep::{NoKeeper, OpenRefused};
use gj_log::{Naming, Opening};
use gj_publish::{Grants, open_index};
use gj_session::accept;
use gj_window::Window;
use std::alloc::Global;
use std::marker::Brand;
use std::sync::Wait;

/// Sixteen interactions with one post.
fn sixteen(alloc: Global) -> Option<ItemList>
    ensures { IfSome result (λ items. length items ≡ 16) }
{
    let mut items = ItemList::new(alloc);
    for user in 0..16 {
        items.push(Item::make(user, 10, Kind::Click, 0)?).ok()?;
    }
    Some(items)
}

/// The forms that the one seat of an opening shows once it posted sixteen interactions.
fn forms_by<J: Opening, R: Wait + Copy + Drop>(
    rt: R,
    alloc: Global,
    naming: Naming,
    conf: Conf,
    grants: &mut Grants,
) -> Option<(u32, u32)>
    requires grants { grants.old < 2 ^ 40 }
    requires named { (naming.history ≡ J.book) × (naming.blank.name ≡ J.name) × (naming.blank.parts ≡ J.parts) }
    requires parts { (1 ≡ J.places) × (1 ≡ J.parts) }
    requires conf { conf ≡ J.conf }
    requires opening { J.opening ≡ Some (empty_history 0) }
{
    let opened = open_index::<J, NoKeeper, Window, R>(rt, alloc, naming, conf, NoKeeper, 1, grants);
    let (mut writer, mut seats) = match opened {
        Ok(opened) => opened,
        Err(refused) => {
            let OpenRefused {
                keeper: _,
                why: _why,
            } = refused;
            return None;
        }
    };
    let mut seat = seats.pop()?;
    let _outcome = accept(&mut writer, &mut seat, sixteen(alloc)?);
    let forms = seat.look(|graph: &Window| graph.forms()).ok();
    let _ = writer.into_keeper();
    forms
}

/// The same over a new opening.
fn forms_after<R: Wait + Copy + Drop>(rt: R, alloc: Global, conf: Conf) -> Option<(u32, u32)> {
    let mut grants = Grants::new();
    forms_by::<Brand, R>(rt, alloc, Naming::new(1), conf, &mut grants)
}

#[test]
fn a_batch_that_fills_a_segment_is_compacted(rt: HostRuntime) {
    let full = Conf::make(16, 3).expect(&rt, "16 and 3 are in range");
    assert_eq!(rt; forms_after(&rt, rt.alloc(), full), Some((0, 1)));
    let room = Conf::make(17, 3).expect(&rt, "17 and 3 are in range");
    assert_eq!(rt; forms_after(&rt, rt.alloc(), room), Some((1, 0)));
}
