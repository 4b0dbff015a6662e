//! The program's index over the window.

use gj_base::{Conf, Index, Item, Kind, Receipt};
use gj_keep::{Local, NoKeeper};
use gj_window::Window;
use std::test::Fail;

#[test]
fn a_batch_that_fills_a_segment_leaves_it_contiguous(rt: HostRuntime) -> Result<(), Fail> {
    let conf = Conf::make(16, 3).expect(&rt, "16 and 3 are in range");
    let item = Item::make(1, 10, Kind::Click, 0).expect(&rt, "the numbers are small");
    let opened = Local::<NoKeeper, Window>::open_local(rt.alloc(), conf, NoKeeper).ok();
    let mut index = opened.ok_or("no memory")?;
    let batch = [item; 16];
    let posted = index.post_items(&batch);
    assert_eq!(rt; posted, Ok(Receipt { from: 0, to: 16 }));
    assert_eq!(rt; index.view().forms(), (0, 1));
    Ok(())
}
