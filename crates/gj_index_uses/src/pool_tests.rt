//! The layout by levels, on known places; what no clause says.
ghost use Rattle.std.specs.Prelude.{◌≡◌, ◌<◌, length};

use gj_pool::{EdgePool, RegularPool};
use std::process::Abort;
use std::test::Fail;

/// Pushes the cells `from` to `end` for vertex `v`.
fn push_all(rt: &impl Abort, pool: &mut EdgePool, v: u32, from: u32, end: u32)
    requires { v < length pool.old.lists }
    ensures { length pool.new.lists ≡ length pool.old.lists }
{
    for cell in from..end {
        assert!(rt; pool.left() > 0);
        pool.push(v, cell);
    }
}

fn cell_at(rt: &impl Abort, pool: &EdgePool, v: u32, i: u32) -> u32
    requires { v < length pool.now.lists }
{
    assert!(rt; i < pool.degree(v));
    pool.get(v, i)
}

fn hops_at(rt: &impl Abort, pool: &EdgePool, v: u32, i: u32) -> u32
    requires { v < length pool.now.lists }
{
    assert!(rt; i < pool.degree(v));
    pool.hops(v, i)
}

#[test]
fn sixty_three_cells_lie_in_five_slices_past_the_first_two(rt: HostRuntime) -> Result<(), Fail> {
    let mut pool = EdgePool::new(rt.alloc(), 3, 63)?;
    push_all(&rt, &mut pool, 1, 100, 162);
    assert_eq!(rt; pool.degree(1), 62);
    assert_eq!(rt; pool.left(), 1);
    push_all(&rt, &mut pool, 1, 162, 163);
    for i in 0..63 {
        assert_eq!(rt; cell_at(&rt, &pool, 1, i), 100 + i, "place {i}");
    }
    for (i, hops) in [
        (0, 0),
        (1, 0),
        (2, 1),
        (5, 1),
        (6, 2),
        (13, 2),
        (14, 3),
        (61, 4),
        (62, 5),
    ] {
        assert_eq!(rt; hops_at(&rt, &pool, 1, i), hops, "place {i}");
    }
    assert_eq!(rt; pool.degree(0), 0);
    assert_eq!(rt; pool.degree(2), 0);
    assert_eq!(rt; pool.left(), 0);
    Ok(())
}

#[test]
fn vertices_that_take_turns_keep_their_own_cells(rt: HostRuntime) -> Result<(), Fail> {
    let mut pool = EdgePool::new(rt.alloc(), 2, 40)?;
    for round in 0..2 {
        for cell in 0..20 {
            push_all(&rt, &mut pool, 0, cell, cell + 1);
            push_all(&rt, &mut pool, 1, 50 + cell, 51 + cell);
        }
        for i in 0..20 {
            assert_eq!(rt; cell_at(&rt, &pool, 0, i), i, "round {round}");
            assert_eq!(rt; cell_at(&rt, &pool, 1, i), 50 + i, "round {round}");
        }
        assert_eq!(rt; pool.left(), 0);
        pool.clear();
        assert_eq!(rt; pool.degree(0), 0);
        assert_eq!(rt; pool.left(), 40);
    }
    Ok(())
}

#[test]
fn the_largest_pool_gives_all_its_cells_to_one_vertex(rt: HostRuntime) -> Result<(), Fail> {
    let mut pool = EdgePool::new(rt.alloc(), 65536, 65536)?;
    push_all(&rt, &mut pool, 0, 0, 65536);
    for i in 0..65536 {
        for _ in 0..64 {
            assert_eq!(rt; cell_at(&rt, &pool, 0, i), i);
        }
    }
    assert_eq!(rt; hops_at(&rt, &pool, 0, 65535), 15);
    Ok(())
}

#[test]
fn the_regular_pool_holds_two_cells_a_vertex(rt: HostRuntime) -> Result<(), Fail> {
    let mut pool = RegularPool::new(rt.alloc(), 2)?;
    pool.push(1, 7);
    pool.push(1, 8);
    pool.push(0, 9);
    assert_eq!(rt; pool.get(1, 0), 7);
    assert_eq!(rt; pool.get(1, 1), 8);
    assert_eq!(rt; pool.get(0, 0), 9);
    assert_eq!(rt; pool.degree(1), 2);
    pool.clear();
    assert_eq!(rt; pool.degree(1), 0);
    assert_eq!(rt; pool.degree(0), 0);
    Ok(())
}
