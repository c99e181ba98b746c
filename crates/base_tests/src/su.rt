use p9_base::NoMemory;
use p9_su::{Move, Plan, Shape, number, order};
use std::alloc::{AllocError, Global};
use std::test::Fail;

fn pair(alloc: Global, left: Shape, right: Shape) -> Result<Shape, NoMemory> {
    let left = Box::new(alloc, left).map_err(AllocError::from)?;
    let right = Box::new(alloc, right).map_err(AllocError::from)?;
    Ok(Shape::Pair(left, right))
}

// A full tree with 2^height leaves.
fn full(alloc: Global, height: u32) -> Result<Shape, NoMemory> {
    if height == 0 {
        return Ok(Shape::Leaf);
    }
    let left = full(alloc, height - 1)?;
    let right = full(alloc, height - 1)?;
    pair(alloc, left, right)
}

// A comb whose pairs stand on one side.
fn comb(alloc: Global, leaves: u32, is_left: bool) -> Result<Shape, NoMemory> {
    let mut shape = Shape::Leaf;
    for _ in 1..leaves {
        shape = if is_left {
            pair(alloc, shape, Shape::Leaf)?
        } else {
            pair(alloc, Shape::Leaf, shape)?
        };
    }
    Ok(shape)
}

#[test]
fn numbers_small_shapes(rt: HostRuntime) -> Result<(), Fail> {
    let alloc = rt.alloc();
    assert_eq!(rt; number(&Shape::Leaf), 1);
    let two = pair(alloc, Shape::Leaf, Shape::Leaf)?;
    assert_eq!(rt; number(&two), 2);
    let other = pair(alloc, Shape::Leaf, Shape::Leaf)?;
    assert_eq!(rt; number(&pair(alloc, two, other)?), 3);
    assert_eq!(rt; number(&full(alloc, 7)?), 8);
    Ok(())
}

#[test]
fn orders_three_leaves(rt: HostRuntime) -> Result<(), Fail> {
    let alloc = rt.alloc();
    let two = pair(alloc, Shape::Leaf, Shape::Leaf)?;
    let three = pair(alloc, two, Shape::Leaf)?;
    assert_eq!(rt; number(&three), 2);
    let plan = order(alloc, &three)?;
    let want = [
        Move::Load {
            leaf: 0,
            register: 0,
        },
        Move::Load {
            leaf: 1,
            register: 1,
        },
        Move::Combine { into: 0, with: 1 },
        Move::Load {
            leaf: 2,
            register: 1,
        },
        Move::Combine { into: 0, with: 1 },
    ];
    assert_eq!(rt; plan.moves.as_slice(), want.as_slice());
    Ok(())
}

#[test]
fn walks_deep_combs(rt: HostRuntime) -> Result<(), Fail> {
    let alloc = rt.alloc();
    for is_left in [true, false] {
        let shape = comb(alloc, 10_000, is_left)?;
        assert_eq!(rt; number(&shape), 2);
        let plan = order(alloc, &shape)?;
        assert_eq!(rt; plan.moves.len(), 19_999);
    }
    Ok(())
}
