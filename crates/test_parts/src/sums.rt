// Counts put at places, and where numbers fall among them.
ghost use Rattle.std.specs.Prelude.{◌≡◌, IfOk, length};

use base_sums::SumTree;
use std::alloc::Global;
use tcc_base::NoMemory;

// The counts 2, 0, 3.
fn two_none_three(alloc: Global) -> Result<SumTree, NoMemory>
    ensures { IfOk result (λ tree. length tree ≡ 3) }
{
    let mut tree = SumTree::new(alloc, 3)?;
    tree.set(0, 2);
    tree.set(2, 3);
    Ok(tree)
}

#[test]
fn finds_by_the_counts_before(rt: HostRuntime) -> Result<(), NoMemory> {
    let tree = two_none_three(rt.alloc())?;
    let rows = [
        (0, Some((0, 0))),
        (1, Some((0, 1))),
        (2, Some((2, 0))),
        (4, Some((2, 2))),
        (5, None),
    ];
    for (k, found) in rows {
        assert_eq!(rt; tree.find(k), found);
    }
    Ok(())
}

#[test]
fn a_set_count_is_had_and_summed(rt: HostRuntime) -> Result<(), NoMemory> {
    let mut tree = two_none_three(rt.alloc())?;
    tree.set(1, 4);
    tree.set(2, 1);
    assert_eq!(rt; tree.get(1), 4);
    assert_eq!(rt; tree.total(), 7);
    assert_eq!(rt; tree.find(6), Some((2, 0)));
    Ok(())
}
