// Trees that are accepted and refused, and the ways and lanes of the tree 0 0 1 1.
// Assumes nothing.
use crate::cables::Tree;
use std::test::Fail;
use words::refusal::Refusal;

const TOO_MANY: usize = 33;

fn refusal(list: &[usize]) -> Option<Refusal> {
    Tree::new(list).err()
}

#[test]
fn lawful_lists_only(rt: HostRuntime) -> Result<(), Fail> {
    let tree = Tree::new(&[0; 32])?;
    assert_eq!(rt; tree.panels(), 32);
    assert_eq!(rt; tree.lanes(), 62);
    assert_eq!(rt; refusal(&[0; TOO_MANY]), Some(Refusal::UnlawfulTree));
    assert_eq!(rt; refusal(&[]), Some(Refusal::UnlawfulTree));
    assert_eq!(rt; refusal(&[0, 1]), Some(Refusal::UnlawfulTree));
    Ok(())
}

#[test]
fn made_of_its_list(rt: HostRuntime) -> Result<(), Fail> {
    let tree = Tree::new(&[0, 0, 1, 1])?;
    assert_eq!(rt; tree.parents(), [0, 0, 1, 1].as_slice());
    assert_eq!(rt; tree.parent(3), 1);
    assert_eq!(rt; tree.parent(4), 0);
    Ok(())
}

#[test]
fn ways(rt: HostRuntime) -> Result<(), Fail> {
    let tree = Tree::new(&[0, 0, 1, 1])?;
    for (from, to, cables, step) in [
        (2, 3, 2, 1),
        (3, 0, 2, 1),
        (0, 3, 2, 1),
        (1, 3, 1, 3),
        (3, 3, 0, 3),
    ] {
        assert_eq!(rt; tree.distance(from, to)?, cables);
        assert_eq!(rt; tree.first_step(from, to)?, step);
    }
    assert_eq!(rt; tree.distance(4, 0), Err(Refusal::NoSuchPanel));
    Ok(())
}

#[test]
fn lanes(rt: HostRuntime) -> Result<(), Fail> {
    let tree = Tree::new(&[0, 0, 1, 1])?;
    assert_eq!(rt; tree.ends(4)?, (3, 1));
    assert_eq!(rt; tree.lane(1, 3)?, 5);
    assert_eq!(rt; tree.lane(2, 3), Err(Refusal::NoSuchLane));
    assert_eq!(rt; tree.lane_up(0), Err(Refusal::NoSuchLane));
    Ok(())
}
