// Whole groups at work: as many panels as there may be, one panel alone, and a race in every order of delivery.
// Assumes nothing.
use arrow::counts::Counts;
use book::kind::Kind;
use book::ledger::Ledger;
use carrier::line::Line;
use carrier::traits::{Carrier, LONGEST_BODY};
use carrier::tray::Tray;
use group::Group;
use std::process::Abort;
use std::test::Fail;
use tree::Tree;
use words::event::Event;
use words::refusal::Refusal;

// An answer as the log has it: the first word of its event, or the refusal.
fn word(answer: Result<Event, Refusal>) -> Result<u32, Refusal> {
    answer?.word()
}

#[test]
fn at_most_32_panels(rt: HostRuntime) -> Result<(), Fail> {
    let mut group = Group::new(Line::new(62)?, Ledger);
    assert_eq!(rt; word(group.open(&[0; 33])), Err(Refusal::UnlawfulTree));
    assert!(rt; !group.is_open());
    assert_eq!(rt; word(group.open(&[0; 32])), Ok(0x3f80_0000));
    assert_eq!(rt; group.panels(), 32);
    assert_eq!(rt; word(group.request(31)), Ok(0x4f80_0000));
    assert_eq!(rt; group.waiting(), 0x8000_0000);
    assert_eq!(rt; word(group.open(&[0])), Err(Refusal::AlreadyOpen));
    Ok(())
}

// A mark for each panel: that a group has no more than 32 is known of every group.
fn marks<C: Carrier, K: Kind>(group: &Group<C, K>) -> [bool; 32] {
    let mut marks = [false; 32];
    for v in 0..group.panels() {
        marks[v] = true;
    }
    marks
}

#[test]
fn every_panel_has_a_mark(rt: HostRuntime) -> Result<(), Fail> {
    let mut group = Group::new(Line::new(62)?, Ledger);
    assert_eq!(rt; marks(&group), [false; 32]);
    group.open(&[0; 32])?;
    assert_eq!(rt; marks(&group), [true; 32]);
    Ok(())
}

// A type that leads back to itself through a group: that there may be one is what is tested.
#[derive(Drop)]
struct Nested {
    below: Option<Box<Group<Line, Nested>>>,
}

#[test]
fn groups_nest(rt: HostRuntime) -> Result<(), Fail> {
    let innermost = Nested { below: None };
    assert!(rt; innermost.below.is_none());
    Ok(())
}

#[test]
fn one_panel(rt: HostRuntime) -> Result<(), Fail> {
    let mut group = Group::new(Line::new(0)?, Ledger);
    let mut space = [7; LONGEST_BODY];
    assert_eq!(rt; word(group.open(&[0])), Ok(0x3000_0000));
    assert_eq!(rt; word(group.request(1)), Err(Refusal::NoSuchPanel));
    assert_eq!(rt; word(group.request(0)), Ok(0x5000_0000));
    assert_eq!(rt; word(group.request(0)), Err(Refusal::Engaged));
    assert_eq!(rt; word(group.write(0, 0x1010_0005)), Ok(0x9000_0000));
    assert_eq!(rt; group.read(0, &mut space), Ok(()));
    assert_eq!(rt; &space[0..2], [995, 1_005].as_slice());
    assert_eq!(rt; &space[15..17], [1_000, 7].as_slice());
    assert_eq!(rt;
        word(group.deliver(0, &mut space)),
        Err(Refusal::NoSuchLane)
    );
    assert_eq!(rt; word(group.release(0)), Ok(0xa000_0000));
    assert_eq!(rt; word(group.release(0)), Err(Refusal::NotHolding));
    let Counts {
        requests,
        finds,
        books,
        grants,
        releases,
    } = group.counts();
    assert_eq!(rt; (requests, finds, books, grants, releases), (1, 0, 0, 1, 1));
    Ok(())
}

// The lane on which a parcel waits, the first such from below or from above.
fn waiting_lane<C: Carrier, K: Kind>(group: &Group<C, K>, above: bool) -> Option<usize> {
    let lanes = group.carrier().lane_count();
    let mut found = None;
    for lane in 0..lanes {
        if group.carrier().count(lane) != Ok(0) && (above || found.is_none()) {
            found = Some(lane);
        }
    }
    found
}

// Delivers until no parcel waits, in the order that the bits of a number say, and releases each panel that gets the book; gives the
// sum of the distances of the finds that landed.
fn settle<C: Carrier, K: Kind>(
    group: &mut Group<C, K>,
    tree: &Tree,
    order: u32,
) -> Result<usize, Refusal> {
    let mut spare = [0; LONGEST_BODY];
    let mut steps: usize = 0;
    for turn in 0..32_u32 {
        let Some(lane) = waiting_lane(group, (order >> turn) % 2 == 1) else {
            return Ok(steps);
        };
        match group.deliver(lane, &mut spare)? {
            Event::Landed { asker, at, .. } => {
                steps = steps.saturating_add(tree.distance(asker, at)?);
            }
            Event::Granted { panel, .. } => {
                group.release(panel)?;
            }
            _ => {}
        }
    }
    Err(Refusal::ParcelWaiting)
}

// The book is at panel 1 of the line 0 - 1 - 2 when 0 and 2 ask at once: the find that comes second follows the book.
fn race<C: Carrier + Drop>(rt: &impl Abort, carrier: C, order: u32) -> Result<(), Fail> {
    let parents = [0, 0, 1];
    let tree = Tree::new(&parents)?;
    let mut group = Group::new(carrier, Ledger);
    group.open(&parents)?;
    group.request(1)?;
    let first = settle(&mut group, &tree, 0)?;
    group.request(0)?;
    group.request(2)?;
    let others = settle(&mut group, &tree, order)?;
    let counts = group.counts();
    assert_eq!(rt; group.waiting_count(), 0);
    assert_eq!(rt;
        (counts.requests, counts.grants, counts.releases),
        (3, 3, 3)
    );
    assert_eq!(rt; (first, others), (1, 3));
    assert_eq!(rt; counts.finds, 4);
    Ok(())
}

#[test]
fn races_end(rt: HostRuntime) -> Result<(), Fail> {
    for order in 0..256 {
        race(&rt, Line::new(4)?, order)?;
        race(&rt, Tray::new(4, order)?, order)?;
    }
    Ok(())
}
