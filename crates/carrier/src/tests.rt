// What the carriers do on examples.
// Assumes nothing.
use crate::line::Line;
use crate::loopback::loopback;
use crate::storage::Packet;
use crate::traits::{Carrier, LONGEST_BODY, OldestFirst, Received, any_waiting};
use crate::tray::Tray;
use std::process::Abort;
use std::test::Fail;
use words::refusal::Refusal;

// The head that a take gives, or the refusal.
fn taken<C: Carrier>(carrier: &mut C, lane: usize) -> Result<u32, Refusal> {
    let mut space = [0; LONGEST_BODY];
    let received = carrier.take(lane, &mut space)?;
    Ok(received.head)
}

// Both parcels come back, and then nothing waits.
fn both_return<C: Carrier>(rt: &impl Abort, carrier: &mut C) -> Result<(), Fail> {
    let first = Packet::new(1, &[10, 11])?;
    let second = Packet::new(2, &[20])?;
    let got = loopback(carrier, 3, &first, &second)?;
    assert_eq!(rt; got.first.head ^ got.second.head, 3);
    assert_eq!(rt; got.first.body().len() ^ got.second.body().len(), 3);
    assert_eq!(rt; got.third.err(), Some(Refusal::LaneEmpty));
    assert!(rt; !any_waiting(carrier));
    Ok(())
}

#[test]
fn line_keeps_order(rt: HostRuntime) -> Result<(), Fail> {
    let mut line = Line::new(2)?;
    line.post(1, 7, &[70, 71])?;
    line.post(1, 8, &[])?;
    let mut space = [5; LONGEST_BODY];
    assert_eq!(rt;
        line.take_oldest(1, &mut space)?,
        Received { head: 7, size: 2 }
    );
    assert_eq!(rt; &space[0..3], [70, 71, 5].as_slice());
    assert_eq!(rt; taken(&mut line, 1), Ok(8));
    assert_eq!(rt; taken(&mut line, 1), Err(Refusal::LaneEmpty));
    Ok(())
}

#[test]
fn refusals_come_in_order(rt: HostRuntime) -> Result<(), Fail> {
    let mut line = Line::new(1)?;
    let long = [0; LONGEST_BODY + 1];
    let mut short = [0; LONGEST_BODY - 1];
    assert_eq!(rt; line.post(1, 0, &long), Err(Refusal::NoSuchLane));
    assert_eq!(rt; line.take(1, &mut short), Err(Refusal::NoSuchLane));
    assert_eq!(rt; line.take(0, &mut short), Err(Refusal::SpaceTooShort));
    line.post(0, 1, &[])?;
    line.post(0, 2, &[])?;
    assert_eq!(rt; line.post(0, 3, &long), Err(Refusal::BodyTooLong));
    assert_eq!(rt; line.post(0, 3, &[]), Err(Refusal::LaneFull));
    assert_eq!(rt; line.count(0), Ok(2));
    assert_eq!(rt; line.count(1), Err(Refusal::NoSuchLane));
    Ok(())
}

#[test]
fn lanes_are_counted(rt: HostRuntime) -> Result<(), Fail> {
    assert_eq!(rt; Line::new(64)?.lane_count(), 64);
    assert_eq!(rt; Tray::new(0, 1)?.lane_count(), 0);
    assert_eq!(rt; Line::new(65).err(), Some(Refusal::NoSuchLane));
    assert_eq!(rt; Tray::new(65, 1).err(), Some(Refusal::NoSuchLane));
    Ok(())
}

// From 1 the numbers are 1015568748, 1586005467, 2165703038 and 3027450565: bit 31 is 0, 0, 1 and 1.
#[test]
fn tray_of_seed_one(rt: HostRuntime) -> Result<(), Fail> {
    let mut tray = Tray::new(1, 1)?;
    tray.post(0, 1, &[])?;
    tray.post(0, 2, &[])?;
    assert_eq!(rt; taken(&mut tray, 0), Ok(1));
    tray.post(0, 3, &[])?;
    assert_eq!(rt; taken(&mut tray, 0), Ok(2));
    tray.post(0, 4, &[])?;
    assert_eq!(rt; taken(&mut tray, 0), Ok(4));
    assert_eq!(rt; taken(&mut tray, 0), Ok(3));
    assert_eq!(rt; taken(&mut tray, 0), Err(Refusal::LaneEmpty));
    Ok(())
}

#[test]
fn parcels_return(rt: HostRuntime) -> Result<(), Fail> {
    both_return(&rt, &mut Line::new(4)?)?;
    for seed in 0..6 {
        both_return(&rt, &mut Tray::new(4, seed)?)?;
    }
    Ok(())
}
