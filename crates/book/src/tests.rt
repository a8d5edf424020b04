// Examples of ledger entries, unlawful rows and pages.
// Assumes nothing.
use crate::kind::Kind;
use crate::ledger::Ledger;
use crate::page::write_page;
use words::refusal::Refusal;

const ROW: usize = 16;

// Entries of the opening ledger: the refusal's number or 0, and the first two accounts after it.
const ENTRIES: [(u32, (u8, u32, u32)); 6] = [
    (0x1010_03e8, (0, 0, 2_000)),
    (0x1010_0000, (0, 1_000, 1_000)),
    (0x1010_03e9, (15, 1_000, 1_000)),
    (0x1010_3e81, (15, 1_000, 1_000)),
    (0x111f_ffff, (14, 1_000, 1_000)),
    (0x2010_0001, (13, 1_000, 1_000)),
];

// The refusal's number or 0. The tests of one crate cannot call those of another, so the notice has its own.
fn number(answer: Result<(), Refusal>) -> u8 {
    answer.err().map_or(0, Refusal::number)
}

#[test]
fn transfers(rt: HostRuntime) {
    for (entry, expected) in ENTRIES {
        let mut row = [1_000; ROW];
        let answer = number(Ledger.apply(&mut row, entry));
        assert_eq!(rt; (answer, row[0], row[1]), expected);
    }
}

#[test]
fn unlawful_rows(rt: HostRuntime) {
    // These add up to 16,000 only where the sum wraps at 32 bits.
    let mut wraps = [0; ROW];
    wraps[0] = 0xffff_ffff;
    wraps[1] = 16_001;
    assert_eq!(rt; number(Ledger.apply(&mut wraps, 0)), 19);
    let mut short = [2_000; ROW / 2];
    assert_eq!(rt; number(Ledger.apply(&mut short, 0)), 19);
}

#[test]
fn pages(rt: HostRuntime) {
    let mut space = [7; ROW + 1];
    let entries = [0x1010_0005, 0x1010_ffff, 0x1120_03ed];
    let answer = number(write_page(&Ledger, &entries, &mut space));
    assert_eq!(rt;
        (answer, space[0], space[1], space[2], space[ROW]),
        (0, 995, 0, 2_005, 7)
    );
}
