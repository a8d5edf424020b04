// Examples of notice entries and unlawful rows.
// Assumes nothing.
use crate::kind::Notice;
use book::kind::Kind;
use words::refusal::Refusal;

const ROW: usize = 17;

const TEXT: usize = 64;

// Entries one after the other from the opening row on: the refusal's number or 0, the length and the first text word after it.
const ENTRIES: [(u32, (u8, u32, u32)); 9] = [
    (0x2010_0041, (17, 0, 0)),
    (0x2000_0041, (0, 1, 0x4100_0000)),
    (0x2000_0042, (0, 2, 0x4241_0000)),
    (0x2010_007e, (0, 3, 0x427e_4100)),
    (0x2000_007f, (18, 3, 0x427e_4100)),
    (0x2ff0_0141, (13, 3, 0x427e_4100)),
    (0x3000_0000, (0, 2, 0x7e41_0000)),
    (0x3020_0000, (17, 2, 0x7e41_0000)),
    (0x3020_0001, (13, 2, 0x7e41_0000)),
];

// Rows that are not lawful: too long a text, a byte behind the text, and a byte that is not printable.
const UNLAWFUL: [(u32, u32); 3] = [(65, 0), (1, 0x4100_0041), (2, 0x411f_0000)];

// The refusal's number or 0. The tests of one crate cannot call those of another, so the ledger has its own.
fn number(answer: Result<(), Refusal>) -> u8 {
    answer.err().map_or(0, Refusal::number)
}

#[test]
fn edits(rt: HostRuntime) {
    let mut words = [0; ROW];
    let row = &mut words[0..ROW];
    for (entry, expected) in ENTRIES {
        let answer = number(Notice.apply(row, entry));
        assert_eq!(rt; (answer, row[0], row[1]), expected);
    }
}

#[test]
fn full_text(rt: HostRuntime) {
    let mut words = [0; ROW];
    let row = &mut words[0..ROW];
    let mut answer = number(Notice.apply(row, 0x2000_0021));
    for _ in 0..TEXT {
        answer = number(Notice.apply(row, 0x2000_0061));
    }
    assert_eq!(rt; (answer, row[0], row[ROW - 1]), (16, 64, 0x6161_6121));
}

#[test]
fn unlawful_rows(rt: HostRuntime) {
    for (size, word) in UNLAWFUL {
        let mut row = [0; ROW];
        row[0] = size;
        row[1] = word;
        assert_eq!(rt; number(Notice.apply(&mut row, 0)), 19);
    }
}
