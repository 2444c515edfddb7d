// Prints the number by which each of a few lines is answered, 0 where it is accepted: the readers of unit, pair and reference lines as they run.
#![tactic(auto)]

use front::{pair_line, reference_line, unit_line};
use refusal::Refusal;
use std::io;
use unit::Pairs;

// Class M, class 9 and nothing more, the kind alone, another kind, HM with one segment, AU end below start, a byte left over, a capital letter.
const UNITS: [&[u8]; 8] = [
    b"01030001000200000064000000640000006d0001\n",
    b"0109\n",
    b"01\n",
    b"02030001000200000064000000640000006d0001\n",
    b"01050001000200000064000000640000006d0001\n",
    b"0103000100020000006400000064000000630001\n",
    b"01030001000200000064000000640000006d000100\n",
    b"01030001000200000064000000640000006D0001\n",
];

// Two symbols, none, another number, 1,025 symbols claimed, a symbol cut, a byte left over, no 0A.
const PAIRS: [&[u8]; 8] = [
    b"020200020000000500000006\n",
    b"02020000\n",
    b"02030000\n",
    b"02020401\n",
    b"0202000100000\n",
    b"02020001000000\n",
    b"020200010000000500\n",
    b"02020000",
];

// Two bases, three where two have room, none, another kind, an odd count.
const REFERENCES: [&[u8]; 5] = [b"070001\n", b"07000102\n", b"07\n", b"060001\n", b"07000\n"];

// What a line's reader answers: the number of a refusal, 0 for any value.
fn number<T: Copy>(answer: Result<T, Refusal>) -> u32 {
    match answer {
        Ok(_) => 0,
        Err(refusal) => u32::from(refusal),
    }
}

fn show(rt: &HostRuntime, number: u32) -> io::Result<()> {
    println!(rt; "{number}")
}

fn main(rt: HostRuntime) -> io::Result<()> {
    for line in UNITS {
        show(&rt, number(unit_line::read(line)))?;
    }
    // Subsequence 2, into a table of the right shape, and last into one that is too short.
    for line in PAIRS {
        let mut table = [0u32; Pairs::TABLE];
        show(&rt, number(pair_line::read(line, 2, &mut table)))?;
    }
    // A reference of four places, two of them used.
    for line in REFERENCES {
        show(&rt, number(reference_line::read(line, &mut [0u8; 4], 2)))?;
    }
    show(
        &rt,
        number(pair_line::read(b"02020000\n", 2, &mut [0u32; 8])),
    )
}
