// Single instructions that are read, and that are refused.
use super::answers::{each_is_answered, number};
use question::question::Question;

/// The answer to a question of this instruction alone: the number of the refusal, or 0.
fn answer(instruction: &[u8; 8]) -> u8 {
    let mut bytes = [0x50, 0, 8, 0, 0, 0, 0, 0, 0, 0, 0];
    bytes[3..11].copy_from_slice(instruction);
    number(Question::new().read(&bytes))
}

/// What the instruction is, its bytes, and the number of the refusal; 0 where it is read.
const CASES: &[(&str, &[u8; 8], u8)] = &[
    ("kind 0", b"\x00\xff\xff\xff\x00\x00\x00\x00", 5),
    ("kind 7", b"\x07\xff\xff\xff\x00\x00\x00\x00", 5),
    ("add", b"\x01\x07\x07\x07\xff\xff\x00\x00", 0),
    (
        "add, operands absent",
        b"\x01\x00\xff\xff\x00\x00\x00\x00",
        0,
    ),
    ("add, d absent", b"\x01\xff\x00\x00\x00\x00\x00\x00", 5),
    ("add, d 8", b"\x01\x08\x00\x00\x00\x00\x00\x00", 5),
    ("add, s1 8", b"\x01\x00\x08\x00\x00\x00\x00\x00", 5),
    ("add, s2 8", b"\x01\x00\x00\x08\x00\x00\x00\x00", 5),
    ("add, j 1", b"\x01\x00\x00\x00\x00\x00\x00\x01", 6),
    ("subtract", b"\x02\x07\x07\x07\xff\xff\x00\x00", 0),
    ("subtract, d absent", b"\x02\xff\x00\x00\x00\x00\x00\x00", 5),
    ("subtract, j 256", b"\x02\x00\x00\x00\x00\x00\x01\x00", 6),
    ("load", b"\x03\x07\x07\xff\xff\xff\x00\x00", 0),
    ("load, d absent", b"\x03\xff\x00\xff\x00\x00\x00\x00", 5),
    ("load, s2 used", b"\x03\x00\x00\x00\x00\x00\x00\x00", 5),
    ("load, j 1", b"\x03\x00\x00\xff\x00\x00\x00\x01", 6),
    ("store", b"\x04\xff\x07\x07\xff\xff\xff\xff", 0),
    ("store, d used", b"\x04\x00\x00\x00\x00\x00\x00\x00", 5),
    ("branch to the end", b"\x05\xff\x07\xff\xff\xff\x00\x01", 0),
    (
        "branch past the end",
        b"\x05\xff\x07\xff\xff\xff\x00\x02",
        6,
    ),
    ("branch, d used", b"\x05\x00\x00\xff\x00\x00\x00\x00", 5),
    ("branch, s2 used", b"\x05\xff\x00\x00\x00\x00\x00\x00", 5),
    ("fence", b"\x06\xff\xff\xff\x00\x03\x00\x00", 0),
    ("fence, k 4", b"\x06\xff\xff\xff\x00\x04\x00\x00", 6),
    ("fence, j 1", b"\x06\xff\xff\xff\x00\x00\x00\x01", 6),
    ("fence, d used", b"\x06\x00\xff\xff\x00\x00\x00\x00", 5),
    ("fence, s1 used", b"\x06\xff\x00\xff\x00\x00\x00\x00", 5),
    ("fence, s2 used", b"\x06\xff\xff\x00\x00\x00\x00\x00", 5),
    (
        "a register before a number",
        b"\x06\x00\xff\xff\x00\x04\x00\x00",
        5,
    ),
];

#[test]
fn instructions_are_answered(rt: HostRuntime) {
    each_is_answered(&rt, CASES, answer);
}
