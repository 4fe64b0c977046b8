// Bytes that are witnesses, bytes that are refused, and witnesses that are written.
use super::answers::{each_is_answered, number};
use fields::refusal::Refusal;
use listing::sample;
use listing::witness_listing::WitnessListing;
use std::alloc::{AllocError, Global};
use std::test::Fail;
use witness::witness::Witness;

/// The number of the refusal; 0 where the bytes are a witness.
fn answer(bytes: &[u8]) -> u8 {
    number(Witness::new().read(bytes))
}

/// What the bytes are, the bytes, and the number of their refusal; 0 where they are a witness.
const CASES: &[(&str, &[u8], u8)] = &[
    ("the sample", sample::WITNESS, 0),
    ("no bytes", b"", 2),
    ("a header cut short", b"\x45\x00", 1),
    ("a path cut short", b"\x45\x00\x02\x00", 1),
    (
        "an unknown tag that runs past the input",
        b"\x46\x00\x01",
        1,
    ),
    ("an unknown tag", b"\x46\x00\x00", 2),
    ("the tag of a processor", b"\x50\x00\x00", 2),
    ("a path alone", b"\x45\x00\x00", 2),
    ("no order", b"\x45\x00\x00\x52\x00\x00", 2),
    ("no path", b"\x52\x00\x00\x4d\x00\x00", 2),
    (
        "the order before the sources",
        b"\x45\x00\x00\x4d\x00\x00\x52\x00\x00",
        2,
    ),
    (
        "a path, no sources, no order",
        b"\x45\x00\x00\x52\x00\x00\x4d\x00\x00",
        0,
    ),
    (
        "a path behind the sources",
        b"\x45\x00\x00\x52\x00\x00\x45\x00\x00\x4d\x00\x00",
        2,
    ),
    (
        "sources twice",
        b"\x45\x00\x00\x52\x00\x00\x52\x00\x00\x4d\x00\x00",
        2,
    ),
    (
        "a field behind the order",
        b"\x45\x00\x00\x52\x00\x00\x4d\x00\x00\x4d\x00\x00",
        2,
    ),
    (
        "four paths",
        b"\x45\x00\x00\x45\x00\x00\x45\x00\x00\x45\x00\x00\x52\x00\x00\x4d\x00\x00",
        0,
    ),
    (
        "five paths",
        b"\x45\x00\x00\x45\x00\x00\x45\x00\x00\x45\x00\x00\x45\x00\x00\x52\x00\x00\x4d\x00\x00",
        2,
    ),
    (
        "sixteen places",
        b"\x45\x00\x100123456789abcdef\x52\x00\x00\x4d\x00\x00",
        0,
    ),
    (
        "seventeen places",
        b"\x45\x00\x110123456789abcdefg\x52\x00\x00\x4d\x00\x00",
        3,
    ),
    (
        "three bytes of sources",
        b"\x45\x00\x00\x52\x00\x03\x00\x00\x00\x4d\x00\x00",
        3,
    ),
    (
        "one byte of order",
        b"\x45\x00\x00\x52\x00\x00\x4d\x00\x01\x00",
        3,
    ),
    ("a misplaced tag before its length", b"\x52\x00\x01\x00", 2),
    (
        "any values",
        b"\x45\x00\x01\xff\x52\x00\x04\xff\xff\xff\xff\x4d\x00\x02\xff\xff",
        0,
    ),
];

#[test]
fn witnesses_are_answered(rt: HostRuntime) {
    each_is_answered(&rt, CASES, answer);
}

#[test]
fn a_refusal_leaves_the_witness_as_it_was(rt: HostRuntime) -> Result<(), Fail> {
    let heap = rt.alloc();
    let mut witness = Witness::new();
    witness.read(sample::WITNESS)?;
    let before = format!(in heap; "{}", WitnessListing(&witness))?;
    assert!(rt; witness.read(b"\x45\x00\x00\x52\x00\x00").is_err());
    assert_eq!(rt; format!(in heap; "{}", WitnessListing(&witness))?, before);
    Ok(())
}

#[test]
fn a_witness_is_written_where_there_is_room(rt: HostRuntime) -> Result<(), Fail> {
    let mut witness = Witness::new();
    witness.read(sample::WITNESS)?;
    let mut short = [7; 31];
    assert_eq!(rt; witness.write(&mut short), Err(Refusal::AreaTooShort));
    assert_eq!(rt; short, [7; 31]);
    let mut area = [7; 33];
    assert_eq!(rt; witness.write(&mut area)?, 32);
    assert_eq!(rt; &area[0..32], sample::WITNESS);
    assert_eq!(rt; area[32], 7);
    Ok(())
}

/// Four paths of sixteen places, this many sources and this many accesses.
fn large(heap: Global, sources: u16, accesses: u16) -> Result<Vec<u8>, AllocError> {
    let mut bytes = Vec::new(heap);
    for _ in 0..4 {
        bytes.extend_from_slice(b"\x45\x00\x100123456789abcdef")?;
    }
    bytes.push(0x52)?;
    bytes.extend_from_slice(&sources.wrapping_mul(4).to_be_bytes())?;
    for _ in 0..sources {
        bytes.extend_from_slice(b"\x01\x02\x03\x04")?;
    }
    bytes.push(0x4d)?;
    bytes.extend_from_slice(&accesses.wrapping_mul(2).to_be_bytes())?;
    for _ in 0..accesses {
        bytes.extend_from_slice(b"\x05\x06")?;
    }
    Ok(bytes)
}

#[test]
fn the_largest_witness_is_read_and_written(rt: HostRuntime) -> Result<(), Fail> {
    let heap = rt.alloc();
    let bytes = large(heap, 64, 64)?;
    let mut witness = Witness::new();
    witness.read(&bytes)?;
    let mut area = [0; 466];
    assert_eq!(rt; witness.write(&mut area)?, 466);
    assert_eq!(rt; &area[..], bytes.as_slice());
    assert_eq!(rt; answer(&large(heap, 65, 64)?), 3);
    assert_eq!(rt; answer(&large(heap, 64, 65)?), 3);
    Ok(())
}
