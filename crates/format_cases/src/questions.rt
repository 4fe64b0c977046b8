// Bytes that are questions, and bytes that are refused.
use super::answers::{each_is_answered, number};
use listing::question_listing::QuestionListing;
use listing::sample;
use question::question::Question;
use std::alloc::{AllocError, Global};
use std::test::Fail;

/// The number of the refusal; 0 where the bytes are a question.
fn answer(bytes: &[u8]) -> u8 {
    number(Question::new().read(bytes))
}

/// What the bytes are, the bytes, and the number of their refusal; 0 where they are a question.
const CASES: &[(&str, &[u8], u8)] = &[
    ("the sample", sample::QUESTION, 0),
    ("no bytes", b"", 2),
    ("a tag alone", b"\x50", 1),
    ("a header cut short", b"\x50\x00", 1),
    (
        "contents cut short",
        b"\x50\x00\x08\x06\xff\xff\xff\x00\x00\x00",
        1,
    ),
    (
        "an unknown tag that runs past the input",
        b"\x51\x00\x01",
        1,
    ),
    ("an unknown tag", b"\x51\x00\x00", 2),
    (
        "an unknown tag behind a processor",
        b"\x50\x00\x00\x51\x00\x00",
        2,
    ),
    ("no processor", b"\x49\x00\x00", 2),
    ("one processor", b"\x50\x00\x00", 0),
    ("cells and a processor", b"\x49\x00\x00\x50\x00\x00", 0),
    (
        "two cell fields",
        b"\x49\x00\x00\x49\x00\x00\x50\x00\x00",
        2,
    ),
    ("cells behind a processor", b"\x50\x00\x00\x49\x00\x00", 2),
    (
        "a misplaced tag before its length",
        b"\x50\x00\x00\x49\x00\x01\x00",
        2,
    ),
    (
        "four processors",
        b"\x50\x00\x00\x50\x00\x00\x50\x00\x00\x50\x00\x00",
        0,
    ),
    (
        "five processors",
        b"\x50\x00\x00\x50\x00\x00\x50\x00\x00\x50\x00\x00\x50\x00\x00",
        2,
    ),
    (
        "seven bytes of code",
        b"\x50\x00\x07\x06\xff\xff\xff\x00\x00\x00",
        3,
    ),
    ("two bytes of cells", b"\x49\x00\x02\x00\x00\x50\x00\x00", 3),
    (
        "a cell length before its address",
        b"\x49\x00\x04\x10\x00\x00\x00\x50\x00\x00",
        3,
    ),
    ("the last cell", b"\x49\x00\x03\x0f\x00\x05\x50\x00\x00", 0),
    ("cell 16", b"\x49\x00\x03\x10\x00\x05\x50\x00\x00", 4),
    (
        "a cell twice",
        b"\x49\x00\x06\x01\x00\x00\x01\x00\x00\x50\x00\x00",
        4,
    ),
    (
        "cells that fall",
        b"\x49\x00\x06\x02\x00\x00\x01\x00\x00\x50\x00\x00",
        4,
    ),
    (
        "an address before a missing processor",
        b"\x49\x00\x03\x10\x00\x00",
        4,
    ),
    (
        "an address before a header cut short",
        b"\x49\x00\x03\x10\x00\x00\x50",
        4,
    ),
    (
        "a number before an unknown tag",
        b"\x50\x00\x08\x06\xff\xff\xff\x00\x04\x00\x00\x51\x00\x00",
        6,
    ),
    (
        "a number before a later kind",
        b"\x50\x00\x10\x06\xff\xff\xff\x00\x04\x00\x00\x00\xff\xff\xff\x00\x00\x00\x00",
        6,
    ),
];

#[test]
fn questions_are_answered(rt: HostRuntime) {
    each_is_answered(&rt, CASES, answer);
}

/// A field with this many copies of a record.
fn field(heap: Global, tag: u8, record: &[u8], copies: u8) -> Result<Vec<u8>, AllocError> {
    let size = copies.wrapping_mul((record.len() & 0xff) as u8);
    let mut bytes = [tag, 0, size].to_vec(heap)?;
    for _ in 0..copies {
        bytes.extend_from_slice(record)?;
    }
    Ok(bytes)
}

#[test]
fn sixteen_instructions_are_the_most(rt: HostRuntime) -> Result<(), Fail> {
    let fence = b"\x06\xff\xff\xff\x00\x00\x00\x00";
    let mut question = Question::new();
    let sixteen = field(rt.alloc(), 0x50, fence, 16)?;
    question.read(&sixteen)?;
    assert_eq!(rt; question.processors(), 1);
    assert_eq!(rt; question.code(0).len(), 16);
    assert_eq!(rt; answer(&field(rt.alloc(), 0x50, fence, 17)?), 3);
    Ok(())
}

#[test]
fn seventeen_cells_are_refused_before_their_addresses(rt: HostRuntime) -> Result<(), Fail> {
    let cell = b"\x00\x00\x00";
    assert_eq!(rt; answer(&field(rt.alloc(), 0x49, cell, 16)?), 4);
    assert_eq!(rt; answer(&field(rt.alloc(), 0x49, cell, 17)?), 3);
    Ok(())
}

#[test]
fn a_refusal_leaves_the_question_as_it_was(rt: HostRuntime) -> Result<(), Fail> {
    let heap = rt.alloc();
    let mut question = Question::new();
    question.read(sample::QUESTION)?;
    let before = format!(in heap; "{}", QuestionListing(&question))?;
    assert!(rt; question.read(b"\x50\x00\x00\x51\x00\x00").is_err());
    assert_eq!(rt; format!(in heap; "{}", QuestionListing(&question))?, before);
    Ok(())
}
