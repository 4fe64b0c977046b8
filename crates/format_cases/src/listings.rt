// The exact text of listings.
use listing::question_listing::QuestionBytes;
use listing::sample;
use listing::witness_listing::WitnessBytes;
use std::alloc::AllocError;
use std::process::Abort;
use std::test::Fail;

/// Bytes, and the listing of the question that they are, or of their refusal.
const QUESTIONS: &[(&[u8], &str)] = &[
    (
        sample::QUESTION,
        "2 processors\n\
         processor 0\n  0  store [1] = 1\n  1  load r0 = [2]\n\
         processor 1\n  0  store [2] = 1\n  1  load r0 = [1]",
    ),
    (
        b"\x49\x00\x03\x01\x00\x05\x50\x00\x30\
          \x01\x00\x01\x02\x00\x05\x00\x00\
          \x02\x00\x01\x02\x00\x05\x00\x00\
          \x02\x00\xff\x02\x00\x00\x00\x00\
          \x03\x00\x01\xff\x00\x04\x00\x00\
          \x05\xff\x01\xff\x00\x05\x00\x03\
          \x06\xff\xff\xff\x00\x01\x00\x00",
        "1 processor\ncell 1 starts at 5\nprocessor 0\
         \n  0  add r0 = r1 + r2 + 5\
         \n  1  subtract r0 = r1 - r2 + 5\
         \n  2  subtract r0 = 0 - r2\
         \n  3  load r0 = [r1 + 4]\
         \n  4  branch to 3 if r1 = 5\
         \n  5  fence LS",
    ),
    (
        b"\x50\x00\x10\x01\x00\xff\xff\x00\x00\x00\x00\x03\x00\xff\xff\x00\x00\x00\x00",
        "1 processor\nprocessor 0\n  0  add r0 = 0\n  1  load r0 = [0]",
    ),
    (
        b"\x50\x00\x00",
        "1 processor\nprocessor 0 has no instructions",
    ),
    (
        b"",
        "refused 2: a field's tag is unknown, repeated, misplaced or missing",
    ),
];

/// Bytes, and the listing of the witness that they are, or of their refusal.
const WITNESSES: &[(&[u8], &str)] = &[
    (
        sample::WITNESS,
        "processor 0 ran 0 1\nprocessor 1 ran 0 1\n\
         load 0 took 0 from the start\nload 1 took 0 from the start\n\
         memory order 0:1 1:1 0:0 1:0",
    ),
    (
        b"\x45\x00\x00\x52\x00\x08\x00\x00\x00\x05\xff\x00\x00\x00\x4d\x00\x00",
        "processor 0 ran nothing\n\
         load 0 took 5 from processor 0 position 0\nload 1 took 0 from processor 255 position 0\n\
         memory order no access",
    ),
    (b"\x45", "refused 1: a field runs past the input"),
];

/// Compares the listing of each case with the expected one.
fn each_is_listed<F: Fn(&[u8]) -> Result<String, AllocError>>(
    rt: &impl Abort,
    cases: &[(&[u8], &str)],
    list: F,
) -> Result<(), Fail>
    requires { F.IsAlwaysCallable list }
{
    for (bytes, expected) in cases {
        assert_eq!(rt; list(bytes)?.as_str(), *expected);
    }
    Ok(())
}

#[test]
fn questions_are_listed(rt: HostRuntime) -> Result<(), Fail> {
    let heap = rt.alloc();
    each_is_listed(
        &rt,
        QUESTIONS,
        |bytes| format!(in heap; "{}", QuestionBytes(bytes)),
    )
}

#[test]
fn witnesses_are_listed(rt: HostRuntime) -> Result<(), Fail> {
    let heap = rt.alloc();
    each_is_listed(
        &rt,
        WITNESSES,
        |bytes| format!(in heap; "{}", WitnessBytes(bytes)),
    )
}
