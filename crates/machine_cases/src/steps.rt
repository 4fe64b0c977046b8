// What each step answers: the entries removed, or 100 and the number of the refusal.
use fields::refusal::Refusal;
use machine::open::OpenRun;
use machine::step::Step;
use memory::table::Table;
use question::question::Question;
use std::process::Abort;

/// Store 5 to cell 1, load it into register 0.
pub const STORE_LOAD: &[u8] =
    b"\x50\x00\x10\x04\xff\xff\xff\x00\x01\x00\x05\x03\x00\xff\xff\x00\x01\x00\x00";

/// A branch to itself.
const LOOP: &[u8] = b"\x50\x00\x08\x05\xff\xff\xff\x00\x00\x00\x00";

/// A branch to the end if 0 is 0, then a store to cell 2.
const BRANCH_STORE: &[u8] =
    b"\x50\x00\x10\x05\xff\xff\xff\x00\x00\x00\x02\x04\xff\xff\xff\x00\x02\x00\x01";

/// Load into r1, r0 = r1 + 1, store r0 to cell r1.
const CHAIN: &[u8] =
    b"\x50\x00\x18\x03\x01\xff\xff\x00\x03\x00\x00\x01\x00\x01\xff\x00\x01\x00\x00\x04\xff\x01\x00\x00\x00\x00\x00";

/// Load, fence LL, load; then fence SS and a store.
const FENCES: &[u8] =
    b"\x50\x00\x28\x03\x00\xff\xff\x00\x01\x00\x00\x06\xff\xff\xff\x00\x00\x00\x00\x03\x01\xff\xff\x00\x02\x00\x00\x06\xff\xff\xff\x00\x01\x00\x00\x04\xff\xff\xff\x00\x03\x00\x01";

/// A question, steps of four bytes, and what each answers.
const CASES: &[(&str, &[u8], &[[u8; 4]], &[u8])] = &[
    (
        "no such rule or processor",
        STORE_LOAD,
        &[
            [0, 0, 0, 0],
            [9, 0, 0, 0],
            [255, 0, 0, 0],
            [1, 1, 0, 0],
            [8, 4, 0, 0],
        ],
        &[107, 107, 107, 107, 107],
    ),
    (
        "fetch: position and guess, then the end",
        STORE_LOAD,
        &[
            [1, 0, 1, 0],
            [1, 0, 0, 2],
            [1, 0, 0, 1],
            [1, 0, 0, 0],
            [1, 0, 0, 0],
            [1, 0, 0, 0],
            [1, 0, 3, 9],
        ],
        &[110, 110, 110, 0, 0, 108, 108],
    ),
    (
        "fetch into a full buffer",
        LOOP,
        &[
            [1, 0, 0, 1],
            [1, 0, 0, 1],
            [1, 0, 0, 1],
            [1, 0, 0, 1],
            [1, 0, 0, 1],
            [1, 0, 0, 1],
            [1, 0, 0, 1],
            [1, 0, 0, 1],
            [1, 0, 0, 1],
            [1, 0, 0, 1],
            [1, 0, 0, 1],
            [1, 0, 0, 1],
            [1, 0, 0, 1],
            [1, 0, 0, 1],
            [1, 0, 0, 1],
            [1, 0, 0, 1],
            [1, 0, 0, 1],
            [1, 0, 9, 9],
        ],
        &[0, 0, 0, 0, 0, 0, 0, 0, 0, 0, 0, 0, 0, 0, 0, 0, 109, 109],
    ),
    (
        "no entry, or a guess",
        STORE_LOAD,
        &[[2, 0, 0, 0], [1, 0, 0, 0], [8, 0, 1, 0], [8, 0, 0, 1]],
        &[110, 0, 110, 110],
    ),
    (
        "the kind does not suit the rule",
        STORE_LOAD,
        &[
            [1, 0, 0, 0],
            [1, 0, 0, 0],
            [2, 0, 0, 0],
            [3, 0, 0, 0],
            [4, 0, 1, 0],
            [5, 0, 0, 0],
            [6, 0, 1, 0],
            [7, 0, 1, 0],
        ],
        &[0, 0, 111, 111, 111, 111, 111, 111],
    ),
    (
        "the kind of a branch",
        LOOP,
        &[[1, 0, 0, 0], [8, 0, 0, 0], [7, 0, 0, 0], [3, 0, 0, 0]],
        &[0, 111, 111, 0],
    ),
    (
        "already made",
        STORE_LOAD,
        &[
            [1, 0, 0, 0],
            [1, 0, 0, 0],
            [6, 0, 0, 0],
            [6, 0, 0, 0],
            [8, 0, 0, 0],
            [8, 0, 0, 0],
            [8, 0, 1, 0],
            [5, 0, 1, 0],
            [5, 0, 1, 0],
            [7, 0, 0, 0],
            [7, 0, 0, 0],
        ],
        &[0, 0, 0, 112, 0, 112, 0, 0, 112, 0, 112],
    ),
    (
        "its own address or data wanting",
        STORE_LOAD,
        &[
            [1, 0, 0, 0],
            [1, 0, 0, 0],
            [5, 0, 1, 0],
            [7, 0, 0, 0],
            [8, 0, 0, 0],
            [7, 0, 0, 0],
        ],
        &[0, 0, 113, 113, 0, 113],
    ),
    (
        "a register wanting, then ready",
        CHAIN,
        &[
            [1, 0, 0, 0],
            [1, 0, 0, 0],
            [1, 0, 0, 0],
            [2, 0, 1, 0],
            [6, 0, 2, 0],
            [8, 0, 2, 0],
            [8, 0, 0, 0],
            [5, 0, 0, 0],
            [2, 0, 1, 0],
            [6, 0, 2, 0],
            [8, 0, 2, 0],
            [7, 0, 2, 0],
        ],
        &[0, 0, 0, 113, 113, 113, 0, 0, 0, 0, 0, 0],
    ),
    (
        "a store behind a branch",
        BRANCH_STORE,
        &[
            [1, 0, 0, 0],
            [1, 0, 0, 0],
            [6, 0, 1, 0],
            [8, 0, 1, 0],
            [7, 0, 1, 0],
            [3, 0, 0, 0],
        ],
        &[0, 0, 0, 0, 114, 1],
    ),
    (
        "a branch guessed right removes nothing",
        BRANCH_STORE,
        &[[1, 0, 0, 1], [3, 0, 0, 0], [1, 0, 0, 0]],
        &[0, 0, 108],
    ),
    (
        "fences hold back and are held back",
        FENCES,
        &[
            [1, 0, 0, 0],
            [1, 0, 0, 0],
            [1, 0, 0, 0],
            [1, 0, 0, 0],
            [1, 0, 0, 0],
            [4, 0, 1, 0],
            [8, 0, 2, 0],
            [5, 0, 2, 0],
            [8, 0, 0, 0],
            [5, 0, 0, 0],
            [4, 0, 1, 0],
            [5, 0, 2, 0],
            [6, 0, 4, 0],
            [8, 0, 4, 0],
            [7, 0, 4, 0],
            [4, 0, 3, 0],
            [7, 0, 4, 0],
        ],
        &[0, 0, 0, 0, 0, 114, 0, 114, 0, 0, 0, 0, 0, 0, 114, 0, 0],
    ),
    (
        "a load behind a store without data, then removed by a late address",
        STORE_LOAD,
        &[
            [1, 0, 0, 0],
            [1, 0, 0, 0],
            [8, 0, 0, 0],
            [8, 0, 1, 0],
            [5, 0, 1, 0],
            [6, 0, 0, 0],
            [5, 0, 1, 0],
        ],
        &[0, 0, 0, 0, 114, 0, 0],
    ),
    (
        "a load done too early is removed",
        STORE_LOAD,
        &[
            [1, 0, 0, 0],
            [1, 0, 0, 0],
            [8, 0, 1, 0],
            [5, 0, 1, 0],
            [8, 0, 0, 0],
            [8, 0, 1, 0],
        ],
        &[0, 0, 0, 0, 1, 110],
    ),
];

/// The answer as a number.
fn number(answer: Result<u8, Refusal>) -> u8 {
    match answer {
        Ok(removed) => removed,
        Err(refusal) => u8::from(refusal).saturating_add(100),
    }
}

/// Runs the steps of a named case over a table and compares each answer.
fn compare(rt: &impl Abort, name: &str, bytes: &[u8], steps: &[[u8; 4]], wanted: &[u8]) {
    let mut question = Question::new();
    assert!(rt; question.read(bytes).is_ok(), "{name}");
    assert_eq!(rt; steps.len(), wanted.len(), "{name}");
    let mut run = OpenRun::start(&question, Table::new());
    for (bytes, answer) in steps.iter().zip(wanted) {
        let got = run.step(Step::from(*bytes));
        assert_eq!(rt; number(got), *answer, "{name}");
    }
}

#[test]
fn steps_answer(rt: HostRuntime) {
    for (name, bytes, steps, wanted) in CASES {
        compare(&rt, name, bytes, steps, wanted);
    }
}
