// What closed runs answer.
use super::closed;
use super::steps::STORE_LOAD;
use fields::refusal::Refusal;
use machine::closed::ClosedRun;
use memory::cell::{Cell, Mark};
use memory::cell_list::CellList;
use memory::memory::Memory;
use memory::table::Table;
use question::question::Question;
use std::process::Abort;
use std::test::Fail;

/// The steps that finish a store and a load of the same cell.
const SEVEN: &[[u8; 4]] = &[
    [1, 0, 0, 0],
    [1, 0, 0, 0],
    [6, 0, 0, 0],
    [8, 0, 0, 0],
    [8, 0, 1, 0],
    [5, 0, 1, 0],
    [7, 0, 0, 0],
];

/// The witness that they leave.
const WITNESS: &[u8] =
    b"\x45\x00\x02\x00\x01\x52\x00\x04\x00\x00\x00\x05\x4d\x00\x04\x00\x01\x00\x00";

/// The number of a refusal; 0 for a result.
fn refused<T: Drop>(answer: Result<T, Refusal>) -> u8 {
    match answer {
        Ok(_) => 0,
        Err(refusal) => u8::from(refusal),
    }
}

/// Whether a value came from the store of processor 0 at position 0.
fn from_the_store(mark: Mark) -> bool {
    matches!(
        mark,
        Mark::Store {
            processor: 0,
            position: 0,
        }
    )
}

/// A finished run answers its register, its cells and its witness.
fn check_finished<M: Memory + Drop>(rt: &impl Abort, mut run: ClosedRun<M>) -> Result<(), Fail> {
    assert!(rt; run.is_finished());
    assert!(rt; run.register(0, 0) == Ok(5));
    assert_eq!(rt; refused(run.register(1, 0)), 18);
    assert_eq!(rt; refused(run.register(0, 8)), 18);
    assert_eq!(rt; refused(run.cell(16)), 18);
    match run.cell(1) {
        Ok(cell) => assert!(rt; cell.value == 5 && from_the_store(cell.mark)),
        Err(_) => return Err(Fail::new("cell 1 refused")),
    }
    let mut short = [7u8; 18];
    assert_eq!(rt; refused(run.witness(&mut short)), 16);
    assert!(rt; short == [7u8; 18]);
    let mut area = [7u8; 20];
    assert!(rt; run.witness(&mut area) == Ok(19));
    assert!(rt; area[19] == 7);
    assert!(rt; &area[0..19] == WITNESS);
    Ok(())
}

#[test]
fn a_finished_run_answers(rt: HostRuntime) -> Result<(), Fail> {
    let mut question = Question::new();
    assert!(rt; question.read(STORE_LOAD).is_ok());
    assert!(rt; closed(&question, Table::new(), SEVEN).is_finished());
    check_finished(&rt, closed(&question, Table::new(), SEVEN))?;
    check_finished(&rt, closed(&question, CellList::new(), SEVEN))
}

#[test]
fn an_unfinished_run_is_refused(rt: HostRuntime) {
    let mut question = Question::new();
    assert!(rt; question.read(STORE_LOAD).is_ok());
    let mut run = closed(&question, Table::new(), &[]);
    assert!(rt; !run.is_finished());
    assert_eq!(rt; refused(run.register(9, 9)), 15);
    assert_eq!(rt; refused(run.cell(99)), 15);
    assert_eq!(rt; refused(run.witness(&mut [])), 15);
}

#[test]
fn old_cells_change_nothing(rt: HostRuntime) -> Result<(), Fail> {
    let mut question = Question::new();
    assert!(rt; question.read(STORE_LOAD).is_ok());
    let mut used = CellList::new();
    used.write(
        3,
        1,
        Cell {
            value: 9,
            mark: Mark::Store {
                processor: 3,
                position: 3,
            },
        },
    );
    used.write(
        2,
        7,
        Cell {
            value: 8,
            mark: Mark::Start,
        },
    );
    check_finished(&rt, closed(&question, used, SEVEN))
}
