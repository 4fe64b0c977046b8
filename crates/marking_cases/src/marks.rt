// Rebuilds with their refusals, and a mark of each case.
use super::checks::{FORWARDED, STALE, STORE_LOAD};
use marking::answer::Answer;
use marking::fault::{case_number, detail_number};
use marking::mark::mark;
use memory::cell_list::CellList;
use memory::table::Table;
use question::question::Question;
use rebuilder::rebuild::rebuild;
use witness::witness::Witness;

/// Both fetches, the store's data and address, the load's address, the load, the store.
const SEVEN: &[u8] =
    b"\x01\x00\x00\x00\x01\x00\x00\x00\x06\x00\x00\x00\x08\x00\x00\x00\x08\x00\x01\x00\x05\x00\x01\x00\x07\x00\x00\x00";

/// An answer to the question, with the case and the detail of its mark.
const MARKS: &[(Answer<'static>, u8, u8)] = &[
    (Answer::Steps(SEVEN), 0, 0),
    (Answer::Witness(FORWARDED), 0, 0),
    (Answer::Witness(STALE), 1, 5),
    (Answer::Steps(b"\x01\x00\x00\x00"), 2, 15),
    (Answer::Witness(b"\x45"), 3, 1),
    (Answer::Steps(b"\x01\x00\x00"), 4, 0),
];

#[test]
fn marks_are_as_defined(rt: HostRuntime) {
    let mut question = Question::new();
    assert!(rt; question.read(STORE_LOAD).is_ok());
    for (answer, case, detail) in MARKS {
        let over_table = mark(&question, Table::new(), *answer);
        let over_list = mark(&question, CellList::new(), *answer);
        for earned in [over_table, over_list] {
            assert_eq!(rt; case_number(earned), *case);
            assert_eq!(rt; detail_number(earned), *detail);
        }
    }
}

#[test]
fn accepted_witnesses_are_rebuilt(rt: HostRuntime) {
    let mut question = Question::new();
    assert!(rt; question.read(STORE_LOAD).is_ok());
    let mut witness = Witness::new();
    assert!(rt; witness.read(FORWARDED).is_ok());
    let mut area = [9; 30];
    assert_eq!(rt; rebuild(&question, &witness, &mut area).ok(), Some(28));
    assert_eq!(rt; &area[0..28], SEVEN);
    assert!(rt; area[28] == 9 && area[29] == 9);
    let mut short = [9; 27];
    assert_eq!(rt;
        rebuild(&question, &witness, &mut short).map_err(u8::from),
        Err(16)
    );
    assert!(rt; short == [9; 27]);
    assert!(rt; witness.read(STALE).is_ok());
    assert_eq!(rt;
        rebuild(&question, &witness, &mut short).map_err(u8::from),
        Err(17)
    );
    assert!(rt; short == [9; 27]);
}
