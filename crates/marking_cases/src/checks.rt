// The exact text of checks, a case for each verdict.
use check_listing::verdict_listing::CheckListing;
use ordering::gam::Gam;
use question::question::Question;
use std::test::Fail;
use witness::witness::Witness;

/// Store 5 to cell 1, then load it into register 0.
pub const STORE_LOAD: &[u8] =
    b"\x50\x00\x10\x04\xff\xff\xff\x00\x01\x00\x05\x03\x00\xff\xff\x00\x01\x00\x00";

/// Load cell 1 twice.
const LOAD_LOAD: &[u8] =
    b"\x50\x00\x10\x03\x00\xff\xff\x00\x01\x00\x00\x03\x01\xff\xff\x00\x01\x00\x00";

/// The load, forwarded from the store, comes first in the order.
pub const FORWARDED: &[u8] =
    b"\x45\x00\x02\x00\x01\x52\x00\x04\x00\x00\x00\x05\x4d\x00\x04\x00\x01\x00\x00";

/// The load reads 0 from the start, after the store.
pub const STALE: &[u8] =
    b"\x45\x00\x02\x00\x01\x52\x00\x04\xff\xff\x00\x00\x4d\x00\x04\x00\x00\x00\x01";

/// A question, a witness, and the text of the check under GAM.
const CHECKS: &[(&[u8], &[u8], &str)] = &[
    (
        STORE_LOAD,
        FORWARDED,
        "verdict 0: accepted\nmemory order:\
         \n  0:1 load cell 1 = 5 from processor 0 position 0\n  0:0 store cell 1 = 5",
    ),
    (
        STORE_LOAD,
        b"\x45\x00\x01\x00\x52\x00\x00\x4d\x00\x02\x00\x00",
        "verdict 1: Path: the path of processor 0 does not reach the end\nmemory order:\
         \n  0:0 store cell 1 = 5",
    ),
    (
        STORE_LOAD,
        b"\x45\x00\x02\x00\x01\x52\x00\x04\x00\x00\x00\x05\x4d\x00\x02\x00\x01",
        "verdict 2: Order: the access 0:0 does not stand in the order\nmemory order:\
         \n  0:1 load cell 1 = 5 from processor 0 position 0",
    ),
    (
        STORE_LOAD,
        b"\x45\x00\x02\x00\x01\x52\x00\x04\xff\x00\x00\x05\x4d\x00\x04\x00\x01\x00\x00",
        "verdict 3: Source: the load 0:1 names neither the start with its value nor a store to its cell with its value\
         \nmemory order:\
         \n  0:1 load cell 1 = 5 from processor 255 position 0\n  0:0 store cell 1 = 5",
    ),
    (
        LOAD_LOAD,
        b"\x45\x00\x02\x00\x01\x52\x00\x08\xff\xff\x00\x00\xff\xff\x00\x00\x4d\x00\x04\x00\x01\x00\x00",
        "verdict 4: InstOrder: 0:0 is kept before 0:1, and the order has them otherwise\nmemory order:\
         \n  0:1 load cell 1 = 0 from the start\n  0:0 load cell 1 = 0 from the start",
    ),
    (
        STORE_LOAD,
        STALE,
        "verdict 5: LoadValue: the load 0:1 does not name the store of processor 0 at position 0, the youngest that it may see\
         \nmemory order:\
         \n  0:0 store cell 1 = 5\n  0:1 load cell 1 = 0 from the start",
    ),
];

#[test]
fn checks_are_listed(rt: HostRuntime) -> Result<(), Fail> {
    for (question_bytes, witness_bytes, expected) in CHECKS {
        let mut question = Question::new();
        assert!(rt; question.read(question_bytes).is_ok());
        let mut witness = Witness::new();
        assert!(rt; witness.read(witness_bytes).is_ok());
        let listing = CheckListing {
            rule: &Gam,
            question: &question,
            witness: &witness,
        };
        let text = format!(in rt.alloc(); "{}", listing)?;
        assert_eq!(rt; text.as_str(), *expected);
    }
    Ok(())
}
