// The mark that an answer earns, as text.
use listing::refusal::RefusalText;
use marking::fault::Fault;
use std::fmt;

/// A mark in words.
#[derive(Clone, Copy)]
pub struct MarkText(pub Result<(), Fault>);

impl fmt::Display for MarkText {
    fn fmt<W: fmt::Write>(&self, f: &mut fmt::Formatter<W>) -> fmt::Result {
        match self.0 {
            Ok(()) => f.write_str("accepted"),
            Err(Fault::Fails(axiom)) => {
                let number = u8::from(axiom);
                write!(f, "not accepted: verdict {number}, {axiom:?} fails")
            }
            Err(Fault::Unfinished) => f.write_str("not accepted: the steps do not finish the run"),
            Err(Fault::Refused(refusal)) => {
                write!(f, "not accepted: witness {}", RefusalText(refusal))
            }
            Err(Fault::Unreadable) => f.write_str("not accepted: the steps end inside of a step"),
        }
    }
}
