// Where a value came from, as text.
ghost use Rattle.std.specs.Prelude.{◌≡◌, Some};
ghost use Rattle.listing.specs.Origins.{marked_store, origin_text};
ghost use Rattle.witness.specs.Records.{named_store};

use memory::cell::Mark;
use std::fmt;
use witness::record::{Access, Source};

/// Where a value came from: a store, or the start.
#[derive(Clone, Copy, PartialEq, Eq, Debug)]
pub struct Origin(pub Option<Access>);

impl From<Source> for Origin {
    // The store that the record names; the start where it names none.
    ghost from_gives = { λ s o. o.0 ≡ named_store s };

    fn from(source: Source) -> Origin {
        Origin(source.store())
    }
}

impl From<Mark> for Origin {
    // The store of the mark.
    ghost from_gives = { λ m o. o.0 ≡ marked_store m };

    fn from(mark: Mark) -> Origin {
        match mark {
            Mark::Start => Origin(None),
            Mark::Store {
                processor,
                position,
            } => Origin(Some(Access {
                processor,
                position,
            })),
        }
    }
}

impl fmt::Display for Origin {
    ghost output = { λ o. Some (origin_text o.0) };

    fn fmt<W: fmt::Write>(&self, f: &mut fmt::Formatter<W>) -> fmt::Result {
        match self.0 {
            None => f.write_str("from the start"),
            Some(
                Access {
                    processor,
                    position,
                },
            ) => write!(f, "from processor {processor} position {position}"),
        }
    }
}
