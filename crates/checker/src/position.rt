// A position of a path.
ghost use Rattle.std.specs.Prelude.{◌≡◌};

use witness::record::{Access, Source};

/// A position of a processor's path.
#[derive(Clone, Copy, PartialEq, Eq)]
pub struct Position {
    pub processor: usize,
    pub position: usize,
}

impl From<Access> for Position {
    // The position that the access names.
    ghost from_gives = { λ a p. p ≡ record { processor = a.processor; position = a.position } };

    fn from(access: Access) -> Position {
        Position {
            processor: access.processor.into(),
            position: access.position.into(),
        }
    }
}

impl From<Source> for Position {
    // The position that the source record names.
    ghost from_gives = { λ r p. p ≡ record { processor = r.processor; position = r.position } };

    fn from(source: Source) -> Position {
        Position {
            processor: source.processor.into(),
            position: source.position.into(),
        }
    }
}
