// The text of an access.
ghost use Rattle.std.specs.Prelude.{Some};
ghost use Rattle.listing.specs.Accesses.{access_text};

use std::fmt;
use witness::record::Access;

/// An access as its processor and its position.
#[derive(Clone, Copy, Debug)]
pub struct AccessText(pub Access);

impl fmt::Display for AccessText {
    ghost output = { λ a. Some (access_text a.0) };

    fn fmt<W: fmt::Write>(&self, f: &mut fmt::Formatter<W>) -> fmt::Result {
        let Access {
            processor,
            position,
        } = self.0;
        write!(f, "{processor}:{position}")
    }
}
