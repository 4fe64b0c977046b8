// A row of fields, read one after the other.
ghost use Rattle.std.specs.Prelude.{◌≡◌};
ghost use Rattle.fields.specs.Places.{read_as};
ghost use Rattle.fields.specs.Rows.{Format, TakesIn, read_row};
ghost use Rattle.fields.specs.Views.{cut};

use super::field::{Split, split_field};
use super::refusal::Refusal;

/// What is known of a row's fields while they are read: it takes them in, and at their end gives what they state.
pub trait RowReader: Sized + Drop {
    /// What a whole row states.
    type Whole;

    // What is known so far, what a whole row means, and the format of the row.
    ghost Known: { Type 0 };

    ghost Meaning: { Type 0 };

    ghost format: { Format Known Meaning };

    // What is known before the first field.
    ghost nothing: { Known };

    // What this reader knows, and what the value that it gives means.
    ghost known: { Self → Known };

    ghost meaning: { Self.Whole → Meaning };

    /// Before the first field.
    fn empty() -> Self
        ensures { known result ≡ nothing };

    /// Takes in one more field: its tag is tested before its length and its contents.
    fn take(&mut self, field: Split<'_>) -> Result<(), Refusal>
        ensures { TakesIn format (known self.old) (cut field.entry) result (known self.new) };

    /// What the fields state; refused where one is missing.
    fn finish(self) -> Result<Self::Whole, Refusal>
        ensures { read_as meaning result ≡ format.whole (known self) };
}

/// What the fields in these bytes state, up to the end of the bytes; refused for the first fault.
#[tactic(auto, unfolding(crate::specs::Rows::read_row, crate::specs::Rows::read_within))]
pub fn read_row<R: RowReader>(bytes: &[u8]) -> Result<R::Whole, Refusal>
    ensures { read_as R.meaning result ≡ read_row R.format R.nothing bytes.now }
{
    let mut reader = R::empty();
    let mut rest = bytes;
    while !rest.is_empty() {
        let field = split_field(rest)?;
        reader.take(field)?;
        rest = field.rest;
    }
    reader.finish()
}
