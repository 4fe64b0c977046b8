// One field of a question.
ghost use Rattle.std.specs.Prelude.{◌≡◌};
ghost use Rattle.fields.specs.Views.{cut};
ghost use Rattle.question.specs.Read.{known};
ghost use Rattle.question.specs.Views.{field_known};

use fields::field::Split;
use fields::refusal::Refusal;

/// A field of a question, by its contents.
#[derive(Clone, Copy)]
pub enum Field<'a> {
    Cells(&'a [u8]),
    Processor(&'a [u8]),
}

impl<'a> TryFrom<Split<'a>> for Field<'a> {
    type Error = Refusal;

    // The field by its tag; refused where a question has no such field.
    ghost try_from_gives = { λ s r. field_known r s.rest.now ≡ known (cut s) };

    fn try_from(field: Split<'a>) -> Result<Field<'a>, Refusal> {
        match field.tag {
            0x49 => Ok(Field::Cells(field.contents)),
            0x50 => Ok(Field::Processor(field.contents)),
            _ => Err(Refusal::TagNotAllowed),
        }
    }
}
