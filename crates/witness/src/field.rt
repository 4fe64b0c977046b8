// One field of a witness.
ghost use Rattle.std.specs.Prelude.{◌≡◌};
ghost use Rattle.fields.specs.Views.{cut};
ghost use Rattle.witness.specs.Read.{known};
ghost use Rattle.witness.specs.Views.{field_known};

use fields::field::Split;
use fields::refusal::Refusal;

/// A field of a witness, by its contents.
#[derive(Clone, Copy)]
pub enum Field<'a> {
    Path(&'a [u8]),
    Source(&'a [u8]),
    Order(&'a [u8]),
}

impl<'a> TryFrom<Split<'a>> for Field<'a> {
    type Error = Refusal;

    // The field by its tag; refused where a witness has no such field.
    ghost try_from_gives = { λ s r. field_known r s.rest.now ≡ known (cut s) };

    fn try_from(field: Split<'a>) -> Result<Field<'a>, Refusal> {
        match field.tag {
            0x45 => Ok(Field::Path(field.contents)),
            0x52 => Ok(Field::Source(field.contents)),
            0x4d => Ok(Field::Order(field.contents)),
            _ => Err(Refusal::TagNotAllowed),
        }
    }
}
