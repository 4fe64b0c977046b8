// One field: a tag byte, two length bytes (high first), contents.
ghost use Rattle.std.specs.Prelude.{◌≡◌};
ghost use Rattle.fields.specs.Fields.{split_field};
ghost use Rattle.fields.specs.Views.{field_split};

use super::refusal::Refusal;

/// The field at the front of some bytes, and the bytes behind it.
#[derive(Clone, Copy)]
pub struct Split<'a> {
    pub tag: u8,
    pub contents: &'a [u8],
    pub rest: &'a [u8],
}

/// Cuts off the first field; refused where the field, or its header, runs past the bytes.
pub fn split_field(bytes: &[u8]) -> Result<Split<'_>, Refusal>
    ensures { field_split result ≡ split_field bytes.now }
{
    let [tag, high, low, behind @ ..] = bytes else {
        return Err(Refusal::FieldPastInput);
    };
    let size = usize::from(u16::from_be_bytes([*high, *low]));
    let (contents, rest) = behind
        .split_at_checked(size)
        .ok_or(Refusal::FieldPastInput)?;
    Ok(Split {
        tag: *tag,
        contents,
        rest,
    })
}
