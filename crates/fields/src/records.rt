// The records in a field's contents.
ghost use Rattle.std.specs.Prelude.{◌≡◌, ◌<◌, ◌^◌};
ghost use Rattle.fields.specs.Places.{read_as};
ghost use Rattle.fields.specs.Records.{split_records};

use super::refusal::Refusal;

/// The records of N bytes in a field's contents; refused where they are not whole or more than `most`.
#[tactic(auto, using(crate::proofs::Chunks::too_many))]
pub fn split_records<const N: usize>(contents: &[u8], most: usize) -> Result<&[[u8; N]], Refusal>
    requires some { 0 < N }
    requires small { N < 2 ^ 16 }
    ensures { read_as (λ rs. rs.now) result ≡ split_records N most contents.now }
{
    let (records, []) = contents.as_chunks() else {
        return Err(Refusal::LengthNotAllowed);
    };
    if records.len() > most {
        return Err(Refusal::LengthNotAllowed);
    }
    Ok(records)
}
