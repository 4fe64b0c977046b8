// A witness from its bytes.
ghost use Rattle.std.specs.Prelude.{◌≡◌, ◌*◌, ◌/◌, ◌%◌, ◌<◌, ◌^◌, ◌&&◌, ◌==◌, nat_le, true, [], map, length, is_err, if◌then◌else◌, Ok, Err, MatchResult};
ghost use Rattle.std.specs.Simd.{first_chunks};
ghost use Rattle.bounded.specs.Items.{items};
ghost use Rattle.fields.specs.declared.refusal.Refusal.TheVariants.{LengthNotAllowed};
ghost use Rattle.fields.specs.Places.{answered, filled, read_as};
ghost use Rattle.fields.specs.Rows.{TakesIn};
ghost use Rattle.witness.specs.Bytes.{path_tag};
ghost use Rattle.witness.specs.Execution.{Execution};
ghost use Rattle.witness.specs.Read.{Draft as Known, no_fields, witness_fits, witness_format, witness_of};
ghost use Rattle.witness.specs.Views.{execution_of, draft_of, path_cut, source_cut, order_cut};

use super::draft::Draft;
use super::field::Field;
use super::record::Record;
use super::witness::Witness;
use bounded::vector::Bounded;
use fields::field::Split;
use fields::records::split_records;
use fields::refusal::Refusal;
use fields::row::{RowReader, read_row};

/// The places from the contents of a path field.
fn read_places(contents: &[u8]) -> Result<Bounded<u8, 16>, Refusal>
    ensures { read_as items result ≡ (if witness_fits path_tag (length contents.now) then Ok contents.now else Err LengthNotAllowed) }
{
    if contents.len() > 16 {
        return Err(Refusal::LengthNotAllowed);
    }
    let mut places = Bounded::new(0);
    places.extend(contents);
    Ok(places)
}

/// At most 64 records of N bytes from the contents of a field.
fn read_records<R: Record<N>, const N: usize>(contents: &[u8]) -> Result<Bounded<R, 64>, Refusal>
    requires some { 0 < N }
    requires small { N < 2 ^ 16 }
    ensures { read_as items result ≡ (if nat_le (length contents.now) (N * 64) && length contents.now % N == 0 then Ok (map R.record_of (first_chunks N (length contents.now / N) contents.now)) else Err LengthNotAllowed) }
{
    let chunks = split_records(contents, 64)?;
    let mut records = Bounded::new(R::default());
    for bytes in chunks {
        records.push(R::from_bytes(bytes));
    }
    Ok(records)
}

impl Draft {
    /// Takes in a path field; at most four come before the other fields.
    fn add_path(&mut self, contents: &[u8]) -> Result<(), Refusal>
        ensures { TakesIn witness_format (draft_of self.old) (path_cut contents.now) result (draft_of self.new) }
    {
        if self.sources.is_some() || self.order.is_some() || self.paths.len() >= 4 {
            return Err(Refusal::TagNotAllowed);
        }
        self.paths.push(read_places(contents)?);
        Ok(())
    }

    /// Takes in the source field, which comes behind at least one path field.
    #[tactic(auto, using(crate::proofs::Records::sources_read))]
    fn add_sources(&mut self, contents: &[u8]) -> Result<(), Refusal>
        ensures { TakesIn witness_format (draft_of self.old) (source_cut contents.now) result (draft_of self.new) }
    {
        if self.sources.is_some() || self.order.is_some() || self.paths.len() == 0 {
            return Err(Refusal::TagNotAllowed);
        }
        self.sources = Some(read_records(contents)?);
        Ok(())
    }

    /// Takes in the order field, which comes behind the source field.
    #[tactic(auto, using(crate::proofs::Records::accesses_read))]
    fn add_order(&mut self, contents: &[u8]) -> Result<(), Refusal>
        ensures { TakesIn witness_format (draft_of self.old) (order_cut contents.now) result (draft_of self.new) }
    {
        if self.sources.is_none() || self.order.is_some() {
            return Err(Refusal::TagNotAllowed);
        }
        self.order = Some(read_records(contents)?);
        Ok(())
    }
}

impl RowReader for Draft {
    type Whole = Witness;

    ghost Known = { Known };

    ghost Meaning = { Execution };

    ghost format = { witness_format };

    ghost nothing = { no_fields };

    ghost known = { draft_of };

    ghost meaning = { execution_of };

    fn empty() -> Draft {
        Draft {
            paths: Bounded::new(Bounded::new(0)),
            sources: None,
            order: None,
        }
    }

    fn take(&mut self, field: Split<'_>) -> Result<(), Refusal> {
        match Field::try_from(field)? {
            Field::Path(contents) => self.add_path(contents),
            Field::Source(contents) => self.add_sources(contents),
            Field::Order(contents) => self.add_order(contents),
        }
    }

    fn finish(self) -> Result<Witness, Refusal> {
        Ok(Witness {
            paths: self.paths,
            sources: self.sources.ok_or(Refusal::TagNotAllowed)?,
            order: self.order.ok_or(Refusal::TagNotAllowed)?,
        })
    }
}

impl Witness {
    /// Reads a witness into this place; refused bytes leave the place as it was.
    pub fn read(&mut self, bytes: &[u8]) -> Result<(), Refusal>
        ensures answer { result ≡ answered (witness_of bytes.now) }
        ensures place { execution_of self.new ≡ filled (execution_of self.old) (witness_of bytes.now) }
        ensures same { is_err result ≡ true → self.new ≡ self.old }
    {
        let witness = read_row::<Draft>(bytes)?;
        *self = witness;
        Ok(())
    }
}
