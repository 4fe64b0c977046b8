// The bytes of a witness.
ghost use Rattle.std.specs.Prelude.{◌≡◌, ◌<◌, ◌^◌, ◌++◌, length, take};
ghost use Rattle.std.specs.List.{flat_map};
ghost use Rattle.bounded.specs.Items.{items};
ghost use Rattle.fields.specs.Areas.{area_answer, area_after};
ghost use Rattle.fields.specs.Fields.{field_bytes};
ghost use Rattle.witness.specs.Bytes.{bytes_of};
ghost use Rattle.witness.specs.Views.{execution_of};

use super::record::Record;
use super::witness::Witness;
use bounded::vector::Bounded;
use fields::area::put;
use fields::refusal::Refusal;

/// Adds a field: its tag, the length of its contents, its contents.
fn put_field(out: &mut Bounded<u8, 466>, tag: u8, contents: &[u8])
    requires { length contents.now < 65536 }
    ensures { items out.new ≡ take 466 (items out.old ++ field_bytes tag contents.now) }
{
    let [high, low] = (contents.len() as u16).to_be_bytes();
    out.extend(&[tag, high, low]);
    out.extend(contents);
}

/// The contents of a field of records.
fn write_records<R: Record<N>, const N: usize, const M: usize>(records: &[R]) -> Bounded<u8, M>
    requires small { N < 2 ^ 16 }
    ensures { items result ≡ take M (flat_map R.record_bytes records.now) }
{
    let mut out = Bounded::new(0);
    for record in records {
        out.extend(&record.to_bytes());
    }
    out
}

impl Witness {
    /// A field for each path, then the source field, then the order field.
    fn bytes(&self) -> Bounded<u8, 466>
        ensures { items result ≡ bytes_of (execution_of self.now) }
    {
        let mut out = Bounded::new(0);
        for path in self.paths.as_slice() {
            put_field(&mut out, 0x45, path.as_slice());
        }
        let sources: Bounded<u8, 256> = write_records(self.sources.as_slice());
        put_field(&mut out, 0x52, sources.as_slice());
        let order: Bounded<u8, 128> = write_records(self.order.as_slice());
        put_field(&mut out, 0x4d, order.as_slice());
        out
    }

    /// Writes the witness to the front of the area and answers how many bytes it has; refused, and nothing written, where the area has fewer.
    pub fn write(&self, area: &mut [u8]) -> Result<usize, Refusal>
        ensures value { result ≡ area_answer (bytes_of (execution_of self.now)) area.old }
        ensures area { area.new ≡ area_after (bytes_of (execution_of self.now)) area.old }
    {
        let bytes = self.bytes();
        put(area, bytes.as_slice())
    }
}
