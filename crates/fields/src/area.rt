// Bytes at the front of the caller's area.
ghost use Rattle.std.specs.Prelude.{◌≡◌};
ghost use Rattle.fields.specs.Areas.{area_answer, area_after};

use super::refusal::Refusal;

/// Writes the bytes to the front of the area and answers how many they are; refused, and nothing written, where the area has fewer.
pub fn put(area: &mut [u8], bytes: &[u8]) -> Result<usize, Refusal>
    ensures value { result ≡ area_answer bytes.now area.old }
    ensures area { area.new ≡ area_after bytes.now area.old }
{
    if area.len() < bytes.len() {
        return Err(Refusal::AreaTooShort);
    }
    area[0..bytes.len()].copy_from_slice(bytes);
    Ok(bytes.len())
}
