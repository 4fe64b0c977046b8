// Bytes from their hexadecimal digits.
ghost use Rattle.std.specs.Prelude.{◌≡◌, IfOk, vec_items};
ghost use Rattle.std.specs.Option.{option_map};
ghost use Rattle.hexadecimal.specs.Hex.{pair_value, pairs_bytes, hex_bytes};

use hex::FromHex;
use std::alloc::{AllocError, Global};

/// The byte that two digits state.
fn pair(high: u8, low: u8) -> Option<u8>
    ensures { result ≡ pair_value high low }
{
    let [byte] = <[u8; 1]>::from_hex([high, low]).ok()?;
    Some(byte)
}

/// The bytes that pairs of digits state; nothing where a digit is wrong or one is left over.
fn pairs(heap: Global, text: &[u8]) -> Result<Option<Vec<u8>>, AllocError>
    ensures { IfOk result (λ o. option_map vec_items o ≡ pairs_bytes text.now) }
{
    let mut bytes = Vec::new(heap);
    let mut rest = text;
    while let [high, low, behind @ ..] = rest {
        let Some(byte) = pair(*high, *low) else {
            return Ok(None);
        };
        bytes.push(byte)?;
        rest = behind;
    }
    if rest.is_empty() {
        Ok(Some(bytes))
    } else {
        Ok(None)
    }
}

/// The bytes that a text states in hexadecimal, two digits a byte, upper or lower case; a lone `-` states no bytes.
/// Nothing where a digit is wrong or one is left over.
pub fn decode(heap: Global, text: &[u8]) -> Result<Option<Vec<u8>>, AllocError>
    ensures { IfOk result (λ o. option_map vec_items o ≡ hex_bytes text.now) }
{
    if let [b'-'] = text {
        return Ok(Some(Vec::new(heap)));
    }
    pairs(heap, text)
}
