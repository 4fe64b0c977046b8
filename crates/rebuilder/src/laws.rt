// A law of rebuilding, in the contract of a function that does nothing else.
ghost use Rattle.rebuilder.specs.Rebuild.{AreasOf1024BytesAreEnough};

/// For every witness of which the axioms hold, an area of 1024 bytes is enough.
pub fn areas_of_1024_bytes_are_enough() -> u8
    ensures { AreasOf1024BytesAreEnough }
{
    0
}
