// The listing of a witness.
use super::access::AccessText;
use super::origin::Origin;
use super::refusal::RefusalText;
use std::fmt;
use witness::witness::Witness;

/// Writes items, each behind a blank; a word where there are none.
fn write_items<W: fmt::Write, T, D: fmt::Display + Copy, F: Fn(&T) -> D>(
    f: &mut fmt::Formatter<W>,
    items: &[T],
    none: &str,
    text: F,
) -> fmt::Result
    requires { F.IsAlwaysCallable text }
{
    if items.is_empty() {
        return write!(f, " {none}");
    }
    for item in items {
        write!(f, " {}", text(item))?;
    }
    Ok(())
}

/// A witness: a line for each path, a line for each source, and the memory order.
#[derive(Clone, Copy)]
pub struct WitnessListing<'a>(pub &'a Witness);

impl fmt::Display for WitnessListing<'_> {
    fn fmt<W: fmt::Write>(&self, f: &mut fmt::Formatter<W>) -> fmt::Result {
        let witness = self.0;
        for processor in 0..witness.processors() {
            write!(f, "processor {processor} ran")?;
            write_items(f, witness.path(processor), "nothing", |place| *place)?;
            writeln!(f)?;
        }
        for (load, source) in witness.sources().iter().enumerate() {
            writeln!(
                f,
                "load {load} took {} {}",
                source.value,
                Origin::from(*source)
            )?;
        }
        f.write_str("memory order")?;
        write_items(
            f,
            witness.order(),
            "no access",
            |access| AccessText(*access),
        )
    }
}

/// The witness that bytes are, or why they are refused.
#[derive(Clone, Copy)]
pub struct WitnessBytes<'a>(pub &'a [u8]);

impl fmt::Display for WitnessBytes<'_> {
    fn fmt<W: fmt::Write>(&self, f: &mut fmt::Formatter<W>) -> fmt::Result {
        let mut witness = Witness::new();
        match witness.read(self.0) {
            Ok(()) => write!(f, "{}", WitnessListing(&witness)),
            Err(refusal) => write!(f, "{}", RefusalText(refusal)),
        }
    }
}
