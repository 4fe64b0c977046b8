// The memory order.
ghost use Rattle.std.specs.Prelude.{◌≡◌, Bool};
ghost use Rattle.bounded.specs.Items.{items};
ghost use Rattle.machine.specs.Steps.{only, stays, order_kept, order_after};

use bounded::vector::Bounded;
use rules::change::{Cut, Effect};
use witness::record::Access;

/// Whether an access is not one of a processor's from a position on.
fn stays(processor: u8, keep: usize, access: Access) -> bool
    ensures { result ≡ stays processor keep access }
{
    access.processor != processor || (access.position as usize) < keep
}

/// The memory order without what a cut removes of a processor.
fn kept(order: Bounded<Access, 64>, processor: u8, keep: usize) -> Bounded<Access, 64>
    ensures { items result ≡ only (stays processor keep) (items order) }
{
    let mut rest = Bounded::new(Access::default());
    for access in order.as_slice() {
        if stays(processor, keep, *access) {
            rest.push(*access);
        }
    }
    rest
}

/// The memory order after a step of the entry at a position: what was removed leaves it, and an access that is done joins it.
pub fn after_step(order: &mut Bounded<Access, 64>, access: Access, cut: Option<Cut>, effect: Effect)
    ensures { items order.new ≡ order_after effect (order_kept cut access.processor (items order.old)) access }
{
    if let Some(cut) = cut {
        *order = kept(*order, access.processor, cut.keep);
    }
    match effect {
        Effect::Local => {}
        Effect::Loaded | Effect::Stored { .. } => {
            order.push(access);
        }
    }
}
