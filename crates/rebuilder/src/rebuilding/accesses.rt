// The accesses of the memory order, with local steps between.
ghost use Rattle.std.specs.Prelude.{◌≡◌};
ghost use Rattle.rebuilder.specs.Progress.{accessed, carried};
ghost use Rattle.rebuilder.specs.Views.{progress_of, says_loads};

use super::Rebuilding;
use super::methods::entry_step;
use fields::refusal::Refusal;
use rules::rule::Rule;
use witness::record::Access;

/// Whether the answer to a step of the rule of loads says that the entry loads.
fn says_loads(answer: Result<u8, Refusal>) -> bool
    ensures { result ≡ says_loads answer }
{
    match answer {
        Ok(_) => true,
        Err(refusal) => refusal > Refusal::KindDoesNotSuitRule,
    }
}

impl<'q> Rebuilding<'q> {
    /// Carries out an access: as a load where its entry loads, and else as a store.
    fn access(&mut self, access: Access)
        ensures { progress_of self.new ≡ accessed (progress_of self.old) access }
    {
        let load = entry_step(Rule::Load, access.processor, access.position);
        if says_loads(self.run.step(load)) {
            self.steps.push(load);
        } else {
            // refused, so the run is as it was
            self.take(entry_step(Rule::Store, access.processor, access.position));
        }
    }

    /// Carries out the accesses of an order, with local steps before each and after the last.
    pub fn carry_out(&mut self, order: &[Access])
        ensures { progress_of self.new ≡ carried (progress_of self.old) order.now }
    {
        for access in order {
            self.settle();
            self.access(*access);
        }
        self.settle();
    }
}
