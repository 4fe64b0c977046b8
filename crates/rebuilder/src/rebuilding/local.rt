// Local steps: arithmetic, branches, fences, store data and addresses.
ghost use Rattle.std.specs.Prelude.{◌≡◌};
ghost use Rattle.std.specs.List.{range_with_len, flat_map};
ghost use Rattle.completeness.specs.StepsFor.{entry_steps};
ghost use Rattle.rebuilder.specs.Progress.{TakesFirst, lowest_first, settled};
ghost use Rattle.rebuilder.specs.Views.{progress_of};

use super::Rebuilding;
use super::methods::entry_step;
use rules::rule::Rule;

/// The rules of local steps.
const LOCAL_RULES: [Rule; 5] = [
    Rule::Arithmetic,
    Rule::Branch,
    Rule::Fence,
    Rule::StoreData,
    Rule::Address,
];

impl<'q> Rebuilding<'q> {
    /// Takes the local step of an entry by the lowest rule that is accepted, and answers whether there is one.
    fn take_lowest_of_entry(&mut self, processor: u8, position: u8) -> bool
        ensures { TakesFirst (progress_of self.old) (entry_steps processor position) result (progress_of self.new) }
    {
        for rule in LOCAL_RULES {
            if self.take_if_accepted(entry_step(rule, processor, position)) {
                return true;
            }
        }
        false
    }

    /// Takes the accepted local step of a processor by the lowest position and rule, and answers whether there is one.
    fn take_lowest_of_processor(&mut self, processor: u8) -> bool
        ensures { TakesFirst (progress_of self.old) (flat_map (entry_steps processor) (range_with_len 0 16)) result (progress_of self.new) }
    {
        for position in 0..16 {
            if self.take_lowest_of_entry(processor, position) {
                return true;
            }
        }
        false
    }

    /// Takes the accepted local step by the lowest processor, position and rule, and answers whether there is one.
    fn take_lowest(&mut self) -> bool
        ensures { TakesFirst (progress_of self.old) (lowest_first (progress_of self.old)) result (progress_of self.new) }
    {
        for processor in 0..self.processors {
            if self.take_lowest_of_processor(processor) {
                return true;
            }
        }
        false
    }

    /// Takes local steps until none is left, each time the lowest.
    pub(super) fn settle(&mut self)
        ensures { progress_of self.new ≡ settled (progress_of self.old) }
    {
        for taken in 0..256u16 {
            if !self.take_lowest() {
                return;
            }
        }
    }
}
