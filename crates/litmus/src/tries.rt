// Every witness of an outcome: every memory order, and every source of each load.
ghost use Rattle.std.specs.Prelude.{◌<◌};

use super::tests::LitmusTest;
use super::untried::Untried;
use bounded::vector::Bounded;
use checker::check::check;
use ordering::gam::Gam;
use ordering::sequential::Sequential;
use question::question::Question;
use std::alloc::{AllocError, Global};
use witness::record::{Access, Source};
use witness::witness::Witness;

/// How many witnesses were tried, and how many of them are accepted.
#[derive(Clone, Copy, Default)]
pub struct Tally {
    pub tried: u64,
    pub gam: u64,
    pub sc: u64,
}

impl Tally {
    /// Counts one more witness of a question.
    fn count(&mut self, question: &Question, witness: &Witness) {
        let gam = check(&Gam, question, witness).is_ok();
        let sc = check(&Sequential, question, witness).is_ok();
        self.tried = self.tried.saturating_add(1);
        self.gam = self.gam.saturating_add(u64::from(gam));
        self.sc = self.sc.saturating_add(u64::from(sc));
    }
}

/// The most witnesses that are tried.
const MOST: u64 = 10_000_000;

/// A question whose processors run from their first place to their last, its accesses, and those that store.
#[derive(Drop)]
struct Tries<'a> {
    heap: Global,
    question: &'a Question,
    accesses: Vec<Access>,
    stores: Vec<Access>,
}

impl<'a> Tries<'a> {
    /// The tries of a question.
    fn new(heap: Global, question: &'a Question) -> Result<Tries<'a>, AllocError> {
        let mut accesses = Vec::new(heap);
        let mut stores = Vec::new(heap);
        for processor in 0..4u8 {
            let code = question.code(processor as usize);
            for (position, instruction) in (0..16u8).zip(code) {
                let access = Access {
                    processor,
                    position,
                };
                if instruction.accesses() {
                    accesses.push(access)?;
                }
                if instruction.stores() {
                    stores.push(access)?;
                }
            }
        }
        Ok(Tries {
            heap,
            question,
            accesses,
            stores,
        })
    }

    /// The paths from the first place to the last.
    fn paths(&self) -> Bounded<Bounded<u8, 16>, 4> {
        let mut paths = Bounded::new(Bounded::new(0));
        for processor in 0..self.question.processors() {
            let mut path = Bounded::new(0);
            for (place, _) in (0..16u8).zip(self.question.code(processor)) {
                path.push(place);
            }
            paths.push(path);
        }
        paths
    }

    /// The number of orders of the accesses.
    fn orders(&self) -> u64 {
        let accesses = self.accesses.len() as u64;
        (1..=accesses).fold(1u64, |count, n| count.saturating_mul(n))
    }

    /// The order with a number below the number of all orders: each number gives another one.
    fn order(&self, number: u64) -> Result<Bounded<Access, 64>, AllocError> {
        let mut rest = Vec::from_slice(self.heap, &self.accesses)?;
        let mut order = Bounded::new(Access::default());
        let mut number = number;
        while !rest.is_empty() {
            let left = rest.len() as u64;
            order.push(rest.remove((number % left) as usize));
            number /= left;
        }
        Ok(order)
    }

    /// The number of sources that a load may have: the start and the stores.
    fn origins(&self) -> u64
        ensures { 0 < result }
    {
        (self.stores.len() as u64).saturating_add(1)
    }

    /// The number of choices of a source for each load.
    fn choices(&self, values: &[u16]) -> u64 {
        values
            .iter()
            .fold(1u64, |count, _| count.saturating_mul(self.origins()))
    }

    /// The store with a number below the number of stores, or the start.
    fn source(&self, choice: u64, value: u16) -> Source {
        let start = Access {
            processor: 0xff,
            position: 0xff,
        };
        let Access {
            processor,
            position,
        } = *self.stores.get(choice as usize).unwrap_or(&start);
        Source {
            processor,
            position,
            value,
        }
    }

    /// The sources with a number below the number of all choices: each number gives others.
    fn sources(&self, number: u64, values: &[u16]) -> Bounded<Source, 64> {
        let mut sources = Bounded::new(Source::default());
        let origins = self.origins();
        let mut number = number;
        for value in values {
            sources.push(self.source(number % origins, *value));
            number /= origins;
        }
        sources
    }

    /// Tries all orders with one choice of sources.
    fn with_sources(
        &self,
        sources: Bounded<Source, 64>,
        tally: &mut Tally,
    ) -> Result<(), AllocError> {
        for number in 0..self.orders() {
            if let Some(witness) = Witness::from_parts(self.paths(), sources, self.order(number)?) {
                tally.count(self.question, &witness);
            }
        }
        Ok(())
    }
}

impl<'a> LitmusTest<'a> {
    /// Tries every witness in which the loads read the test's values.
    pub fn tried(&self, heap: Global) -> Result<Tally, Untried<'a>> {
        let tries = Tries::new(heap, &self.question)?;
        let choices = tries.choices(&self.values);
        if tries.orders().saturating_mul(choices) > MOST {
            return Err(Untried::TooMany(self.name));
        }
        let mut tally = Tally::default();
        for number in 0..choices {
            tries.with_sources(tries.sources(number, &self.values), &mut tally)?;
        }
        Ok(tally)
    }
}
