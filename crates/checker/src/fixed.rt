// What a witness fixes: each register and each cell.
ghost use Rattle.std.specs.Prelude.{◌≡◌, length, Some};
ghost use Rattle.question.specs.Views.{litmus_of};
ghost use Rattle.witness.specs.Views.{execution_of};
ghost use Rattle.events.specs.Events.{operand};
ghost use Rattle.checker.specs.Fixed.{fixed_register, fixed_cell, last_store, left_by, cell_from};
ghost use Rattle.checker.specs.Views.{asked, stated};

use super::evaluated::Evaluated;
use events::event::Event;
use events::lookup::operand;
use memory::cell::{Cell, Mark};
use question::question::Question;
use witness::record::Access;
use witness::witness::Witness;

/// A register after the events: the result of its last writer, or 0.
fn register_after(events: &[Event], register: u8) -> u16
    ensures { result ≡ operand events.now (length events.now) (Some register) }
{
    operand(events, Some(register))
}

/// The register that a witness fixes; 0 where there is no such processor or register.
pub fn fixed_register(question: &Question, witness: &Witness, processor: u8, register: u8) -> u16
    ensures { result ≡ fixed_register (litmus_of question.now) (execution_of witness.now) processor register }
{
    let evaluated = Evaluated::new(question, witness);
    register_after(evaluated.events(processor as usize), register)
}

impl<'q, 'w> Evaluated<'q, 'w> {
    /// The number in the order of the last store to a cell.
    fn last_store(&self, address: u16) -> Option<usize>
        ensures { result ≡ last_store (asked self.now) (stated self.now) address }
    {
        (0..self.accesses()).rfind(|number| self.stores_to(address, self.ordered(*number).into()))
    }

    /// What a store leaves in its cell.
    fn left_by(&self, store: Access) -> Cell
        ensures { result ≡ left_by (asked self.now) (stated self.now) store }
    {
        Cell {
            value: self.event(store.into()).datum,
            mark: Mark::Store {
                processor: store.processor,
                position: store.position,
            },
        }
    }

    /// A cell after the store with a number in the order; without one the start stands.
    fn cell_from(&self, address: u16, store: Option<usize>) -> Cell
        ensures { result ≡ cell_from (asked self.now) (stated self.now) address store }
    {
        match store {
            None => Cell {
                value: self.start_value(address),
                mark: Mark::Start,
            },
            Some(number) => self.left_by(self.ordered(number)),
        }
    }
}

/// The cell that a witness fixes: value and mark of the last store to it in the order, or the start.
pub fn fixed_cell(question: &Question, witness: &Witness, address: u8) -> Cell
    ensures { result ≡ fixed_cell (litmus_of question.now) (execution_of witness.now) address }
{
    let evaluated = Evaluated::new(question, witness);
    let address = address as u16;
    evaluated.cell_from(address, evaluated.last_store(address))
}
