// The rules: what each does to an entry where it stands, or why it is refused.
ghost use Rattle.std.specs.Prelude.{◌≡◌, ◌+◌, ◌-◌, ◌<◌, length, IfSome};
ghost use Rattle.rules.specs.Act.{action};
ghost use Rattle.rules.specs.Changes.{wanted, unless_held, arithmetic, branch, fence, load, store_data, store, address, address_cut};
ghost use Rattle.rules.specs.Entries.{at};
ghost use Rattle.rules.specs.Ready.{ready};
ghost use Rattle.rules.specs.Tests.{to_cell};
ghost use Rattle.search.specs.Search.{nearest, first, passes};

use super::super::change::{Action, Change, Cut, Effect};
use super::super::entry::Entry;
use super::super::matching::{HoldsStore, OpenFenceToLoad, OpenForFence, OpenToCell, ToCell};
use super::super::rule::Rule;
use super::Standing;
use fields::refusal::Refusal;
use instructions::register::WritesRegister;
use memory::cell::{Cell, Mark};
use search::{Matches, first_later, nearest_earlier};

impl Standing<'_> {
    /// The entry.
    pub fn entry(&self) -> Entry
        ensures { result ≡ at self.now.entries.now self.now.position }
    {
        self.entries[self.position as usize]
    }

    /// The position of the nearest older entry that matches.
    fn earlier<K>(&self, key: &K) -> Option<usize>
    where
        Entry: Matches<K>,
        ensures value { result ≡ nearest (passes (λ e. bound-1.hits e key.now) self.now.entries.now) self.now.position }
        ensures within { IfSome result (λ j. j < self.now.position) }
    {
        nearest_earlier(self.entries, self.position as usize, key)
    }

    /// Refused where an older entry matches.
    fn free_of<K>(&self, key: &K) -> Result<(), Refusal>
    where
        Entry: Matches<K>,
        ensures { result ≡ unless_held (nearest (passes (λ e. bound-1.hits e key.now) self.now.entries.now) self.now.position) (Ok tt) }
    {
        match self.earlier(key) {
            None => Ok(()),
            Some(_) => Err(Refusal::HeldBack),
        }
    }

    /// The value of an operand of the entry, if it is ready.
    fn operand(&self, register: Option<u8>) -> Result<u16, Refusal>
        ensures { result ≡ wanted (ready self.now.entries.now self.now.position register) }
    {
        let Some(register) = register else {
            return Ok(0);
        };
        let Some(j) = self.earlier(&WritesRegister(register)) else {
            return Ok(0);
        };
        let writer = self.entries[j];
        if writer.done {
            Ok(writer.value)
        } else {
            Err(Refusal::OperandWanting)
        }
    }

    /// Rule 2: the operands are ready; the result, done.
    fn arithmetic(&self) -> Result<Change, Refusal>
        ensures { result ≡ arithmetic self.now.entries.now self.now.position }
    {
        let entry = self.entry();
        let x = self.operand(entry.instruction.first_operand())?;
        let y = self.operand(entry.instruction.second_operand())?;
        Ok(Change::only(Entry {
            done: true,
            value: entry.instruction.result(x, y),
            ..entry
        }))
    }

    /// Rule 3: the operand is ready; done, with the true next place, and everything younger goes where that was not guessed.
    fn branch(&self) -> Result<Change, Refusal>
        ensures { result ≡ branch self.now.entries.now self.now.position }
    {
        let entry = self.entry();
        let x = self.operand(entry.instruction.first_operand())?;
        let next = entry.instruction.next(entry.place, x);
        let cut = (entry.next != next).then_some(Cut {
            keep: self.position as usize + 1,
            counter: next,
        });
        Ok(Change {
            entry: Entry {
                done: true,
                next,
                ..entry
            },
            cut,
            effect: Effect::Local,
        })
    }

    /// Rule 4: all older accesses of the fence's first type are done; done.
    fn fence(&self) -> Result<Change, Refusal>
        ensures { result ≡ fence self.now.entries.now self.now.position }
    {
        let entry = self.entry();
        self.free_of(&OpenForFence(entry.instruction))?;
        Ok(Change::only(Entry {
            done: true,
            ..entry
        }))
    }

    /// Rule 5: the address is available and all older fences that loads come after are done; the value comes from the
    /// nearest older access to the cell that is not done, which must be a store with data, or from the memory if there is none.
    fn load(&self) -> Result<Action, Refusal>
        ensures { result ≡ load self.now.entries.now self.now.position self.now.processor }
    {
        let entry = self.entry();
        let address = entry.address.ok_or(Refusal::OperandWanting)?;
        self.free_of(&OpenFenceToLoad)?;
        let Some(j) = self.earlier(&OpenToCell(address)) else {
            return Ok(Action::Read { address });
        };
        let older = self.entries[j];
        match older.datum {
            Some(value) if older.instruction.stores() => {
                let mark = Mark::Store {
                    processor: self.processor,
                    position: j as u8,
                };
                Ok(Action::Make(Change::loaded(entry, value, mark)))
            }
            _ => Err(Refusal::HeldBack),
        }
    }

    /// Rule 6: the second operand is ready; the data are available.
    fn store_data(&self) -> Result<Change, Refusal>
        ensures { result ≡ store_data self.now.entries.now self.now.position }
    {
        let entry = self.entry();
        let y = self.operand(entry.instruction.second_operand())?;
        let datum = Some(entry.instruction.stored(y));
        Ok(Change::only(Entry { datum, ..entry }))
    }

    /// Rule 7: address and data are available and nothing older holds the store back; done, and the cell is written.
    fn store(&self) -> Result<Change, Refusal>
        ensures { result ≡ store self.now.entries.now self.now.position self.now.processor }
    {
        let entry = self.entry();
        let address = entry.address.ok_or(Refusal::OperandWanting)?;
        let value = entry.datum.ok_or(Refusal::OperandWanting)?;
        self.free_of(&HoldsStore(address))?;
        let cell = Cell {
            value,
            mark: Mark::Store {
                processor: self.processor,
                position: self.position,
            },
        };
        Ok(Change {
            entry: Entry {
                done: true,
                ..entry
            },
            cut: None,
            effect: Effect::Stored { address, cell },
        })
    }

    /// What goes once the address of the entry is known: the first younger access to the same cell, if it is
    /// a done load, and everything younger.
    fn address_cut(&self, address: u16) -> Option<Cut>
        ensures { result ≡ address_cut self.now.entries.now self.now.position (first (passes (to_cell address) self.now.entries.now) (self.now.position + 1) (length self.now.entries.now - (self.now.position + 1))) }
    {
        let m = first_later(self.entries, self.position as usize + 1, &ToCell(address))?;
        let younger = self.entries[m];
        (younger.instruction.loads() && younger.done).then_some(Cut {
            keep: m,
            counter: u16::from(younger.place),
        })
    }

    /// Rule 8: the first operand is ready; the address is available.
    fn address(&self) -> Result<Change, Refusal>
        ensures { result ≡ address self.now.entries.now self.now.position }
    {
        let entry = self.entry();
        let x = self.operand(entry.instruction.first_operand())?;
        let sum = entry.instruction.address(x);
        let cut = self.address_cut(sum);
        Ok(Change {
            entry: Entry {
                address: Some(sum),
                ..entry
            },
            cut,
            effect: Effect::Local,
        })
    }

    /// What the rule does to the entry.
    pub fn action(&self, rule: Rule) -> Result<Action, Refusal>
        ensures { result ≡ action rule self.now.entries.now self.now.processor self.now.position }
    {
        let change = match rule {
            Rule::Fetch => return Err(Refusal::KindDoesNotSuitRule),
            Rule::Arithmetic => self.arithmetic()?,
            Rule::Branch => self.branch()?,
            Rule::Fence => self.fence()?,
            Rule::Load => return self.load(),
            Rule::StoreData => self.store_data()?,
            Rule::Store => self.store()?,
            Rule::Address => self.address()?,
        };
        Ok(Action::Make(change))
    }
}
