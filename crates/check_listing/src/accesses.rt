// The accesses of a witness in memory order, as text.
use events::event::Event;
use events::path::PathEvents;
use instructions::instruction::effects::cell_number;
use listing::access::AccessText;
use listing::origin::Origin;
use std::fmt;
use witness::record::{Access, Source};

/// An access of the order with its event.
#[derive(Clone, Copy)]
struct AccessLine {
    access: Access,
    event: Option<Event>,
    source: Option<Source>,
}

impl fmt::Display for AccessLine {
    fn fmt<W: fmt::Write>(&self, f: &mut fmt::Formatter<W>) -> fmt::Result {
        write!(f, "{} ", AccessText(self.access))?;
        let Some(event) = self.event else {
            return f.write_str("not on the paths");
        };
        let cell = cell_number(event.address);
        if event.instruction.stores() {
            return write!(f, "store cell {cell} = {}", event.datum);
        }
        if !event.instruction.loads() {
            return f.write_str("no access");
        }
        write!(f, "load cell {cell} = {}", event.value)?;
        match self.source {
            Some(source) => write!(f, " {}", Origin::from(source)),
            None => Ok(()),
        }
    }
}

/// The accesses of an order, a line each, by what each path comes to.
#[derive(Clone, Copy)]
pub struct AccessLines<'a> {
    pub order: &'a [Access],
    pub rows: &'a [PathEvents],
}

impl fmt::Display for AccessLines<'_> {
    fn fmt<W: fmt::Write>(&self, f: &mut fmt::Formatter<W>) -> fmt::Result {
        f.write_str("memory order:")?;
        if self.order.is_empty() {
            return f.write_str(" no access");
        }
        for access in self.order {
            let position = usize::from(access.position);
            let row = self.rows.get(usize::from(access.processor));
            let line = AccessLine {
                access: *access,
                event: row.and_then(|row| row.events.get(position)),
                source: row.and_then(|row| row.sources.get(position)),
            };
            write!(f, "\n  {line}")?;
        }
        Ok(())
    }
}
