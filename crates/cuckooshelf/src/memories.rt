// The memories that a run can be over.
ghost use Rattle.std.specs.Prelude.{◌≡◌, IfOk};
ghost use Rattle.marking.specs.Earned.{earned};
ghost use Rattle.marking.specs.Views.{earned_of, given_of};
ghost use Rattle.question.specs.Views.{litmus_of};
ghost use Rattle.runs.specs.Records.{IsRecord};

use super::words::Unknown;
use machine::step::Step;
use marking::answer::Answer;
use marking::fault::Fault;
use marking::mark::mark;
use memory::cell_list::CellList;
use memory::memory::Memory;
use memory::table::Table;
use question::question::Question;
use runs::record::Record;
use runs::whole::run_over;
use std::alloc::{AllocError, Global};
use std::str::FromStr;

/// The memories, by name.
#[derive(Clone, Copy)]
pub enum MemoryKind {
    Table,
    List,
}

impl FromStr for MemoryKind {
    type Err = Unknown;

    fn from_str(word: &str) -> Result<MemoryKind, Unknown> {
        match word {
            "table" => Ok(MemoryKind::Table),
            "list" => Ok(MemoryKind::List),
            _ => Err(Unknown),
        }
    }
}

impl MemoryKind {
    /// Runs the steps of a question; a refused step counts as none.
    pub fn run_steps(
        self,
        heap: Global,
        question: &Question,
        steps: &[Step],
    ) -> Result<Record, AllocError>
        ensures { IfOk result (λ x. IsRecord (litmus_of question.now) steps.now x) }
    {
        match self {
            MemoryKind::Table => run_over(heap, question, steps, Table::new()),
            MemoryKind::List => run_over(heap, question, steps, CellList::new()),
        }
    }

    /// Marks an answer to a question.
    pub fn mark(self, question: &Question, answer: Answer<'_>) -> Result<(), Fault>
        ensures { earned_of result ≡ earned (litmus_of question.now) (given_of answer.entry) }
    {
        match self {
            MemoryKind::Table => mark(question, Table::new(), answer),
            MemoryKind::List => mark(question, CellList::new(), answer),
        }
    }
}
