// A rebuild in progress.
ghost use Rattle.std.specs.Prelude.{◌≡◌, length};
ghost use Rattle.machine.specs.Views.{run_question};

use bounded::vector::Bounded;
use machine::open::OpenRun;
use machine::step::Step;
use memory::table::Table;

mod accesses;
mod fetches;
mod local;
mod methods;

/// A run of a question over a table of cells, and the steps that it was led by so far: the first 256 where there are more.
#[derive(Drop)]
pub(super) struct Rebuilding<'q> {
    run: OpenRun<'q, Table>,
    processors: u8,
    pub(super) steps: Bounded<Step, 256>,
    ghost all: { processors ≡ length (run_question run).code },
}
