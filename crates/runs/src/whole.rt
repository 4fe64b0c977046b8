// A run from its start to its results.
ghost use Rattle.std.specs.Prelude.{◌≡◌, true, IfOk, OnOk};
ghost use Rattle.std.specs.Option.{option_map};
ghost use Rattle.question.specs.Views.{litmus_of};
ghost use Rattle.witness.specs.Bytes.{bytes_of};
ghost use Rattle.machine.specs.Results.{closed};
ghost use Rattle.machine.specs.State.{started};
ghost use Rattle.machine.specs.Steps.{run_all};
ghost use Rattle.machine.specs.Views.{open_state, closed_state, run_question};
ghost use Rattle.runs.specs.Records.{answers, shown, shown_registers, shown_cells, results_of, IsRecord};

use super::record::{Record, Results};
use fields::refusal::Refusal;
use machine::closed::ClosedRun;
use machine::open::OpenRun;
use machine::step::Step;
use memory::cell::Cell;
use memory::memory::Memory;
use question::question::Question;
use std::alloc::{AllocError, Global};

/// The most bytes that a witness has, and more.
const AREA: usize = 512;

/// The registers of a finished run, processor by processor.
fn registers<M: Memory>(heap: Global, run: &ClosedRun<M>) -> Result<Vec<u16>, AllocError>
    ensures { IfOk result (λ v. v.items ≡ shown_registers (closed_state M.Memory.cells run.now) 32) }
{
    (0..32u8)
        .filter_map(|index| run.register(index / 8, index % 8).ok())
        .collect(heap)
}

/// The cells of a finished run.
fn cells<M: Memory>(heap: Global, run: &mut ClosedRun<M>) -> Result<Vec<Cell>, AllocError>
    ensures value { IfOk result (λ v. v.items ≡ shown_cells (closed_state M.Memory.cells run.old) 16) }
    ensures same { closed_state M.Memory.cells run.new ≡ closed_state M.Memory.cells run.old }
{
    let mut cells = Vec::new(heap);
    for address in 0..16u16 {
        if let Ok(cell) = run.cell(address) {
            cells.push(cell)?;
        }
    }
    Ok(cells)
}

/// The bytes of a finished run's witness.
fn witness<M: Memory>(heap: Global, run: &ClosedRun<M>) -> Result<Vec<u8>, AllocError>
    ensures { (closed_state M.Memory.cells run.now).finished ≡ true → IfOk result (λ v. v.items ≡ bytes_of (closed_state M.Memory.cells run.now).execution) }
{
    let mut area = [0; AREA];
    match run.witness(&mut area) {
        Ok(length) => Vec::from_slice(heap, &area[0..length]),
        Err(_) => Ok(Vec::new(heap)),
    }
}

/// The results of a closed run, if it is finished.
fn gathered<M: Memory + Drop>(
    heap: Global,
    mut run: ClosedRun<M>,
) -> Result<Option<Results>, AllocError>
    ensures { IfOk result (λ o. option_map results_of o ≡ shown (closed_state M.Memory.cells run)) }
{
    if !run.is_finished() {
        return Ok(None);
    }
    let registers = registers(heap, &run)?;
    let cells = cells(heap, &mut run)?;
    let witness = witness(heap, &run)?;
    Ok(Some(Results {
        registers,
        cells,
        witness,
    }))
}

/// Takes each step in turn, and answers what each answered.
fn take_steps<M: Memory>(
    heap: Global,
    run: &mut OpenRun<'_, M>,
    steps: &[Step],
) -> Result<Vec<Result<u8, Refusal>>, AllocError>
    ensures value { IfOk result (λ v. v.items ≡ answers (run_question run.old) (open_state M.Memory.cells run.old) steps.now) }
    ensures state { OnOk result (open_state M.Memory.cells run.new ≡ run_all (run_question run.old) (open_state M.Memory.cells run.old) steps.now) }
    ensures question { run.new.question ≡ run.old.question }
{
    let mut answers = Vec::new(heap);
    for step in steps {
        answers.push(run.step(*step))?;
    }
    Ok(answers)
}

/// Runs the steps of a question over a memory; a refused step counts as none.
pub fn run_over<M: Memory + Drop>(
    heap: Global,
    question: &Question,
    steps: &[Step],
    memory: M,
) -> Result<Record, AllocError>
    ensures { IfOk result (λ x. IsRecord (litmus_of question.now) steps.now x) }
{
    let mut run = OpenRun::start(question, memory);
    let answers = take_steps(heap, &mut run, steps)?;
    let results = gathered(heap, run.close())?;
    Ok(Record { answers, results })
}
