// Cases of the machine: what steps answer, why they are refused, and what closed runs answer.
#![tactic(auto)]

use machine::closed::ClosedRun;
use machine::open::OpenRun;
use machine::step::Step;
use memory::memory::Memory;
use question::question::Question;

#[cfg(test)]
mod results;
#[cfg(test)]
mod steps;

/// The closed run of these steps over a memory, refused ones counting as none.
fn closed<M: Memory>(question: &Question, memory: M, steps: &[[u8; 4]]) -> ClosedRun<M> {
    let mut run = OpenRun::start(question, memory);
    for bytes in steps {
        let _ = run.step(Step::from(*bytes));
    }
    run.close()
}
