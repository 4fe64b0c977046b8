// Exam papers worked through by hand: theorems in the contract of a function that does nothing else.
#![tactic(auto)]

ghost use Rattle.papers.specs.Worked.{WorkedPapersComeOut, EachWorkedPaperComesOut};

/// Questions, steps and witnesses, all as bytes, come out as computed by the definitions of the readers, the machine, the checker, the rebuilder and the marks.
pub fn worked_papers_come_out() -> u8
    ensures table { WorkedPapersComeOut }
    ensures each { EachWorkedPaperComesOut }
{
    0
}
