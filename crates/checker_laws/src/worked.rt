// Worked verdicts.
ghost use Rattle.checker_laws.specs.Worked.{WorkedVerdictsComeOut, EachWorkedVerdictComesOut};

/// Witnesses worked through by hand get their verdicts, as the definitions compute them.
pub fn worked_verdicts_come_out() -> u8
    ensures table { WorkedVerdictsComeOut }
    ensures each { EachWorkedVerdictComesOut }
{
    0
}
