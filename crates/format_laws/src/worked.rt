// Worked questions and witnesses.
ghost use Rattle.format_laws.specs.Worked.{ComesOut, EachComesOut, questions, question_found, witnesses, witness_found};

/// Questions and witnesses worked through by hand are read or refused as expected.
pub fn worked_formats_come_out() -> u8
    ensures questions { ComesOut question_found questions }
    ensures each_question { EachComesOut question_found questions }
    ensures witnesses { ComesOut witness_found witnesses }
    ensures each_witness { EachComesOut witness_found witnesses }
{
    0
}
