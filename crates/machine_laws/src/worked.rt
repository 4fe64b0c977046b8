// Worked runs.
ghost use Rattle.machine_laws.specs.Worked.{StoreThenLoadReadsTheStore, EarlyLoadIsRemoved, EmptyQuestionFinishesAtOnce, SeventeenthFetchIsRefused, Address17IsCell1};

/// Runs worked through by hand come out as computed by the definitions.
pub fn worked_runs_come_out() -> u8
    ensures store_then_load { StoreThenLoadReadsTheStore }
    ensures early_load { EarlyLoadIsRemoved }
    ensures empty { EmptyQuestionFinishesAtOnce }
    ensures full_buffer { SeventeenthFetchIsRefused }
    ensures reduced_address { Address17IsCell1 }
{
    0
}
