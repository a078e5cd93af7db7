// What holds of the program that RV32IMA is, and of the definitions that its effects are stated in.
ghost use Rattle.rv_exec.specs.Laws.{TrapsWhereNoWordIsFetched, TrapsOutsideTheTable, RunsTheTable, DividesAtItsCorners, DividesUnsigned};
ghost use Rattle.rv_exec.specs.Laws.{DividesSigned, WordsMakeTheProducts};

use rv_decode::table_is_a_function_of_the_word;

/// The program runs the instruction table: where a fetch finds nothing it traps with 1, where the word is in no row with 2,
/// and else it needs what its instruction plans, bounded by RAM, and leaves what its instruction finishes with.
///
/// A law, without code.
pub fn program_runs_the_table()
    ensures nothing_fetched { TrapsWhereNoWordIsFetched }
    ensures no_row { TrapsOutsideTheTable }
    ensures row { RunsTheTable }
{
    table_is_a_function_of_the_word();
}

/// The manual's table of division by zero and of overflow; every other quotient and its remainder give the dividend back, where the
/// remainder is smaller than the divisor and has the dividend's sign; and the high word of each product and its low word are the
/// product.
///
/// A law, without code.
pub fn divisions_and_products()
    ensures corners { DividesAtItsCorners }
    ensures unsigned { DividesUnsigned }
    ensures signed { DividesSigned }
    ensures products { WordsMakeTheProducts }
{}
