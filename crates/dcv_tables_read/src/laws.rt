//! Laws of texts of tables. Each function here does nothing: its contract is the law.
ghost use Rattle.dcv_tables_read.specs.Laws.{SpellsOne, OneFault, NoFaultWhereRead, SomeReading, ReadUnitsKeepTheRules, TextIsReadBack};

use dcv_c_tables::laws::tables_accept_as_the_file;

/// No text spells two units. Each text has a fault or is read as a unit. It has one fault at most, and none where it is read.
pub fn texts_are_units_or_at_fault()
    ensures unit { SpellsOne }
    ensures none { NoFaultWhereRead }
    ensures one { OneFault }
    ensures some { SomeReading }
{}

/// A unit that was read keeps the rules of `dcv_c_tables`.
pub fn read_units_keep_the_rules()
    ensures { ReadUnitsKeepTheRules }
{}

/// The text of an automaton's tables is read back.
pub fn texts_are_read_back()
    ensures { TextIsReadBack }
{
    tables_accept_as_the_file();
}
