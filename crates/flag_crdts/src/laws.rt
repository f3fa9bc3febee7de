//! Flags and choices are lawful towers, and tables of `action_tables`, which its checker tells lawful. Each law is the contract of
//! a function that does nothing, or only cites the law that every tower proves.
ghost use Rattle.std.specs.Prelude.{◌≡◌, ℕ, ◌*◌, ◌<◌};
ghost use Rattle.crdt_laws.specs.Tower.{IsLawful};
ghost use Rattle.action_tables.specs.Table.{IsTable, act_of, level_of, next_of, table_meaning};
ghost use Rattle.action_tables.specs.Verdict.{IsVerdict};
ghost use Rattle.flag_crdts.specs.Choice.{size_of};
ghost use Rattle.flag_crdts.specs.Flags.{fixed_table, off_table, on_table};
ghost use Rattle.flag_crdts.specs.Ladder.{IsLadderSize, ladder_act, ladder_level, ladder_meaning, ladder_next, ladder_table};

use crate::choice::Choice;
use crate::flag::Fixed;
use crate::ladder::Ladder;
use action_tables::Verdict;
use crdt_laws::is_lawful;

/// A flag is a lawful tower.
pub fn flag_is_lawful(flag: &Fixed<2, 3>)
    ensures { IsLawful (table_meaning (fixed_table 2 flag.now.level flag.now.next flag.now.act)) }
{
    is_lawful(flag);
}

/// A ladder is a lawful tower, whatever its number of values.
pub fn ladder_is_lawful<const N: usize>(ladder: &Ladder<N>)
    ensures { IsLawful (ladder_meaning N) }
{
    is_lawful(ladder);
}

/// A choice is a lawful tower.
pub fn choice_is_lawful(choice: &Choice)
    ensures { IsLawful (ladder_meaning (size_of choice.now)) }
{
    is_lawful(choice);
}

/// The tables of both flags are lawful.
pub fn flags_are_lawful()
    ensures on { IsTable on_table }
    ensures on_lawful { IsVerdict on_table Verdict.Lawful }
    ensures off { IsTable off_table }
    ensures off_lawful { IsVerdict off_table Verdict.Lawful }
{}

/// A ladder written as a table has the ladder's levels, states and actions, and is lawful, whatever its number of values.
pub fn ladders_are_lawful()
    ensures table { (n : ℕ) → IsLadderSize n → IsTable (ladder_table n) }
    ensures lawful { (n : ℕ) → IsLadderSize n → IsVerdict (ladder_table n) Verdict.Lawful }
    ensures level { (n o : ℕ) → o < 2 * n → level_of (ladder_table n) o ≡ ladder_level n o }
    ensures next { (n s o : ℕ) → s < n → o < 2 * n → next_of (ladder_table n) s o ≡ ladder_next n s o }
    ensures act { (n y x : ℕ) → y < 2 * n → x < 2 * n → act_of (ladder_table n) y x ≡ ladder_act n y x }
{}
