ghost use Rattle.std.specs.Prelude.{◌≡◌, IfOk};
ghost use Rattle.vector_clock.specs.declared.stamp.Stamp.{Stamp};
ghost use Rattle.crdt_laws.specs.Tower.{IsWithin};
ghost use Rattle.action_tables.specs.Table.{table_meaning};
ghost use Rattle.flag_crdts.specs.Flags.{off_table, on_table};
ghost use Rattle.kind_edits.specs.FlagEdit.{off_flag_edit, on_flag_edit, switch_edit};

use crate::fault::EditError;

/// The operation that `on` or `off` stands for, out of these two.
fn switch(on: u8, off: u8, verb: &str, rest: &str) -> Result<u8, EditError>
    ensures { result ≡ switch_edit on off verb.now rest.now }
{
    if !rest.is_empty() {
        return Err(EditError::NoVerb);
    }
    match verb {
        "on" => Ok(on),
        "off" => Ok(off),
        _ => Err(EditError::NoVerb),
    }
}

/// The operation of an edit of a flag on which on wins: `on` or `off`, with nothing after it. It is refused as `NoVerb`, takes no
/// memory, and does not depend on the flag's state.
pub fn prepare_on_flag(verb: &str, rest: &str) -> Result<u8, EditError>
    ensures exact { result ≡ on_flag_edit verb.now rest.now }
    ensures valid { IfOk result (λ op. (p : Stamp) → IsWithin p → (table_meaning on_table).valid p op) }
{
    switch(2, 1, verb, rest)
}

/// The operation of an edit of a flag on which off wins, as that of the other flag.
pub fn prepare_off_flag(verb: &str, rest: &str) -> Result<u8, EditError>
    ensures exact { result ≡ off_flag_edit verb.now rest.now }
    ensures valid { IfOk result (λ op. (p : Stamp) → IsWithin p → (table_meaning off_table).valid p op) }
{
    switch(1, 2, verb, rest)
}
