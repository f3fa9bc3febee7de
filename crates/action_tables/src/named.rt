ghost use Rattle.std.specs.Prelude.{◌≡◌, ◌≢◌, ◌≤◌, ◌↔◌, length, map, IsTrue, IfOk, IfErr, OnOk};
ghost use Rattle.std.specs.List.{All, AllPairs, Contains, flat_map};
ghost use Rattle.action_tables.specs.Name.{IsName};
ghost use Rattle.action_tables.specs.TableText.{op_names, HasRows, IsAccepted, HasWrittenFault, HasTextFault, Spells, parts_of};

use crate::table::{Shape, Table};
use crate::written::{WrittenOp, WrittenTable, read_table};
use crdt_laws::{Bytes, List, Names, NoMemory, Txt};
use serde_json::{Category, Value};
use std::alloc::Global;
use std::fmt;
use thiserror::Error;

/// A table with the names of its states and operations, each at its number.
#[derive(Debug, Drop)]
pub struct NamedTable {
    pub table: Table,
    pub states: Names,
    pub ops: Names,
}

/// Why a text is no table, in the order in which it is looked at.
#[derive(Clone, Copy, Debug, PartialEq, Eq, Error)]
pub enum TableFault {
    /// The text is no JSON.
    NotJson,
    /// The value has not the form of a table.
    Form,
    /// A state or an operation has a name that is none.
    Name,
    /// Two states or two operations have one name.
    Twice,
    /// The parts make no table.
    Shape(Shape),
    /// The call ran out of memory. It says nothing of the text, and may come at any point.
    NoMemory,
}

impl From<NoMemory> for TableFault {
    ghost use Rattle.std.specs.Prelude.{◌≡◌};
    ghost use Rattle.action_tables.specs.declared.named.TableFault.TheVariants.{NoMemory};

    ghost from_gives = { λ _ fault. fault ≡ NoMemory };

    fn from(_error: NoMemory) -> TableFault {
        TableFault::NoMemory
    }
}

impl fmt::Display for TableFault {
    ghost use Rattle.std.specs.Prelude.{Some};
    ghost use Rattle.action_tables.specs.FaultText.{fault_text};

    ghost output = { λ fault. Some (fault_text fault) };

    fn fmt<W: fmt::Write>(&self, f: &mut fmt::Formatter<W>) -> fmt::Result {
        match self {
            TableFault::NotJson => write!(f, "not-json"),
            TableFault::Form => write!(f, "form"),
            TableFault::Name => write!(f, "name"),
            TableFault::Twice => write!(f, "twice"),
            TableFault::Shape(shape) => write!(f, "{shape}"),
            TableFault::NoMemory => write!(f, "no-memory"),
        }
    }
}

/// Whether these bytes are a name: 1 to 32 letters from a to z, digits and underscores, of which the first is a letter. It takes
/// no memory.
pub fn is_name(name: &[u8]) -> bool
    ensures { IsTrue result ↔ IsName name.now }
{
    name.len() <= 32
        && matches!(name, [b'a'..=b'z', ..])
        && name
            .iter()
            .all(|byte| matches!(byte, b'a'..=b'z' | b'0'..=b'9' | b'_'))
}

/// Whether each of the texts is a name. It takes no memory.
pub fn are_names(texts: &[Txt]) -> bool
    ensures { IsTrue result ↔ All IsName texts.now }
{
    texts.iter().all(|text| is_name(&text.items))
}

// Whether the two texts are the same.
fn is_same(a: &Txt, b: &Txt) -> bool
    ensures { IsTrue result ↔ (a.now ≡ b.now) }
{
    a.items.as_slice() == b.items.as_slice()
}

/// Whether no two of the texts are the same. It takes no memory.
pub fn are_apart(texts: &[Txt]) -> bool
    ensures { IsTrue result ↔ AllPairs (λ a b. a ≢ b) texts.now }
{
    for (at, text) in texts.iter().enumerate() {
        if texts[..at].iter().any(|earlier| is_same(earlier, text)) {
            return false;
        }
    }
    true
}

// Whether each operation has a number for each state, and one for each operation.
fn has_rows(written: &WrittenTable) -> bool
    ensures { IsTrue result ↔ HasRows written.now }
{
    let states = written.states.items.len();
    let ops = written.ops.len();
    written.ops.items.iter().all(|op| op.next.items.len() == states && op.act.items.len() == ops)
}

// The names, levels and rows of operations, each in one list.
#[derive(Debug, Drop)]
struct Columns {
    names: Names,
    level: Bytes,
    next: Bytes,
    act: Bytes,
}

// The columns of these operations, whose rows stand one after another.
fn columns_of(alloc: Global, ops: List<WrittenOp>) -> Result<Columns, NoMemory>
    ensures names { IfOk result (λ c. c.names ≡ op_names ops) }
    ensures level { IfOk result (λ c. c.level ≡ map (λ o. o.level) ops) }
    ensures next { IfOk result (λ c. c.next ≡ flat_map (λ o. o.next) ops) }
    ensures act { IfOk result (λ c. c.act ≡ flat_map (λ o. o.act) ops) }
{
    let mut names = Vec::new(alloc);
    let mut levels = Vec::new(alloc);
    let mut next_rows = Vec::new(alloc);
    let mut act_rows = Vec::new(alloc);
    let List { items } = ops;
    for op in items {
        let WrittenOp {
            name,
            level,
            next,
            act,
        } = op;
        names.push(name)?;
        levels.push(level)?;
        next_rows.extend_from_slice(&next.items)?;
        act_rows.extend_from_slice(&act.items)?;
    }
    Ok(Columns {
        names: Names { items: names },
        level: Bytes { items: levels },
        next: Bytes { items: next_rows },
        act: Bytes { items: act_rows },
    })
}

/// The table with its names, or the first fault that it has, which is `Name`, `Twice` or `Shape`. `NoMemory` comes where it runs
/// out of memory.
pub fn name_table(alloc: Global, written: WrittenTable) -> Result<NamedTable, TableFault>
    requires { length written.states ≤ 255 }
    ensures accepted { OnOk result (IsAccepted written) }
    ensures table { IfOk result (λ t. t.table ≡ parts_of written) }
    ensures states { IfOk result (λ t. t.states ≡ written.states) }
    ensures ops { IfOk result (λ t. t.ops ≡ op_names written.ops) }
    ensures refused { IfErr result (HasWrittenFault written) }
{
    let rows = has_rows(&written);
    let WrittenTable { states, start, ops } = written;
    let Columns {
        names,
        level,
        next,
        act,
    } = columns_of(alloc, ops)?;
    if !are_names(&states.items) || !are_names(&names.items) {
        return Err(TableFault::Name);
    }
    if !are_apart(&states.items) || !are_apart(&names.items) {
        return Err(TableFault::Twice);
    }
    if !rows {
        return Err(TableFault::Shape(Shape::Size));
    }
    match Table::of_parts(
        states.items.len() as u8,
        start,
        level.items,
        next.items,
        act.items,
    ) {
        Ok(table) => Ok(NamedTable {
            table,
            states,
            ops: names,
        }),
        Err(fault) => Err(TableFault::Shape(fault)),
    }
}

/// The table that a JSON text writes down: an object with exactly the keys `ops`, `start` and `states`. `states` has the names of
/// at most 255 states, and `ops` at most 255 operations, each an object with exactly the keys `act`, `level`, `name` and `next`:
/// `next` has for each state the one to which the operation leads, and `act` for each operation what that one becomes when this
/// one acts on it. All numbers are whole, of 0 to 255. Of a key that stands twice the last value stays. What is wrong with a text
/// that gives no table is looked at in the order of `TableFault`. That each text spells a table or has such a fault, and never
/// both, is the law [`one_reading`](crate::one_reading); the form is [`form_of_tables`](crate::form_of_tables).
pub fn named_table(alloc: Global, text: &[u8]) -> Result<NamedTable, TableFault>
    ensures accepts { IfOk result (λ t. Spells text.now t.table t.states t.ops) }
    ensures refuses { IfErr result (HasTextFault text.now) }
{
    let value = match Value::from_slice(alloc, text) {
        Ok(value) => value,
        Err(error) if error.classify() == Category::Memory => return Err(TableFault::NoMemory),
        Err(_) => return Err(TableFault::NotJson),
    };
    match read_table(alloc, &value)? {
        Some(written) => name_table(alloc, written),
        None => Err(TableFault::Form),
    }
}
