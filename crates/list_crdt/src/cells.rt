ghost use Rattle.std.specs.Prelude.{◌≡◌, ◌+◌, Some, None, IfErr, IfOk};
ghost use Rattle.list_crdt.specs.Cells.{IsRising, with_at};
ghost use Rattle.list_crdt.specs.Places.{IsGapAt, IsStandingAt};

use crate::placed::Placed;
use crate::position::Position;
use crdt_laws::{List, NoMemory};

/// Where the position stands among things by rising position, or else where a thing there would stand. It is found by halving.
pub fn find<C: Placed>(cells: &[C], at: &Position) -> Result<usize, usize>
    requires { IsRising C.position cells.now }
    ensures there { IfOk result (IsStandingAt C.position at.now cells.now) }
    ensures absent { IfErr result (IsGapAt C.position at.now cells.now) }
{
    cells.binary_search_by(|cell| cell.at().cmp(at))
}

/// The things with this one at its position, in the place of what stood there.
pub fn with_cell<C: Placed + Drop>(state: List<C>, cell: C) -> Result<List<C>, NoMemory>
    requires { IsRising C.position state }
    ensures { IfOk result (λ s. s ≡ with_at C.position (C.position cell) (Some cell) state) }
{
    let List { items: mut cells } = state;
    match find(&cells, cell.at()) {
        Ok(i) => cells[i] = cell,
        Err(i) => cells.insert(i, cell)?,
    }
    Ok(List { items: cells })
}

/// The things with none at the position.
pub fn without<C: Placed + Drop>(state: List<C>, at: &Position) -> List<C>
    requires { IsRising C.position state }
    ensures { result ≡ with_at C.position at.now None state }
{
    let List { items: mut cells } = state;
    if let Ok(i) = find(&cells, at) {
        let _removed = cells.remove(i);
    }
    List { items: cells }
}
