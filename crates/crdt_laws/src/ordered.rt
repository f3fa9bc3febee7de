ghost use Rattle.std.specs.Prelude.{◌≡◌, IfOk};
ghost use Rattle.std.specs.List.{All};
ghost use Rattle.vector_clock.specs.Stamp.{IsStamp};
ghost use Rattle.crdt_laws.specs.Entry.{entry};
ghost use Rattle.crdt_laws.specs.Sets.{IsRising, beyond, place};

use crate::small::{Entry, NoMemory, Ops};
use vector_clock::{Clock, Stamp, Stamped, place_of};

impl<Op> Stamped for Entry<Op> {
    ghost at = { λ e. e.stamp };

    fn stamp(&self) -> &Stamp {
        &self.stamp
    }
}

/// The entries, whose keys strictly rise, with one more in its place by key. Where it runs out of memory the entries are
/// gone.
pub fn place_in<Op: Drop>(entries: Ops<Op>, stamp: Stamp, op: Op) -> Result<Ops<Op>, NoMemory>
    requires stamp { IsStamp stamp }
    requires stamps { All (λ e. IsStamp e.stamp) entries }
    requires rising { IsRising entries }
    ensures { IfOk result (λ es. es ≡ place (entry stamp op) entries) }
{
    let mut entries = entries;
    let at = place_of(entries.as_slice(), &stamp);
    entries.insert(at, stamp, op)?;
    Ok(entries)
}

/// The entries that the clock does not cover, in their order.
pub fn beyond<Op: Drop>(entries: Ops<Op>, k: &Clock) -> Ops<Op>
    ensures { result ≡ beyond k.now entries }
{
    let Ops { mut items } = entries;
    items.retain(|e| !k.covers(e.stamp.id()));
    Ops { items }
}
