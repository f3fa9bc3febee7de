ghost use Rattle.std.specs.Prelude.{◌≡◌};
ghost use Rattle.std.specs.List.{All};
ghost use Rattle.vector_clock.specs.Clock.{IsClock};
ghost use Rattle.crdt_laws.specs.Sets.{AreApart};
ghost use Rattle.crdt_laws.specs.Tower.{IsStampOf};
ghost use Rattle.reset_products.specs.Cut.{clean_cut};

use crdt_laws::Ops;
use vector_clock::Clock;

/// The length of the longest clean prefix of the log: each operation in it is covered by the clock, and is before each operation
/// outside it. The log's operations have distinct ids, and are of the clock's document. It takes no memory.
///
/// One pass from the end, with two clocks: `known` is what the clock and all operations outside the prefix know of, and `met`
/// what the clock and all operations passed so far know of. An operation that `known` does not cover ends the prefix before
/// it. The time is that of one meet of clocks for each operation.
pub fn clean_cut<Op>(log: &Ops<Op>, k: &Clock) -> u64
    requires clock { IsClock k.now }
    requires stamps { All (λ e. IsStampOf k.now.n e.stamp) log.now }
    requires apart { AreApart log.now }
    ensures { result ≡ clean_cut log.now k.now }
{
    let entries = log.as_slice();
    let mut cut = entries.len();
    let mut known = *k;
    let mut met = *k;
    for i in (0..entries.len()).rev() {
        let stamp = entries[i].stamp;
        met = met.meet(&stamp.clock);
        if !known.covers(stamp.id()) {
            known = met;
            cut = i;
        }
    }
    cut as u64
}
