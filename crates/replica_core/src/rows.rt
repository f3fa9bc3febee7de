ghost use Rattle.std.specs.Prelude.{◌≡◌, ℕ, ◌<◌, ◌≤◌, length, slice_set};
ghost use Rattle.vector_clock.specs.Clock.{max_members};
ghost use Rattle.std.specs.List.{All};
ghost use Rattle.replica_model.specs.Replica.{heard, heard_header, meet_all, row, version};
ghost use Rattle.replica_core.specs.Kept.{IsKnown};
ghost use Rattle.replica_core.specs.Rows.{IsFrom, rows_after};

use crdt_laws::{Entry, List};
use vector_clock::Clock;

/// The row of a member.
pub(crate) fn row(rows: &List<Clock>, member: u8) -> Clock
    requires { member < length rows.now }
    ensures { result ≡ row rows.now member }
{
    rows.items[usize::from(member)]
}

/// The rows with another one for a member.
pub(crate) fn with_row(rows: List<Clock>, member: u8, clock: Clock) -> List<Clock>
    requires { member < length rows }
    ensures { result ≡ slice_set rows member clock }
{
    let List { mut items } = rows;
    items[usize::from(member)] = clock;
    List { items }
}

/// What each member is known to have.
pub(crate) fn floor(rows: &List<Clock>) -> Clock
    requires some { 1 ≤ length rows.now }
    requires rows { All (IsKnown (length rows.now)) rows.now }
    ensures floor { result ≡ meet_all rows.now }
    ensures known { IsKnown (length rows.now) result }
{
    let clocks = rows.items.as_slice();
    let mut least = clocks[0];
    for clock in &clocks[1..] {
        least = least.meet(clock);
    }
    least
}

/// What the operations know of.
pub(crate) fn version<Op>(n: u8, ops: &[Entry<Op>]) -> Clock
    requires some { 1 ≤ n }
    requires most { n ≤ max_members }
    requires ops { All (IsFrom n) ops.now }
    ensures version { result ≡ version n ops.now }
    ensures known { IsKnown n result }
{
    let mut known = Clock::zero(n);
    for e in ops.iter() {
        known = known.join(&e.stamp.clock);
    }
    known
}

/// The rows, each joined with the clocks of that member's operations.
pub(crate) fn heard<Op>(rows: List<Clock>, ops: &[Entry<Op>]) -> List<Clock>
    requires rows { All (IsKnown (length rows)) rows }
    requires ops { All (IsFrom (length rows)) ops.now }
    ensures heard { result ≡ heard rows ops.now }
    ensures len { length result ≡ length rows }
    ensures known { All (IsKnown (length rows)) result }
{
    let mut heard = rows;
    for e in ops.iter() {
        let joined = row(&heard, e.stamp.member).join(&e.stamp.clock);
        heard = with_row(heard, e.stamp.member, joined);
    }
    heard
}

/// The rows with the sender's joined with its header, where all operations of the sender that the header counts are in.
pub(crate) fn heard_header(
    rows: List<Clock>,
    sender: u8,
    header: &Clock,
    delivered: &Clock,
) -> List<Clock>
    requires sender { sender < length rows }
    requires rows { All (IsKnown (length rows)) rows }
    requires header { IsKnown (length rows) header.now }
    requires delivered { IsKnown (length rows) delivered.now }
    ensures heard { result ≡ heard_header rows sender header.now delivered.now }
    ensures len { length result ≡ length rows }
    ensures known { All (IsKnown (length rows)) result }
{
    if header.count(sender) <= delivered.count(sender) {
        let joined = row(&rows, sender).join(header);
        with_row(rows, sender, joined)
    } else {
        rows
    }
}

/// The rows once these operations are in: each member's own clocks, the sender's header, and the own row.
pub(crate) fn rows_after<Op>(
    rows: List<Clock>,
    me: u8,
    sender: u8,
    header: &Clock,
    ops: &[Entry<Op>],
) -> List<Clock>
    requires me { me < length rows }
    requires most { length rows ≤ max_members }
    requires sender { sender < length rows }
    requires rows { All (IsKnown (length rows)) rows }
    requires header { IsKnown (length rows) header.now }
    requires ops { All (IsFrom (length rows)) ops.now }
    ensures { result ≡ rows_after rows me sender header.now ops.now }
{
    let own = version(rows.len() as u8, ops);
    let heard = heard_header(heard(rows, ops), sender, header, &own);
    with_row(heard, me, own)
}
