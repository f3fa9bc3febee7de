//! Numbers below a limit, and stamps by rising key.
ghost use Rattle.std.specs.Prelude.{◌≡◌, None};
ghost use Rattle.std.specs.List.{All, last_or};
ghost use Rattle.vector_clock.specs.Clock.{IsClock};
ghost use Rattle.vector_clock.specs.Stamp.{IsStamp, is_below};
ghost use Rattle.wire_core.specs.Calls.{IsInside, Takes};
ghost use Rattle.wire_core.specs.Rising.{comes_next};
ghost use Rattle.wire_core.specs.Small.{below};
ghost use Rattle.wire_core.specs.Stamps.{knows, next_stamp};

use crate::byte_in::ByteIn;
use crate::error::WireError;
use crate::wire::Wire;
use std::alloc::Global;
use vector_clock::{Clock, Stamp, Stamped};

/// Reads a number of one byte that is below the limit.
pub fn take_below(limit: u8, from: &mut ByteIn<'_>) -> Result<u8, WireError>
    requires { IsInside from.old }
    ensures { Takes (below limit) from.old from.new result }
{
    let at = from.at;
    let number = from.take_u8()?;
    if number < limit {
        Ok(number)
    } else {
        Err(WireError::Bad { at })
    }
}

/// Whether the stamp comes after that of the last thing, by key.
fn comes_next<X: Stamped>(before: &[X], stamp: &Stamp) -> bool
    requires stamp { IsStamp stamp.now }
    requires stamps { All (λ x. IsStamp (X.at x)) before.now }
    ensures { result ≡ comes_next X.at is_below (last_or None before.now) stamp.now }
{
    match before.last() {
        Some(last) => last.stamp().below(stamp),
        None => true,
    }
}

/// Whether the clock knows the operation, and all that its member knew when it made it.
fn knows(d: &Clock, stamp: &Stamp) -> bool
    requires clock { IsClock d.now }
    requires stamp { IsStamp stamp.now }
    requires members { stamp.now.clock.n ≡ d.now.n }
    ensures { result ≡ knows d.now stamp.now }
{
    stamp.clock.le(d)
}

/// Reads the stamp of an operation that the clock knows, which comes after the stamps of the things before it.
pub fn take_next_stamp<X: Stamped>(
    alloc: Global,
    before: &[X],
    d: &Clock,
    from: &mut ByteIn<'_>,
) -> Result<Stamp, WireError>
    requires inside { IsInside from.old }
    requires clock { IsClock d.now }
    requires members { d.now.n ≡ from.old.n }
    requires stamps { All (λ x. IsStamp (X.at x)) before.now }
    ensures { Takes (next_stamp X.at d.now before.now) from.old from.new result }
{
    let at = from.at;
    let stamp = Stamp::take(alloc, from)?;
    if comes_next(before, &stamp) && knows(d, &stamp) {
        Ok(stamp)
    } else {
        Err(WireError::Bad { at })
    }
}
