ghost use Rattle.std.specs.Prelude.{◌≡◌, ◌≤◌};

use crdt_laws::Tower;
use semidirect_product::{Maybe, Stack, WinReset};

/// A tower with resets above it. A reset wins over each operation that it did not know of: that becomes nothing.
pub type Winning<T> = Stack<Maybe<T>, WinReset>;

/// The tower `part` with resets above it.
pub fn winning<T: Tower>(part: T) -> Winning<T>
    requires { (T.meaning part).top ≤ 254 }
    ensures { result.low.part ≡ part }
{
    Stack::of(Maybe::of(part), WinReset)
}
