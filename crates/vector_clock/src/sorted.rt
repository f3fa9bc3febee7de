ghost use Rattle.std.specs.Prelude.{◌≡◌, ◌≤◌, ◌<◌, ℕ, length, slice_index_or, IsFalse, IsTrue};
ghost use Rattle.std.specs.List.{All};
ghost use Rattle.vector_clock.specs.Sets.{IsRising};
ghost use Rattle.vector_clock.specs.Stamp.{IsStamp, is_below};

use crate::stamp::Stamp;

/// A value that carries the stamp of an operation, and so has a place in the canonical order.
pub trait Stamped {
    ghost use Rattle.vector_clock.specs.declared.stamp.Stamp.{Stamp};

    /// The stamp.
    ghost at: { Self → Stamp };

    /// The stamp.
    fn stamp(&self) -> &Stamp
        ensures { result.now ≡ at self.now };
}

/// A place before which no element has a greater key: the end if the last one has none, and else the first place.
fn least_place<X: Stamped>(items: &[X], stamp: &Stamp) -> usize
    requires stamp { IsStamp stamp.now }
    requires stamps { All (λ x. IsStamp (X.at x)) items.now }
    requires rising { IsRising X.at items.now }
    ensures within { result ≤ length items.now }
    ensures before { (k : ℕ) (d : X) → k < result → IsFalse (is_below stamp.now (X.at (slice_index_or items.now k d))) }
{
    match items.last() {
        Some(last) if !stamp.below(last.stamp()) => items.len(),
        _ => 0,
    }
}

/// The place of a stamp among things by rising key: that of the first one whose key is greater, or the end. The end is tried
/// first, since most operations come last, and then by binary search.
pub fn place_of<X: Stamped>(items: &[X], stamp: &Stamp) -> usize
    requires stamp { IsStamp stamp.now }
    requires stamps { All (λ x. IsStamp (X.at x)) items.now }
    requires rising { IsRising X.at items.now }
    ensures within { result ≤ length items.now }
    ensures before { (k : ℕ) (d : X) → k < result → IsFalse (is_below stamp.now (X.at (slice_index_or items.now k d))) }
    ensures found { (d : X) → result < length items.now → IsTrue (is_below stamp.now (X.at (slice_index_or items.now result d))) }
{
    let mut low = least_place(items, stamp);
    let mut high = items.len();
    while low < high {
        let middle = low + (high - low) / 2;
        if stamp.below(items[middle].stamp()) {
            high = middle;
        } else {
            low = middle + 1;
        }
    }
    low
}
