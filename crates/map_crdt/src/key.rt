//! Keys of maps: 1 to 256 bytes of UTF-8.
ghost use Rattle.std.specs.Prelude.{◌≡◌, ◌↔◌, IsTrue};
ghost use Rattle.map_crdt.specs.Keyed.{IsKey, byte_order};

use crdt_laws::Txt;
use std::cmp::Ordering;

/// Whether the text may be a key.
pub(crate) fn is_key(key: &Txt) -> bool
    ensures { IsTrue result ↔ IsKey key.now }
{
    let bytes = key.items.len();
    1 <= bytes && bytes <= 256 && key.is_utf8()
}

/// How the first key stands to the second in the order of bytes.
pub(crate) fn compare_keys(a: &Txt, b: &Txt) -> Ordering
    ensures { result ≡ byte_order a.now b.now }
{
    a.items.as_slice().cmp(&b.items.as_slice())
}
