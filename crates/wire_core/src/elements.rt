ghost use Rattle.std.specs.Prelude.{◌≡◌, ℕ, List, []};
ghost use Rattle.wire_core.specs.Reading.{Grammar, IsExact, allows_each, listed, repeated};
ghost use Rattle.wire_core.specs.Calls.{IsInside, Takes, input_of, items_of};

use crate::byte_in::ByteIn;
use crate::error::WireError;
use crdt_laws::List;
use std::alloc::Global;

/// How the things of a list are read, each of which may depend on those before it.
pub trait Elements {
    /// What stands in the list.
    type Item: Drop;

    /// What may stand behind the things before it, how it is spelled, and what bytes read as.
    ghost element: { Self → List Self.Item → Grammar Self.Item };

    /// What reading asks of the number of members of the document.
    ghost reads: { Self → ℕ → Type 0 };

    /// Reads the next thing, behind those that were read before it.
    fn take_next(
        &self,
        alloc: Global,
        before: &[Self::Item],
        from: &mut ByteIn<'_>,
    ) -> Result<Self::Item, WireError>
        requires inside { IsInside from.old }
        requires members { reads self.now from.old.n }
        requires before { allows_each (element self.now) (input_of from.old).rules [] before.now }
        ensures { Takes (element self.now before.now) from.old from.new result };

    /// What was spelled is read again, and what is read was spelled so.
    ghost exact: { (e : Self) (before : List Self.Item) → IsExact (element e before) };
}

/// Reads so many things, one after the other.
pub fn take_each<E: Elements>(
    alloc: Global,
    elements: &E,
    count: u32,
    from: &mut ByteIn<'_>,
) -> Result<Vec<E::Item>, WireError>
    requires inside { IsInside from.old }
    requires members { E.reads elements.now from.old.n }
    ensures { Takes (repeated (E.element elements.now) count []) from.old from.new (items_of result) }
{
    let mut items = Vec::new(alloc);
    for _ in 0..count {
        let item = elements.take_next(alloc, items.as_slice(), from)?;
        items.push(item)?;
    }
    Ok(items)
}

/// Reads a count of four bytes, and so many things.
pub fn take_listed<E: Elements>(
    alloc: Global,
    elements: &E,
    from: &mut ByteIn<'_>,
) -> Result<List<E::Item>, WireError>
    requires inside { IsInside from.old }
    requires members { E.reads elements.now from.old.n }
    ensures { Takes (listed (E.element elements.now)) from.old from.new result }
{
    let count = from.take_u32()?;
    let items = take_each(alloc, elements, count, from)?;
    Ok(List { items })
}
