ghost use Rattle.std.specs.Prelude.{◌≡◌, IfOk};
ghost use Rattle.std.specs.List.{All};
ghost use Rattle.vector_clock.specs.Sets.{IsRising, beyond, place};
ghost use Rattle.vector_clock.specs.Stamp.{IsStamp};

use crate::text::{is_text_at, show_text};
use crdt_laws::{List, NoMemory, Tower, Txt};
use serde_json::Value;
use std::alloc::Global;
use vector_clock::{Clock, Stamp, Stamped, place_of};

/// A text that was set, with the stamp of the operation that set it.
#[derive(Debug, Drop)]
pub struct Held {
    pub stamp: Stamp,
    pub text: Txt,
}

impl Stamped for Held {
    ghost at = { λ h. h.stamp };

    fn stamp(&self) -> &Stamp {
        &self.stamp
    }
}

/// The register that keeps each text of which no later set knew, so that concurrent sets all stay until one comes that knew
/// of them: it is the multi-value register. Its operation is the text to set, of at most 1,024 bytes of UTF-8. Its state has
/// the sets by rising key, and it shows the array of their texts. It is plain, and never sparing.
#[derive(Clone, Copy, Debug, PartialEq, Eq)]
pub struct Several;

/// The sets that the clock does not cover, in their order.
fn beyond(sets: List<Held>, clock: &Clock) -> List<Held>
    ensures { result ≡ beyond (λ h. h.stamp) clock.now sets }
{
    let List { mut items } = sets;
    items.retain(|held| !clock.covers(held.stamp.id()));
    List { items }
}

/// The sets with one more in its place by key.
fn with_held(sets: List<Held>, held: Held) -> Result<List<Held>, NoMemory>
    requires stamp { IsStamp held.stamp }
    requires stamps { All (λ h. IsStamp h.stamp) sets }
    requires rising { IsRising (λ h. h.stamp) sets }
    ensures { IfOk result (λ s. s ≡ place (λ h. h.stamp) held sets) }
{
    let List { mut items } = sets;
    let place = place_of(items.as_slice(), &held.stamp);
    items.insert(place, held)?;
    Ok(List { items })
}

impl Tower for Several {
    ghost use Rattle.register_crdts.specs.Several.{several_meaning};
    ghost use Rattle.register_crdts.specs.SeveralLaws.{several_lawful};

    type State = List<Held>;

    type Op = Txt;

    ghost meaning = { λ _. several_meaning };

    fn top(&self) -> u8 {
        1
    }

    fn level(&self, _op: &Txt) -> u8 {
        1
    }

    fn valid(&self, stamp: &Stamp, op: &Txt) -> bool {
        is_text_at(stamp, op)
    }

    fn init(&self, alloc: Global) -> Result<List<Held>, NoMemory> {
        Ok(List::new(alloc))
    }

    fn apply(
        &self,
        alloc: Global,
        state: List<Held>,
        stamp: &Stamp,
        op: &Txt,
    ) -> Result<List<Held>, NoMemory> {
        let text = op.copy(alloc)?;
        let held = Held {
            stamp: *stamp,
            text,
        };
        with_held(beyond(state, &stamp.clock), held)
    }

    fn act(&self, alloc: Global, _y: &Txt, x: &Txt) -> Result<Txt, NoMemory> {
        x.copy(alloc)
    }

    fn settle(
        &self,
        _alloc: Global,
        state: List<Held>,
        _k: &Clock,
    ) -> Result<List<Held>, NoMemory> {
        Ok(state)
    }

    fn copy_op(&self, alloc: Global, op: &Txt) -> Result<Txt, NoMemory> {
        op.copy(alloc)
    }

    fn same_op(&self, a: &Txt, b: &Txt) -> bool {
        a == b
    }

    fn copy_state(&self, alloc: Global, state: &List<Held>) -> Result<List<Held>, NoMemory> {
        let mut copy = List::new(alloc);
        for held in &state.items {
            let text = held.text.copy(alloc)?;
            copy.push(Held {
                stamp: held.stamp,
                text,
            })?;
        }
        Ok(copy)
    }

    fn show(&self, alloc: Global, state: &List<Held>) -> Result<Value, NoMemory> {
        let mut texts = Vec::new(alloc);
        for held in &state.items {
            texts.push(show_text(alloc, &held.text)?)?;
        }
        Ok(Value::Array(texts))
    }

    ghost lawful = { λ _. several_lawful };
}
