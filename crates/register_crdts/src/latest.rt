use crate::text::{is_text_at, show_text};
use crdt_laws::{NoMemory, Tower, Txt};
use serde_json::Value;
use std::alloc::Global;
use vector_clock::{Clock, Key, Stamp};

/// A text that was set, with the key of the operation that set it.
#[derive(Debug, Drop)]
pub struct Set {
    pub key: Key,
    pub text: Txt,
}

/// The register that keeps one text: of all sets the one of the greatest key, whichever came last. It is the
/// last-writer-wins register, where each write is later than all that its member knew. Its operation is the text to set, of at
/// most 1,024 bytes of UTF-8, and it shows the text, or null until one is set. It is plain, and never sparing.
#[derive(Clone, Copy, Debug, PartialEq, Eq)]
pub struct Latest;

impl Tower for Latest {
    ghost use Rattle.register_crdts.specs.Latest.{latest_meaning};
    ghost use Rattle.register_crdts.specs.LatestLaws.{latest_lawful};

    type State = Option<Set>;

    type Op = Txt;

    ghost meaning = { λ _. latest_meaning };

    fn top(&self) -> u8 {
        1
    }

    fn level(&self, _op: &Txt) -> u8 {
        1
    }

    fn valid(&self, stamp: &Stamp, op: &Txt) -> bool {
        is_text_at(stamp, op)
    }

    fn init(&self, _alloc: Global) -> Result<Option<Set>, NoMemory> {
        Ok(None)
    }

    #[tactic(auto, unfolding(vector_clock::specs::Stamp::is_less))]
    fn apply(
        &self,
        alloc: Global,
        state: Option<Set>,
        stamp: &Stamp,
        op: &Txt,
    ) -> Result<Option<Set>, NoMemory> {
        let key = stamp.key();
        match state {
            Some(set) if key <= set.key => Ok(Some(set)),
            _ => Ok(Some(Set {
                key,
                text: op.copy(alloc)?,
            })),
        }
    }

    fn act(&self, alloc: Global, _y: &Txt, x: &Txt) -> Result<Txt, NoMemory> {
        x.copy(alloc)
    }

    fn settle(
        &self,
        _alloc: Global,
        state: Option<Set>,
        _k: &Clock,
    ) -> Result<Option<Set>, NoMemory> {
        Ok(state)
    }

    fn copy_op(&self, alloc: Global, op: &Txt) -> Result<Txt, NoMemory> {
        op.copy(alloc)
    }

    fn same_op(&self, a: &Txt, b: &Txt) -> bool {
        a == b
    }

    fn copy_state(&self, alloc: Global, state: &Option<Set>) -> Result<Option<Set>, NoMemory> {
        match state {
            None => Ok(None),
            Some(set) => Ok(Some(Set {
                key: set.key,
                text: set.text.copy(alloc)?,
            })),
        }
    }

    fn show(&self, alloc: Global, state: &Option<Set>) -> Result<Value, NoMemory> {
        match state {
            None => Ok(Value::Null),
            Some(set) => show_text(alloc, &set.text),
        }
    }

    ghost lawful = { λ _. latest_lawful };
}
