ghost use Rattle.std.specs.Prelude.{◌≡◌, OnOk, IfOk, IsTrue, map, if◌then◌else◌};
ghost use Rattle.std.specs.List.{All};
ghost use Rattle.crdt_laws.specs.Entry.{entry};
ghost use Rattle.crdt_laws.specs.Present.{acted};
ghost use Rattle.crdt_laws.specs.Sets.{AreIssued, IsRising, place};
ghost use Rattle.crdt_laws.specs.Tower.{IsIssued};
ghost use Rattle.weave_core.specs.Deliver.{is_high};

use crdt_laws::{NoMemory, Ops, Tower, acted_forms, beyond, place_in, present_form};
use std::alloc::Global;
use std::marker::Model;
use vector_clock::{Clock, Stamp};

/// A state, and the present forms of the operations that led to it, can act on others and were not trimmed.
#[derive(Drop)]
pub struct Woven<T: Tower> {
    pub state: T::State,
    /// By key, each of level 2 or more.
    pub history: Ops<T::Op>,
}

impl<T: Tower> Model for Woven<T> {
    ghost use Rattle.weave_core.specs.Deliver.{Weave};

    ghost Value = { Weave T.State T.Op };

    ghost view = { λ w. record { state = w.state; history = w.history } };
}

/// The history once the form is in: it acts on the entries of lower levels where they stand, and joins them by key. A form of
/// level 1 leaves the history alone.
fn joined<T: Tower>(
    alloc: Global,
    tower: &T,
    history: Ops<T::Op>,
    stamp: Stamp,
    form: T::Op,
) -> Result<Ops<T::Op>, NoMemory>
    requires before { AreIssued (T.meaning tower.now) stamp.clock.n history }
    requires high { All (λ e. IsTrue (is_high (T.meaning tower.now) e)) history }
    requires rising { IsRising history }
    requires issued { IsIssued (T.meaning tower.now) stamp.clock.n stamp form }
    ensures { IfOk result (λ es. es ≡ (if is_high (T.meaning tower.now) (entry stamp form) then place (entry stamp form) (map (acted (T.meaning tower.now) (entry stamp form)) history) else map (acted (T.meaning tower.now) (entry stamp form)) history)) }
{
    if tower.level(&form) < 2 {
        return Ok(history);
    }
    let entries = acted_forms(alloc, tower, history, &stamp, &form)?;
    place_in(entries, stamp, form)
}

impl<T: Tower> Woven<T> {
    ghost use Rattle.std.specs.Prelude.{◌≡◌, ◌∷◌, ℕ, List, IfOk};
    ghost use Rattle.vector_clock.specs.declared.clock.Clock.{Clock};
    ghost use Rattle.vector_clock.specs.Clock.{IsClock};
    ghost use Rattle.vector_clock.specs.Sets.{AgreesWith};
    ghost use Rattle.vector_clock.specs.Stamp.{IsAfter};
    ghost use Rattle.crdt_laws.specs.declared.small.Entry.{Entry};
    ghost use Rattle.crdt_laws.specs.Entry.{entry};
    ghost use Rattle.crdt_laws.specs.Sets.{AreApart, AreIssued, IsClosed, IsHonest};
    ghost use Rattle.weave_core.specs.Deliver.{nothing, deliver, trim, stands_for, IsWell, MayArrive};

    /// Nothing has arrived.
    ///
    /// `NoMemory` comes where it runs out of memory.
    pub fn empty(alloc: Global, tower: &T) -> Result<Woven<T>, NoMemory>
        ensures nothing { IfOk result (λ w. w ≡ nothing (T.meaning tower.now)) }
        ensures well { IfOk result (λ w. (n : ℕ) → IsWell (T.meaning tower.now) n w) }
    {
        Ok(Woven {
            state: tower.init(alloc)?,
            history: Ops::new(alloc),
        })
    }

    /// One operation arrives. It is applied as the concurrent ones of higher levels have changed it, and acts on those of lower
    /// levels. Entries stay where they are; an operation of level 1 leaves the history alone, and one that comes last by key is
    /// put last.
    ///
    /// `NoMemory` comes where it runs out of memory; what was woven is then gone.
    pub fn deliver(
        self,
        alloc: Global,
        tower: &T,
        stamp: Stamp,
        op: T::Op,
    ) -> Result<Woven<T>, NoMemory>
        requires { MayArrive (T.meaning tower.now) self (entry stamp op) }
        ensures step { IfOk result (λ w. w ≡ deliver (T.meaning tower.now) self (entry stamp op)) }
        ensures well { IfOk result (λ w. IsWell (T.meaning tower.now) stamp.clock.n w) }
        ensures stands { (xs : List (Entry T.Op)) (k : Clock) → self ≡ trim (T.meaning tower.now) (stands_for (T.meaning tower.now) xs) k → AreIssued (T.meaning tower.now) stamp.clock.n (entry stamp op ∷ xs) → AreApart (entry stamp op ∷ xs) → IsClosed xs
            → IsHonest (entry stamp op ∷ xs) → AgreesWith (λ e. e.stamp) k xs → IsAfter k stamp → IfOk result (λ w. w ≡ trim (T.meaning tower.now) (stands_for (T.meaning tower.now) (entry stamp op ∷ xs)) k) }
    {
        let Woven { state, history } = self;
        let form = present_form(alloc, tower, history.as_slice(), &stamp, op)?;
        let state = tower.apply(alloc, state, &stamp, &form)?;
        let history = joined(alloc, tower, history, stamp, form)?;
        Ok(Woven { state, history })
    }

    /// Settles the state at the clock, and drops the entries that it covers.
    ///
    /// `NoMemory` comes where it runs out of memory; what was woven is then gone.
    pub fn trim(self, alloc: Global, tower: &T, k: &Clock) -> Result<Woven<T>, NoMemory>
        requires clock { IsClock k.now }
        requires well { IsWell (T.meaning tower.now) k.now.n self }
        ensures trimmed { IfOk result (λ w. w ≡ trim (T.meaning tower.now) self k.now) }
        ensures well { IfOk result (λ w. IsWell (T.meaning tower.now) k.now.n w) }
    {
        let Woven { state, history } = self;
        let state = tower.settle(alloc, state, k)?;
        Ok(Woven {
            state,
            history: beyond(history, k),
        })
    }
}
