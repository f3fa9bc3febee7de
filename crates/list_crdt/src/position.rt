ghost use Rattle.std.specs.Prelude.{◌≡◌, ◌≤◌, ◌<◌, ◌⊎◌, ◌↔◌, IsTrue, IfOk, length};
ghost use Rattle.std.specs.List.{All};
ghost use Rattle.list_crdt.specs.Position.{IsPosition, IsPositionOf, NamesOperation, maker, pad};

use crdt_laws::{List, NoMemory};
use std::alloc::Global;
use std::cmp::Ordering;
use std::marker::Model;
use vector_clock::{Id, MAX_SEQ};

/// One step of a position: a digit, and the id of the operation that it was made for. Steps are compared by digit, then by
/// member, then by sequence number.
#[derive(Clone, Copy, Debug, PartialEq, Eq, PartialOrd, Ord)]
pub struct Step {
    /// 1 to 65,535, and 0 in a pad.
    pub digit: u16,
    pub member: u8,
    pub seq: u32,
}

impl Step {
    /// The step that has no operation's id. It goes down a level, below all other steps.
    pub const PAD: Step = Step {
        digit: 0,
        member: 0,
        seq: 0,
    };

    ghost use Rattle.list_crdt.specs.Position.{NamesOperation, pad};

    /// Whether the step has the id of an operation of one of `n` members.
    fn names_operation(&self, n: u8) -> bool
        ensures { IsTrue result ↔ NamesOperation n self.now }
    {
        let Step { digit, member, seq } = *self;
        digit >= 1 && member < n && (1..=MAX_SEQ).contains(&seq)
    }

    /// Whether the step may stand before others: it is a pad, or has the id of an operation of one of `n` members.
    fn may_lead(&self, n: u8) -> bool
        ensures { IsTrue result ↔ (self.now ≡ pad) ⊎ NamesOperation n self.now }
    {
        *self == Step::PAD || self.names_operation(n)
    }
}

/// Whether all of the steps may stand before others.
fn may_lead(steps: &[Step], n: u8) -> bool
    ensures { IsTrue result ↔ All (λ s. (s ≡ pad) ⊎ NamesOperation n s) steps.now }
{
    steps.iter().all(|s| s.may_lead(n))
}

/// The place of a character: 1 to 32 steps, the last of which has the id of the operation that it was made for. Contracts see
/// the list of steps.
#[derive(Debug, Drop)]
pub struct Position {
    pub steps: List<Step>,
}

impl Model for Position {
    ghost use Rattle.std.specs.Prelude.{List};
    ghost use Rattle.list_crdt.specs.declared.position.Step.{Step};

    ghost Value = { List Step };

    ghost view = { λ p. p.steps };
}

impl PartialEq for Position {
    ghost use Rattle.std.specs.Ordering.{eq_by_cmp};
    ghost use Rattle.list_crdt.specs.Position.{position_cmp};
    ghost use Rattle.list_crdt.specs.Order.{equal_laws};

    ghost eq = { eq_by_cmp position_cmp };

    ghost laws = { equal_laws };

    fn eq(&self, other: &Position) -> bool {
        self.cmp(other) == Ordering::Equal
    }
}

impl Eq for Position {
    ghost use Rattle.list_crdt.specs.Order.{equivalence};

    ghost laws = { equivalence };
}

impl PartialOrd for Position {
    ghost use Rattle.std.specs.Ordering.{as_partial_cmp};
    ghost use Rattle.list_crdt.specs.Position.{position_cmp};
    ghost use Rattle.list_crdt.specs.Order.{partial};

    ghost partial_cmp = { as_partial_cmp position_cmp };

    ghost laws = { partial };

    fn partial_cmp(&self, other: &Position) -> Option<Ordering> {
        Some(self.cmp(other))
    }
}

/// Positions are compared step by step, and a proper prefix is less.
impl Ord for Position {
    ghost use Rattle.std.proofs.Common.{refl};
    ghost use Rattle.list_crdt.specs.Position.{position_cmp};
    ghost use Rattle.list_crdt.specs.Order.{position_total};

    ghost cmp = { position_cmp };

    ghost total = { position_total };

    ghost matches_partial_cmp = { λ x y. refl };

    ghost matches_eq = { λ x y. refl };

    fn cmp(&self, other: &Position) -> Ordering {
        self.steps.items.cmp(&other.steps.items)
    }
}

impl Position {
    /// The most steps that a position may have.
    pub const MAX_STEPS: usize = 32;

    /// Whether this is a position of a document with `n` members: it has 1 to 32 steps, each of which is a pad or has the id
    /// of an operation of a member, and the last one is no pad.
    pub fn is_of(&self, n: u8) -> bool
        ensures of { IsTrue result ↔ IsPositionOf n self.now }
        ensures position { IsTrue result → IsPosition self.now }
    {
        let steps = self.steps.items.as_slice();
        if steps.len() > Self::MAX_STEPS {
            return false;
        }
        match steps.split_last() {
            Some((last, before)) => last.names_operation(n) && may_lead(before, n),
            None => false,
        }
    }

    /// The id of the operation that the position was made for, which its last step has.
    pub fn maker(&self) -> Id
        requires { 0 < length self.now }
        ensures { result ≡ maker self.now }
    {
        let steps = self.steps.items.as_slice();
        let Step { member, seq, .. } = steps[steps.len() - 1];
        Id { member, seq }
    }

    /// The same position again.
    pub fn copy(&self, alloc: Global) -> Result<Position, NoMemory>
        ensures { IfOk result (λ p. p ≡ self.now) }
    {
        Ok(Position {
            steps: List {
                items: Vec::from_slice(alloc, self.steps.items.as_slice())?,
            },
        })
    }
}
