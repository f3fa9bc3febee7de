ghost use Rattle.std.specs.Prelude.{◌≡◌, ℕ, ◌+◌, ◌<◌, ◌≤◌, ◌↔◌, [], ◌∷◌, ◌++◌, length, IfOk, IfSome};
ghost use Rattle.std.specs.Option.{option_copied};
ghost use Rattle.list_crdt.specs.Position.{IsPosition, IsPositionOf, maker, max_steps};
ghost use Rattle.list_crdt.specs.Between.{AreInOrder, IsBetween, MayName, next_position, one_step};
ghost use Rattle.list_crdt.specs.Between.{padded, position_between, steps_of};

use crate::position::{Position, Step};
use crdt_laws::{List, NoMemory};
use std::alloc::Global;

/// Why there is no position to give.
#[derive(Clone, Copy, Debug, PartialEq, Eq, Drop)]
pub enum ListError {
    /// The next position would have so many steps, more than 32.
    PositionFull { steps: u32 },
    /// The call ran out of memory.
    NoMemory,
}

impl From<NoMemory> for ListError {
    ghost use Rattle.std.specs.Prelude.{◌≡◌};
    ghost use Rattle.list_crdt.specs.declared.gap.ListError.TheVariants.{NoMemory};

    ghost from_gives = { λ _ e. e ≡ NoMemory };

    fn from(_error: NoMemory) -> ListError {
        ListError::NoMemory
    }
}

/// How many steps the next position takes over from `p`, or fills with pads, and the digit of the one that it adds.
fn parting(p: &[Step], q: &[Step]) -> (usize, u16)
    requires low { length p.now ≤ max_steps }
    requires high { length q.now ≤ max_steps }
    ensures next { (member seq : ℕ)
        → next_position member seq p.now q.now ≡ padded result.0 p.now ++ one_step member seq result.1 }
    ensures depth { result.0 ≤ max_steps }
{
    let (mut low, mut high) = (p, q);
    let mut depth = 0;
    'levels: loop {
        match (low.split_first(), high.split_first()) {
            (None, None) => return (depth, 32_768),
            (None, Some((t, rest))) => {
                if t.digit >= 2 {
                    return (depth, t.digit - 1);
                }
                high = if t.digit == 0 { rest } else { &[] };
            }
            (Some((s, rest)), None) => {
                if s.digit < u16::MAX {
                    return (depth, s.digit + 1);
                }
                low = rest;
            }
            (Some((s, below)), Some((t, above))) => {
                if t.digit.saturating_sub(s.digit) >= 2 {
                    return (depth, s.digit + 1);
                }
                low = below;
                high = if s == t { above } else { &[] };
            }
        }
        depth += 1;
    }
}

/// The steps of a position, none where it is absent.
fn steps_of(p: Option<&Position>) -> &[Step]
    ensures { result.now ≡ steps_of (option_copied p.entry) }
{
    match p {
        None => &[],
        Some(position) => position.steps.items.as_slice(),
    }
}

/// The first steps of `p`, as many as `depth`, with pads where it has no more, and then the last step. The memory is taken
/// first, and no more than the position needs.
fn ending_in(alloc: Global, p: &[Step], depth: usize, last: Step) -> Result<Position, NoMemory>
    requires { depth < max_steps }
    ensures { IfOk result (λ r. r ≡ padded depth p.now ++ last ∷ []) }
{
    let mut steps = Vec::with_capacity(alloc, depth + 1)?;
    for i in 0..depth {
        steps.push(p.get(i).copied().unwrap_or(Step::PAD))?;
    }
    steps.push(last)?;
    Ok(Position {
        steps: List { items: steps },
    })
}

/// The next position between `p` and `q`, where these are given, for the operation of this member with this sequence number: where
/// a character stands that the operation puts between theirs. `p` comes before `q`. Refuses with `PositionFull` exactly where
/// that position has more than 32 steps, and else only where it runs out of memory. Different operations get different
/// positions, whatever these are made between.
///
/// Positions are lists of steps with digits, after the identifiers of Logoot (Weiss, Urso and Molli, 2009). There a new digit is
/// drawn at random from those between its neighbours'. Here it is the one next to the lower neighbour's, or below the upper one's
/// where there is no lower neighbour. So a position follows from its neighbours and its operation's id.
pub fn between(
    alloc: Global,
    p: Option<&Position>,
    q: Option<&Position>,
    member: u8,
    seq: u32,
) -> Result<Position, ListError>
    requires { AreInOrder (option_copied p) (option_copied q) }
    ensures next { IfOk result (λ r. r ≡ position_between member seq (option_copied p.entry) (option_copied q.entry)) }
    ensures full { (k : ℕ) → (result ≡ Err (ListError.PositionFull k))
        ↔ (let steps = length (position_between member seq (option_copied p.entry) (option_copied q.entry))
        in (max_steps < steps) × (k ≡ steps)) }
    ensures between { IfOk result (IsBetween (option_copied p.entry) (option_copied q.entry)) }
    ensures maker { IfOk result (λ r. maker r ≡ record { member = member; seq = seq }) }
    ensures position { IfOk result IsPosition }
    ensures position_of { (n : ℕ) → IfSome (option_copied p.entry) (IsPositionOf n)
        → IfSome (option_copied q.entry) (IsPositionOf n) → MayName n member seq → IfOk result (IsPositionOf n) }
{
    let (low, high) = (steps_of(p), steps_of(q));
    let (depth, digit) = parting(low, high);
    if depth >= Position::MAX_STEPS {
        return Err(ListError::PositionFull {
            steps: depth as u32 + 1,
        });
    }
    Ok(ending_in(alloc, low, depth, Step { digit, member, seq })?)
}
