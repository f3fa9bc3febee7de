ghost use Rattle.std.specs.Prelude.{◌≡◌, IfOk, IsOk};
ghost use Rattle.flag_crdts.specs.Ladder.{IsLadderSize};

use crate::ladder::Ladder;
use crdt_laws::{NoMemory, Tower};
use serde_json::Value;
use std::alloc::Global;
use vector_clock::{Clock, Stamp};

/// A choice of as many values as its ladder has.
#[derive(Drop)]
pub enum Choice {
    Two(Ladder<2>),
    Three(Ladder<3>),
    Four(Ladder<4>),
    Five(Ladder<5>),
    Six(Ladder<6>),
    Seven(Ladder<7>),
    Eight(Ladder<8>),
}

/// What a call gives on the ladder of a choice.
macro_rules! on_ladder {
    ($choice:expr, $ladder:ident => $call:expr) => {
        match $choice {
            Choice::Two($ladder) => $call,
            Choice::Three($ladder) => $call,
            Choice::Four($ladder) => $call,
            Choice::Five($ladder) => $call,
            Choice::Six($ladder) => $call,
            Choice::Seven($ladder) => $call,
            Choice::Eight($ladder) => $call,
        }
    };
}

impl Choice {
    ghost use Rattle.flag_crdts.specs.Choice.{size_of};

    /// The choice of n values, which are to be 2 to 8.
    pub fn of(n: u8) -> Choice
        requires { IsLadderSize n }
        ensures { size_of result ≡ n }
    {
        match n {
            2 => Choice::Two(Ladder::of()),
            3 => Choice::Three(Ladder::of()),
            4 => Choice::Four(Ladder::of()),
            5 => Choice::Five(Ladder::of()),
            6 => Choice::Six(Ladder::of()),
            7 => Choice::Seven(Ladder::of()),
            _ => Choice::Eight(Ladder::of()),
        }
    }
}

impl Tower for Choice {
    ghost use Rattle.flag_crdts.specs.Choice.{size_of};
    ghost use Rattle.flag_crdts.specs.ChoiceLaws.{choice_lawful};
    ghost use Rattle.flag_crdts.specs.Ladder.{ladder_meaning};

    type State = u8;

    type Op = u8;

    ghost meaning = { λ t. ladder_meaning (size_of t) };

    fn top(&self) -> u8 {
        on_ladder!(self, ladder => ladder.top())
    }

    fn level(&self, op: &u8) -> u8 {
        on_ladder!(self, ladder => ladder.level(op))
    }

    fn valid(&self, stamp: &Stamp, op: &u8) -> bool {
        on_ladder!(self, ladder => ladder.valid(stamp, op))
    }

    fn init(&self, alloc: Global) -> Result<u8, NoMemory> {
        on_ladder!(self, ladder => ladder.init(alloc))
    }

    fn apply(&self, alloc: Global, state: u8, stamp: &Stamp, op: &u8) -> Result<u8, NoMemory> {
        on_ladder!(self, ladder => ladder.apply(alloc, state, stamp, op))
    }

    fn act(&self, alloc: Global, y: &u8, x: &u8) -> Result<u8, NoMemory> {
        on_ladder!(self, ladder => ladder.act(alloc, y, x))
    }

    fn settle(&self, _alloc: Global, state: u8, _k: &Clock) -> Result<u8, NoMemory> {
        Ok(state)
    }

    fn copy_op(&self, _alloc: Global, op: &u8) -> Result<u8, NoMemory>
        ensures same { IfOk result (λ copy. copy ≡ op.now) }
        ensures always { IsOk result }
    {
        Ok(*op)
    }

    fn same_op(&self, a: &u8, b: &u8) -> bool {
        *a == *b
    }

    fn copy_state(&self, _alloc: Global, state: &u8) -> Result<u8, NoMemory>
        ensures same { IfOk result (λ copy. copy ≡ state.now) }
        ensures always { IsOk result }
    {
        Ok(*state)
    }

    fn show(&self, alloc: Global, state: &u8) -> Result<Value, NoMemory> {
        on_ladder!(self, ladder => ladder.show(alloc, state))
    }

    ghost lawful = { λ t. choice_lawful t };
}
