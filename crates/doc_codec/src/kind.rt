use crate::either::EitherCoder;
use crdt_laws::{NoMemory, Tower};
use doc_tower::{AllKinds, KindOp, KindState, KindTower};
use kind_codec::{
    AddCoder, ChoiceCoder, FixedCoder, LatestCoder, MarkOverCoder, MarkedTextCoder, MulCoder,
    SeveralCoder, TableTowerCoder, TextCoder,
};
use std::alloc::Global;
use tower_codec::{KeyedCoder, StackCoder};
use vector_clock::Clock;
use wire_core::{ByteIn, ByteOut, Coder, WireError};

/// The coder of numbers: a tag, and what is added or multiplied by.
pub type NumberCoder = StackCoder<AddCoder, MulCoder>;

/// The coder of texts with marks: a tag, and the edit or the range.
pub type RichCoder = StackCoder<MarkedTextCoder, MarkOverCoder>;

/// The coder of numbers, of the two flags and of choices.
pub type FirstCoder = EitherCoder<
    EitherCoder<NumberCoder, FixedCoder>,
    EitherCoder<FixedCoder, ChoiceCoder>,
>;

/// The coder of tallies and of entries.
pub type MapCoder = EitherCoder<KeyedCoder<NumberCoder>, KeyedCoder<LatestCoder>>;

/// The coder of tables, of the two registers, of texts and of maps.
pub type LastCoder = EitherCoder<
    EitherCoder<TableTowerCoder, LatestCoder>,
    EitherCoder<SeveralCoder, EitherCoder<TextCoder, MapCoder>>,
>;

/// The coder of one of eleven towers, in the order of the arms of `AllKinds`.
pub type AllCoder = EitherCoder<EitherCoder<FirstCoder, LastCoder>, RichCoder>;

/// The coder of numbers.
pub const NUMBER_CODER: NumberCoder = StackCoder {
    low: AddCoder,
    high: MulCoder,
};

/// The coder of kinds: the bytes of the arm, which `arms` writes and reads.
#[derive(Clone, Copy, Debug, PartialEq, Eq)]
pub struct KindCoder<C> {
    pub arms: C,
}

/// The coder of kinds.
pub type KindsCoder = KindCoder<AllCoder>;

/// The coder of kinds.
pub const KIND_CODER: KindsCoder = KindCoder {
    arms: EitherCoder {
        left: EitherCoder {
            left: EitherCoder {
                left: EitherCoder {
                    left: NUMBER_CODER,
                    right: FixedCoder,
                },
                right: EitherCoder {
                    left: FixedCoder,
                    right: ChoiceCoder,
                },
            },
            right: EitherCoder {
                left: EitherCoder {
                    left: TableTowerCoder,
                    right: LatestCoder,
                },
                right: EitherCoder {
                    left: SeveralCoder,
                    right: EitherCoder {
                        left: TextCoder,
                        right: EitherCoder {
                            left: KeyedCoder { part: NUMBER_CODER },
                            right: KeyedCoder { part: LatestCoder },
                        },
                    },
                },
            },
        },
        right: StackCoder {
            low: MarkedTextCoder,
            high: MarkOverCoder,
        },
    },
};

impl<C: Coder<AllKinds>> Coder<KindTower> for KindCoder<C> {
    ghost use Rattle.doc_codec.specs.Kinds.{kind_fits, kind_good, kind_may_stand, kind_ops, kind_ops_exact, kind_ops_in_order, kind_states, kind_states_exact, kind_states_steady, kind_tells, kind_writes};

    ghost op_grammar = { λ c t. kind_ops (C.op_grammar c.arms t.arm) };

    ghost may_stand = { λ c t. kind_may_stand (C.may_stand c.arms t.arm) };

    ghost state_grammar = { λ c t. kind_states (C.state_grammar c.arms t.arm) };

    ghost state_fits = { λ c t. kind_fits (C.state_fits c.arms t.arm) };

    fn put_op(&self, tower: &KindTower, op: &KindOp, out: &mut ByteOut) -> Result<(), NoMemory> {
        self.arms.put_op(&tower.arm, &op.arm, out)
    }

    fn take_op(
        &self,
        alloc: Global,
        tower: &KindTower,
        from: &mut ByteIn<'_>,
    ) -> Result<KindOp, WireError> {
        let arm = self.arms.take_op(alloc, &tower.arm, from)?;
        Ok(KindOp { arm })
    }

    fn put_state(
        &self,
        tower: &KindTower,
        state: &KindState,
        out: &mut ByteOut,
    ) -> Result<(), NoMemory> {
        self.arms.put_state(&tower.arm, &state.arm, out)
    }

    fn take_state(
        &self,
        alloc: Global,
        tower: &KindTower,
        d: &Clock,
        from: &mut ByteIn<'_>,
    ) -> Result<KindState, WireError> {
        let arm = self.arms.take_state(alloc, &tower.arm, d, from)?;
        Ok(KindState { arm })
    }

    ghost op_exact = { λ c t. kind_ops_exact (C.op_grammar c.arms t.arm) (C.op_exact c.arms t.arm) };

    ghost op_in_order = { λ c t. kind_ops_in_order (C.op_grammar c.arms t.arm) (C.op_in_order c.arms t.arm) };

    ghost op_writes = { λ c t. kind_writes (⟦<AllKinds as Tower>⟧.meaning t.arm) (C.op_grammar c.arms t.arm) (C.op_writes c.arms t.arm) };

    ghost op_tells = { λ c t. kind_tells (⟦<AllKinds as Tower>⟧.meaning t.arm) (C.op_grammar c.arms t.arm) (C.may_stand c.arms t.arm) (C.op_tells c.arms t.arm) };

    ghost state_exact = { λ c t d. kind_states_exact (C.state_grammar c.arms t.arm) d (C.state_exact c.arms t.arm d) };

    ghost state_steady = { λ c t d. kind_states_steady (C.state_grammar c.arms t.arm) d (C.state_steady c.arms t.arm d) };

    ghost state_good = { λ c t. kind_good (⟦<AllKinds as Tower>⟧.meaning t.arm) (C.state_fits c.arms t.arm) (C.state_grammar c.arms t.arm) (C.state_good c.arms t.arm) };
}
