ghost use Rattle.std.specs.Prelude.{◌≡◌, IfOk};
ghost use Rattle.doc_schema.specs.Sound.{IsSoundKind};

use crate::either::Either;
use action_tables::TableTower;
use crdt_laws::{List, NoMemory, Tower, Txt};
use doc_schema::Kind;
use flag_crdts::{Choice, Fixed, off_wins, on_wins};
use list_crdt::{Text, TextOp, TextState};
use map_crdt::{KeyMap, KeyOp, Keyed};
use number_crdts::{Number, NumberOp, number_mod};
use register_crdts::{Held, Latest, Set, Several};
use rich_text::{MarkRange, Rich, RichOp, RichState, rich};
use semidirect_product::StackOp;
use serde_json::Value;
use std::alloc::Global;
use vector_clock::{Clock, Stamp};

/// Numbers, the two flags, and choices.
pub type FirstKinds = Either<Either<Number, Fixed<2, 3>>, Either<Fixed<2, 3>, Choice>>;

/// Tallies, and entries.
pub type MapKinds = Either<Keyed<Number>, Keyed<Latest>>;

/// Tables, the two registers, texts, and maps.
pub type LastKinds = Either<Either<TableTower, Latest>, Either<Several, Either<Text, MapKinds>>>;

/// One of eleven towers. The arms, from left to right, are the kinds in the order in which schemas tell them: `number`, `on_flag`,
/// `off_flag`, `choice`, `table`, `latest`, `several`, `text`, `tally`, `entries` and `rich`.
pub type AllKinds = Either<Either<FirstKinds, LastKinds>, Rich>;

/// A state of one of them, in the same arm.
pub type AllStates = Either<
    Either<
        Either<Either<u64, u8>, Either<u8, u8>>,
        Either<
            Either<u8, Option<Set>>,
            Either<List<Held>, Either<TextState, Either<KeyMap<u64>, KeyMap<Option<Set>>>>>,
        >,
    >,
    RichState,
>;

/// An operation of one of them, in the same arm.
pub type AllOps = Either<
    Either<
        Either<Either<NumberOp, u8>, Either<u8, u8>>,
        Either<Either<u8, Txt>, Either<Txt, Either<TextOp, Either<KeyOp<NumberOp>, KeyOp<Txt>>>>>,
    >,
    StackOp<RichOp, MarkRange>,
>;

/// The arm of a kind, with what stands in it.
macro_rules! arm {
    (Number, $($part:tt)*) => { Either::Left(Either::Left(Either::Left(Either::Left($($part)*)))) };
    (OnFlag, $($part:tt)*) => { Either::Left(Either::Left(Either::Left(Either::Right($($part)*)))) };
    (OffFlag, $($part:tt)*) => { Either::Left(Either::Left(Either::Right(Either::Left($($part)*)))) };
    (Choice, $($part:tt)*) => { Either::Left(Either::Left(Either::Right(Either::Right($($part)*)))) };
    (Table, $($part:tt)*) => { Either::Left(Either::Right(Either::Left(Either::Left($($part)*)))) };
    (Latest, $($part:tt)*) => { Either::Left(Either::Right(Either::Left(Either::Right($($part)*)))) };
    (Several, $($part:tt)*) => { Either::Left(Either::Right(Either::Right(Either::Left($($part)*)))) };
    (Text, $($part:tt)*) => { Either::Left(Either::Right(Either::Right(Either::Right(Either::Left($($part)*))))) };
    (Tally, $($part:tt)*) => { Either::Left(Either::Right(Either::Right(Either::Right(Either::Right(Either::Left($($part)*)))))) };
    (Entries, $($part:tt)*) => { Either::Left(Either::Right(Either::Right(Either::Right(Either::Right(Either::Right($($part)*)))))) };
    (Rich, $($part:tt)*) => { Either::Right($($part)*) };
}

pub(crate) use arm;

/// A state of a kind.
#[derive(Drop)]
pub struct KindState {
    pub arm: AllStates,
}

/// An operation of a kind.
#[derive(Drop)]
pub struct KindOp {
    pub arm: AllOps,
}

/// The tower of a kind. It is the tower that its arm holds, with states and operations of types of their own.
#[derive(Drop)]
pub struct KindTower {
    pub arm: AllKinds,
}

impl KindTower {
    ghost use Rattle.std.specs.Prelude.{◌≡◌, IfOk};
    ghost use Rattle.doc_schema.specs.Sound.{IsSoundKind};
    ghost use Rattle.doc_tower.specs.Shapes.{kind_shape, tower_shape};

    /// The tower of a kind of a schema. `NoMemory` comes where it runs out of memory.
    pub fn of(alloc: Global, kind: &Kind) -> Result<KindTower, NoMemory>
        requires { IsSoundKind kind.now }
        ensures { IfOk result (λ t. tower_shape t ≡ kind_shape kind.now) }
    {
        let arm = match kind {
            Kind::Number { modulus } => arm!(Number, number_mod(*modulus)),
            Kind::OnFlag => arm!(OnFlag, on_wins()),
            Kind::OffFlag => arm!(OffFlag, off_wins()),
            Kind::Choice { values } => arm!(Choice, Choice::of(values.items.len() as u8)),
            Kind::Table { table, .. } => arm!(Table, TableTower::of(table.copy(alloc)?)),
            Kind::Latest => arm!(Latest, Latest),
            Kind::Several => arm!(Several, Several),
            Kind::Text => arm!(Text, Text),
            Kind::Tally { modulus } => arm!(Tally, Keyed::of(number_mod(*modulus))),
            Kind::Entries => arm!(Entries, Keyed::of(Latest)),
            Kind::Rich { marks } => arm!(Rich, rich(marks.items.len() as u8)),
        };
        Ok(KindTower { arm })
    }
}

impl Tower for KindTower {
    ghost use Rattle.doc_tower.specs.Kinds.{sealed};
    ghost use Rattle.doc_tower.specs.KindLaws.{number_lawful, rich_lawful, sealed_lawful};
    ghost use Rattle.doc_tower.specs.EitherLaws.{either_lawful};
    ghost use Rattle.action_tables.specs.TableLaws.{table_lawful};
    ghost use Rattle.flag_crdts.specs.ChoiceLaws.{choice_lawful};
    ghost use Rattle.flag_crdts.specs.Flags.{fixed_table};
    ghost use Rattle.list_crdt.specs.TextLaws.{text_lawful};
    ghost use Rattle.map_crdt.specs.KeyedLaws.{keyed_lawful};
    ghost use Rattle.register_crdts.specs.LatestLaws.{latest_lawful};
    ghost use Rattle.register_crdts.specs.SeveralLaws.{several_lawful};

    type State = KindState;

    type Op = KindOp;

    ghost meaning = { λ t. sealed (⟦<AllKinds as Tower>⟧.meaning t.arm) };

    fn top(&self) -> u8 {
        self.arm.top()
    }

    fn level(&self, op: &KindOp) -> u8 {
        self.arm.level(&op.arm)
    }

    fn valid(&self, stamp: &Stamp, op: &KindOp) -> bool {
        self.arm.valid(stamp, &op.arm)
    }

    fn init(&self, alloc: Global) -> Result<KindState, NoMemory> {
        let arm = self.arm.init(alloc)?;
        Ok(KindState { arm })
    }

    fn apply(
        &self,
        alloc: Global,
        state: KindState,
        stamp: &Stamp,
        op: &KindOp,
    ) -> Result<KindState, NoMemory> {
        let KindState { arm } = state;
        let arm = self.arm.apply(alloc, arm, stamp, &op.arm)?;
        Ok(KindState { arm })
    }

    fn act(&self, alloc: Global, y: &KindOp, x: &KindOp) -> Result<KindOp, NoMemory> {
        let arm = self.arm.act(alloc, &y.arm, &x.arm)?;
        Ok(KindOp { arm })
    }

    fn settle(&self, alloc: Global, state: KindState, k: &Clock) -> Result<KindState, NoMemory> {
        let KindState { arm } = state;
        let arm = self.arm.settle(alloc, arm, k)?;
        Ok(KindState { arm })
    }

    fn copy_op(&self, alloc: Global, op: &KindOp) -> Result<KindOp, NoMemory> {
        let arm = self.arm.copy_op(alloc, &op.arm)?;
        Ok(KindOp { arm })
    }

    fn same_op(&self, a: &KindOp, b: &KindOp) -> bool {
        self.arm.same_op(&a.arm, &b.arm)
    }

    fn copy_state(&self, alloc: Global, state: &KindState) -> Result<KindState, NoMemory> {
        let arm = self.arm.copy_state(alloc, &state.arm)?;
        Ok(KindState { arm })
    }

    fn show(&self, alloc: Global, state: &KindState) -> Result<Value, NoMemory> {
        self.arm.show(alloc, &state.arm)
    }

    ghost lawful = { λ t. sealed_lawful (⟦<AllKinds as Tower>⟧.meaning t.arm) (
        either_lawful _ (either_lawful _
        (either_lawful _ (either_lawful _ (λ n. number_lawful n.low.modulus n.high.modulus n.fitting) _ (λ f. table_lawful (fixed_table 2 f.level f.next f.act) f.table f.lawful))
        _ (either_lawful _ (λ f. table_lawful (fixed_table 2 f.level f.next f.act) f.table f.lawful) _ (λ c. choice_lawful c)))
        _ (either_lawful _ (either_lawful _ (λ b. table_lawful b.table.table b.table.well_formed b.table.laws) _ (λ _. latest_lawful))
        _ (either_lawful _ (λ _. several_lawful)
        _ (either_lawful _ (λ _. text_lawful)
        _ (either_lawful _ (λ k. keyed_lawful _ (number_lawful k.part.low.modulus k.part.high.modulus k.part.fitting)) _ (λ _. keyed_lawful _ latest_lawful))))))
        _ (λ r. rich_lawful r.low.marks r.high.marks r.fitting) t.arm) };
}
