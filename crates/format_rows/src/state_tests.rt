ghost use Rattle.std.specs.Prelude.{◌≤◌, length};

use crate::rows::{Case, Row, forged, is_whole, not_short, on_flag};
use crate::{pair, pair_coder};
use ClockForm::{Dense, Sparse};
use crdt_laws::{Bytes, Tower};
use direct_product::{Pair, Row as Parts};
use doc_codec::{EitherCoder, NUMBER_CODER};
use doc_tower::Either;
use flag_crdts::{Choice, on_wins};
use kind_codec::{
    ChoiceCoder, FixedCoder, LatestCoder, MarkOverCoder, MarkedTextCoder, SeveralCoder,
    TableTowerCoder, TextCoder,
};
use list_crdt::Text;
use map_crdt::Keyed;
use number_crdts::{Number, number, number_mod};
use register_crdts::{Latest, Several};
use reset_products::{Observed, winning};
use rich_text::rich;
use std::alloc::Global;
use std::test::*;
use tower_codec::{
    KeyedCoder, MaybeCoder, ObservedCoder, PairCoder, RowCoder, StackCoder, WinResetCoder,
};
use vector_clock::Clock;
use wire_core::{ByteIn, ByteOut, ClockForm, Coder, WireError};

#[derive(Clone, Copy, Debug)]
enum Kind {
    Hours,
    Winning,
    Observed,
    ObservedText,
    Pair,
    Row,
    Flag,
    Choice,
    Table,
    Latest,
    Several,
    Text,
    Keyed,
    Rich,
    Either,
    Document,
}

// A state, and the form of the clocks in it.
#[derive(Clone, Copy, Debug)]
struct State {
    kind: Kind,
    form: ClockForm,
}

const fn sparse(kind: Kind) -> State {
    State { kind, form: Sparse }
}

const fn dense(kind: Kind) -> State {
    State { kind, form: Dense }
}

// Reads the state that begins at place 1 and is good where two operations of member 0 and one of member 1 are known, and gives the
// place behind it and the bytes that it is written as again.
fn take_and_put<T: Tower, C: Coder<T>>(
    alloc: Global,
    coder: &C,
    tower: &T,
    form: ClockForm,
    bytes: &[u8],
) -> Result<(u32, Bytes), WireError>
    requires some { 1 ≤ length bytes.now }
    requires few { length bytes.now ≤ 4294967295 }
{
    let mut from = ByteIn {
        bytes,
        at: 1,
        n: 2,
        form,
    };
    let d = Clock::zero(2).with(0, 2).with(1, 1);
    let state = coder.take_state(alloc, tower, &d, &mut from)?;
    let mut out = ByteOut {
        bytes: Bytes {
            items: Vec::new(alloc),
        },
        n: 2,
        form,
    };
    coder.put_state(tower, &state, &mut out)?;
    Ok((from.at, out.bytes))
}

impl Case for State {
    fn there_and_back(&self, alloc: Global, bytes: &[u8]) -> Result<(u32, Bytes), WireError> {
        let form = self.form;
        match self.kind {
            Kind::Hours => take_and_put(alloc, &NUMBER_CODER, &number_mod(12), form, bytes),
            Kind::Winning => {
                let coder = StackCoder {
                    low: MaybeCoder { part: NUMBER_CODER },
                    high: WinResetCoder,
                };
                take_and_put(alloc, &coder, &winning(number()), form, bytes)
            }
            Kind::Observed => {
                let coder = ObservedCoder { part: NUMBER_CODER };
                take_and_put(alloc, &coder, &Observed::of(number()), form, bytes)
            }
            Kind::ObservedText => {
                let coder = ObservedCoder { part: TextCoder };
                take_and_put(alloc, &coder, &Observed::of(Text), form, bytes)
            }
            Kind::Pair => {
                let coder = PairCoder {
                    left: NUMBER_CODER,
                    right: LatestCoder,
                };
                take_and_put(alloc, &coder, &Pair::of(number(), Latest), form, bytes)
            }
            Kind::Row => {
                let mut parts = Vec::new(alloc);
                parts.push(number_mod(12))?;
                parts.push(number_mod(7))?;
                let coder = RowCoder { part: NUMBER_CODER };
                take_and_put(alloc, &coder, &Parts::of(parts), form, bytes)
            }
            Kind::Flag => take_and_put(alloc, &FixedCoder, &on_wins(), form, bytes),
            Kind::Choice => take_and_put(alloc, &ChoiceCoder, &Choice::of(3), form, bytes),
            Kind::Table => take_and_put(alloc, &TableTowerCoder, &on_flag(alloc)?, form, bytes),
            Kind::Latest => take_and_put(alloc, &LatestCoder, &Latest, form, bytes),
            Kind::Several => take_and_put(alloc, &SeveralCoder, &Several, form, bytes),
            Kind::Text => take_and_put(alloc, &TextCoder, &Text, form, bytes),
            Kind::Keyed => {
                let coder = KeyedCoder { part: NUMBER_CODER };
                take_and_put(alloc, &coder, &Keyed::of(number()), form, bytes)
            }
            Kind::Rich => {
                let coder = StackCoder {
                    low: MarkedTextCoder,
                    high: MarkOverCoder,
                };
                take_and_put(alloc, &coder, &rich(2), form, bytes)
            }
            Kind::Either => {
                let coder = EitherCoder {
                    left: NUMBER_CODER,
                    right: FixedCoder,
                };
                let tower: Either<Number, _> = Either::Right(on_wins());
                take_and_put(alloc, &coder, &tower, form, bytes)
            }
            Kind::Document => take_and_put(alloc, &pair_coder(), &pair(alloc)?, form, bytes),
        }
    }
}

// Each state behind one byte, in a document of two members of which one has two operations and the other has one: it is read and
// written again; each of its proper prefixes is short where its last field begins; and with one byte forged the field there is not
// allowed.
#[test]
fn states(rt: HostRuntime) -> Result<(), Fail> {
    let rows = [
        (
            sparse(Kind::Hours),
            Row {
                bytes: &[9, 0, 0, 0, 0, 0, 0, 0, 11],
                fields: &[1],
                forged: &[(8, 12, 1)],
            },
        ),
        (
            sparse(Kind::Winning),
            Row {
                bytes: &[9, 255, 255, 255, 255, 255, 255, 255, 255],
                fields: &[1],
                forged: &[],
            },
        ),
        // the base, and an addition of member 1, in both forms of clocks: the clock knows no second one
        (
            sparse(Kind::Observed),
            Row {
                bytes: &[
                    9, 0, 0, 0, 0, 0, 0, 0, 5, 0, 0, 0, 1, 1, 1, 1, 0, 0, 0, 1, 0, 0, 0, 0, 0, 0,
                    0, 0, 2,
                ],
                fields: &[1, 9, 13, 20, 21],
                forged: &[(13, 0, 13), (19, 2, 13), (20, 2, 20)],
            },
        ),
        (
            dense(Kind::Observed),
            Row {
                bytes: &[
                    9, 0, 0, 0, 0, 0, 0, 0, 5, 0, 0, 0, 1, 1, 0, 0, 0, 0, 0, 0, 0, 1, 0, 0, 0, 0,
                    0, 0, 0, 0, 2,
                ],
                fields: &[1, 9, 13, 22, 23],
                forged: &[(13, 0, 13), (21, 2, 13), (22, 2, 22)],
            },
        ),
        // two operations, the second of which knew the first: their keys rise, and no id stands twice
        (
            sparse(Kind::Observed),
            Row {
                bytes: &[
                    9, 0, 0, 0, 0, 0, 0, 0, 5, 0, 0, 0, 2, 1, 1, 1, 0, 0, 0, 1, 0, 0, 0, 0, 0, 0,
                    0, 0, 2, 0, 2, 0, 0, 0, 0, 1, 1, 0, 0, 0, 1, 1, 0, 0, 0, 0, 0, 0, 0, 3,
                ],
                fields: &[1, 9, 13, 20, 21, 29, 41, 42],
                forged: &[(29, 1, 29), (35, 3, 29)],
            },
        ),
        // an insert whose position was made for another operation is not valid at its stamp
        (
            sparse(Kind::ObservedText),
            Row {
                bytes: &[
                    9, 0, 0, 0, 0, 0, 0, 0, 1, 1, 1, 1, 0, 0, 0, 1, 0, 1, 128, 0, 1, 0, 0, 0, 1, 0,
                    0, 0, 97,
                ],
                fields: &[1, 5, 9, 16, 17, 18, 25],
                forged: &[(20, 0, 16), (20, 2, 18), (17, 0, 17)],
            },
        ),
        (
            sparse(Kind::Pair),
            Row {
                bytes: &[9, 0, 0, 0, 0, 0, 0, 0, 5, 0],
                fields: &[1, 9],
                forged: &[(9, 2, 9)],
            },
        ),
        (
            sparse(Kind::Row),
            Row {
                bytes: &[9, 0, 0, 0, 0, 0, 0, 0, 11, 0, 0, 0, 0, 0, 0, 0, 6],
                fields: &[1, 9],
                forged: &[(8, 12, 1), (16, 7, 9)],
            },
        ),
        (
            sparse(Kind::Flag),
            Row {
                bytes: &[9, 1],
                fields: &[1],
                forged: &[(1, 2, 1)],
            },
        ),
        (
            sparse(Kind::Choice),
            Row {
                bytes: &[9, 2],
                fields: &[1],
                forged: &[(1, 3, 1)],
            },
        ),
        (
            sparse(Kind::Table),
            Row {
                bytes: &[9, 1],
                fields: &[1],
                forged: &[(1, 2, 1)],
            },
        ),
        // no text, and one that was set by an operation that the clock covers
        (
            sparse(Kind::Latest),
            Row {
                bytes: &[9, 0],
                fields: &[1],
                forged: &[(1, 2, 1)],
            },
        ),
        (
            sparse(Kind::Latest),
            Row {
                bytes: &[9, 1, 0, 0, 0, 0, 0, 0, 0, 2, 0, 0, 0, 0, 2, 0, 1, 97],
                fields: &[1, 2, 15],
                forged: &[(14, 3, 2), (10, 1, 2), (17, 255, 15)],
            },
        ),
        // two texts by rising key, in both forms of clocks
        (
            sparse(Kind::Several),
            Row {
                bytes: &[
                    9, 0, 0, 0, 2, 0, 1, 0, 0, 0, 0, 1, 0, 1, 97, 1, 1, 1, 0, 0, 0, 1, 0, 1, 98,
                ],
                fields: &[1, 5, 12, 15, 22],
                forged: &[(11, 2, 15), (11, 3, 5), (21, 2, 15), (24, 255, 22)],
            },
        ),
        (
            dense(Kind::Several),
            Row {
                bytes: &[
                    9, 0, 0, 0, 2, 0, 0, 0, 0, 1, 0, 0, 0, 0, 0, 1, 97, 1, 0, 0, 0, 0, 0, 0, 0, 1,
                    0, 1, 98,
                ],
                fields: &[1, 5, 14, 17, 26],
                forged: &[(9, 2, 17), (9, 3, 5), (25, 2, 17), (28, 255, 26)],
            },
        ),
        // two characters by rising position, each made for an operation that the clock covers
        (
            sparse(Kind::Text),
            Row {
                bytes: &[
                    9, 0, 0, 0, 2, 1, 128, 0, 0, 0, 0, 0, 1, 0, 0, 0, 97, 1, 128, 0, 1, 0, 0, 0, 1,
                    0, 0, 0, 98,
                ],
                fields: &[1, 5, 6, 13, 17, 18, 25],
                forged: &[
                    (12, 3, 6),
                    (18, 64, 17),
                    (24, 2, 18),
                    (5, 0, 5),
                    (27, 216, 25),
                ],
            },
        ),
        // two keys that rise by their bytes
        (
            sparse(Kind::Keyed),
            Row {
                bytes: &[
                    9, 0, 0, 0, 2, 0, 1, 97, 0, 0, 0, 0, 0, 0, 0, 1, 0, 1, 98, 0, 0, 0, 0, 0, 0, 0,
                    2,
                ],
                fields: &[1, 5, 8, 16, 19],
                forged: &[(18, 97, 16), (6, 0, 5)],
            },
        ),
        // a character with a mark, whose key the clock need not cover
        (
            sparse(Kind::Rich),
            Row {
                bytes: &[
                    9, 0, 0, 0, 1, 1, 128, 0, 0, 0, 0, 0, 2, 0, 0, 0, 97, 1, 1, 0, 0, 0, 0, 0, 0,
                    0, 9, 1, 0, 0, 0, 9, 1,
                ],
                fields: &[1, 5, 6, 13, 17, 18],
                forged: &[(12, 3, 6), (18, 2, 18), (27, 2, 18), (32, 2, 18)],
            },
        ),
        // the arm alone
        (
            sparse(Kind::Either),
            Row {
                bytes: &[9, 1],
                fields: &[1],
                forged: &[(1, 2, 1)],
            },
        ),
        (
            sparse(Kind::Document),
            Row {
                bytes: &[9, 0, 0, 0, 0, 0, 0, 0, 18],
                fields: &[1],
                forged: &[],
            },
        ),
    ];
    for (state, row) in &rows {
        let bytes = row.bytes;
        assert!(rt; 1 <= bytes.len() && bytes.len() <= 100);
        assert!(rt; is_whole(rt.alloc(), state, row), "{state:?}");
        assert_eq!(rt; not_short(rt.alloc(), state, row), None, "{state:?}");
        for (place, byte, field) in row.forged {
            assert_eq!(rt;
                forged(rt.alloc(), state, bytes, *place, *byte)?,
                Some(WireError::Bad { at: *field }),
                "{byte} at {place} of {state:?}"
            );
        }
    }
    Ok(())
}
