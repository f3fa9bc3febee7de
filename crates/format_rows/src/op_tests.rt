ghost use Rattle.std.specs.Prelude.{◌≤◌, length};

use crate::rows::{Case, Row, forged, is_whole, not_short, on_flag};
use crate::{pair, pair_coder};
use action_tables::TableTower;
use crdt_laws::{Bytes, Tower};
use direct_product::{Pair, Row as Parts};
use doc_codec::{EitherCoder, NUMBER_CODER};
use doc_tower::Either;
use flag_crdts::{Choice, on_wins};
use kind_codec::{
    ChoiceCoder, FixedCoder, LatestCoder, MarkOverCoder, MarkedTextCoder, SeveralCoder,
    TableTowerCoder, TextCoder,
};
use list_crdt::Text;
use map_crdt::Keyed;
use number_crdts::{Number, number, number_mod};
use register_crdts::{Latest, Several};
use reset_products::{Observed, winning};
use rich_text::rich;
use semidirect_product::Maybe;
use std::alloc::Global;
use std::test::*;
use tower_codec::{
    KeyedCoder, MaybeCoder, ObservedCoder, PairCoder, RowCoder, StackCoder, WinResetCoder,
};
use wire_core::{ByteIn, ByteOut, ClockForm, Coder, WireError};

#[derive(Clone, Copy, Debug)]
enum Op {
    Number,
    Hours,
    Maybe,
    Winning,
    Observed,
    Pair,
    Row,
    Flag,
    Choice,
    Table,
    Latest,
    Several,
    Text,
    Keyed,
    Rich,
    Either,
    Document,
}

// Reads the operation that begins at place 1, and gives the place behind it and the bytes that it is written as again.
fn take_and_put<T: Tower, C: Coder<T>>(
    alloc: Global,
    coder: &C,
    tower: &T,
    bytes: &[u8],
) -> Result<(u32, Bytes), WireError>
    requires some { 1 ≤ length bytes.now }
    requires few { length bytes.now ≤ 4294967295 }
{
    let mut from = ByteIn {
        bytes,
        at: 1,
        n: 2,
        form: ClockForm::Sparse,
    };
    let op = coder.take_op(alloc, tower, &mut from)?;
    let mut out = ByteOut {
        bytes: Bytes {
            items: Vec::new(alloc),
        },
        n: 2,
        form: ClockForm::Sparse,
    };
    coder.put_op(tower, &op, &mut out)?;
    Ok((from.at, out.bytes))
}

impl Case for Op {
    fn there_and_back(&self, alloc: Global, bytes: &[u8]) -> Result<(u32, Bytes), WireError> {
        match *self {
            Op::Number => take_and_put(alloc, &NUMBER_CODER, &number(), bytes),
            Op::Hours => take_and_put(alloc, &NUMBER_CODER, &number_mod(12), bytes),
            Op::Maybe => {
                let coder = MaybeCoder { part: NUMBER_CODER };
                take_and_put(alloc, &coder, &Maybe::of(number()), bytes)
            }
            Op::Winning => {
                let coder = StackCoder {
                    low: MaybeCoder { part: NUMBER_CODER },
                    high: WinResetCoder,
                };
                take_and_put(alloc, &coder, &winning(number()), bytes)
            }
            Op::Observed => {
                let coder = ObservedCoder { part: NUMBER_CODER };
                take_and_put(alloc, &coder, &Observed::of(number()), bytes)
            }
            Op::Pair => {
                let coder = PairCoder {
                    left: NUMBER_CODER,
                    right: LatestCoder,
                };
                take_and_put(alloc, &coder, &Pair::of(number(), Latest), bytes)
            }
            Op::Row => {
                let mut parts = Vec::new(alloc);
                parts.push(number())?;
                parts.push(number())?;
                let coder = RowCoder { part: NUMBER_CODER };
                take_and_put(alloc, &coder, &Parts::of(parts), bytes)
            }
            Op::Flag => take_and_put(alloc, &FixedCoder, &on_wins(), bytes),
            Op::Choice => take_and_put(alloc, &ChoiceCoder, &Choice::of(3), bytes),
            Op::Table => take_and_put(alloc, &TableTowerCoder, &on_flag(alloc)?, bytes),
            Op::Latest => take_and_put(alloc, &LatestCoder, &Latest, bytes),
            Op::Several => take_and_put(alloc, &SeveralCoder, &Several, bytes),
            Op::Text => take_and_put(alloc, &TextCoder, &Text, bytes),
            Op::Keyed => {
                let coder = KeyedCoder { part: NUMBER_CODER };
                take_and_put(alloc, &coder, &Keyed::of(number()), bytes)
            }
            Op::Rich => {
                let coder = StackCoder {
                    low: MarkedTextCoder,
                    high: MarkOverCoder,
                };
                take_and_put(alloc, &coder, &rich(2), bytes)
            }
            Op::Either => {
                let coder = EitherCoder {
                    left: NUMBER_CODER,
                    right: LatestCoder,
                };
                let tower: Either<Number, Latest> = Either::Left(number());
                take_and_put(alloc, &coder, &tower, bytes)
            }
            Op::Document => take_and_put(alloc, &pair_coder(), &pair(alloc)?, bytes),
        }
    }
}

// Each operation behind one byte, in a document of two members: it is read and written again; each of its proper prefixes is short
// where its last field begins; and with one byte forged the field there is not allowed.
#[test]
fn operations(rt: HostRuntime) -> Result<(), Fail> {
    let rows = [
        // an addition of 2, and a multiplication by 3
        (
            Op::Number,
            Row {
                bytes: &[9, 0, 0, 0, 0, 0, 0, 0, 0, 2],
                fields: &[1, 2],
                forged: &[(1, 2, 1)],
            },
        ),
        (
            Op::Number,
            Row {
                bytes: &[9, 1, 0, 0, 0, 0, 0, 0, 0, 3],
                fields: &[1, 2],
                forged: &[],
            },
        ),
        // modulo 12
        (
            Op::Hours,
            Row {
                bytes: &[9, 0, 0, 0, 0, 0, 0, 0, 0, 11],
                fields: &[1, 2],
                forged: &[(9, 12, 2), (2, 1, 2)],
            },
        ),
        // nothing of level 2, of two levels
        (
            Op::Maybe,
            Row {
                bytes: &[9, 1, 2],
                fields: &[1, 2],
                forged: &[(1, 2, 1), (2, 0, 2), (2, 3, 2)],
            },
        ),
        // a reset
        (
            Op::Winning,
            Row {
                bytes: &[9, 1],
                fields: &[1],
                forged: &[(1, 2, 1)],
            },
        ),
        (
            Op::Winning,
            Row {
                bytes: &[9, 0, 0, 0, 0, 0, 0, 0, 0, 0, 0, 2],
                fields: &[1, 2, 3, 4],
                forged: &[(2, 2, 2), (3, 2, 3)],
            },
        ),
        (
            Op::Observed,
            Row {
                bytes: &[9, 1],
                fields: &[1],
                forged: &[(1, 2, 1)],
            },
        ),
        (
            Op::Observed,
            Row {
                bytes: &[9, 0, 1, 0, 0, 0, 0, 0, 0, 0, 3],
                fields: &[1, 2, 3],
                forged: &[(2, 2, 2)],
            },
        ),
        // the right side of a pair
        (
            Op::Pair,
            Row {
                bytes: &[9, 1, 0, 1, 97],
                fields: &[1, 2],
                forged: &[(1, 2, 1), (4, 255, 2)],
            },
        ),
        // the second of two parts
        (
            Op::Row,
            Row {
                bytes: &[9, 1, 0, 0, 0, 0, 0, 0, 0, 0, 2],
                fields: &[1, 2, 3],
                forged: &[(1, 2, 1)],
            },
        ),
        // the last operations of a flag, of a choice of three values, and of a table
        (
            Op::Flag,
            Row {
                bytes: &[9, 2],
                fields: &[1],
                forged: &[(1, 3, 1)],
            },
        ),
        (
            Op::Choice,
            Row {
                bytes: &[9, 5],
                fields: &[1],
                forged: &[(1, 6, 1)],
            },
        ),
        (
            Op::Table,
            Row {
                bytes: &[9, 2],
                fields: &[1],
                forged: &[(1, 3, 1)],
            },
        ),
        // a text
        (
            Op::Latest,
            Row {
                bytes: &[9, 0, 1, 97],
                fields: &[1],
                forged: &[(3, 255, 1)],
            },
        ),
        (
            Op::Several,
            Row {
                bytes: &[9, 0, 2, 195, 169],
                fields: &[1],
                forged: &[(4, 40, 1)],
            },
        ),
        // an insert: no position has 0 or 33 steps, a step is of a member of the document, and a surrogate is no character
        (
            Op::Text,
            Row {
                bytes: &[9, 0, 1, 128, 0, 0, 0, 0, 0, 1, 0, 0, 0, 97],
                fields: &[1, 2, 3, 10],
                forged: &[
                    (1, 2, 1),
                    (2, 0, 2),
                    (2, 33, 2),
                    (5, 2, 3),
                    (9, 0, 3),
                    (12, 216, 10),
                ],
            },
        ),
        // a delete, whose position has a pad and a step: a pad is no last step
        (
            Op::Text,
            Row {
                bytes: &[9, 1, 2, 0, 0, 0, 0, 0, 0, 0, 128, 0, 1, 0, 0, 0, 1],
                fields: &[1, 2, 3, 10],
                forged: &[(2, 1, 3), (5, 1, 3), (16, 0, 10)],
            },
        ),
        // a key and an addition: no key has 0 bytes
        (
            Op::Keyed,
            Row {
                bytes: &[9, 0, 1, 107, 0, 0, 0, 0, 0, 0, 0, 0, 2],
                fields: &[1, 4, 5],
                forged: &[(2, 0, 1), (3, 255, 1), (4, 2, 4)],
            },
        ),
        // an insert with both marks, of which the second is off
        (
            Op::Rich,
            Row {
                bytes: &[
                    9, 0, 0, 1, 128, 0, 0, 0, 0, 0, 1, 0, 0, 0, 97, 2, 0, 0, 0, 0, 0, 0, 0, 0, 1,
                    0, 0, 0, 0, 1, 1, 1, 0, 0, 0, 0, 0, 0, 0, 2, 1, 0, 0, 0, 1, 0,
                ],
                fields: &[1, 2, 3, 4, 11, 15, 16, 31],
                forged: &[
                    (2, 2, 2),
                    (16, 2, 16),
                    (25, 2, 16),
                    (29, 0, 16),
                    (30, 2, 16),
                    (31, 0, 31),
                ],
            },
        ),
        // a delete
        (
            Op::Rich,
            Row {
                bytes: &[9, 0, 1, 1, 128, 0, 0, 0, 0, 0, 1],
                fields: &[1, 2, 3, 4],
                forged: &[(10, 0, 4)],
            },
        ),
        // a range
        (
            Op::Rich,
            Row {
                bytes: &[
                    9, 1, 1, 128, 0, 0, 0, 0, 0, 1, 1, 128, 0, 1, 0, 0, 0, 1, 1, 0, 0, 0, 0, 0, 0,
                    0, 2, 1, 0, 0, 0, 1, 1,
                ],
                fields: &[1, 2, 3, 10, 11, 18],
                forged: &[(1, 2, 1), (10, 0, 10), (18, 2, 18), (32, 2, 18)],
            },
        ),
        // the arm alone
        (
            Op::Either,
            Row {
                bytes: &[9, 0, 0, 0, 0, 0, 0, 0, 0, 2],
                fields: &[1, 2],
                forged: &[(1, 2, 1)],
            },
        ),
        // an addition to field 0, nothing of level 1, and the clearing
        (
            Op::Document,
            Row {
                bytes: &[9, 0, 0, 0, 0, 0, 0, 0, 0, 0, 0, 0, 2],
                fields: &[1, 2, 3, 4, 5],
                forged: &[(1, 2, 1), (3, 1, 3), (4, 2, 4)],
            },
        ),
        (
            Op::Document,
            Row {
                bytes: &[9, 0, 1, 1],
                fields: &[1, 2, 3],
                forged: &[(2, 2, 2), (3, 0, 3), (3, 3, 3)],
            },
        ),
        (
            Op::Document,
            Row {
                bytes: &[9, 1],
                fields: &[1],
                forged: &[],
            },
        ),
    ];
    for (op, row) in &rows {
        let bytes = row.bytes;
        assert!(rt; 1 <= bytes.len() && bytes.len() <= 100);
        assert!(rt; is_whole(rt.alloc(), op, row), "{op:?}");
        assert_eq!(rt; not_short(rt.alloc(), op, row), None, "{op:?}");
        for (place, byte, field) in row.forged {
            assert_eq!(rt;
                forged(rt.alloc(), op, bytes, *place, *byte)?,
                Some(WireError::Bad { at: *field }),
                "{byte} at {place} of {op:?}"
            );
        }
    }
    Ok(())
}
