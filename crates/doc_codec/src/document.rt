use crate::either::EitherCoder;
use crate::kind::{KIND_CODER, KindsCoder};
use tower_codec::{MaybeCoder, ObservedCoder, RowCoder, StackCoder, WinResetCoder};

/// The coder of a tower with resets that win over what they did not know of: a tag, and the operation, of which some do nothing.
pub type WinningCoder<C> = StackCoder<MaybeCoder<C>, WinResetCoder>;

/// The coder of fields: without a reset, with a winning one, or with an observed one.
pub type FieldCoder = EitherCoder<
    KindsCoder,
    EitherCoder<WinningCoder<KindsCoder>, ObservedCoder<KindsCoder>>,
>;

/// The coder of the fields of a document, which can all be cleared at once.
pub type FieldsCoder = WinningCoder<RowCoder<FieldCoder>>;

/// The coder of the fields of a document.
pub const FIELDS_CODER: FieldsCoder = StackCoder {
    low: MaybeCoder {
        part: RowCoder {
            part: EitherCoder {
                left: KIND_CODER,
                right: EitherCoder {
                    left: StackCoder {
                        low: MaybeCoder { part: KIND_CODER },
                        high: WinResetCoder,
                    },
                    right: ObservedCoder { part: KIND_CODER },
                },
            },
        },
    },
    high: WinResetCoder,
};
