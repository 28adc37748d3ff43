//! The flags of a list or a definition list.

ghost use Rattle.std.specs.Prelude.{⊤, [], ◌∷◌, codes};

use bitflags::{Flag, Flags};

/// The flags of a list or a definition list. The calls of `bitflags::Flags`, for example `union` and `contains`, make and read them.
#[derive(Clone, Copy, PartialEq, Eq)]
pub struct ListFlags(u8);

impl ListFlags {
    /// No blank line separates two of its items, or two blocks of an item (CommonMark 5.3).
    pub const IS_TIGHT: ListFlags = ListFlags(1);
    /// The last line that was read is blank.
    pub const LAST_LINE_EMPTY: ListFlags = ListFlags(2);
}

/// The flags with their names.
const NAMED: [Flag<ListFlags>; 2] = [
    Flag {
        name: "IS_TIGHT",
        value: ListFlags::IS_TIGHT,
    },
    Flag {
        name: "LAST_LINE_EMPTY",
        value: ListFlags::LAST_LINE_EMPTY,
    },
];

impl Flags for ListFlags {
    type Bits = u8;

    ghost exact = { ⊤ };

    ghost table = { (codes "IS_TIGHT", 1) ∷
        (codes "LAST_LINE_EMPTY", 2) ∷
        [] };

    ghost set_of = { λ flags. flags.0 };

    fn flags<'a>() -> &'a [Flag<ListFlags>] {
        &NAMED
    }

    fn bits(&self) -> u8 {
        self.0
    }

    fn from_bits_retain(bits: u8) -> ListFlags {
        ListFlags(bits)
    }
}
