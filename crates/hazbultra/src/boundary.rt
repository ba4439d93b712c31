//! The structs that C and Rattle share. Their fields are in the order of `bindings/c/hazbultra.h`.
use crate::codes::{LOST, TOOK, UNDECIDED};
use mb_world::Note;

/// How large a mailbox is, and which objects each cell has.
#[repr(C)]
#[derive(Clone, Copy)]
pub struct SetupIn {
    /// How many producers: 1 to 16.
    pub producers: u64,
    /// How many consumers: 1 to 64.
    pub consumers: u64,
    /// How many cells: 0 to 2^24.
    pub cells: u64,
    /// How many pairs each cell has: 1 to 8. With 0, `last` and no `fast` each claim is one exchange.
    pub pairs: u64,
    /// The number of a quorum table: unary 0, bits 1, middle 2. If each claim is one exchange, all three mean the same.
    pub table: u32,
    /// Whether two ratifiers come first on each cell.
    pub fast: bool,
    /// Whether an object that always decides comes last on each cell.
    pub last: bool,
}

/// What C reads of one lane of a report, beside the items themselves.
#[repr(C)]
#[derive(Clone, Copy)]
pub struct LaneOut {
    /// How many items were put.
    pub put: u64,
    /// How many of the items put nobody took.
    pub left: u64,
    /// Whether the end mark was stored.
    pub ended: bool,
}

/// What C reads of one diary of a report, beside the notes themselves.
#[repr(C)]
#[derive(Clone, Copy)]
pub struct DiaryOut {
    /// How many notes there are.
    pub notes: u64,
    /// Whether the consumer's claim on the next item, which has no note yet, has made an access.
    pub begun: bool,
}

/// A note: its kind, and the item that was taken or the consumer to which it is lost.
#[repr(C)]
#[derive(Clone, Copy)]
pub struct NoteOut {
    /// The item that was taken, or the consumer to which it is lost, or 0.
    pub value: u64,
    /// The number of the kind: took 1, lost 2, undecided 3.
    pub kind: u32,
}

/// How many producers and consumers were not returned.
#[repr(C)]
#[derive(Clone, Copy)]
pub struct MissingOut {
    pub producers: u32,
    pub consumers: u32,
}

// A note becomes its kind and its value, as C has them.
impl From<Note> for NoteOut {
    ghost use Rattle.std.specs.Prelude.{◌≡◌};
    ghost use Rattle.hazbultra.specs.Reports.{note_out};

    ghost from_gives = { λ note out. out ≡ note_out note };

    fn from(note: Note) -> NoteOut {
        match note {
            Note::Took(item) => NoteOut {
                value: item,
                kind: TOOK,
            },
            Note::Lost(other) => NoteOut {
                value: u64::from(other),
                kind: LOST,
            },
            Note::Undecided => NoteOut {
                value: 0,
                kind: UNDECIDED,
            },
        }
    }
}
