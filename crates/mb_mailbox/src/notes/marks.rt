//! The marks of a consumer's notes. Each is stored in two bytes.
ghost use Rattle.std.specs.Prelude.{◌≡◌, ◌<◌};
ghost use Rattle.std.specs.Option.{option_map_or};
ghost use Rattle.mb_mailbox.specs.LaneNotes.{noted, told, words_in};

use mb_world::Note;
use std::marker::Model;

/// The kind of a note and its lane. For some kinds the list of words has a word, too.
#[derive(Clone, Copy)]
pub(crate) enum Mark {
    /// The item is the next of the words.
    Took { lane: u8 },
    Lost { lane: u8, to: u8 },
    /// The winner's number is the next of the words, since it has more than eight bits.
    LostFar { lane: u8 },
    Undecided { lane: u8 },
}

/// A mark in two bytes. `head` is the lane, plus 16 for `Lost`, 32 for `LostFar` and 48 for `Undecided`. `next` is one
/// more than the winner of a `Lost` mark, modulo 256. In other marks `next` is 0.
// One store writes both bytes. A take computes `head`, the upper byte, before its loop. `next` is the byte that the
// exchange found.
#[derive(Drop)]
pub(crate) struct PackedMark {
    next: u8,
    head: u8,
}

const _: () = prove!(size_of::<PackedMark>() == 2);

impl Model for PackedMark {
    ghost use Rattle.mb_mailbox.specs.LaneNotes.{unpacked};
    ghost use Rattle.mb_mailbox.specs.declared.notes.marks.Mark.{Mark};

    ghost Value = { Mark };

    ghost view = { λ p. unpacked p.head p.next };
}

/// The mark of a note on this lane, and its word if it needs one.
#[inline(always)]
pub(crate) fn marked(lane: u8, note: Note) -> (Mark, Option<u64>)
    ensures word { words_in result.0 ≡ option_map_or (λ w. 1) result.1 0 }
    ensures told { told result.0 (option_map_or (λ w. w) result.1 0) ≡ noted lane note }
{
    match note {
        Note::Took(item) => (Mark::Took { lane }, Some(item)),
        Note::Lost(to) if to < 256 => (Mark::Lost { lane, to: to as u8 }, None),
        Note::Lost(to) => (Mark::LostFar { lane }, Some(to as u64)),
        Note::Undecided => (Mark::Undecided { lane }, None),
    }
}

impl Mark {
    /// This mark in two bytes.
    #[inline(always)]
    pub(crate) fn pack(self) -> PackedMark
        requires { (told self 0).lane < 16 }
        ensures { result ≡ self }
    {
        let (head, next) = match self {
            Mark::Took { lane } => (lane, 0),
            Mark::Lost { lane, to } => (16 + lane, to.wrapping_add(1)),
            Mark::LostFar { lane } => (32 + lane, 0),
            Mark::Undecided { lane } => (48 + lane, 0),
        };
        PackedMark { head, next }
    }
}

impl PackedMark {
    /// The mark of these two bytes.
    #[inline(always)]
    pub(crate) fn mark(&self) -> Mark
        ensures { result ≡ self.now }
    {
        let head = self.head;
        if head < 16 {
            Mark::Took { lane: head }
        } else if head < 32 {
            Mark::Lost {
                lane: head - 16,
                to: self.next.wrapping_sub(1),
            }
        } else if head < 48 {
            Mark::LostFar { lane: head - 32 }
        } else {
            Mark::Undecided { lane: head - 48 }
        }
    }

    /// The lane of the note, one of 16.
    pub(crate) fn lane(&self) -> u8 {
        self.head % 16
    }

    /// Whether this is a loss on this lane, one of 16, and needs no word.
    pub(crate) fn is_loss_on(&self, lane: u8) -> bool {
        self.head == 16 + lane % 16
    }
}
