//! The notes of a consumer on all lanes, in the order of time. Each has a mark of two bytes. A second list has a word
//! for each note that needs one: the item of a `Took` note, or a winner's number above 255. Both lists have room from
//! the beginning for one note on each cell of the mailbox, and a consumer never has more notes.
mod marks;

ghost use Rattle.std.specs.Prelude.{◌≡◌, ◌+◌, ◌^◌, ◌<◌, ◌≤◌, ◌++◌, ◌∷◌, ℕ, List, [], IfOk, Some, length, map, take, vec_capacity, vec_len};
ghost use Rattle.std.specs.Option.{option_map_or};
ghost use Rattle.mb_mailbox.specs.LaneNotes.{AreFiled, AreLosses, told, word_at, words_among, words_in};
ghost use Rattle.mb_mailbox.specs.Filling.{with_notes};
ghost use Rattle.mb_mailbox.specs.Steps.{with_note};

use crate::notes::marks::{Mark, PackedMark, marked};
use crate::spare::trim;
use mb_cells::NoMemory;
use mb_world::{Diary, Note};
use std::alloc::Allocator;
use std::marker::Model;

/// How many marks ahead a loss on the same lane is looked for. If there is one, those between are most likely losses
/// there, too. For fewer losses it does not pay to move the diary's list out and back.
const AHEAD: usize = 3;

/// How many items were put on each lane, and on all lanes together.
#[derive(Clone, Copy)]
pub(crate) struct PutCounts {
    pub(crate) lanes: [usize; 16],
    pub(crate) all: usize,
}

/// The notes on this many lanes, in the order of time.
#[derive(Drop)]
pub(crate) struct Notes<A: Allocator + Drop> {
    lanes: u32,
    marks: Vec<PackedMark, A>,
    words: Vec<u64, A>,
}

impl<A: Allocator + Drop> Model for Notes<A> {
    ghost use Rattle.std.specs.Prelude.{min, vec_capacity};
    ghost use Rattle.mb_mailbox.specs.LaneNotes.{AreMarked, NotesView, all_told, by_lane};

    ghost Value = { NotesView };

    ghost view = { λ n. record {
      lists = by_lane n.lanes (all_told n.marks.items n.words.items);
      room = min (vec_capacity n.marks) (vec_capacity n.words);
    } };

    ghost invariant = { λ n. AreMarked n.lanes n.marks.items n.words.items };
}

impl<A: Allocator + Drop> Notes<A> {
    ghost use Rattle.std.specs.Prelude.{◌≡◌, ◌≤◌, Some};
    ghost use Rattle.mb_mailbox.specs.NoteLists.{HasRoom, NotesGrow};

    /// Adds a note on this lane.
    #[inline(always)]
    pub(crate) fn push(&mut self, lane: u32, note: Note)
        requires { HasRoom lane self.old }
        ensures { NotesGrow lane (Some note) self.old self.new }
    {
        // Naming a field makes the invariant known: there are at most 16 lanes.
        let _ = &self.lanes;
        let (mark, word) = marked(lane as u8, note);
        self.marks.push_reserved(mark.pack());
        put_word(&mut self.words, word);
    }

    /// Gives back the room that the notes do not need.
    pub(crate) fn trim(&mut self)
        ensures { self.new.lists ≡ self.old.lists }
    {
        trim(&mut self.marks);
        trim(&mut self.words);
    }

    /// How many notes there are on each lane. The counts are only used to choose how much room to take.
    fn counts(&self) -> [usize; 16] {
        let mut counts = [0usize; 16];
        for mark in self.marks.iter() {
            // There are at most 16 lanes.
            let lane = mark.lane() as usize % 16;
            counts[lane] = counts[lane].wrapping_add(1);
        }
        counts
    }

    /// How much room the notes of each lane need. If all producers were returned and there are as many notes as items,
    /// each item has its note, and the notes need not be counted. No proof rests on these numbers.
    pub(crate) fn rooms(&self, counts: &PutCounts) -> [usize; 16] {
        if self.marks.len() == counts.all {
            counts.lanes
        } else {
            self.counts()
        }
    }
}

impl<A: Allocator + Clone + Drop> Notes<A> {
    ghost use Rattle.std.specs.Prelude.{◌≡◌, ◌≤◌, IfOk, [], length, map};
    ghost use Rattle.mb_mailbox.specs.Filling.{AreEmptyDiaries, with_notes};
    ghost use Rattle.mb_mailbox.specs.NewConsumers.{AreNoNotes};

    /// The notes of a new consumer: none yet on this many lanes, and room for this many.
    pub(crate) fn new(alloc: A, lanes: u32, room: usize) -> Result<Notes<A>, NoMemory>
        requires { lanes ≤ 16 }
        ensures { IfOk result (λ notes. AreNoNotes lanes room notes) }
    {
        let marks = Vec::with_capacity(alloc.clone()?, room)?;
        let words = Vec::with_capacity(alloc, room)?;
        Ok(Notes {
            lanes,
            marks,
            words,
        })
    }

    /// Adds each note to the diary of its lane. `row` has a diary for each lane, in order. None of them has a note yet.
    // It is not inlined, so that its loops have all registers of the processor.
    #[inline(never)]
    pub(crate) fn fill(&self, alloc: A, row: &mut [Diary<A>]) -> Result<(), NoMemory>
        requires { AreEmptyDiaries (length self.now.lists) row.old }
        ensures notes { IfOk result (λ _. map (λ d. d.notes) row.new ≡ self.now.lists) }
        ensures same { IfOk result (λ _. map (with_notes []) row.new
            ≡ map (with_notes []) row.old) }
    {
        let marks = self.marks.as_slice();
        let words = self.words.as_slice();
        let mut read = 0;
        let mut at = 0;
        while at < marks.len() {
            at = file_singly(row, marks, at, words, &mut read)?;
            at = file_losses(row, marks, at, &alloc);
        }
        Ok(())
    }
}

/// Adds a word, if there is one.
#[inline(always)]
fn put_word<A: Allocator + Drop>(words: &mut Vec<u64, A>, word: Option<u64>)
    requires { vec_len words.old < vec_capacity words.old }
    ensures items { words.new.items ≡ words.old.items ++ option_map_or (λ w. w ∷ []) word [] }
    ensures room { vec_capacity words.new ≡ vec_capacity words.old }
{
    if let Some(word) = word {
        words.push_reserved(word);
    }
}

/// The next word to be read, or 0 past the last. `read` counts the words read, also past the last.
#[inline(always)]
fn next_word(words: &[u64], read: &mut usize) -> u64
    requires { read.old + 1 < 2 ^ 64 }
    ensures word { result ≡ word_at words.now read.old }
    ensures read { read.new ≡ read.old + 1 }
{
    let at = *read;
    *read = at + 1;
    match words.get(at) {
        Some(word) => *word,
        None => 0,
    }
}

/// Adds the note of a mark to the diary of its lane, and reads its word if it needs one. Each arm adds its note by a
/// call of its own, so that the kind is tested only once.
#[inline(always)]
fn file_mark<A: Allocator + Drop>(
    row: &mut [Diary<A>],
    mark: Mark,
    words: &[u64],
    read: &mut usize,
) -> Result<(), NoMemory>
    requires { read.old + 1 < 2 ^ 64 }
    ensures notes { IfOk result (λ _. map (λ d. d.notes) row.new
        ≡ with_note (told mark (word_at words.now read.old)).lane
        (Some (told mark (word_at words.now read.old)).note)
        (map (λ d. d.notes) row.old)) }
    ensures same { IfOk result (λ _. map (with_notes []) row.new ≡ map (with_notes []) row.old) }
    ensures read { read.new ≡ read.old + words_in mark }
{
    match mark {
        Mark::Took { lane } => file(row, lane, Note::Took(next_word(words, read))),
        Mark::Lost { lane, to } => file(row, lane, Note::Lost(to as u32)),
        Mark::LostFar { lane } => {
            let word = next_word(words, read);
            let to = if word < 1 << 32 { word as u32 } else { 0 };
            file(row, lane, Note::Lost(to))
        }
        Mark::Undecided { lane } => file(row, lane, Note::Undecided),
    }
}

/// Adds a note to the diary of its lane, if that lane has one.
#[inline(always)]
fn file<A: Allocator + Drop>(row: &mut [Diary<A>], lane: u8, note: Note) -> Result<(), NoMemory>
    ensures notes { IfOk result (λ _. map (λ d. d.notes) row.new
        ≡ with_note lane (Some note) (map (λ d. d.notes) row.old)) }
    ensures same { IfOk result (λ _. map (with_notes []) row.new ≡ map (with_notes []) row.old) }
{
    let lane = lane as usize;
    if lane < row.len() {
        add_note(&mut row[lane], note)?;
    }
    Ok(())
}

/// Adds a note to a diary.
#[inline(always)]
fn add_note<A: Allocator + Drop>(diary: &mut Diary<A>, note: Note) -> Result<(), NoMemory>
    ensures { IfOk result (λ _. diary.new ≡ with_notes (diary.old.notes ++ note ∷ []) diary.old) }
{
    diary.notes.push(note)?;
    Ok(())
}

/// Adds the notes of the marks from this place on, up to one after which losses on its lane may follow. Returns the
/// place of the next mark.
#[inline(always)]
fn file_singly<A: Allocator + Drop>(
    row: &mut [Diary<A>],
    marks: &[PackedMark],
    from: usize,
    words: &[u64],
    read: &mut usize,
) -> Result<usize, NoMemory>
    requires filed { AreFiled marks.now words.now from row.old }
    requires read { read.old ≡ words_among (take from marks.now) }
    ensures filed { IfOk result (λ k. AreFiled marks.now words.now k row.new) }
    ensures read { IfOk result (λ k. read.new ≡ words_among (take k marks.now)) }
    ensures same { IfOk result (λ _. map (with_notes []) row.new ≡ map (with_notes []) row.old) }
    ensures further { IfOk result (λ k. from < length marks.now → from < k) }
{
    let mut at = from;
    while at < marks.len() {
        let mark = &marks[at];
        file_mark(row, mark.mark(), words, read)?;
        at += 1;
        if is_run(mark.lane(), marks, at) {
            break;
        }
    }
    Ok(at)
}

/// Whether the mark [`AHEAD`] places on is a loss on this lane. This only guesses whether the marks between are, too.
#[inline(always)]
fn is_run(lane: u8, marks: &[PackedMark], from: usize) -> bool {
    match marks.get(from.wrapping_add(AHEAD)) {
        Some(mark) => mark.is_loss_on(lane),
        None => false,
    }
}

/// Adds the notes of the marks from this place on, as long as they are losses on one lane and its list has room.
/// Returns the place of the next mark. The clauses hold for any words, since these marks need none.
#[inline(always)]
fn file_losses<A: Allocator + Clone + Drop>(
    row: &mut [Diary<A>],
    marks: &[PackedMark],
    from: usize,
    alloc: &A,
) -> usize
    requires { (ws : List ℕ) × AreFiled marks.now ws from row.old }
    ensures filed { (ws : List ℕ) → AreFiled marks.now ws from row.old
        → AreFiled marks.now ws result row.new }
    ensures read { words_among (take result marks.now) ≡ words_among (take from marks.now) }
    ensures same { map (with_notes []) row.new ≡ map (with_notes []) row.old }
    ensures since { from ≤ result }
{
    let Some(mark) = marks.get(from) else {
        return from;
    };
    let Mark::Lost { lane, to: _ } = mark.mark() else {
        return from;
    };
    if lane as usize >= row.len() {
        return from;
    }
    // Without a copy of the allocator the notes are added one by one.
    let Ok(alloc) = alloc.clone() else {
        return from;
    };
    add_losses(&mut row[lane as usize], lane, marks, from, alloc)
}

/// Adds the notes of the marks from this place on to a diary, as long as they are losses on this lane and its list has
/// room. Returns the place of the next mark.
#[inline(always)]
fn add_losses<A: Allocator + Drop>(
    diary: &mut Diary<A>,
    lane: u8,
    marks: &[PackedMark],
    from: usize,
    alloc: A,
) -> usize
    requires from { from ≤ length marks.now }
    requires few { length diary.old.notes ≤ from }
    ensures losses { AreLosses lane from result marks.now diary.old.notes diary.new.notes }
    ensures same { with_notes [] diary.new ≡ with_notes [] diary.old }
{
    // The list is moved out, so that its length and its address are in registers of the processor meanwhile.
    let mut list = std::mem::replace(&mut diary.notes, Vec::new(alloc));
    let next = losses(&mut list, lane, marks, from);
    diary.notes = list;
    next
}

/// Adds the notes of the marks from this place on, as long as they are losses on this lane and the list has room.
/// Returns the place of the next mark.
#[inline(always)]
fn losses<A: Allocator + Drop>(
    list: &mut Vec<Note, A>,
    lane: u8,
    marks: &[PackedMark],
    from: usize,
) -> usize
    requires from { from ≤ length marks.now }
    requires few { vec_len list.old ≤ from }
    ensures { AreLosses lane from result marks.now list.old.items list.new.items }
{
    let room = list.capacity() - list.len();
    let most = room.min(marks.len() - from);
    // A mark's place among the marks, less its note's place in this list.
    let ahead = from - list.len();
    let full = list.len() + most;
    while list.len() < full {
        let Mark::Lost { lane: of, to } = marks[list.len() + ahead].mark() else {
            break;
        };
        if of != lane {
            break;
        }
        list.push_reserved(Note::Lost(to as u32));
    }
    list.len() + ahead
}
