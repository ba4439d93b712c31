//! The deciding objects that each cell has, and where their words lie.
ghost use Rattle.std.specs.Prelude.{◌≡◌, ◌<◌, ◌≤◌, ◌+◌, ◌*◌, ℕ, length, slice_get, slice_index};
ghost use Rattle.mb_quorum.specs.Vocabulary.{chosen_table};
ghost use Rattle.mb_deciding.specs.Vocabulary.{spread};
ghost use Rattle.mb_claim.specs.Rows.{last_row, row_of, words_before, row_words};
ghost use Rattle.mb_claim.specs.declared.layout.TheConstants.{MAX_PAIRS};

use crate::shape::Shape;
use crate::steps::addresses_are_apart;
use mb_deciding::{Kind, Reg, Site, spread};
use mb_quorum::{Quorums, Table, TableName};
use std::error::Error;
use std::fmt;

/// The most pairs that a layout can have. The least is 1, but for [`Layout::exchange`].
pub const MAX_PAIRS: u64 = 8;

/// The most cells of a setup that is not large, such as a script's. Layouts do not depend on this limit.
pub const MAX_CELLS: u32 = 256;

/// The most cells whose words can be addressed, as in a large setup: 2^24.
pub const MAX_LARGE_CELLS: u32 = 16_777_216;

/// The most objects of a cell: `MAX_PAIRS` pairs, a fast path of two ratifiers and a last object.
const MAX_OBJECTS: usize = 2 * MAX_PAIRS as usize + 3;

/// The deciding objects that each cell has: pairs of a conciliator and a ratifier, and what its [`Shape`] adds to them.
/// The objects share a quorum table with a value for each consumer. A layout keeps the row of objects and where each
/// one's words begin, so it has some 1,300 bytes. It is not `Copy`, and a copy has to be asked for: [`Layout::copy`].
#[derive(PartialEq, Eq, Debug, Drop)]
pub struct Layout {
    pub(crate) table: Table,
    pairs: u32,
    shape: Shape,
    objects: u32,
    kinds: [Kind; MAX_OBJECTS],
    begins: [u32; MAX_OBJECTS],
    cell_size: u32,
    pub ghost some: { 1 ≤ pairs + length (last_row shape.last) },
    pub ghost few: { pairs ≤ MAX_PAIRS },
    pub ghost counted: { objects ≡ length (row_of shape (spread (chosen_table table).values) pairs) },
    pub ghost row: { (o : ℕ) → o < objects
        → slice_get (row_of shape (spread (chosen_table table).values) pairs) o ≡ slice_get kinds o },
    pub ghost begin: { (o : ℕ) → o < objects → slice_index begins o ≡ words_before
        (chosen_table table).registers (row_of shape (spread (chosen_table table).values) pairs) o },
    pub ghost size: { cell_size ≡ row_words
        (chosen_table table).registers (row_of shape (spread (chosen_table table).values) pairs) },
}

/// Why there is no layout.
#[derive(Clone, Copy, PartialEq, Eq, Debug)]
pub enum BadLayout {
    /// The number of consumers is 0 or above `MAX_VALUES`, which is 64.
    BadConsumers,
    /// The number of pairs is 0 or above `MAX_PAIRS`, which is 8.
    BadRounds,
}

impl fmt::Display for BadLayout {
    fn fmt<W: fmt::Write>(&self, f: &mut fmt::Formatter<W>) -> fmt::Result {
        f.write_str(match self {
            BadLayout::BadConsumers => "the number of consumers is out of range",
            BadLayout::BadRounds => "the number of pairs is out of range",
        })
    }
}

impl Error for BadLayout {}

impl Layout {
    ghost use Rattle.std.specs.Prelude.{◌≡◌, ◌↔◌, ◌<◌, ◌≤◌, ◌+◌, ◌*◌, ◌^◌, ℕ, true, [], ◌∷◌, length, slice_get, Some};
    ghost use Rattle.std.specs.Prelude.{IsOk, IfOk, IfSome, Err, MatchOption};
    ghost use Rattle.mb_quorum.specs.Tables.{table_of};
    ghost use Rattle.mb_deciding.specs.Course.{IsFitKind};
    ghost use Rattle.mb_deciding.specs.Vocabulary.{spread};
    ghost use Rattle.mb_claim.specs.{Reg, width, quorums_of, kinds_of, pairs_of, row_of, plain, pair_count, shape_of, offset};
    ghost use Rattle.mb_claim.specs.{consumer_count, cell_words, word_address, IsWordInLayout, most_accesses, layout_refusal, site_of};
    ghost use Rattle.mb_claim.specs.{LastObject, last_row, with_last};
    ghost use Rattle.mb_quorum.specs.declared.table.TableName.TheVariants.{Bits};
    ghost use Rattle.mb_claim.specs.declared.layout.TheConstants.{MAX_LARGE_CELLS, MAX_OBJECTS};

    /// The layout for `consumers` consumers, with `pairs` pairs of objects and nothing beside them, over the quorum
    /// table of this name. The error is `BadConsumers` if the number of consumers is not in `1..=MAX_VALUES`, and else
    /// `BadRounds` if the number of pairs is not in `1..=MAX_PAIRS`.
    pub fn new(consumers: u64, pairs: u64, name: TableName) -> Result<Layout, BadLayout>
        ensures refused { MatchOption (layout_refusal consumers pairs) (IsOk result)
            (λ fault. result ≡ Err fault) }
        ensures quorums { IfOk result (λ layout. quorums_of layout ≡ table_of name consumers) }
        ensures pairs { IfOk result (λ layout. pair_count layout ≡ pairs) }
        ensures kinds { IfOk result
            (λ layout. kinds_of layout ≡ pairs_of (spread consumers) pairs) }
        ensures shape { IfOk result (λ layout. shape_of layout ≡ plain) }
        ensures some { IfOk result (λ layout. 1 ≤ pair_count layout) }
    {
        let Ok(table) = Table::new(name, consumers) else {
            return Err(BadLayout::BadConsumers);
        };
        if !(1..=MAX_PAIRS).contains(&pairs) {
            return Err(BadLayout::BadRounds);
        }
        Ok(Layout::of(table, pairs as u32, Shape::PLAIN))
    }

    /// The layout for `consumers` consumers whose cells have a last object alone. So a claim is one exchange. The error
    /// is `BadConsumers` if the number of consumers is not in `1..=MAX_VALUES`, as of a layout with one pair.
    pub fn exchange(consumers: u64) -> Result<Layout, BadLayout>
        ensures refused { MatchOption (layout_refusal consumers 1) (IsOk result)
            (λ fault. result ≡ Err fault) }
        ensures quorums { IfOk result (λ layout. quorums_of layout ≡ table_of Bits consumers) }
        ensures pairs { IfOk result (λ layout. pair_count layout ≡ 0) }
        ensures kinds { IfOk result (λ layout. kinds_of layout ≡ LastObject ∷ []) }
        ensures bound { IfOk result (λ layout. most_accesses layout ≡ 1) }
        ensures shape { IfOk result (λ layout. shape_of layout ≡ with_last) }
    {
        match Table::new(TableName::Bits, consumers) {
            Ok(table) => Ok(Layout::of(table, 0, Shape::LAST)),
            Err(_) => Err(BadLayout::BadConsumers),
        }
    }

    /// The layout with this table, these pairs and this shape. It computes the row, and where each object begins.
    fn of(table: Table, pairs: u32, shape: Shape) -> Layout
        requires some { 1 ≤ pairs + length (last_row shape.last) }
        requires few { pairs ≤ MAX_PAIRS }
        ensures quorums { quorums_of result ≡ chosen_table table }
        ensures pairs { pair_count result ≡ pairs }
        ensures shape { shape_of result ≡ shape }
    {
        let last_turn = spread(u64::from(table.values()));
        let registers = table.registers();
        let objects = Layout::objects_of(shape, pairs);
        let mut kinds = [Kind::Ratifier; MAX_OBJECTS];
        let mut begins = [0; MAX_OBJECTS];
        let mut cell_size = 0;
        for object in 0..objects {
            let kind = Layout::kind_in_row(shape, pairs, last_turn, object);
            kinds[object as usize] = kind;
            begins[object as usize] = cell_size;
            cell_size += Layout::width(registers, kind);
        }
        Layout {
            table,
            pairs,
            shape,
            objects,
            kinds,
            begins,
            cell_size,
        }
    }

    /// The layout with the same table and pairs, and with this shape in place of its own. Without pairs it keeps its
    /// last object, so that a cell has an object.
    pub fn shaped(&self, shape: Shape) -> Layout
        ensures quorums { quorums_of result ≡ quorums_of self.now }
        ensures pairs { pair_count result ≡ pair_count self.now }
        ensures shape { 1 ≤ pair_count self.now → shape_of result ≡ shape }
        ensures alone { pair_count self.now ≡ 0
            → shape_of result ≡ record { fast = shape.fast; last = true } }
    {
        let shape = if self.pairs == 0 {
            Shape {
                fast: shape.fast,
                last: true,
            }
        } else {
            shape
        };
        Layout::of(self.table.copy(), self.pairs, shape)
    }

    /// What the layout's cells have beside their pairs.
    pub fn shape(&self) -> Shape
        ensures { result ≡ shape_of self.now }
    {
        self.shape
    }

    /// A copy of the layout.
    pub fn copy(&self) -> Layout
        ensures { result ≡ self.now }
    {
        Layout {
            table: self.table.copy(),
            pairs: self.pairs,
            shape: self.shape,
            objects: self.objects,
            kinds: self.kinds,
            begins: self.begins,
            cell_size: self.cell_size,
        }
    }

    /// How many objects a row of this shape has. Only this function and the next say which objects these are.
    fn objects_of(shape: Shape, pairs: u32) -> u32
        requires { pairs ≤ MAX_PAIRS }
        ensures { (s : ℕ) → result ≡ length (row_of shape s pairs) }
    {
        shape.before() + 2 * pairs + shape.after()
    }

    /// The kind of an object of the row, which is one of the fast path, one of a pair, or the last object.
    fn kind_in_row(shape: Shape, pairs: u32, last_turn: u32, object: u32) -> Kind
        requires few { pairs ≤ MAX_PAIRS }
        requires within { object < length (row_of shape last_turn pairs) }
        ensures { slice_get (row_of shape last_turn pairs) object ≡ Some result }
    {
        let before = shape.before();
        if object < before {
            return Kind::Ratifier;
        }
        let place = object - before;
        if place == 2 * pairs {
            Kind::LastObject
        } else if place % 2 == 0 {
            Kind::Conciliator { s: last_turn }
        } else {
            Kind::Ratifier
        }
    }

    /// How many words an object of this kind has, with `registers` quorum registers.
    fn width(registers: u32, kind: Kind) -> u32
        requires { registers ≤ 64 }
        ensures { result ≡ width registers kind }
    {
        match kind {
            Kind::Conciliator { .. } => 1,
            Kind::Ratifier => 1 + registers,
            Kind::LastObject => 1,
        }
    }

    /// How many consumers there are. Their numbers count from 0.
    pub fn consumers(&self) -> u32
        ensures { result ≡ consumer_count self.now }
    {
        self.table.values()
    }

    /// How many words `cells` cells have. It needs at most 2^24 cells.
    pub fn words(&self, cells: u32) -> usize
        requires { cells ≤ MAX_LARGE_CELLS }
        ensures exact { result ≡ cells * cell_words self.now }
        ensures within { (k o : ℕ) (reg : Reg) → IsWordInLayout self.now o reg → k < cells
            → word_address self.now k o reg < result }
    {
        addresses_are_apart();
        cells as usize * self.words_of_cell()
    }

    /// Where this word of the object of the cell lies, counted in words from the first word of cell 0. It needs a cell
    /// below 2^24, and a word that the object has.
    #[inline(always)]
    pub fn address(&self, cell: u32, object: u32, reg: Reg) -> usize
        requires cell { cell < MAX_LARGE_CELLS }
        requires word { IsWordInLayout self.now object reg }
        ensures exact { result ≡ word_address self.now cell object reg }

        // No other word has this address.
        ensures apart { (k o : ℕ) (other : Reg) → IsWordInLayout self.now o other
            → word_address self.now k o other ≡ result
            → (k ≡ cell) × (o ≡ object) × (other ≡ reg) }
    {
        addresses_are_apart();
        let begin = self.begins[object as usize];
        cell as usize * self.words_of_cell() + (begin + Layout::place_in_object(reg)) as usize
    }

    /// Where the words of the cell begin, counted as in [`Layout::address`]. It needs a cell below 2^24.
    #[inline(always)]
    pub fn begin(&self, cell: u32) -> usize
        requires { cell < MAX_LARGE_CELLS }
        ensures exact { result ≡ cell * cell_words self.now }

        // The positions of the cell's words are below 2^64.
        ensures room { result + cell_words self.now < 2 ^ 64 }
    {
        let words = self.words_of_cell();
        cell as usize * words
    }

    /// The site of an object, on a cell whose words begin at `begin`.
    #[inline(always)]
    pub(crate) fn site(&self, begin: usize, object: u32) -> Site
        requires object { object < length (kinds_of self.now) }
        requires begin { begin + cell_words self.now < 2 ^ 64 }
        ensures { result ≡ site_of self.now begin object }
    {
        Site {
            object,
            begin: begin + self.begins[object as usize] as usize,
        }
    }

    /// The most accesses that a claim can make.
    pub fn max_steps(&self) -> u64
        ensures { result ≡ most_accesses self.now }
    {
        let mut write = 0;
        let mut read = 0;
        for consumer in 0..self.consumers() {
            write = self.table.write_quorum(consumer).count_ones().max(write);
            read = self.table.read_quorum(consumer).count_ones().max(read);
        }
        let mut steps = 0;
        for object in 0..self.objects {
            steps += match self.kind_of(object) {
                Kind::Conciliator { s } => u64::from(s) + 3,
                Kind::Ratifier => u64::from(write + 2 + read),
                Kind::LastObject => 1,
            };
        }
        steps
    }

    /// The kind of an object, or none if the cells have no such object.
    pub(crate) fn kind(&self, object: u32) -> Option<Kind>
        ensures exact { result ≡ slice_get (kinds_of self.now) object }
        ensures fit { IfSome result IsFitKind }
    {
        if object < self.objects {
            Some(self.kind_of(object))
        } else {
            None
        }
    }

    /// The kind of an object that each cell has.
    pub(crate) fn kind_of(&self, object: u32) -> Kind
        requires { object < length (kinds_of self.now) }
        ensures exact { slice_get (kinds_of self.now) object ≡ Some result }
        ensures fit { IsFitKind result }
    {
        self.kinds[object as usize]
    }

    /// How many objects each cell has.
    #[inline(always)]
    pub(crate) fn objects(&self) -> u32
        ensures { result ≡ length (kinds_of self.now) }
    {
        self.objects
    }

    /// Whether each cell has a last object alone.
    #[inline(always)]
    pub fn is_alone(&self) -> bool
        ensures { (result ≡ true) ↔ (kinds_of self.now ≡ LastObject ∷ []) }
    {
        if self.objects == 1 { true } else { false }
    }

    /// How many words each cell has.
    #[inline(always)]
    fn words_of_cell(&self) -> usize
        ensures small { result ≤ 65 * MAX_OBJECTS }
        ensures exact { result ≡ cell_words self.now }
    {
        self.cell_size as usize
    }

    /// Where a word lies within its object, counted from the object's first word. It needs a register below 2^32 - 1.
    #[inline(always)]
    pub fn place_in_object(reg: Reg) -> u32
        requires { offset reg < 2 ^ 32 }
        ensures { result ≡ offset reg }
    {
        match reg {
            Reg::Value | Reg::Proposal | Reg::Last => 0,
            Reg::Quorum(register) => 1 + register,
        }
    }
}
