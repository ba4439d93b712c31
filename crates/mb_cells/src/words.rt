//! The memory of a pool under one caller.
ghost use Rattle.std.specs.Prelude.{◌≡◌, ◌<◌, ◌^◌, length};
ghost use Rattle.mb_cells.specs.{HasWord, words_with, word_in};

use crate::access::Word;
use std::alloc::Allocator;
use std::marker::Model;

/// The words of a pool.
#[derive(Drop)]
pub struct PoolMemory<A: Allocator + Drop> {
    /// The counter: how many fetch-adds were made for cells.
    pub counter: u64,
    /// The head of each lane.
    pub heads: Vec<u64, A>,
    /// The link of each cell.
    pub links: Vec<u64, A>,
    /// The item of each cell.
    pub items: Vec<u64, A>,
}

impl<A: Allocator + Drop> Model for PoolMemory<A> {
    ghost use Rattle.mb_cells.specs.{PoolWords};

    ghost Value = { PoolWords };

    ghost view = { λ w. record {
      counter = w.counter;
      heads = w.heads.items;
      links = w.links.items;
      items = w.items.items;
    } };
}

impl<A: Allocator + Drop> PoolMemory<A> {
    /// How many cells the pool has.
    pub fn cells(&self) -> u32
        requires { length self.now.items < 2 ^ 32 }
        ensures { result ≡ length self.now.items }
    {
        self.items.len() as u32
    }

    /// What the word holds.
    pub fn load(&self, word: Word) -> u64
        requires { HasWord word self.now }
        ensures { result ≡ word_in word self.now }
    {
        match word {
            Word::Counter => self.counter,
            Word::Head(p) => self.heads[p as usize],
            Word::Link(k) => self.links[k as usize],
            Word::Item(k) => self.items[k as usize],
        }
    }

    /// Stores the value in the word, and leaves all others as they are.
    pub fn store(&mut self, word: Word, value: u64)
        requires { HasWord word self.old }
        ensures { self.new ≡ words_with word value self.old }
    {
        match word {
            Word::Counter => self.counter = value,
            Word::Head(p) => self.heads[p as usize] = value,
            Word::Link(k) => self.links[k as usize] = value,
            Word::Item(k) => self.items[k as usize] = value,
        }
    }
}
