//! Lists of numbers, each number in one of them at most.

use std::alloc::{AllocError, Global};
use tx_chains::put_at;

/// Lists, each by its number, of numbers below another: what is put in last comes first.
#[derive(Drop)]
pub struct Lists {
    first: Vec<Option<u32>>,
    next: Vec<Option<u32>>,
}

impl Lists {
    /// So many empty lists, of numbers below another.
    pub fn new(alloc: Global, lists: usize, numbers: usize) -> Result<Lists, AllocError> {
        Ok(Lists {
            first: vec![in alloc; None; lists]?,
            next: vec![in alloc; None; numbers]?,
        })
    }

    /// The first number of a list.
    pub fn first(&self, list: usize) -> Option<u32> {
        let first = self.first.get(list)?;
        *first
    }

    /// The number behind one.
    pub fn next(&self, number: u32) -> Option<u32> {
        let next = self.next.get(number as usize)?;
        *next
    }

    /// Puts a number into a list.
    pub fn push(&mut self, list: usize, number: u32) {
        let first = self.first(list);
        put_at(self.next.as_mut_slice(), number as usize, first);
        put_at(self.first.as_mut_slice(), list, Some(number));
    }

    /// Takes the first number out of a list.
    pub fn pop(&mut self, list: usize) -> Option<u32> {
        let first = self.first(list)?;
        let next = self.next(first);
        put_at(self.first.as_mut_slice(), list, next);
        Some(first)
    }
}
