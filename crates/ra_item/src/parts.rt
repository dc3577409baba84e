//! Bytes, items and open lists that a reader keeps.

ghost use Rattle.ra_item.specs.Weights.{weigh, weigh_all};
ghost use Rattle.ra_item.specs.declared.limits.TheConstants.{ITEM_BYTES};
ghost use Rattle.std.specs.Prelude.{◌≡◌, ◌≤◌, [], ◌∷◌, ◌++◌, length, IfOk, OnErr, MatchOption};
ghost use Rattle.std.specs.Prelude.{reverse};

use crate::item::{Item, written_size};
use std::alloc::{AllocError, Global};
use std::marker::Model;

/// Bytes, seen as their list.
#[derive(Drop)]
pub struct Bytes {
    bytes: Vec<u8>,
}

impl Model for Bytes {
    ghost use Rattle.std.specs.Prelude.{List, ℕ};
    ghost use Rattle.std.specs.Coded.{coded_list, coded_ℕ};

    ghost Value = { List ℕ };

    ghost coded = { coded_list coded_ℕ };

    ghost view = { λ a. a.bytes.items };
}

impl Bytes {
    pub fn new(alloc: Global) -> Bytes
        ensures { result ≡ [] }
    {
        Bytes {
            bytes: Vec::new(alloc),
        }
    }

    pub fn len(&self) -> usize
        ensures { result ≡ length self.now }
    {
        self.bytes.len()
    }

    pub fn push(&mut self, b: u8) -> Result<(), AllocError>
        ensures { IfOk result (λ _. self.new ≡ self.old ++ b ∷ []) }
    {
        self.bytes.push(b)?;
        Ok(())
    }

    pub fn extend(&mut self, piece: &[u8]) -> Result<(), AllocError>
        ensures { IfOk result (λ _. self.new ≡ self.old ++ piece.now) }
    {
        self.bytes.extend_from_slice(piece)?;
        Ok(())
    }

    pub fn into_vec(self) -> Vec<u8>
        ensures { result.items ≡ self }
    {
        self.bytes
    }
}

/// The items of a list so far, seen as their list.
#[derive(Drop)]
pub struct Row {
    items: Vec<Item>,
}

impl Model for Row {
    ghost use Rattle.std.specs.Prelude.{List};
    ghost use Rattle.std.specs.Coded.{coded_list};
    ghost use Rattle.ra_item.specs.Items.{Item};
    ghost use Rattle.ra_item.specs.ItemCode.{coded_item};

    ghost Value = { List Item };

    ghost coded = { coded_list coded_item };

    ghost view = { λ a. a.items.items };
}

impl Row {
    pub fn new(alloc: Global) -> Row
        ensures { result ≡ [] }
    {
        Row {
            items: Vec::new(alloc),
        }
    }

    pub fn push(&mut self, item: Item) -> Result<(), AllocError>
        ensures { IfOk result (λ _. self.new ≡ self.old ++ item ∷ []) }
    {
        self.items.push(item)?;
        Ok(())
    }

    /// How many bytes the items are written with.
    pub fn written_size(&self) -> usize
        requires { weigh self.now ≤ ITEM_BYTES }
        ensures { result ≡ weigh self.now }
    {
        written_size(&self.items)
    }

    pub fn into_vec(self) -> Vec<Item>
        ensures { result.items ≡ self }
    {
        self.items
    }
}

/// The lists round the innermost open one, seen as their list from the inside out.
#[derive(Drop)]
pub struct Stack {
    rows: Vec<Row>,
}

impl Model for Stack {
    ghost use Rattle.std.specs.Prelude.{List, reverse};
    ghost use Rattle.std.specs.Coded.{coded_list};
    ghost use Rattle.ra_item.specs.Items.{Item};
    ghost use Rattle.ra_item.specs.ItemCode.{coded_item};

    ghost Value = { List (List Item) };

    ghost coded = { coded_list (coded_list coded_item) };

    ghost view = { λ a. reverse a.rows.items };
}

impl Stack {
    pub fn new(alloc: Global) -> Stack
        ensures { result ≡ [] }
    {
        Stack {
            rows: Vec::new(alloc),
        }
    }

    pub fn len(&self) -> usize
        ensures { result ≡ length self.now }
    {
        self.rows.len()
    }

    pub fn push(&mut self, row: Row) -> Result<(), AllocError>
        ensures { IfOk result (λ _. self.new ≡ row ∷ self.old) }
    {
        self.rows.push(row)?;
        Ok(())
    }

    pub fn pop(&mut self) -> Option<Row>
        ensures { MatchOption result ((self.old ≡ []) × (self.new ≡ [])) (λ row. self.old ≡ row ∷ self.new) }
    {
        self.rows.pop()
    }

    /// How many bytes the items of all the lists are written with.
    pub fn written_size(&self) -> usize
        requires { weigh_all self.now ≤ ITEM_BYTES }
        ensures { result ≡ weigh_all self.now }
    {
        let mut size = 0;
        for row in &self.rows {
            size += row.written_size();
        }
        size
    }
}
