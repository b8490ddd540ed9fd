ghost use Rattle.std.specs.Prelude.{◌≡◌, ◌≢◌, ◌<◌, ◌^◌, [], length, AllPairs, IsSome, IsTrue, OnErr, IfOk};
ghost use Rattle.std.specs.Option.{option_copied};
ghost use Rattle.frames.specs.declared.heap.Cell.TheVariants as cells;
ghost use Rattle.frames.specs.Heap.{cell_at, free_number, field_at, has_element, with_cell, with_element, with_field};

use crate::slots::{set_value, value_of};
use crate::{Slots, Value};
use class_pool::Text;
use std::alloc::{AllocError, Global};
use std::marker::Model;
use world::MemberId;

/// What a reference refers to (JVMS 2.4).
#[derive(Drop)]
pub enum Cell {
    /// An object: the number of its class, and the values of its fields, each by its field.
    Object {
        class: u32,
        fields: Slots<(MemberId, Value)>,
    },
    /// An array: the descriptor of its elements, and the elements.
    Array {
        element: Text,
        items: Slots<Value>,
    },
}

/// The objects and arrays (JVMS 2.5.3). Contracts see a list in which each stands at its number; a number at
/// which nothing stands isn't held.
#[derive(Drop)]
pub struct Heap {
    cells: Vec<Cell>,
}

impl Model for Heap {
    ghost use Rattle.std.specs.Prelude.{List, Option, Some, map};
    ghost use Rattle.frames.specs.declared.heap.Cell.{Cell};

    ghost Value = { List (Option Cell) };

    ghost view = { λ h. map Some h.cells.items };
}

impl Heap {
    /// The empty heap. Takes no memory.
    pub fn new(alloc: Global) -> Self
        ensures { result ≡ [] }
    {
        Heap {
            cells: Vec::new(alloc),
        }
    }

    /// How many objects and arrays there are.
    pub fn len(&self) -> usize
        ensures { result ≡ length self.now }
    {
        self.cells.len()
    }

    /// The object or array with this number.
    #[tactic(auto, using(crate::proofs::Heaps::heap_steps))]
    pub fn get(&self, number: u32) -> Option<&Cell>
        ensures { option_copied result ≡ cell_at self.now number }
    {
        self.cells.as_slice().get(number as usize)
    }

    /// What the object with this number has in a field.
    #[tactic(auto, using(crate::proofs::Heaps::heap_steps))]
    pub fn field(&self, object: u32, field: MemberId) -> Option<Value>
        ensures { result ≡ field_at self.now object field }
    {
        match self.get(object) {
            Some(Cell::Object { fields, .. }) => value_of(field, fields.as_slice()),
            _ => None,
        }
    }

    /// Adds an object, and answers its number: the least one at which nothing stands. An `Err` changes nothing.
    pub fn object(&mut self, class: u32, fields: Vec<(MemberId, Value)>) -> Result<u32, AllocError>
        requires few { length self.old < 2 ^ 32 }
        requires once { AllPairs (λ f g. f.0 ≢ g.0) fields.items }
        ensures number { IfOk result (λ r. r ≡ free_number self.old) }
        ensures held { IfOk result (λ _. self.new ≡ with_cell (cells.Object class fields.items) self.old) }
        ensures err { OnErr result (self.new ≡ self.old) }
    {
        self.add(Cell::Object {
            class,
            fields: Slots::from(fields),
        })
    }

    /// Adds an array of elements of this type, and answers its number: the least one at which nothing stands. An
    /// `Err` changes nothing.
    pub fn array(&mut self, element: Text, items: Vec<Value>) -> Result<u32, AllocError>
        requires { length self.old < 2 ^ 32 }
        ensures number { IfOk result (λ r. r ≡ free_number self.old) }
        ensures held { IfOk result (λ _. self.new ≡ with_cell (cells.Array element items.items) self.old) }
        ensures err { OnErr result (self.new ≡ self.old) }
    {
        self.add(Cell::Array {
            element,
            items: Slots::from(items),
        })
    }

    /// The least number at which nothing stands.
    #[tactic(auto, using(crate::proofs::Heaps::heap_steps))]
    pub fn free_number(&self) -> u32
        requires { length self.now < 2 ^ 32 }
        ensures { result ≡ free_number self.now }
    {
        self.cells.len() as u32
    }

    /// Adds an object or array, and answers its number: the least one at which nothing stands. An `Err` changes
    /// nothing.
    #[tactic(auto, using(crate::proofs::Heaps::heap_steps))]
    pub fn add(&mut self, cell: Cell) -> Result<u32, AllocError>
        requires { length self.old < 2 ^ 32 }
        ensures number { IfOk result (λ r. r ≡ free_number self.old) }
        ensures held { IfOk result (λ _. self.new ≡ with_cell cell self.old) }
        ensures err { OnErr result (self.new ≡ self.old) }
    {
        let number = self.cells.len() as u32;
        self.cells.push(cell)?;
        Ok(number)
    }

    /// Puts a value in the place of the element of an array.
    #[tactic(auto, using(crate::proofs::Heaps::heap_steps))]
    pub fn set_element(&mut self, array: u32, index: usize, value: Value)
        requires { IsTrue (has_element array index self.old) }
        ensures { self.new ≡ with_element array index value self.old }
    {
        if let Cell::Array { items, .. } = &mut self.cells[array as usize] {
            items.set(index, value);
        }
    }

    /// Puts a value into the field of an object.
    #[tactic(auto, using(crate::proofs::Heaps::heap_steps))]
    pub fn set_field(&mut self, object: u32, field: MemberId, value: Value)
        requires { IsSome (field_at self.old object field) }
        ensures { self.new ≡ with_field object field value self.old }
    {
        if let Cell::Object { fields, .. } = &mut self.cells[object as usize] {
            set_value(fields, field, value);
        }
    }
}
