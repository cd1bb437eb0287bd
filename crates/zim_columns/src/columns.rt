ghost use Rattle.std.specs.Prelude.{◌≡◌, ◌<◌, ℕ, List, [], ◌∷◌, ◌++◌, All, IsTrue, Some, None, OnOk, OnErr};
ghost use Rattle.zim_tuples.specs.declared.elements.Elem.{Elem};
ghost use Rattle.zim_columns.specs.Names.{column_declared, are_rising, IsFoundByName, IsKnownBy};
ghost use Rattle.zim_columns.specs.Parts.{HasPartsWithin};
ghost use Rattle.zim_columns.specs.Declaring as exact;

use crate::asks::Ask;
use crate::declared::{Declared, declared_as};
use crate::numbers::NumberTable;
use crate::parts::parts_within;
use std::alloc::Global;
use std::marker::Model;
use zim_fault::{Bytes, Memory};
use zim_tuples::Tuple;

/// The declared columns, in the order of their declaration. No two have the same name and tuple, and no two are the same
/// column.
///
/// Contracts see it as the list of them.
#[derive(Drop)]
pub struct Columns {
    pub(crate) alloc: Global,
    declared: Vec<Declared>,
    numbers: NumberTable,
}

impl Model for Columns {
    ghost use Rattle.std.specs.Prelude.{List};
    ghost use Rattle.zim_columns.specs.declared.declared.Declared.{Declared as One};
    ghost use Rattle.zim_columns.specs.Numbered.{AreNumbered};

    ghost Value = { List One };

    ghost view = { λ it. it.declared.items };

    ghost invariant = { λ it. AreNumbered it.declared.items it.numbers };
}

impl Columns {
    /// No columns. It takes no memory yet.
    pub fn new(alloc: Global) -> Columns
        ensures { result ≡ [] }
    {
        Columns {
            alloc,
            declared: Vec::new(alloc),
            numbers: NumberTable::new(alloc),
        }
    }

    /// All declared columns, in the order of declaration.
    pub fn list(&self) -> &[Declared]
        ensures { result.now ≡ self.now }
    {
        self.declared.as_slice()
    }

    /// The column that was declared with this name and this tuple; none exactly where there is none. The time doesn't
    /// depend on how many are declared.
    pub fn find(&self, name: &Bytes, tuple: &Tuple) -> Option<u32>
        ensures { result ≡ column_declared self.now name.now tuple.now }
    {
        self.numbers.get(name, tuple)
    }

    // Lists an ask under its name and its tuple, as this column. After `Memory` the list is as before.
    pub(crate) fn push(&mut self, ask: Ask, column: u32) -> Result<(), Memory>
        requires new { column_declared self.old ask.name ask.tuple ≡ None }
        requires rising { All (λ d. d.column < column) self.old }
        requires positive { 0 < column }
        ensures ok { OnOk result (self.new ≡ self.old ++ exact.declared_as column ask ∷ []) }
        ensures err { OnErr result (self.new ≡ self.old) }
    {
        self.declared.reserve(1)?;
        self.numbers
            .insert(self.alloc, &ask.name, &ask.tuple, column)?;
        let declared = declared_as(ask, column);
        parts_within(&declared);
        match self.declared.push(declared) {
            Ok(()) => Ok(()),
            Err(_) => Err(Memory),
        }
    }

    /// The law that each declared column is found by its name and its tuple, and by no others, that the columns' numbers rise
    /// from 1 on, and that what they hold is within the limit. The call does nothing.
    pub fn one_to_one(&self)
        ensures found { All (IsFoundByName self.now) self.now }
        ensures once { (name other : List ℕ) (tuple further : List Elem) (j : ℕ) →
            column_declared self.now name tuple ≡ Some j → column_declared self.now other further ≡ Some j → IsKnownBy name tuple other further }
        ensures rising { IsTrue (are_rising 1 self.now) }
        ensures parts { All HasPartsWithin self.now }
    {
        let _ = self.declared.as_slice();
    }
}
