//! The functions that a model defines.
ghost use Rattle.std.specs.Prelude.{◌≡◌, [], ◌∷◌, ◌++◌, None, OnOk, OnErr, length, nat_eq, position, slice_get, option_copied};
ghost use Rattle.std.specs.Cmp.Lexicographic.{pointwise};
ghost use Rattle.zim_functions.specs.Definitions.{defined, defined_names, AreNamesDistinct};

use indexmap::IndexMap;
use sqlite_items::Boxed;
use std::alloc::Global;
use std::marker::Model;
use zim_fault::{Bytes, Duplicate, Memory, Sequence, Word};
use zim_typed::Const;

/// A function as a model defines it.
#[derive(Drop)]
pub struct Definition {
    /// The word that says what the function gives: `defnumb`, `defstrg`, `defbool` or `defset`.
    pub kind: Word,
    pub name: Bytes,
    /// The names of its parameters, in order.
    pub params: Sequence<Bytes>,
    pub body: Boxed<Const>,
}

/// The functions of a model, in the order of their definitions. Each is found by the hash of its name.
#[derive(Drop)]
pub struct Defs {
    kept: IndexMap<Bytes, Definition>,
}

impl Model for Defs {
    ghost use Rattle.std.specs.Prelude.{List};
    ghost use Rattle.std.specs.Map.{values_of};
    ghost use Rattle.zim_functions.specs.declared.definitions.Definition.{Definition};
    ghost use Rattle.std.specs.Coded.{coded_list};
    ghost use Rattle.zim_functions.specs.contracts.definitions.Definition as definition;

    ghost Value = { List Definition };

    ghost coded = { coded_list definition.the_row.coded };

    ghost view = { λ it. values_of it.kept.entries };

    ghost use Rattle.zim_functions.specs.Definitions.{AreKept};

    ghost invariant = { λ it. AreKept it.kept.entries };
}

impl Defs {
    /// No functions. They take no memory yet.
    pub fn new(alloc: Global) -> Defs
        ensures { result ≡ [] }
    {
        Defs {
            kept: IndexMap::new(alloc),
        }
    }

    /// Adds a function at the end, whose name isn't there. After `Memory` the list is as before.
    pub fn add(&mut self, definition: Definition) -> Result<(), Memory>
        requires { defined self.old definition.name ≡ None }
        ensures ok { OnOk result (self.new ≡ self.old ++ definition ∷ []) }
        ensures err { OnErr result (self.new ≡ self.old) }
    {
        let name = definition.name.copy()?;
        self.kept.insert(name, definition)?;
        Ok(())
    }

    /// How many functions there are.
    pub fn len(&self) -> usize
        ensures { result ≡ length self.now }
    {
        self.kept.len()
    }

    /// The function of that name; None exactly where there is none.
    pub fn get(&self, name: &Bytes) -> Option<&Definition>
        ensures value { option_copied result ≡ defined self.now name.now }
        ensures distinct { AreNamesDistinct self.now }
    {
        self.kept.get(name)
    }

    /// The position of the function of that name, counted from 0 in the order of definition; None exactly where there is
    /// none.
    pub fn position_of(&self, name: &Bytes) -> Option<usize>
        ensures value { result ≡ position (pointwise nat_eq name.now) (defined_names self.now) }
        ensures distinct { AreNamesDistinct self.now }
    {
        self.kept.get_index_of(name)
    }

    /// The function at a position; None exactly where there is none.
    pub fn at(&self, position: usize) -> Option<&Definition>
        ensures { option_copied result ≡ slice_get self.now position }
    {
        match self.kept.get_index(position) {
            Some((_name, definition)) => Some(definition),
            None => None,
        }
    }
}
