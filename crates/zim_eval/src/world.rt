//! What is known after the statements before.
ghost use Rattle.std.specs.Prelude.{◌≡◌, if◌then◌else◌, None, option_copied, OnOk, OnErr};
ghost use Rattle.zim_meaning.specs.World.{entry_named, empty_world, set_at, param_at, world_with_set, world_with_indexed_set, world_with_param, world_with_indexed_param, world_with_function};
ghost use Rattle.zim_functions.specs.Definitions.{defined};
ghost use Rattle.zim_sets.specs.Sets.{has};

use indexmap::IndexMap;
use std::alloc::Global;
use std::marker::Model;
use zim_fault::{Bytes, Memory};
use zim_functions::{Definition, Defs};
use zim_meaning::Value;
use zim_params::Param;
use zim_sets::TupleSet;
use zim_tuples::Tuple;

/// An indexed set: its whole index set, and the sets of those indices that have one.
#[derive(Drop)]
pub struct IndexedSet {
    indices: TupleSet,
    members: Param<TupleSet>,
}

impl Model for IndexedSet {
    ghost use Rattle.zim_meaning.specs.World as worlds;

    ghost Value = { worlds.IndexedSet };

    ghost view = { λ it. record { indices = it.indices; members = it.members } };
}

impl IndexedSet {
    /// The index set, in order.
    pub fn indices(&self) -> &TupleSet
        ensures { result.now ≡ self.now.indices }
    {
        &self.indices
    }

    /// The set at an index; None exactly where the index has none.
    #[tactic(auto, unfolding(zim_meaning::specs::World::set_at))]
    pub fn at(&self, index: &Tuple) -> Option<&TupleSet>
        ensures { option_copied result ≡ set_at self.now index.now }
    {
        self.members.get(index)
    }
}

/// A parameter with brackets: its whole index set, the values of those indices that were given one, and the value of
/// all other indices of the index set, if there is a default.
#[derive(Drop)]
pub struct IndexedParam {
    indices: TupleSet,
    given: Param<Value>,
    default: Option<Value>,
}

impl Model for IndexedParam {
    ghost use Rattle.zim_meaning.specs.World as worlds;

    ghost Value = { worlds.IndexedParam };

    ghost view = { λ it. record { indices = it.indices; given = it.given; default = it.default } };
}

impl IndexedParam {
    /// The value at an index: the one that was given to it, else the default where the index is in the index set.
    #[tactic(auto, unfolding(zim_meaning::specs::World::param_at))]
    pub fn at(&self, index: &Tuple) -> Option<&Value>
        ensures { option_copied result ≡ param_at self.now index.now }
    {
        match self.given.get(index) {
            Some(value) => Some(value),
            None => self.other(index),
        }
    }

    // The default, where the index is in the index set.
    fn other(&self, index: &Tuple) -> Option<&Value>
        ensures { option_copied result ≡ (if has self.now.indices index.now then self.now.default else None) }
    {
        if self.indices.contains(index) {
            self.default.as_ref()
        } else {
            None
        }
    }
}

/// The sets, the indexed sets, the parameters without and with brackets and the functions of the statements before,
/// each in the order of declaration. Each is found by the hash of its name.
#[derive(Drop)]
pub struct World {
    sets: IndexMap<Bytes, TupleSet>,
    indexed_sets: IndexMap<Bytes, IndexedSet>,
    params: IndexMap<Bytes, Value>,
    indexed_params: IndexMap<Bytes, IndexedParam>,
    functions: Defs,
}

impl Model for World {
    ghost use Rattle.zim_meaning.specs.World as worlds;

    ghost Value = { worlds.World };

    ghost use Rattle.std.specs.Coded.{codes};
    ghost use Rattle.zim_functions.specs.contracts.definitions.Definition as definition;

    ghost coded = { Prim.hlevel (codes, definition.the_row.coded) };

    ghost view = { λ it. record { sets = it.sets.entries; indexed_sets = it.indexed_sets.entries; params = it.params.entries; indexed_params = it.indexed_params.entries; functions = it.functions } };
}

impl World {
    /// Before the first statement.
    pub fn new(alloc: Global) -> World
        ensures { result ≡ empty_world }
    {
        World {
            sets: IndexMap::new(alloc),
            indexed_sets: IndexMap::new(alloc),
            params: IndexMap::new(alloc),
            indexed_params: IndexMap::new(alloc),
            functions: Defs::new(alloc),
        }
    }

    /// The set of that name; None exactly where there is none.
    pub fn set(&self, name: &Bytes) -> Option<&TupleSet>
        ensures { option_copied result ≡ entry_named self.now.sets name.now }
    {
        self.sets.get(name)
    }

    /// The indexed set of that name; None exactly where there is none.
    pub fn indexed_set(&self, name: &Bytes) -> Option<&IndexedSet>
        ensures { option_copied result ≡ entry_named self.now.indexed_sets name.now }
    {
        self.indexed_sets.get(name)
    }

    /// The value of the parameter of that name without brackets; None exactly where there is none.
    pub fn param(&self, name: &Bytes) -> Option<&Value>
        ensures { option_copied result ≡ entry_named self.now.params name.now }
    {
        self.params.get(name)
    }

    /// The parameter of that name with brackets; None exactly where there is none.
    pub fn indexed_param(&self, name: &Bytes) -> Option<&IndexedParam>
        ensures { option_copied result ≡ entry_named self.now.indexed_params name.now }
    {
        self.indexed_params.get(name)
    }

    /// The functions.
    pub fn functions(&self) -> &Defs
        ensures { result.now ≡ self.now.functions }
    {
        &self.functions
    }

    /// Adds a set at the end, whose name isn't there. After `Memory` the world is as before.
    pub fn add_set(&mut self, name: Bytes, set: TupleSet) -> Result<(), Memory>
        requires { entry_named self.old.sets name ≡ None }
        ensures ok { OnOk result (self.new ≡ world_with_set self.old name set) }
        ensures err { OnErr result (self.new ≡ self.old) }
    {
        self.sets.insert(name, set)?;
        Ok(())
    }

    /// Adds an indexed set at the end, whose name isn't there. After `Memory` the world is as before.
    pub fn add_indexed_set(&mut self, name: Bytes, family: IndexedSet) -> Result<(), Memory>
        requires { entry_named self.old.indexed_sets name ≡ None }
        ensures ok { OnOk result (self.new ≡ world_with_indexed_set self.old name family) }
        ensures err { OnErr result (self.new ≡ self.old) }
    {
        self.indexed_sets.insert(name, family)?;
        Ok(())
    }

    /// Adds a parameter without brackets at the end, whose name isn't there. After `Memory` the world is as before.
    pub fn add_param(&mut self, name: Bytes, value: Value) -> Result<(), Memory>
        requires { entry_named self.old.params name ≡ None }
        ensures ok { OnOk result (self.new ≡ world_with_param self.old name value) }
        ensures err { OnErr result (self.new ≡ self.old) }
    {
        self.params.insert(name, value)?;
        Ok(())
    }

    /// Adds a parameter with brackets at the end, whose name isn't there. After `Memory` the world is as before.
    pub fn add_indexed_param(&mut self, name: Bytes, param: IndexedParam) -> Result<(), Memory>
        requires { entry_named self.old.indexed_params name ≡ None }
        ensures ok { OnOk result (self.new ≡ world_with_indexed_param self.old name param) }
        ensures err { OnErr result (self.new ≡ self.old) }
    {
        self.indexed_params.insert(name, param)?;
        Ok(())
    }

    /// Adds a function at the end, whose name isn't there. After `Memory` the world is as before.
    pub fn add_function(&mut self, definition: Definition) -> Result<(), Memory>
        requires { defined self.old.functions definition.name ≡ None }
        ensures ok { OnOk result (self.new ≡ world_with_function self.old definition) }
        ensures err { OnErr result (self.new ≡ self.old) }
    {
        self.functions.add(definition)
    }
}
