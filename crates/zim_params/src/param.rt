//! The parameter, how a value is given to an index, and how it is looked up.
ghost use Rattle.std.specs.Prelude.{◌≡◌, [], OnErr, option_copied};
ghost use Rattle.zim_answer.specs.Gives.{Gives};
ghost use Rattle.zim_params.specs.Causes.{insert_cause};
ghost use Rattle.zim_params.specs.Values.{AreDistinct, value_at, value_inserted};

use indexmap::IndexMap;
use std::alloc::Global;
use std::marker::Model;
use zim_tuples::Tuple;

/// Why an index was not given a value.
#[derive(Clone, Copy, Debug, PartialEq, Eq, Hash)]
pub enum InsertFault {
    /// The index was given a value before.
    Twice,
    /// Memory was refused.
    Memory,
}

/// A value for each index that was given one, and perhaps a default for all others.
#[derive(Drop)]
pub struct Param<V> {
    entries: IndexMap<Tuple, V>,
    default: Option<V>,
}

impl<V> Model for Param<V> {
    ghost use Rattle.zim_params.specs.Values.{Values, AreDistinct};

    ghost Value = { Values V };

    ghost view = { λ it. record { entries = it.entries.entries; default = it.default } };

    ghost invariant = { λ it. AreDistinct it.entries.entries };
}

impl<V> Param<V> {
    /// The parameter in which no index was given a value. It takes no memory yet.
    pub fn new(alloc: Global, default: Option<V>) -> Param<V>
        ensures { result ≡ record { entries = []; default = default } }
    {
        Param {
            entries: IndexMap::new(alloc),
            default,
        }
    }

    /// The value that was given to the index, else the default. None exactly where none was given and there is
    /// no default.
    #[tactic(auto, unfolding(crate::specs::Values::value_at))]
    pub fn get(&self, at: &Tuple) -> Option<&V>
        ensures value { option_copied result ≡ value_at self.now at.now }
        ensures distinct { AreDistinct self.now.entries }
    {
        match self.entries.get(at) {
            Some(value) => Some(value),
            None => self.default.as_ref(),
        }
    }
}

impl<V: Drop> Param<V> {
    /// Gives a value to an index, which then stands at the end of the list.
    ///
    /// `Twice` exactly where it was given one before; the default doesn't count. After an error the parameter is as
    /// before.
    pub fn insert(&mut self, at: Tuple, value: V) -> Result<(), InsertFault>
        ensures answer { Gives (λ _. self.new) insert_cause (value_inserted self.old at value) result }
        ensures err { OnErr result (self.new ≡ self.old) }
    {
        if self.entries.contains_key(&at) {
            return Err(InsertFault::Twice);
        }
        match self.entries.insert(at, value) {
            Ok(_) => Ok(()),
            Err(_) => Err(InsertFault::Memory),
        }
    }
}
