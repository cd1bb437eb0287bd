ghost use Rattle.std.specs.Prelude.{◌≡◌, [], map, is_some, option_copied, None, Some, OnOk, OnErr};
ghost use Rattle.zim_typed.specs.Scope.{kind_of_name};
ghost use Rattle.zim_typed.specs.After.{with_name};
ghost use Rattle.std.specs.List.{list_any};
ghost use Rattle.zim_static.specs.Scopes.{AreDeclaredOnce, is_the_objective};
ghost use Rattle.zim_static.specs.Scopes as spec;

use indexmap::IndexMap;
use std::alloc::Global;
use std::marker::Model;
use zim_fault::{Bytes, Duplicate, Memory};
use zim_typed::Declared;

/// What each name is after the statements so far, in the order of their declarations. A name is found by its hash.
#[derive(Drop)]
pub struct Scope {
    entries: IndexMap<Bytes, Declared>,
}

impl Model for Scope {
    ghost use Rattle.zim_typed.specs.Scope.{Scope};
    ghost use Rattle.zim_static.specs.Scopes.{AreDeclaredOnce};

    ghost Value = { Scope };

    ghost view = { λ it. it.entries.entries };

    ghost invariant = { λ it. AreDeclaredOnce it.entries.entries };
}

impl Scope {
    /// No names. It takes no memory yet.
    pub fn new(alloc: Global) -> Scope
        ensures { result ≡ [] }
    {
        Scope {
            entries: IndexMap::new(alloc),
        }
    }

    /// What a name is declared to be. None exactly where it isn't declared.
    pub fn get(&self, name: &Bytes) -> Option<&Declared>
        ensures { option_copied result ≡ kind_of_name self.now name.now }
    {
        self.entries.get(name)
    }

    /// Whether a name is declared.
    pub fn is_declared(&self, name: &Bytes) -> bool
        ensures { result ≡ is_some (kind_of_name self.now name.now) }
    {
        self.get(name).is_some()
    }

    /// Adds a name that isn't declared yet, at the end. After `Memory` the scope is as before.
    pub(crate) fn add(&mut self, name: &Bytes, what: Declared) -> Result<(), Memory>
        requires { kind_of_name self.old name.now ≡ None }
        ensures ok { OnOk result (self.new ≡ with_name self.old name.now (Some what)) }
        ensures err { OnErr result (self.new ≡ self.old) }
    {
        let key = name.copy()?;
        self.entries.insert(key, what)?;
        Ok(())
    }

    /// Whether an objective is declared.
    pub(crate) fn has_objective(&self) -> bool
        ensures { result ≡ list_any is_the_objective (map (λ entry. entry.1) self.now) }
    {
        self.entries.values().any(|what| is_the_objective(what))
    }
}

/// Whether a name stands for the objective.
fn is_the_objective(what: &Declared) -> bool
    ensures { result ≡ spec.is_the_objective (what.now) }
{
    match what {
        Declared::Objective => true,
        _ => false,
    }
}
