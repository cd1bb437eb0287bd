//! The set, and how a tuple is inserted.
ghost use Rattle.std.specs.Prelude.{◌≡◌, [], length, not, IfOk, OnErr, option_copied, slice_get};
ghost use Rattle.zim_answer.specs.Gives.{Gives};
ghost use Rattle.zim_sets.specs.Causes.{set_cause};
ghost use Rattle.zim_sets.specs.Insertion.{inserted};
ghost use Rattle.zim_sets.specs.Sets.{has, fits, IsSet};

use crate::faults::SetFault;
use crate::shapes::is_same_shape;
use std::alloc::Global;
use std::marker::Model;
use zim_fault::{Duplicate, Memory, Sequence};
use zim_tuples::Tuple;

/// How many tuples a set has at most.
pub(crate) const MOST: usize = 1_048_576;

/// A set of tuples of one length and the same kinds by position, in the order of first insertion.
#[derive(Debug, Drop)]
pub struct TupleSet {
    tuples: Sequence<Tuple>,
}

impl Model for TupleSet {
    ghost use Rattle.std.specs.Prelude.{List};
    ghost use Rattle.std.specs.Coded.{coded_list};
    ghost use Rattle.zim_tuples.specs.declared.elements.Elem.{Elem};

    ghost Value = { List (List Elem) };

    ghost view = { λ it. it.tuples };

    ghost use Rattle.zim_sets.specs.Sets.{IsSet};

    ghost invariant = { λ it. IsSet it.tuples };
}

impl TupleSet {
    /// The empty set, which takes no memory yet.
    pub fn new(alloc: Global) -> TupleSet
        ensures { result ≡ [] }
    {
        TupleSet {
            tuples: Sequence::new(alloc),
        }
    }

    /// The set of these tuples, in their order, which are known to be one: they are few enough, have one shape, and none
    /// stands twice.
    pub fn of_tuples(tuples: Sequence<Tuple>) -> TupleSet
        requires { IsSet tuples }
        ensures { result ≡ tuples }
    {
        TupleSet { tuples }
    }

    /// How many tuples the set has, at most 1,048,576.
    pub fn len(&self) -> usize
        ensures value { result ≡ length self.now }
        ensures set { IsSet self.now }
    {
        self.tuples.len()
    }

    /// The tuples, in order.
    pub fn as_slice(&self) -> &[Tuple]
        ensures value { result.now ≡ self.now }
        ensures set { IsSet self.now }
    {
        self.tuples.as_slice()
    }

    /// The tuple at a position counted from 0; None exactly where there is none.
    pub fn get(&self, at: usize) -> Option<&Tuple>
        ensures { option_copied result ≡ slice_get self.now at }
    {
        self.tuples.as_slice().get(at)
    }

    /// Whether the tuple is in the set.
    pub fn contains(&self, tuple: &Tuple) -> bool
        ensures { result ≡ has self.now tuple.now }
    {
        self.tuples.as_slice().iter().any(|member| tuple == member)
    }

    // Whether a tuple has the length and kinds of the tuples there.
    fn is_fitting(&self, tuple: &Tuple) -> bool
        ensures { result ≡ fits self.now tuple.now }
    {
        match self.tuples.as_slice() {
            [] => true,
            [first, ..] => is_same_shape(first.as_slice(), tuple.as_slice()),
        }
    }

    /// Adds a tuple at the end unless it is there, and says whether it is new.
    ///
    /// `WrongKind` exactly where its length or kinds differ from those of the tuples there, else
    /// `SetSize` exactly where it is new and the set has 1,048,576 tuples. After an error the set is as
    /// before.
    pub fn insert(&mut self, tuple: Tuple) -> Result<bool, SetFault>
        ensures answer { Gives (λ _. self.new) set_cause (inserted self.old tuple) result }
        ensures new { IfOk result (λ is_new. is_new ≡ not (has self.old tuple)) }
        ensures err { OnErr result (self.new ≡ self.old) }
    {
        if !self.is_fitting(&tuple) {
            return Err(SetFault::WrongKind);
        }
        if self.contains(&tuple) {
            return Ok(false);
        }
        if self.len() >= MOST {
            return Err(SetFault::SetSize);
        }
        self.tuples.push(tuple)?;
        Ok(true)
    }
}

impl Duplicate for TupleSet {
    fn copy(&self) -> Result<TupleSet, Memory> {
        Ok(TupleSet {
            tuples: self.tuples.copy()?,
        })
    }
}
