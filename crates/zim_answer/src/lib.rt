//! Answers: what a call that reads from left to right owes, a value or the first fault that it meets.
//!
//! A base crate of definitions and laws. `Answer` is a value or a first fault, `>>=` goes on with a
//! value, and `goes` goes on over a whole list until the first fault; these are the words of every
//! definition that owes an order of faults. `Gives` ties a call's `Result` to such an answer, and
//! leaves want of memory free.
#![tactic(auto)]

ghost use Rattle.std.specs.Prelude.{◌≡◌, List, ◌++◌, Result};
ghost use Rattle.zim_answer.specs.Answer.{goes, goes_twice};

/// Going on over one list and then over another is going on over both joined, whatever one step does.
///
/// A law for those who prove: the call does nothing.
pub fn going_on_joins<S, X, F>()
    ensures { (step : S → X → Result S F) (state : S) (front back : List X) →
        goes step state (front ++ back) ≡ goes_twice step state front back }
{}
