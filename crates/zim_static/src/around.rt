ghost use Rattle.std.specs.Cmp.Lexicographic.{pointwise};
ghost use Rattle.std.specs.Prelude.{◌≡◌, nat_eq, option_copied};
ghost use Rattle.std.specs.List.{list_any};
ghost use Rattle.zim_static.specs.Around.{names_in};
ghost use Rattle.zim_typed.specs.Scope.{is_local};
ghost use Rattle.zim_typed.specs.Pattern.{bare_name, binds};

use crate::scope::Scope;
use zim_fault::{Bytes, Place};
use zim_tree::Expr;

/// What binds names around a place.
#[derive(Clone, Copy)]
pub enum Around<'a> {
    Nothing,
    /// The parameters of the function whose body it is.
    Parameters(&'a [(Place, Bytes)]),
    /// The tuple of an index, and what is around the index.
    Index(&'a [Expr], &'a Around<'a>),
}

impl<'a> Around<'a> {
    /// Whether a name is bound around the place.
    ///
    /// An index binds the bare names of its tuple that are neither declared nor bound around it.
    pub fn has(&self, scope: &Scope, name: &Bytes) -> bool
        ensures { result ≡ is_local (names_in scope.now self.now) name.now }
    {
        match self {
            Around::Nothing => false,
            Around::Parameters(parameters) => is_parameter(parameters, name),
            Around::Index(items, outer) => {
                if outer.has(scope, name) {
                    return true;
                }
                if scope.is_declared(name) {
                    return false;
                }
                is_among(items, name)
            }
        }
    }
}

/// Whether a function's parameter has this name.
fn is_parameter(parameters: &[(Place, Bytes)], name: &Bytes) -> bool
    ensures { result ≡ list_any (λ parameter. pointwise nat_eq name.now parameter.1) parameters.now }
{
    parameters.iter().any(|parameter| *name == parameter.1)
}

/// Whether this bare name stands among expressions.
fn is_among(items: &[Expr], name: &Bytes) -> bool
    ensures { result ≡ list_any (λ item. binds name.now (bare_name item)) items.now }
{
    items.iter().any(|item| is_bare(name, item))
}

/// The bare name that an expression is, if it is one.
pub fn bare_name(tree: &Expr) -> Option<&Bytes>
    ensures { option_copied result ≡ bare_name tree.now }
{
    match tree {
        Expr::Name(_, name) => Some(name),
        _ => None,
    }
}

/// Whether an expression is this bare name.
pub fn is_bare(name: &Bytes, tree: &Expr) -> bool
    ensures { result ≡ binds name.now (bare_name tree.now) }
{
    match bare_name(tree) {
        Some(other) => *name == *other,
        None => false,
    }
}
