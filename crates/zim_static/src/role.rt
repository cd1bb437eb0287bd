ghost use Rattle.std.specs.Prelude.{◌≡◌};
ghost use Rattle.zim_static.specs.Roles as spec;

use zim_fault::Word;

/// What may stand at some place.
#[derive(Clone, Copy, Debug, PartialEq, Eq)]
pub enum Role {
    /// A value without variables.
    Value,
    /// A bound of a variable: a value without variables, or `infinity`.
    Bound,
    Term,
    /// The condition of a `vif`.
    Condition,
    Constraint,
    /// A part of what stands where a constraint is wanted and is none: a value without variables, but the sides of its
    /// outermost comparisons are terms.
    NoConstraint,
}

impl Role {
    /// An operand that no rule gives a role of its own.
    pub(crate) fn inside(self) -> Role
        ensures { result ≡ spec.inside self }
    {
        match self {
            Role::Constraint | Role::NoConstraint => Role::NoConstraint,
            Role::Value | Role::Bound | Role::Term | Role::Condition => Role::Value,
        }
    }

    /// An operand of what is a term where a term may stand.
    pub(crate) fn term_inside(self) -> Role
        ensures { result ≡ spec.term_inside self }
    {
        match self {
            Role::Term => Role::Term,
            _ => self.inside(),
        }
    }

    /// An operand of a list of operators, which may be a term or not.
    pub(crate) fn operand(self, may_be_term: bool) -> Role
        ensures { result ≡ spec.operand may_be_term self }
    {
        if may_be_term {
            self.term_inside()
        } else {
            self.inside()
        }
    }

    /// An operand of what is a condition where a condition may stand.
    pub(crate) fn condition_inside(self) -> Role
        ensures { result ≡ spec.condition_inside self }
    {
        match self {
            Role::Condition => Role::Condition,
            _ => self.inside(),
        }
    }

    /// An operand of `and`, which is a constraint too where one may stand.
    pub(crate) fn conjunct(self) -> Role
        ensures { result ≡ spec.conjunct self }
    {
        match self {
            Role::Constraint => Role::Constraint,
            _ => self.condition_inside(),
        }
    }

    /// What stands behind a `forall`.
    pub(crate) fn constraint_inside(self) -> Role
        ensures { result ≡ spec.constraint_inside self }
    {
        match self {
            Role::Constraint => Role::Constraint,
            _ => self.inside(),
        }
    }

    /// What stands in parentheses.
    pub(crate) fn parenthesised(self) -> Role
        ensures { result ≡ spec.parenthesised self }
    {
        match self {
            Role::Bound => Role::Value,
            _ => self,
        }
    }

    /// What stands behind a sign, and is `infinity` or not.
    pub(crate) fn signed(self, infinite: bool) -> Role
        ensures { result ≡ spec.role_behind_sign infinite self }
    {
        match self {
            Role::Bound => if infinite { Role::Bound } else { Role::Value },
            _ => self.term_inside(),
        }
    }

    /// The parts between which a `vif` picks, or an `if`.
    pub(crate) fn branch_of(self, vif: bool) -> Role
        ensures { result ≡ spec.branch_of vif self }
    {
        if vif {
            return self.constraint_inside();
        }
        match self {
            Role::Condition => Role::Value,
            _ => self,
        }
    }

    /// The condition of an `if`, and an index of a `forall`.
    pub(crate) fn test(self) -> Role
        ensures { result ≡ spec.test self }
    {
        match self {
            Role::NoConstraint => Role::NoConstraint,
            _ => Role::Value,
        }
    }

    /// The condition of a `vif`, or of an `if`.
    pub(crate) fn test_of(self, vif: bool) -> Role
        ensures { result ≡ spec.test_of vif self }
    {
        match self {
            Role::Constraint => if vif { Role::Condition } else { Role::Value },
            _ => self.test(),
        }
    }

    /// The sides of a comparison.
    pub(crate) fn side(self) -> Role
        ensures { result ≡ spec.side self }
    {
        match self {
            Role::Constraint | Role::Condition | Role::NoConstraint => Role::Term,
            Role::Value | Role::Bound | Role::Term => Role::Value,
        }
    }

    /// The sides of two comparisons one behind the other.
    pub(crate) fn chain_side(self) -> Role
        ensures { result ≡ spec.chain_side self }
    {
        match self {
            Role::Condition => Role::Value,
            _ => self.side(),
        }
    }

    /// What `sum`, `prod`, `min` and so on go over.
    pub(crate) fn summand(self, word: Word) -> Role
        ensures { result ≡ spec.summand word self }
    {
        match word {
            Word::WSum | Word::WProd => self.term_inside(),
            _ => self.inside(),
        }
    }

    pub(crate) fn is_constraint(self) -> bool
        ensures { result ≡ spec.is_constraint self }
    {
        match self {
            Role::Constraint => true,
            _ => false,
        }
    }

    pub(crate) fn is_term(self) -> bool
        ensures { result ≡ spec.is_term self }
    {
        match self {
            Role::Term => true,
            _ => false,
        }
    }

    pub(crate) fn is_bound(self) -> bool
        ensures { result ≡ spec.is_bound self }
    {
        match self {
            Role::Bound => true,
            _ => false,
        }
    }
}
