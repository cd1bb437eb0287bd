// Equality and hashes: two numbers are equal where they are one fraction.
ghost use Rattle.std.specs.Prelude.{◌++◌};
ghost use Rattle.std.specs.Cmp.{decided, partial_equiv_from_equiv};
ghost use Rattle.std.specs.Hash as fed;
ghost use Rattle.zim_rational.specs.Rational.{same};
ghost use Rattle.zim_rational.proofs.Whole.{same_Decides};

use crate::fraction::Fraction;
use std::hash::{Hash, Hasher};

impl PartialEq for Fraction {
    ghost eq = { same };

    ghost laws = { partial_equiv_from_equiv (decided same same_Decides) };

    fn eq(&self, other: &Fraction) -> bool {
        self.same_number(other)
    }
}

impl Eq for Fraction {
    ghost laws = { decided same same_Decides };
}

impl Hash for Fraction {
    ghost hash_input = { λ q. fed.i128 q.numer ++ fed.u128 q.denom };

    ghost respects_eq = { (fed.same_Alike (λ q. fed.i128 q.numer ++ fed.u128 q.denom) same_Decides).fed };

    fn hash<H: Hasher>(&self, state: &mut H) {
        let (n, d) = self.parts();
        n.hash(state);
        d.hash(state);
    }
}
