ghost use Rattle.std.specs.Prelude.{◌≡◌};
ghost use Rattle.zim_tree.specs.FirstPlace as spec;

use crate::expr::Expr;
use zim_fault::Place;

impl Expr {
    /// The place of the first token, which for an operator is that of its left operand.
    pub fn first_place(&self) -> Place
        ensures { result ≡ spec.first_place self.now }
    {
        match self {
            Expr::Number(place, _)
            | Expr::Text(place, _, _)
            | Expr::Truth(place, _)
            | Expr::Infinity(place)
            | Expr::Name(place, _)
            | Expr::Item(place, _, _)
            | Expr::Call(place, _, _)
            | Expr::Func(place, _, _)
            | Expr::Proj(place, _, _)
            | Expr::Paren(place, _)
            | Expr::Braces(place, _)
            | Expr::If(place, _, _, _, _)
            | Expr::Signed(place, _, _)
            | Expr::Big(place, _, _, _, _)
            | Expr::Not(place, _)
            | Expr::Forall(place, _, _, _) => *place,
            Expr::Factorial(first, _) | Expr::Compare(first, _) | Expr::And(first, _) => {
                first.get().first_place()
            }
            Expr::Power(_, _, base, _, _) => base.get().first_place(),
            Expr::Times(first, _) | Expr::Plus(first, _) => first.get().first_place(),
            Expr::Or(first, _) => first.get().first_place(),
            Expr::Member(_, tuple, _) => tuple.place,
        }
    }
}
