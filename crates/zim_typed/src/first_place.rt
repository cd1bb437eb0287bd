ghost use Rattle.std.specs.Prelude.{◌≡◌};
ghost use Rattle.zim_typed.specs.FirstPlace as spec;

use crate::constant::Const;
use zim_fault::Place;

impl Const {
    /// The place of the first token, which for an operator is that of its left operand.
    pub fn first_place(&self) -> Place
        ensures { result ≡ spec.const_first_place self.now }
    {
        match self {
            Const::Number(place, _)
            | Const::Text(place, _, _)
            | Const::Truth(place, _)
            | Const::Infinity(place)
            | Const::Name(place, _, _)
            | Const::Item(place, _, _, _)
            | Const::Call(place, _, _, _)
            | Const::Func(place, _, _)
            | Const::Proj(place, _, _)
            | Const::Paren(place, _)
            | Const::Braces(place, _)
            | Const::If(place, _, _, _)
            | Const::Signed(place, _, _)
            | Const::Big(place, _, _, _, _)
            | Const::Not(place, _) => *place,
            Const::Factorial(first, _) | Const::And(first, _) => first.get().first_place(),
            Const::Power(_, _, base, _, _) => base.get().first_place(),
            Const::Times(first, _) | Const::Plus(first, _) => first.get().first_place(),
            Const::Or(first, _) => first.get().first_place(),
            Const::Compare(_, _, left, _) => left.get().first_place(),
            Const::Member(_, tuple, _) => tuple.place,
        }
    }
}
