/// Why a function of numbers has no value.
#[derive(Clone, Copy, Debug, PartialEq, Eq, Hash)]
pub enum NumStop {
    /// A whole number was wanted, or one from 0 up.
    NotInteger,
    /// The divisor is 0.
    DivZero,
    /// The exact result passes the limit of 2^127 - 1.
    Past,
}
