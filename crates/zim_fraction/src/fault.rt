// Why there is no number.

/// The exact result passes the limit of 2^127 - 1.
#[derive(Clone, Copy, Debug, Drop, PartialEq, Eq)]
pub struct Past;

/// Why a quotient or a power is no number.
#[derive(Clone, Copy, Debug, Drop, PartialEq, Eq)]
pub enum NumFault {
    /// The exact result passes the limit of 2^127 - 1.
    Past,
    /// The divisor is 0.
    DivZero,
}
