// Pairs of numbers to calculate with, always the same ones.
use std::alloc::Global;
use zim_fraction::{Fraction, NumFault, of};
use zim_linear::LinFault;

/// What the operands are like.
#[derive(Clone, Copy, PartialEq, Eq)]
pub enum Kind {
    /// Whole numbers up to a million.
    Small,
    /// Numbers with up to six decimals.
    Short,
    /// Numerators of 100 bits over denominators up to a thousand.
    Wide,
}

// Numbers of 32 bits, each from the one before.
#[derive(Drop)]
struct Draw {
    state: u64,
}

impl Draw {
    fn next(&mut self) -> i128 {
        self.state = self
            .state
            .wrapping_mul(6364136223846793005)
            .wrapping_add(1442695040888963407);
        (self.state / 0x1_0000_0000) as i128
    }
}

const POWERS: [i128; 7] = [1, 10, 100, 1_000, 10_000, 100_000, 1_000_000];

fn power_of_ten(drawn: i128) -> i128 {
    let place = drawn.rem_euclid(7) as usize;
    match POWERS.get(place) {
        Some(power) => *power,
        None => 1,
    }
}

// A numerator and a denominator.
fn drawn(kind: Kind, draw: &mut Draw) -> (i128, i128) {
    let first = draw.next();
    let second = draw.next();
    let small = first.rem_euclid(2_000_001).wrapping_sub(1_000_000);
    match kind {
        Kind::Small => (small, 1),
        Kind::Short => (small, power_of_ten(second)),
        Kind::Wide => {
            let high = draw.next().wrapping_mul(1 << 64);
            let middle = draw.next().wrapping_mul(1 << 32);
            let size = high
                .wrapping_add(middle)
                .wrapping_add(first)
                .wrapping_add(1 << 99);
            (size, second.rem_euclid(1_000).wrapping_add(1))
        }
    }
}

/// Why there are no operands.
fn fault(refused: NumFault) -> LinFault {
    match refused {
        NumFault::Past => LinFault::Past,
        NumFault::DivZero => LinFault::Past,
    }
}

/// `count` pairs of a kind, the second numbers of wide ones turned over where they are to be multiplied.
pub fn pairs(
    alloc: Global,
    kind: Kind,
    multiplied: bool,
    count: u64,
) -> Result<Vec<(Fraction, Fraction)>, LinFault> {
    let mut draw = Draw { state: 1 };
    let mut made = Vec::new(alloc);
    for _ in 0..count {
        let (n, d) = drawn(kind, &mut draw);
        let (m, e) = drawn(kind, &mut draw);
        let first = of(n, d).map_err(fault)?;
        let second = if multiplied && kind == Kind::Wide {
            of(e, m).map_err(fault)?
        } else {
            of(m, e).map_err(fault)?
        };
        made.push((first, second))?;
    }
    Ok(made)
}
