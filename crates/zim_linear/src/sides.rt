use zim_fraction::Fraction;

/// Between which numbers a column or a form lies.
#[derive(Clone, Copy, Debug, Drop)]
pub struct Sides {
    /// The least number, none where there is no least one.
    pub low: Option<Fraction>,
    /// The greatest number, none where there is no greatest one.
    pub high: Option<Fraction>,
}

/// One of the two ends of a form.
#[derive(Clone, Copy, Debug, Drop, PartialEq, Eq)]
pub(crate) enum End {
    Least,
    Greatest,
}
