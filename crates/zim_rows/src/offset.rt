// The column `one`, which carries the objective's constant in files.
ghost use Rattle.std.specs.Prelude.{◌≡◌};
ghost use Rattle.zim_rows.specs.Finished.{program_of};
ghost use Rattle.zim_rows.specs.Named as named;

use crate::finished::Finished;
use zim_fraction::Fraction;

impl Finished {
    /// Whether files have the column `one`: where there is no other column, and where the objective has a constant
    /// that isn't 0.
    pub fn has_offset(&self) -> bool
        ensures { result ≡ named.has_offset (program_of self.now) }
    {
        self.columns.is_empty() || !self.target.constant.same_number(&Fraction::zero())
    }
}
