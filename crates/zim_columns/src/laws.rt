ghost use Rattle.std.specs.Prelude.{◌↔◌, IsTrue, IsFalse};
ghost use Rattle.zim_rational.specs.Rational.{Rational};
ghost use Rattle.zim_rows.specs.Points.{KeepsColumn};
ghost use Rattle.zim_columns.specs.declared.asks.Ask.{Ask as Asked};
ghost use Rattle.zim_columns.specs.Bounds.{IsAsked, bounds_cross, column_asked};

/// The law that the column of an ask takes the numbers that the ask says, so that rounding loses none of them; and that
/// where bounds cross, no number is such.
///
/// The call does nothing.
pub fn columns_keep_what_is_asked()
    ensures keeps { (ask : Asked) (v : Rational) → IsFalse (bounds_cross ask) → IsAsked ask v ↔ KeepsColumn (column_asked ask) v }
    ensures none { (ask : Asked) (v : Rational) → IsTrue (bounds_cross ask) → ¬ IsAsked ask v }
{}
