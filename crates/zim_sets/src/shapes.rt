ghost use Rattle.std.specs.Prelude.{◌≡◌};
ghost use Rattle.zim_sets.specs.Sets.{same_kind, same_shape};

use zim_tuples::Elem;

// Whether two elements are both numbers or both texts.
fn is_same_kind(left: &Elem, right: &Elem) -> bool
    ensures { result ≡ same_kind left.now right.now }
{
    matches!(
        (left, right),
        (Elem::Number(_), Elem::Number(_)) | (Elem::Text(_), Elem::Text(_))
    )
}

// Whether two tuples have as many components, of the same kind at each position.
pub(crate) fn is_same_shape(left: &[Elem], right: &[Elem]) -> bool
    ensures { result ≡ same_shape left.now right.now }
{
    if left.len() != right.len() {
        return false;
    }
    for at in 0..left.len() {
        if !is_same_kind(&left[at], &right[at]) {
            return false;
        }
    }
    true
}
