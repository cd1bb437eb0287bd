ghost use Rattle.std.specs.Prelude.{◌≡◌, option_copied};
ghost use Rattle.zim_tuples.specs.Environments as spec;

use crate::elements::Elem;
use zim_fault::{Bytes, Duplicate, Memory, Sequence};

/// A name and the element that it stands for.
#[derive(Debug, Drop)]
pub struct Binding {
    pub name: Bytes,
    pub value: Elem,
}

/// A list of names with elements. Where a name stands twice, its last element counts.
pub type Env = Sequence<Binding>;

impl Duplicate for Binding {
    fn copy(&self) -> Result<Binding, Memory> {
        Ok(Binding {
            name: self.name.copy()?,
            value: self.value.copy()?,
        })
    }
}

/// The element that a name stands for in an environment: that of its last pair. None exactly where the name isn't there.
#[tactic(auto, unfolding(crate::specs::Environments::element_named))]
pub fn element_named<'a>(env: &'a Env, name: &Bytes) -> Option<&'a Elem>
    ensures { option_copied result ≡ spec.element_named env.now name.now }
{
    match env
        .as_slice()
        .iter()
        .rev()
        .find(|binding| *name == binding.name)
    {
        Some(binding) => Some(&binding.value),
        None => None,
    }
}
