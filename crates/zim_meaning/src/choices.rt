use zim_tuples::{Env, Tuple};

/// A tuple that an index chooses of its set, and the environment in which what stands behind the index is evaluated.
#[derive(Drop)]
pub struct Choice {
    pub tuple: Tuple,
    /// The environment around the index, and at its end what the tuple binds.
    pub env: Env,
}
