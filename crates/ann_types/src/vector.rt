ghost use Rattle.std.specs.Prelude.{◌≡◌, ◌<◌, ◌^◌, ℕ, List, length, IfOk};

use std::alloc::{AllocError, Global};
use std::marker::Model;

/// A vector of bytes, one component each, which contracts see as the list of its components.
#[derive(Debug, Drop)]
pub struct Vector {
    components: Vec<u8>,
}

impl Model for Vector {
    ghost Value = { List ℕ };

    ghost view = { λ v. v.components.items };

    ghost invariant = { λ v. length v.components.items < 2 ^ 32 };
}

impl Vector {
    /// Makes a vector of its own with these components.
    ///
    /// The only error is want of memory.
    pub fn copy(alloc: Global, bytes: &[u8]) -> Result<Vector, AllocError>
        requires { length bytes.now < 2 ^ 32 }
        ensures { IfOk result (λ vector. vector ≡ bytes.now) }
    {
        Ok(Vector {
            components: bytes.to_vec(alloc)?,
        })
    }

    /// Makes a vector of these components, which takes no memory.
    pub fn from_components(components: Vec<u8>) -> Vector
        requires { length components.items < 2 ^ 32 }
        ensures { result ≡ components.items }
    {
        Vector { components }
    }

    /// The components, in order.
    pub fn bytes(&self) -> &[u8]
        ensures components { result.now ≡ self.now }
        ensures short { length self.now < 2 ^ 32 }
    {
        &self.components
    }
}
