ghost use Rattle.std.specs.Prelude.{◌≡◌, ◌<◌, ◌^◌, IfOk, OnOk};
ghost use Rattle.ann_script.specs.Generator.{next_state, after, component_of, made};

use std::alloc::{AllocError, Global};

/// The generator of the components of a fill.
#[derive(Debug, Drop)]
pub(crate) struct Generator {
    state: u64,
    ghost small: { state < 2 ^ 32 },
}

impl Generator {
    /// The generator in front of its first step.
    pub(crate) fn new(seed: u32) -> Generator
        ensures { result.state ≡ seed }
    {
        Generator {
            state: u64::from(seed),
        }
    }

    /// A generator that goes on as this one does.
    pub(crate) fn copy(&self) -> Generator
        ensures { result.state ≡ self.now.state }
    {
        Generator { state: self.state }
    }

    /// The next component.
    fn component(&mut self) -> u8
        ensures step { self.new.state ≡ next_state self.old.state }
        ensures value { result ≡ component_of self.new.state }
    {
        self.state = (self.state * 1_103_515_245 + 12345) % (1 << 31);
        (self.state / 65536 % 256) as u8
    }

    /// The next components, of which there are `d`. The only error is want of memory.
    pub(crate) fn components(&mut self, alloc: Global, d: u16) -> Result<Vec<u8>, AllocError>
        ensures made { IfOk result (λ bytes. bytes.items ≡ made self.old.state d) }
        ensures after { OnOk result (self.new.state ≡ after self.old.state d) }
    {
        let mut bytes = Vec::with_capacity(alloc, usize::from(d))?;
        for _ in 0..d {
            bytes.push(self.component())?;
        }
        Ok(bytes)
    }
}
