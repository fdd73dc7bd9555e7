ghost use Rattle.stack_tests.specs.Deep.{deep_denial};

use sink::fault::refusal::Refusal;

// A fault of a builder's sink that has come up through some layers of its own.
#[derive(Clone, Copy)]
pub struct Deep {
    pub layers: u8,
}

impl Refusal for Deep {
    ghost denial = { deep_denial };

    fn number(&self) -> u8 {
        3
    }

    fn depth(&self) -> u8 {
        self.layers
    }
}
