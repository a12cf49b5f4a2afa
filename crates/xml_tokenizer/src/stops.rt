//! Why a step that wants memory read nothing.

ghost use Rattle.std.specs.Prelude.{◌≡◌};
ghost use Rattle.xml_tokenizer.specs.declared.stops.Miss.TheVariants as misses;

use std::alloc::AllocError;
use xmp_values::Memory;

/// Why a step read nothing.
#[derive(Debug, Drop)]
pub enum Miss {
    Memory,
    /// What is looked for doesn't stand there.
    Nothing,
}

impl From<Memory> for Miss {
    ghost from_gives = { λ _ e. e ≡ misses.Memory };

    fn from(_error: Memory) -> Miss {
        Miss::Memory
    }
}

impl From<AllocError> for Miss {
    ghost from_gives = { λ _ e. e ≡ misses.Memory };

    fn from(_error: AllocError) -> Miss {
        Miss::Memory
    }
}
