ghost use Rattle.std.specs.Prelude.{◌≡◌};

use readings::Refusal;
use std::alloc::AllocError;

// Why no show file is made of a script.
#[derive(Drop)]
pub(crate) enum Unmade {
    // The script is refused.
    Refused(Refusal),
    // Memory runs out.
    Memory(AllocError),
}

impl From<Refusal> for Unmade {
    ghost use Rattle.showtext.specs.declared.unmade.Unmade.TheVariants.{Refused};

    ghost from_gives = { λ refusal unmade. unmade ≡ Refused refusal };

    fn from(refusal: Refusal) -> Unmade {
        Unmade::Refused(refusal)
    }
}

impl From<AllocError> for Unmade {
    ghost use Rattle.showtext.specs.declared.unmade.Unmade.TheVariants.{Memory};

    ghost from_gives = { λ e unmade. unmade ≡ Memory e };

    fn from(e: AllocError) -> Unmade {
        Unmade::Memory(e)
    }
}
