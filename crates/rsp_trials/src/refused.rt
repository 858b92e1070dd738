// Why a change isn't made.
use std::alloc::AllocError;

/// Why a change isn't made. After [`Refused::Misfit`] and [`Refused::Missing`] all is as before; after [`Refused::GaveUp`] the
/// operator is only to be dropped, and each further change is refused so.
#[derive(Debug, Drop)]
pub enum Refused {
    /// A row has another width, or doesn't bind the key.
    Misfit,
    /// More of a row goes than is there.
    Missing,
    /// Memory was refused, or the operator gave up.
    GaveUp,
}

impl From<AllocError> for Refused {
    ghost use Rattle.std.specs.Prelude.{◌≡◌};
    ghost use Rattle.rsp_trials.specs.declared.refused.Refused.TheVariants.{GaveUp};

    ghost from_gives = { λ _ why. why ≡ GaveUp };

    fn from(_refused: AllocError) -> Refused {
        Refused::GaveUp
    }
}
