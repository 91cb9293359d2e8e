ghost use Rattle.std.specs.Prelude.{◌≡◌};
ghost use Rattle.of_laws.specs.declared.fault.ConfigFault.TheVariants.{NoMemory};

use of_wire::Code;
use std::alloc::AllocError;
use thiserror::Error;

/// Why messages gave no configuration.
#[derive(Clone, Copy, Debug, PartialEq, Eq, Error)]
pub enum ConfigFault {
    /// Memory ran out. The call can be made again.
    #[error("no memory")]
    NoMemory,
    /// The place of the first that is not a single whole GROUP_MOD or FLOW_MOD, or not one that `build` takes there, from 0. It
    /// was not sent.
    #[error("message {place}: no GROUP_MOD or FLOW_MOD")]
    NotACommand { place: usize },
    /// The place of the first that is answered by an ERROR, from 0, and the code of the ERROR (OpenFlow 1.3.5, 7.4.4).
    #[error("message {place}: type {} code {}", .code.kind, .code.code)]
    Refused { place: usize, code: Code },
}

impl From<AllocError> for ConfigFault {
    ghost from_gives = { λ _ e. e ≡ NoMemory };

    fn from(_e: AllocError) -> ConfigFault {
        ConfigFault::NoMemory
    }
}
