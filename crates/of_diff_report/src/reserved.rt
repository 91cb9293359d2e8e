//! What may differ between two switches although no frame is treated differently.
ghost use Rattle.std.specs.Prelude.{◌≡◌};
ghost use Rattle.of_diff_report.specs.DiffWords.{is_reserved, other_limits, unless_equal};

use of_alike::Compared;

/// The miss_send_len of two switches: how many bytes of a frame whose TTL expires a PACKET_IN has (OpenFlow 1.3.5, 7.3.2).
#[derive(Clone, Copy)]
pub struct Limits {
    pub first: u16,
    pub second: u16,
}

/// Why two switches are not said to treat all frames alike, if no difference is found.
#[derive(Drop)]
pub struct Reserved<'a> {
    /// Ports that groups or flows name, and that the switches do not have.
    pub missing: &'a [u32],
    /// The miss_send_len of both, if they differ.
    pub limits: Option<Limits>,
}

/// Whether there is such a reason.
pub fn has_reason(of: &Reserved<'_>) -> bool
    ensures { result ≡ is_reserved of.now.missing.now of.now.limits }
{
    match of.limits {
        Some(_) => true,
        None => !of.missing.is_empty(),
    }
}

fn limits_unless_equal(first: u16, second: u16) -> Option<Limits>
    ensures { result ≡ unless_equal first second }
{
    if first == second {
        return None;
    }
    Some(Limits { first, second })
}

/// The miss_send_len of two switches, if they differ and the packets to the controller are compared.
pub fn limits_between(compared: Compared, first: u16, second: u16) -> Option<Limits>
    ensures { result ≡ other_limits compared first second }
{
    match compared {
        Compared::Frames => None,
        Compared::All => limits_unless_equal(first, second),
    }
}
