/// A change of the switch's ports (OpenFlow 1.3.5, 7.2.1).
#[derive(Clone, Copy, PartialEq, Eq)]
pub enum PortChange {
    /// A port is added.
    Add {
        /// 1 to 0xffffff00.
        number: u32,
        /// The hardware address.
        hw: [u8; 6],
        /// The name, padded with zeros.
        name: [u8; 16],
        /// Whether its link is up.
        up: bool,
    },
    /// A port is removed.
    Remove {
        number: u32,
    },
    /// A port's link goes up or down.
    Link {
        number: u32,
        up: bool,
    },
}
