//! What a controller has set, and which asynchronous messages it receives.
ghost use Rattle.std.specs.Prelude.{◌≡◌};
ghost use Rattle.of_datapath.specs.Control.{first_masks, heard_of, heard_while, lets_pass, new_control, released};
ghost use Rattle.of_datapath.specs.Roles.{has_stale_generation as is_from_stale, is_stale as is_stale_after, with_role};

use of_messages::{AsyncMasks, Role, RoleMasks, RoleRequest, SwitchConfig};
use of_session::Phase;

/// What a controller has set in a switch.
#[derive(Clone, Copy, PartialEq, Eq)]
pub struct Control {
    /// Its role (OpenFlow 1.3.5, 7.3.9).
    pub role: Role,
    /// The generation_id with which a controller last became master or slave.
    pub generation: Option<u64>,
    /// Which asynchronous messages it receives (7.3.10).
    pub masks: AsyncMasks,
    /// The configuration of the switch (7.3.2).
    pub config: SwitchConfig,
}

/// What a controller receives of asynchronous messages: for which reasons, as bits (OpenFlow 1.3.5, 7.3.10), and how many bytes of a
/// frame where no OUTPUT says it (7.3.2).
#[derive(Clone, Copy, PartialEq, Eq)]
pub struct AsyncConfig {
    pub packet_in: u32,
    pub port_status: u32,
    pub flow_removed: u32,
    pub miss_send_len: u16,
}

fn masks_at_first() -> AsyncMasks
    ensures { result ≡ first_masks }
{
    AsyncMasks {
        packet_in: RoleMasks {
            master: 7,
            slave: 0,
        },
        port_status: RoleMasks {
            master: 7,
            slave: 7,
        },
        flow_removed: RoleMasks {
            master: 15,
            slave: 0,
        },
    }
}

impl Control {
    /// What is set before any controller sets something.
    pub fn new() -> Control
        ensures { result ≡ new_control }
    {
        Control {
            role: Role::Equal,
            generation: None,
            masks: masks_at_first(),
            config: SwitchConfig { miss_send_len: 128 },
        }
    }

    /// Without what ends with the connection.
    pub fn released(self) -> Control
        ensures { result ≡ released self }
    {
        Control {
            role: Role::Equal,
            masks: masks_at_first(),
            ..self
        }
    }

    /// The asynchronous messages for the controller of an open connection.
    pub fn heard_open(&self) -> AsyncConfig
        ensures { result ≡ heard_of self.now }
    {
        let masks = &self.masks;
        let miss_send_len = self.config.miss_send_len;
        match self.role {
            Role::Equal | Role::Master => AsyncConfig {
                packet_in: masks.packet_in.master,
                port_status: masks.port_status.master,
                flow_removed: masks.flow_removed.master,
                miss_send_len,
            },
            Role::Slave => AsyncConfig {
                packet_in: masks.packet_in.slave,
                port_status: masks.port_status.slave,
                flow_removed: masks.flow_removed.slave,
                miss_send_len,
            },
        }
    }

    /// The asynchronous messages for the controller, by the phase of its connection: none before its HELLO was accepted.
    pub fn heard(&self, phase: Phase) -> AsyncConfig
        ensures { result ≡ heard_while phase self.now }
    {
        if phase == Phase::Open {
            self.heard_open()
        } else {
            AsyncConfig {
                packet_in: 0,
                port_status: 0,
                flow_removed: 0,
                miss_send_len: 0,
            }
        }
    }
}

// Whether a generation_id is older than the last one: their distance as a signed number is below 0.
fn is_stale(generation: u64, last: Option<u64>) -> bool
    ensures { result ≡ is_stale_after generation last }
{
    match last {
        Some(last) => generation.wrapping_sub(last) >= 1 << 63,
        None => false,
    }
}

impl Control {
    /// Whether the generation_id of a role request is older than the last one.
    pub fn has_stale_generation(&self, request: RoleRequest) -> bool
        ensures { result ≡ is_from_stale request self.now }
    {
        match request {
            RoleRequest::NoChange | RoleRequest::Equal => false,
            RoleRequest::Master { generation } | RoleRequest::Slave { generation } => {
                is_stale(generation, self.generation)
            }
        }
    }

    /// With the role that is asked for.
    pub fn with_role(self, request: RoleRequest) -> Control
        ensures { result ≡ with_role request self }
    {
        match request {
            RoleRequest::NoChange => self,
            RoleRequest::Equal => Control {
                role: Role::Equal,
                ..self
            },
            RoleRequest::Master { generation } => Control {
                role: Role::Master,
                generation: Some(generation),
                ..self
            },
            RoleRequest::Slave { generation } => Control {
                role: Role::Slave,
                generation: Some(generation),
                ..self
            },
        }
    }
}

/// Whether a mask lets one of these reasons pass.
pub fn lets_through(mask: u32, reasons: u32) -> bool
    ensures { result ≡ lets_pass mask reasons }
{
    mask & reasons != 0
}
