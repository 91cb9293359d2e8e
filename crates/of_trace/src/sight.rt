//! What tables see of a packet, step by step.
ghost use Rattle.std.specs.Prelude.{◌≡◌, IfOk, OnOk, IsTrue, false};
ghost use Rattle.of_actions.specs.Supported.{is_supported};
ghost use Rattle.of_headers.specs.FieldMap.{value};
ghost use Rattle.of_trace.specs.{Notes.ttl_seen, Sights.frame_after_action, Sights.key_seen, Sights.sight_after};
ghost use Rattle.of_tracing.specs.Encoded.{is_encoded};

use of_actions::Action;
use of_headers::FieldKey;
use of_machine::{Step, rewrite_frame};
use of_rewrite::Frame;
use std::alloc::{AllocError, Global};

/// What tables see of a packet (OpenFlow 1.3.5, 5.3).
#[derive(Drop)]
pub struct Sight {
    pub frame: Frame,
    /// The number of the port at which it was received.
    pub ingress: u32,
    pub metadata: u64,
}

impl Sight {
    /// The fields that a lookup sees.
    pub fn key(&self) -> FieldKey
        ensures { value result ≡ key_seen self.now }
    {
        self.frame.key(self.ingress, self.metadata)
    }

    /// The TTL, if the frame has an IP layer.
    pub fn ttl(&self) -> Option<u8>
        ensures { result ≡ ttl_seen self.now }
    {
        self.frame.ttl()
    }

    /// The same again.
    pub fn copy(&self, alloc: Global) -> Result<Sight, AllocError>
        ensures { IfOk result (λ s. s ≡ self.now) }
    {
        Ok(Sight {
            frame: self.frame.copy(alloc)?,
            ingress: self.ingress,
            metadata: self.metadata,
        })
    }

    /// What it is after a step. Its headers are read if an action changed them.
    pub fn after(&self, alloc: Global, step: Step) -> Result<Sight, AllocError>
        requires { IsTrue (is_encoded step) }
        ensures { IfOk result (λ s. s ≡ sight_after step self.now) }
    {
        let mut after = self.copy(alloc)?;
        match step {
            Step::Metadata { value, mask } => {
                after.metadata = (after.metadata & !mask) | (value & mask);
            }
            Step::Act(action) => {
                act_on(&mut after.frame, action)?;
                after.frame.read_headers();
            }
            _ => {}
        }
        Ok(after)
    }
}

// The frame that an action leaves.
fn act_on(frame: &mut Frame, action: Action) -> Result<(), AllocError>
    requires { IsTrue (is_supported false action) }
    ensures { OnOk result (frame.new ≡ frame_after_action action frame.old) }
{
    match action {
        Action::DecNwTtl => {
            frame.dec_ttl();
            Ok(())
        }
        _ => rewrite_frame(action, frame),
    }
}
