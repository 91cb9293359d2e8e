//! The frames of a set for which DEC_NW_TTL expires, and the others.
ghost use Rattle.std.specs.Prelude.{◌≡◌, ◌≤◌, ◌<◌, ◌+◌, Some, IfOk, not};
ghost use Rattle.of_layers.specs.declared.field.Field.TheVariants.{IpDscp};
ghost use Rattle.of_symbolic_run.specs.{FrameSets.AreFramesOrNone, FrameSets.AreFramesThat, TimesToLive.expires, TimesToLive.higher_of, TimesToLive.lower_of};

use crate::frame_set::FrameSet;
use of_headers::Field;
use of_oxm::MatchField;
use std::alloc::{AllocError, Global};

// A frame has a TTL exactly if it has IP_DSCP.
fn has_ttl() -> MatchField
    ensures { result ≡ record { field = IpDscp; value = 0; mask = Some 0 } }
{
    MatchField {
        field: Field::IpDscp,
        value: 0,
        mask: Some(0),
    }
}

fn least_of(x: u8, y: u8) -> u8
    ensures { result ≡ lower_of x y }
{
    if x <= y { x } else { y }
}

fn greatest_of(x: u8, y: u8) -> u8
    ensures { result ≡ higher_of x y }
{
    if x <= y { y } else { x }
}

impl FrameSet {
    // Those of a TTL of at most the limit, and those without a TTL.
    fn up_to(self, limit: u8) -> FrameSet
        requires { self.ttl_from ≤ limit }
        ensures part { result.part ≡ self.part }
        ensures inner { result.inner ≡ self.inner }
        ensures least { result.ttl_from ≡ self.ttl_from }
        ensures most { result.ttl_to ≡ lower_of self.ttl_to limit }
    {
        let ttl_to = least_of(self.ttl_to, limit);
        FrameSet {
            part: self.part,
            inner: self.inner,
            ttl_from: self.ttl_from,
            ttl_to,
        }
    }

    // Those of a TTL above the limit, and those without a TTL.
    fn above(self, limit: u8) -> FrameSet
        requires { limit < self.ttl_to }
        ensures part { result.part ≡ self.part }
        ensures inner { result.inner ≡ self.inner }
        ensures least { result.ttl_from ≡ higher_of self.ttl_from (limit + 1) }
        ensures most { result.ttl_to ≡ self.ttl_to }
    {
        let ttl_from = greatest_of(self.ttl_from, limit + 1);
        FrameSet {
            part: self.part,
            inner: self.inner,
            ttl_from,
            ttl_to: self.ttl_to,
        }
    }

    /// Those that have a TTL of at most the limit. None if there is none by the range.
    pub fn expiring(&self, alloc: Global, limit: Option<u8>) -> Result<Option<FrameSet>, AllocError>
        ensures { IfOk result (AreFramesOrNone (expires limit) self.now) }
    {
        match limit {
            Some(limit) if self.ttl_from <= limit => {
                let those = self.matching(alloc, &[has_ttl()])?;
                Ok(Some(those.up_to(limit)))
            }
            _ => Ok(None),
        }
    }

    /// The others.
    pub fn outliving(&self, alloc: Global, limit: Option<u8>) -> Result<FrameSet, AllocError>
        ensures { IfOk result (AreFramesThat (λ frame. not (expires limit frame)) self.now) }
    {
        let all = self.matching(alloc, &[])?;
        match limit {
            None => Ok(all),
            Some(limit) if limit < all.ttl_to => Ok(all.above(limit)),
            Some(_) => {
                let mut fields = Vec::new(alloc);
                fields.push(has_ttl())?;
                all.without(alloc, &fields)
            }
        }
    }
}
