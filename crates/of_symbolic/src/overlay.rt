//! What is known of a packet that actions rewrote.
ghost use Rattle.std.specs.Prelude.{◌≡◌, ◌∷◌, ◌++◌, List, [], OnErr, OnOk, slice_get};
ghost use Rattle.of_layers.specs.declared.field.Field.{Field as TheField};
ghost use Rattle.of_headers.specs.FieldMap.{value as value_in};
ghost use Rattle.of_actions.specs.{declared.action.Action.Action as TheAction, declared.action.Action.TheVariants.SetField};
ghost use Rattle.of_symbolic.specs.Tags.{copied as as_copied, new_tag as tag_above, pushed_set, received_set, tag_below, tags_popped, tags_set};
ghost use Rattle.of_symbolic.specs.Overlays.{IsOverlay, tags_in, value_by};

use of_actions::Action;
use of_headers::{Field, FieldKey};
use std::alloc::{AllocError, Global};

/// The VID or the PCP of a tag that was pushed.
#[derive(Clone, Copy, PartialEq, Eq)]
pub enum TagNumber {
    /// This number.
    Value(u16),
    /// That of the tag of the frame that came in, or 0 if that frame has no such tag.
    Received,
    /// This number if the frame that came in has such a tag, else 0.
    IfTagged(u16),
    /// Nothing is known of it.
    Unknown,
}

/// What is known of a tag that was pushed.
#[derive(Clone, Copy, PartialEq, Eq)]
pub struct PushedTag {
    pub vid: TagNumber,
    pub pcp: TagNumber,
}

/// What a tag of the frame that came in was set to, if there is one. None is as it was received.
#[derive(Clone, Copy, PartialEq, Eq)]
pub struct ReceivedTag {
    pub vid: Option<u16>,
    pub pcp: Option<u16>,
    /// Whether it is the inner tag, below the outermost one.
    pub inner: bool,
}

/// What is known of a packet that actions rewrote, in terms of the frame that came in (OpenFlow 1.3.5, 5.12).
#[derive(Drop)]
pub struct Overlay {
    /// The last value that each field was set to. Those of tags are in the tags too.
    pub set: FieldKey,
    /// The tags that were pushed, the outermost first.
    pub pushed: Vec<PushedTag>,
    /// The tag of the frame that came in below these: its outermost one, and after a POP_VLAN that met no pushed tag its inner one. None: nothing
    /// is known of it.
    pub own: Option<ReceivedTag>,
    /// Whether the inner tag is told. Else nothing is known of it.
    pub inner: bool,
}

// A number of the frame's own tag, as a tag that is pushed over it copies it.
fn copied(number: Option<u16>) -> TagNumber
    ensures { result ≡ as_copied number }
{
    match number {
        None => TagNumber::Received,
        Some(number) => TagNumber::IfTagged(number),
    }
}

// The VID and PCP of a new tag (5.12.1).
fn new_tag(pushed: Option<PushedTag>, own: Option<ReceivedTag>) -> PushedTag
    ensures { result ≡ tag_above pushed own }
{
    match (pushed, own) {
        (Some(tag), _) => tag,
        (None, Some(tag)) => PushedTag {
            vid: copied(tag.vid),
            pcp: copied(tag.pcp),
        },
        (None, None) => PushedTag {
            vid: TagNumber::Unknown,
            pcp: TagNumber::Unknown,
        },
    }
}

// What is known of the tag below that of the frame.
fn below(told: bool, own: Option<ReceivedTag>) -> Option<ReceivedTag>
    ensures { result ≡ tag_below told own }
{
    match own {
        Some(tag) if told && !tag.inner => Some(ReceivedTag {
            vid: None,
            pcp: None,
            inner: true,
        }),
        _ => None,
    }
}

/// The outermost tag that was pushed, if one is left.
pub fn first_tag(tags: &[PushedTag]) -> Option<PushedTag>
    ensures { result ≡ slice_get tags.now 0 }
{
    tags.first().copied()
}

impl PushedTag {
    // SET_FIELD: a VID has 12 bits, and a PCP 3.
    fn with_field(self, field: Field, value: u128) -> PushedTag
        ensures { result ≡ pushed_set field value self }
    {
        match field {
            Field::VlanVid => PushedTag {
                vid: TagNumber::Value((value % 4096) as u16),
                pcp: self.pcp,
            },
            Field::VlanPcp => PushedTag {
                vid: self.vid,
                pcp: TagNumber::Value((value % 8) as u16),
            },
            _ => self,
        }
    }
}

impl ReceivedTag {
    // SET_FIELD, in the same bits.
    fn with_field(self, field: Field, value: u128) -> ReceivedTag
        ensures { result ≡ received_set field value self }
    {
        match field {
            Field::VlanVid => ReceivedTag {
                vid: Some((value % 4096) as u16),
                pcp: self.pcp,
                inner: self.inner,
            },
            Field::VlanPcp => ReceivedTag {
                vid: self.vid,
                pcp: Some((value % 8) as u16),
                inner: self.inner,
            },
            _ => self,
        }
    }
}

impl Overlay {
    /// That of a packet before any action, in terms of the frame that came in, with its inner tag or without. It takes no memory.
    pub fn new(alloc: Global, inner: bool) -> Overlay
        ensures is { IsOverlay result [] }
        ensures inner { result.inner ≡ inner }
    {
        Overlay {
            set: FieldKey::empty(),
            pushed: Vec::new(alloc),
            own: Some(ReceivedTag {
                vid: None,
                pcp: None,
                inner: false,
            }),
            inner,
        }
    }

    /// The same after one more action (5.12): this is then the overlay of the packet after all actions so far. If memory runs out, it is as before.
    pub fn after(&mut self, action: &Action) -> Result<(), AllocError>
        ensures after { OnOk result ((l : List TheAction) → IsOverlay self.old l → IsOverlay self.new (l ++ action.now ∷ [])) }
        ensures err { OnErr result ((l : List TheAction) → IsOverlay self.old l → IsOverlay self.new l) }
        ensures inner { self.new.inner ≡ self.old.inner }
    {
        match *action {
            Action::PushVlan(_) => self.push_tag()?,
            Action::PopVlan => self.pop_tag(),
            Action::SetField { field, value } => self.set_field(field, value),
            _ => {}
        }
        Ok(())
    }

    // PUSH_VLAN.
    fn push_tag(&mut self) -> Result<(), AllocError>
        ensures ok { OnOk result (self.new.pushed.items ≡ tag_above (slice_get self.old.pushed.items 0) self.old.own ∷ self.old.pushed.items) }
        ensures err { OnErr result (self.new.pushed.items ≡ self.old.pushed.items) }
        ensures same { (self.new.set ≡ self.old.set) × (self.new.own ≡ self.old.own) × (self.new.inner ≡ self.old.inner) }
    {
        let tag = new_tag(first_tag(&self.pushed), self.own);
        self.pushed.insert(0, tag)?;
        Ok(())
    }

    // POP_VLAN.
    fn pop_tag(&mut self)
        ensures tags { tags_in self.new ≡ tags_popped self.old.inner self.old.pushed.items self.old.own }
        ensures same { (self.new.set ≡ self.old.set) × (self.new.inner ≡ self.old.inner) }
    {
        if self.pushed.is_empty() {
            self.own = below(self.inner, self.own);
        } else {
            self.pushed.remove(0);
        }
    }

    // SET_FIELD.
    fn set_field(&mut self, field: Field, value: u128)
        ensures tags { tags_in self.new ≡ tags_set field value self.old.pushed.items self.old.own }
        ensures set { (f : TheField) → value_in self.new.set f ≡ value_by (SetField field value) f (value_in self.old.set f) }
        ensures inner { self.new.inner ≡ self.old.inner }
    {
        self.set.put(field, value & field.row().ones);
        match first_tag(&self.pushed) {
            Some(tag) => self.pushed[0] = tag.with_field(field, value),
            None => self.own = self.own.map(|tag| tag.with_field(field, value)),
        }
    }
}
