//! What one field of a match asks of the frame that came in.
ghost use Rattle.std.specs.{Prelude.◌≡◌, Prelude.Some, Prelude.slice_get, List.list_any};
ghost use Rattle.of_layers.specs.declared.field.Field.TheVariants.{VlanVid};
ghost use Rattle.of_oxm.specs.Relations.{agrees, bits_looked_at};
ghost use Rattle.of_symbolic.specs.Asking.{asked_of_frame, asked_of_tag, asks_tag as asks_for_tag, asks_vid as asks_for_vid, by_tag as by_tag_so, field_asked as field_asks, inner_field as inner_field_of, own_pcp as own_pcp_asks, own_vid as own_vid_asks, pcp_asked as pcp_asks, pushed_pcp as pushed_pcp_asks, pushed_vid as pushed_vid_asks, tagged_vid as tagged_vid_asks, vid_asked as vid_asks};
ghost use Rattle.of_symbolic.specs.{declared.asking.Asked.TheVariants.Asks, Tags.is_inner as is_inner_tag};

use crate::overlay::{Overlay, PushedTag, ReceivedTag, TagNumber, first_tag};
use of_headers::Field;
use of_oxm::{Match, MatchField};

// The bit of VLAN_VID that says that there is a tag, OFPVID_PRESENT (OpenFlow 1.3.5, 7.2.3.7).
const PRESENT: u128 = 0x1000;

/// What one field of a match asks of the frame that came in.
#[derive(Clone, Copy)]
pub enum Asked {
    /// No frame agrees.
    Never,
    /// It is not known which frames agree.
    Open,
    /// Each frame agrees.
    Nothing,
    /// Those frames agree that this field of a match agrees with.
    Asks(MatchField),
}

// The bits that a field of a match looks at.
fn bits_of_mask(e: &MatchField) -> u128
    ensures { result ≡ bits_looked_at e.now }
{
    e.mask.unwrap_or(e.field.row().ones)
}

fn agrees_with(e: &MatchField, value: u128) -> bool
    ensures { result ≡ agrees e.now (Some value) }
{
    value & bits_of_mask(e) == e.value
}

// The frames with a tag, or those without: by the bit OFPVID_PRESENT.
fn vid_is(value: u128) -> Asked
    ensures { result ≡ Asks (record { field = VlanVid; value = value; mask = Some 0x1000 }) }
{
    Asked::Asks(MatchField {
        field: Field::VlanVid,
        value,
        mask: Some(PRESENT),
    })
}

// By whether a field of a match agrees if the frame has a tag, and if it has none.
fn by_tag(tagged: bool, untagged: bool) -> Asked
    ensures { result ≡ by_tag_so tagged untagged }
{
    match (tagged, untagged) {
        (true, true) => Asked::Nothing,
        (true, false) => vid_is(PRESENT),
        (false, true) => vid_is(0),
        (false, false) => Asked::Never,
    }
}

// A field that was set to a value, or was not set.
fn field_asked(set: Option<u128>, e: &MatchField) -> Asked
    ensures { result ≡ field_asks set e.now }
{
    match set {
        None => Asked::Asks(*e),
        Some(value) if agrees_with(e, value) => Asked::Asks(MatchField {
            field: e.field,
            value: 0,
            mask: Some(0),
        }),
        Some(_) => Asked::Never,
    }
}

// VLAN_VID of a packet with a tag: `rest` is what its other bits ask.
fn tagged_vid(e: &MatchField, rest: Asked) -> Asked
    ensures { result ≡ tagged_vid_asks e.now rest }
{
    let bits = bits_of_mask(e);
    if bits / PRESENT != e.value / PRESENT {
        return Asked::Never;
    }
    if bits % PRESENT == 0 {
        return Asked::Nothing;
    }
    rest
}

fn pushed_vid(vid: TagNumber, e: &MatchField) -> Asked
    ensures { result ≡ pushed_vid_asks vid e.now }
{
    match vid {
        TagNumber::Value(vid) => {
            let agrees = agrees_with(e, PRESENT + u128::from(vid));
            by_tag(agrees, agrees)
        }
        TagNumber::IfTagged(vid) => by_tag(
            agrees_with(e, PRESENT + u128::from(vid)),
            agrees_with(e, PRESENT),
        ),
        TagNumber::Received => tagged_vid(
            e,
            Asked::Asks(MatchField {
                field: Field::VlanVid,
                value: e.value % PRESENT,
                mask: Some(bits_of_mask(e) % PRESENT),
            }),
        ),
        TagNumber::Unknown => tagged_vid(e, Asked::Open),
    }
}

fn own_vid(vid: Option<u16>, e: &MatchField) -> Asked
    ensures { result ≡ own_vid_asks vid e.now }
{
    match vid {
        None => Asked::Asks(*e),
        Some(vid) => by_tag(agrees_with(e, PRESENT + u128::from(vid)), agrees_with(e, 0)),
    }
}

fn vid_asked(pushed: Option<PushedTag>, own: Option<ReceivedTag>, e: &MatchField) -> Asked
    ensures { result ≡ vid_asks pushed own e.now }
{
    match (pushed, own) {
        (Some(tag), _) => pushed_vid(tag.vid, e),
        (None, Some(tag)) => own_vid(tag.vid, e),
        (None, None) => Asked::Open,
    }
}

fn pushed_pcp(tagged: bool, pcp: TagNumber, e: &MatchField) -> Asked
    ensures { result ≡ pushed_pcp_asks tagged pcp e.now }
{
    match pcp {
        TagNumber::Value(pcp) => {
            let agrees = agrees_with(e, u128::from(pcp));
            by_tag(agrees, agrees)
        }
        TagNumber::IfTagged(pcp) => { by_tag(agrees_with(e, u128::from(pcp)), agrees_with(e, 0)) }
        TagNumber::Received if e.value == 0 && !tagged => Asked::Open,
        TagNumber::Received => Asked::Asks(*e),
        TagNumber::Unknown => Asked::Open,
    }
}

fn own_pcp(pcp: Option<u16>, e: &MatchField) -> Asked
    ensures { result ≡ own_pcp_asks pcp e.now }
{
    match pcp {
        None => Asked::Asks(*e),
        Some(pcp) => by_tag(agrees_with(e, u128::from(pcp)), false),
    }
}

fn pcp_asked(
    tagged: bool,
    pushed: Option<PushedTag>,
    own: Option<ReceivedTag>,
    e: &MatchField,
) -> Asked
    ensures { result ≡ pcp_asks tagged pushed own e.now }
{
    match (pushed, own) {
        (Some(tag), _) => pushed_pcp(tagged, tag.pcp, e),
        (None, Some(tag)) => own_pcp(tag.pcp, e),
        (None, None) => Asked::Open,
    }
}

fn is_inner(own: Option<ReceivedTag>) -> bool
    ensures { result ≡ is_inner_tag own }
{
    match own {
        None => false,
        Some(tag) => tag.inner,
    }
}

// A condition on a tag, as one on METADATA, which tells the inner tag: VLAN_VID in the low 13 bits, and the PCP above.
fn inner_field(e: &MatchField) -> MatchField
    ensures { result ≡ inner_field_of e.now.field e.now }
{
    let bits = bits_of_mask(e);
    match e.field {
        Field::VlanPcp => MatchField {
            field: Field::Metadata,
            value: PRESENT + 2 * PRESENT * (e.value % 8),
            mask: Some(PRESENT + 2 * PRESENT * (bits % 8)),
        },
        _ => MatchField {
            field: Field::Metadata,
            value: e.value,
            mask: Some(bits),
        },
    }
}

// What is asked of the outermost tag, or of the inner one.
fn of_tag(inner: bool, asked: Asked) -> Asked
    ensures { result ≡ asked_of_tag inner asked }
{
    match asked {
        Asked::Asks(e) if inner => Asked::Asks(inner_field(&e)),
        _ => asked,
    }
}

// Whether it asks for a VID with some bit that is not 0.
fn asks_vid(e: &MatchField) -> bool
    ensures { result ≡ asks_for_vid e.now }
{
    matches!(e.field, Field::VlanVid) && e.value % PRESENT != 0
}

fn any_asks_vid(fields: &[MatchField]) -> bool
    ensures { result ≡ list_any asks_for_vid fields.now }
{
    fields.iter().any(asks_vid)
}

/// Whether only frames with a tag of their own can match: the outermost tag was pushed with the VID of that tag (5.12.1), and the match asks for
/// a VID with some bit that is not 0.
pub fn asks_tag(pushed: Option<PushedTag>, m: &Match) -> bool
    ensures { result ≡ asks_for_tag pushed m.now }
{
    match pushed {
        Some(tag) => matches!(tag.vid, TagNumber::Received) && any_asks_vid(m.fields()),
        None => false,
    }
}

/// What a field of a match on the packet, with this metadata, asks of the frame that came in. `tagged`: the match asks for a tag of that frame.
pub fn ask(overlay: &Overlay, metadata: u64, tagged: bool, e: &MatchField) -> Asked
    ensures { result ≡ asked_of_frame overlay.now metadata tagged e.now }
{
    match e.field {
        Field::InPort => Asked::Asks(*e),
        Field::Metadata if agrees_with(e, u128::from(metadata)) => Asked::Nothing,
        Field::Metadata => Asked::Never,
        Field::VlanVid => of_tag(
            is_inner(overlay.own),
            vid_asked(first_tag(&overlay.pushed), overlay.own, e),
        ),
        Field::VlanPcp => of_tag(
            is_inner(overlay.own),
            pcp_asked(tagged, first_tag(&overlay.pushed), overlay.own, e),
        ),
        field => field_asked(overlay.set.get(field), e),
    }
}
