//! What the update of a checksum keeps, what calls keep of what is known, and what lookups see after them.

ghost use Rattle.std.specs.Prelude.{ℕ, ◌≡◌, ◌<◌, ◌+◌, ◌%◌, ◌∷◌, ◌++◌, IsTrue, List, false, is_some, length, sum};
ghost use Rattle.of_layers.specs.{declared.field.Field.Field, Fields.is_settable, Reading.layers_of};
ghost use Rattle.of_headers.specs.{FieldMap.field_map, declared.known.Known.Known, Known.IsKnownOf};
ghost use Rattle.of_rewrite.specs.Calls.{FrameCall, AreAllowed, IsAllowed, frame_after, frame_after_all, known_after_all};
ghost use Rattle.of_rewrite.specs.Views.{IsAction, IsView, View, fields_seen, view_after, view_of};
ghost use Rattle.of_rewrite.specs.{Frames.IsFrame, Checksum.updated, Checksum.never_zero, Checksum.sums_to_ones, Checksum.AreWords};

/// A checksum that was right is right after it is updated: with all the words that it covers it sums up to all ones (RFC 1071, 1).
///
/// `kept`: where some word is not 0 afterwards. Headers of IP are never all 0, nor are the words that TCP, UDP and ICMPv6 cover.
/// `staying`: a word that stays makes no difference, so that it does not matter whether it is counted among those covered.
/// `udp`: writing a computed 0 as all ones changes nothing of that.
/// `off`: what it sums up to otherwise stays the same too, so that a checksum that was wrong stays wrong by as much.
pub fn stays_right()
    ensures kept { (c : ℕ) (old new : List ℕ) → c < 65536 → AreWords old → length old ≡ length new → 0 < sum new → IsTrue (sums_to_ones (c ∷ old)) →
        IsTrue (sums_to_ones (updated c old new ∷ new)) }
    ensures staying { (c w : ℕ) (a x b y : List ℕ) → length a ≡ length x → updated c (a ++ (w ∷ b)) (x ++ (w ∷ y)) ≡ updated c (a ++ b) (x ++ y) }
    ensures off { (c : ℕ) (old new : List ℕ) → c < 65536 → AreWords old → length old ≡ length new →
        (updated c old new + sum new) % 65535 ≡ (c + sum old) % 65535 }
    ensures udp { (c : ℕ) (new : List ℕ) → IsTrue (sums_to_ones (c ∷ new)) → IsTrue (sums_to_ones (never_zero c ∷ new)) }
{}

/// After any calls of a frame, what is known of its headers is what a new reading of its bytes would give (`known_after` says what
/// each call knows after it).
///
/// So the fields that a frame gives at places that were kept are those of its bytes.
pub fn known_stays_right()
    ensures { (calls : List FrameCall) (known : Known) (frame : List ℕ) → IsFrame frame → AreAllowed calls frame → IsKnownOf known frame →
        IsKnownOf (known_after_all calls frame known) (frame_after_all calls frame) }
{}

/// After an action a frame has the view that the action makes of its view before (OpenFlow 1.3.5, 5.12).
///
/// `view`: that holds for each action that rewrites a frame, so also for several, one after the other.
/// `frame`: a frame stays a frame, so that another call may follow.
/// `present`: no action adds a header or removes one, except for VLAN tags.
/// `fixed`: a field that SET_FIELD may not set, such as ETH_TYPE or IP_PROTO, keeps its value.
pub fn views_follow()
    ensures view { (call : FrameCall) (frame : List ℕ) (v : View) → IsFrame frame → IsAction call → IsAllowed call frame → IsView v frame →
        IsView (view_after call v) (frame_after call frame) }
    ensures frame { (call : FrameCall) (frame : List ℕ) → IsFrame frame → IsAllowed call frame → IsFrame (frame_after call frame) }
    ensures present { (call : FrameCall) (v : View) (f : Field) → is_some ((view_after call v).fields f) ≡ is_some (v.fields f) }
    ensures fixed { (call : FrameCall) (frame : List ℕ) (v : View) (f : Field) → IsAllowed call frame → is_settable f ≡ false →
        (view_after call v).fields f ≡ v.fields f }
{}

/// The view of a frame, an ingress port and metadata are all that a lookup sees of a packet (OpenFlow 1.3.5, 5.3).
///
/// `view`: each frame has a view. `fields`: the fields of the packet are those that the view gives.
pub fn views_tell_lookups()
    ensures view { (frame : List ℕ) → IsView (view_of frame) frame }
    ensures fields { (frame : List ℕ) (v : View) (port metadata : ℕ) (f : Field) → IsFrame frame → IsView v frame →
        field_map (layers_of frame) port metadata f ≡ fields_seen v port metadata f }
{}
