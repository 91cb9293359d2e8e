//! What rewriting actions make of a frame, and what an overlay says about it.
ghost use Rattle.std.specs.Prelude.{◌≡◌, ◌∷◌, ◌++◌, ℕ, Bool, List, [], None, true};
ghost use Rattle.of_layers.specs.declared.field.Field.{Field};
ghost use Rattle.of_headers.specs.FieldMap.{value};
ghost use Rattle.of_oxm.specs.declared.match_field.MatchField.{MatchField};
ghost use Rattle.of_actions.specs.{declared.action.Action.Action, declared.action.Action.TheVariants.PopVlan, declared.action.Action.TheVariants.PushVlan};
ghost use Rattle.of_rewrite.specs.{Frames.IsFrame, Views.IsView, Views.View, Views.fields_seen};
ghost use Rattle.of_symbolic.specs.{declared.overlay.Overlay.Overlay, Actions.AreRewriting, Actions.frame_of_actions, Actions.view_of_actions, declared.pulling.Pulled.Pulled};
ghost use Rattle.of_symbolic.specs.{Overlays.HasVids, Overlays.IsOverlay, Overlays.Shows, Overlays.tags_in, Overlaid.is_field_known, Overlaid.overlaid, Pulling.IsPulled, Pulling.IsTrueOfFrames};
ghost use Rattle.of_symbolic.specs.Tags.{PopsOwn};

/// After rewriting actions a frame has the view that they make of its view before (OpenFlow 1.3.5, 5.12).
///
/// `frame`: it stays a frame, so that other actions may follow. `vid`: the view of a frame is one that the contract of `pull` is about.
pub fn rewritten_frames_have_views()
    ensures view { (actions : List Action) (frame : List ℕ) (v : View) → IsFrame frame → AreRewriting actions → IsView v frame →
        IsView (view_of_actions actions v) (frame_of_actions actions frame) }
    ensures frame { (actions : List Action) (frame : List ℕ) → IsFrame frame → AreRewriting actions → IsFrame (frame_of_actions actions frame) }
    ensures vid { (frame : List ℕ) (v : View) → IsFrame frame → IsView v frame → HasVids v }
{}

/// What an overlay says about a packet is so, for each frame that came in.
///
/// `fields`: so the fields that a lookup of the packet compares are known, except those of an unknown tag (OpenFlow 1.3.5, 5.3).
/// `tag`: if nothing is known of the tag of that frame, a POP_VLAN met no pushed tag.
/// `back`: PUSH_VLAN and then POP_VLAN leave what was known before.
pub fn overlays_show_views()
    ensures view { (o : Overlay) (actions : List Action) (v : View) → IsOverlay o actions → Shows (value o.set) (tags_in o) v (view_of_actions actions v) }
    ensures fields { (o : Overlay) (actions : List Action) (v : View) (port metadata : ℕ) (f : Field) → IsOverlay o actions → is_field_known o f ≡ true →
        fields_seen (view_of_actions actions v) port metadata f ≡ overlaid o metadata (fields_seen v port 0) v.tags f }
    ensures tag { (o : Overlay) (actions : List Action) → IsOverlay o actions → o.own ≡ None → PopsOwn o.inner actions }
    ensures back { (o : Overlay) (actions : List Action) (type : ℕ) → IsOverlay o actions → IsOverlay o (actions ++ PushVlan type ∷ PopVlan ∷ []) }
{}

/// What `pull` returns is true of frames: a lookup of the packet, after the actions and with its metadata, matches as it says about the description
/// of the frame that came in.
pub fn pulled_matches_are_of_frames()
    ensures { (told : Bool) (actions : List Action) (metadata : ℕ) (m : List MatchField) (pulled : Pulled) →
        AreRewriting actions → IsPulled told actions metadata m pulled → IsTrueOfFrames told actions metadata m pulled }
{}
