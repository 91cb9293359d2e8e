//! Which answers may be kept, and what meets a region.
ghost use Rattle.std.specs.Prelude.{◌≡◌, ◌++◌, ℕ, List, [], ◌∷◌, Option, IsTrue, true};
ghost use Rattle.of_layers.specs.declared.field.Field.{Field as AField};
ghost use Rattle.of_headers.specs.{declared.key.FieldKey.FieldKey as AKey, FieldMap.value, FieldMap.seen};
ghost use Rattle.of_wire.specs.Numbered.{is_distinct, without, moved_to_end};
ghost use Rattle.of_oxm.specs.{NormalForm.IsMatch, Relations.IsWithinBits, Relations.matches_map, Masks.mask_at, Masks.Agree, declared.match_field.MatchField.MatchField as AMatchField};
ghost use Rattle.of_oxm.specs.declared.masks.FieldMask.{FieldMask as AMask};
ghost use Rattle.of_classifier.specs.{declared.Row.Row as AnEntry, Rows.row_number, Rows.made_row, Winner.winner_of, Scanning.pair_of};
ghost use Rattle.of_cache.specs.Regions.{AnsweredRegion, Holds, IsRegion, meets, region_of};
ghost use Rattle.of_cache.specs.Histories.{CacheCall, Decide, AreOfMatches, AnswersCalls, answers_of};
ghost use Rattle.of_cache.specs.{declared.region.Region.Region as ARegion, Kept.IsSoundRegion, Kept.AreSoundRegions, Kept.not_answering, Kept.not_beaten};

/// A region holds exactly the field maps that agree under its mask with one that it holds.
pub fn regions_are_agreement()
    ensures agree { (region : ARegion) (key map : AField → Option ℕ) → Holds region key → Holds region map → Agree (mask_at region.mask) map key }
    ensures hold { (region : ARegion) (key map : AField → Option ℕ) → Holds region key → Agree (mask_at region.mask) map key → Holds region map }
{}

/// A match meets a region exactly where it matches some field map of the region.
pub fn meeting_is_common_map()
    ensures common { (m : List AMatchField) (region : ARegion) → IsMatch m → IsRegion region → IsWithinBits (mask_at region.mask) → meets m region ≡ true →
        (map : AField → Option ℕ) × IsWithinBits map × Holds region map × (matches_map m map ≡ true) }
    ensures meets { (m : List AMatchField) (region : ARegion) (map : AField → Option ℕ) → IsMatch m → Holds region map → matches_map m map ≡ true →
        meets m region ≡ true }
{}

/// Rows that are right stay right where an entry is added, removed or renewed, but for those that go.
pub fn rows_stay_sound()
    ensures added { (content : List AnEntry) (rows : List AnsweredRegion) (number priority : ℕ) (m : List AMatchField) → IsMatch m →
        AreSoundRegions content rows → AreSoundRegions (content ++ made_row number priority m ∷ []) (not_beaten m priority rows) }
    ensures removed { (content : List AnEntry) (rows : List AnsweredRegion) (number : ℕ) →
        AreSoundRegions content rows → AreSoundRegions (without row_number number content) (not_answering number rows) }
    ensures renewed { (content : List AnEntry) (rows : List AnsweredRegion) (number : ℕ) →
        AreSoundRegions content rows → AreSoundRegions (moved_to_end row_number number content) (not_answering number rows) }
{}

/// A key under a mask is a region with one answer, if all that agree with the key under the mask have its winner.
pub fn fresh_row_is_sound()
    ensures { (content : List AnEntry) (mask : AMask) (key : AField → Option ℕ) (masked : AKey) →
        ((map : AField → Option ℕ) → Agree (mask_at mask) map key → winner_of content map ≡ winner_of content key) →
        ((f : AField) → value masked f ≡ seen (mask_at mask f) (key f)) →
        IsSoundRegion content (region_of mask masked, pair_of (winner_of content key)) × IsRegion (region_of mask masked) }
{}

/// A cache of any capacity answers as the plain list of its entries does, whatever calls came before and whichever rows were
/// kept of what was looked up.
pub fn any_history_answers_as_the_list()
    ensures { (looked : List AnEntry → (AField → Option ℕ) → AField → Option ℕ) (capacity : ℕ) (calls : List CacheCall) (answers : List (Option (ℕ × ℕ))) →
        Decide looked → AreOfMatches calls → AnswersCalls looked capacity calls [] [] answers → answers ≡ answers_of calls [] }
{}
