//! What the frames are that words say.
ghost use Rattle.std.specs.Prelude.{◌≡◌, ℕ, false, List, [], Ok};
ghost use Rattle.of_oxm.specs.declared.match_field.MatchField.{MatchField};
ghost use Rattle.of_ovs_words.specs.Words.{words_from};
ghost use Rattle.of_frame_words.specs.{Frames.Has, Frames.ReceivedFrame, Frames.frame_in_words, Said.with_setting_words};

/// The frame that words say has the fields that they say, as a match of the same words would ask for them, and 0 in each other field that it has
/// (OpenFlow 1.3.5, 7.2.3.7). It is received at the port that they say, or else at the one that is given.
pub fn frames_have_what_words_say()
    ensures { (port : ℕ) (text : List ℕ) (settings : List MatchField) (r : ReceivedFrame) → with_setting_words false [] (words_from 0 text) ≡ Ok settings →
        frame_in_words port text ≡ Ok r → Has port settings r }
{}
