//! What the tables of words say as a whole.
ghost use Rattle.std.specs.{Prelude.◌≡◌, Prelude.is_some, Prelude.true, List.list_all};
ghost use Rattle.of_layers.specs.declared.field.TheConstants.Field.{ALL};
ghost use Rattle.of_ovs_words.specs.FieldWords.{word_for};

/// Each field has a word, so no field is written as an empty text.
#[tactic(auto, unfolding(crate::specs::FieldWords::word_for, crate::specs::Settings::field_for))]
pub fn each_field_has_a_word()
    ensures { list_all (λ field. is_some (word_for field)) ALL ≡ true }
{}
