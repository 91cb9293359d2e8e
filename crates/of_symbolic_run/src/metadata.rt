//! Conditions about METADATA.
ghost use Rattle.std.specs.{Prelude.◌≡◌, List.list_any};
ghost use Rattle.of_symbolic_run.specs.FrameSets.{is_about_metadata};

use of_headers::Field;
use of_oxm::MatchField;

fn is_about(e: &MatchField) -> bool
    ensures { result ≡ is_about_metadata e.now }
{
    matches!(e.field, Field::Metadata)
}

/// Whether some condition is about METADATA. That is 0 for each frame that comes in; where descriptions of frames tell inner tags by it, other
/// conditions match the description of a frame exactly if they match the frame.
pub fn any_about_metadata(fields: &[MatchField]) -> bool
    ensures { result ≡ list_any is_about_metadata fields.now }
{
    fields.iter().any(is_about)
}
