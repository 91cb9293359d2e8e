//! Which classes are told.
ghost use Rattle.std.specs.Prelude.{◌≡◌, filter, length};
ghost use Rattle.of_paths_report.specs.Destinations.{is_class_leading, is_class_shown};

use of_paths::{Destination, PathClass};

// Whether the frames of a class go there.
fn leads_there(class: &PathClass, to: Destination) -> bool
    ensures { result ≡ is_class_leading to class.now }
{
    to.is_reached_by(&class.items)
}

/// Whether the frames of a class go to the place that is asked for, if one is.
pub fn is_shown(class: &PathClass, to: Option<Destination>) -> bool
    ensures { result ≡ is_class_shown to class.now }
{
    match to {
        None => true,
        Some(to) => leads_there(class, to),
    }
}

/// How many classes lead there.
pub fn count_leading(classes: &[PathClass], to: Destination) -> usize
    ensures { result ≡ length (filter (is_class_leading to) classes.now) }
{
    classes
        .iter()
        .filter(|class| leads_there(class, to))
        .count()
}
