//! The places of the entries of a table, by their numbers.

use crate::entry::Entry;

/// Notes the places of the entries from that place on. One for which there is no memory is searched for.
pub(crate) fn note_places(places: &mut Vec<usize>, entries: &[Entry], from: usize) {
    for place in from..entries.len() {
        let number = entries[place].number;
        if number < places.len() {
            places[number] = place;
        } else if number == places.len() {
            let _ = places.push(place);
        }
    }
}
