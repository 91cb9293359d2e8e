//! What the rivals of a match do with a region that is left.
ghost use Rattle.std.specs.List.{Contains};
ghost use Rattle.of_regions.specs.{declared.rival.Rival.Rival as TheRival, Conditions.AreConditions, Searching.AreApartBefore, Searching.IsLook};

use crate::meeting::Meeting;
use crate::region::Region;
use crate::rival::Rival;
use of_oxm::MatchField;

/// A region that is left. None of the rivals before an index matches any of it.
#[derive(Clone, Copy)]
pub struct Rest {
    pub region: Region,
    pub from: usize,
}

/// What rivals do with a region.
#[derive(Clone, Copy)]
pub enum Look {
    /// None matches any of it.
    Free,
    /// That of this index matches all of it.
    Taken(usize),
    /// That of this index is the first that may match some of it: this field of its match looks at a bit that is not known.
    Splits(usize, MatchField),
}

/// What rivals do with a region. One that matches all of it comes before one that may match some.
pub fn look_at(rivals: &[Rival<'_>], rest: &Rest) -> Look
    requires passed { AreApartBefore rivals.now rest.now.region rest.now.from }
    requires conditions { (q : TheRival) → Contains rivals.now q → AreConditions q.fields.now }
    ensures { IsLook rivals.now rest.now.region result }
{
    let mut split = None;
    for index in rest.from..rivals.len() {
        let rival = rivals[index];
        match rest.region.meet(rival.fields) {
            Meeting::Apart => {}
            Meeting::Whole => return Look::Taken(index),
            Meeting::Crosses(e) => split = split.or(Some((index, e))),
        }
    }
    match split {
        None => Look::Free,
        Some((index, e)) => Look::Splits(index, e),
    }
}
