//! What is known of one field.
ghost use Rattle.std.specs.Prelude.{◌≡◌, ◌≤◌, ℕ, Option, None, IfNone, IfSome, bit_and};
ghost use Rattle.of_layers.specs.Fields.{ones_of};
ghost use Rattle.of_headers.specs.FieldMap.{seen};
ghost use Rattle.of_frames.specs.{Rules.Obeys, declared.shape.Rule.TheVariants.Free};
ghost use Rattle.of_regions.specs.Joining.{IsAsked, IsRule, Joined};

use of_frames::Rule;

/// What is known of a field: its mask and its bits under the mask, if it is there.
#[derive(Clone, Copy)]
pub struct Bits {
    pub mask: Option<u128>,
    pub known: Option<u128>,
}

/// What is known of a field that obeys a rule, and of which a match asks these bits under this mask. None if no field does both.
pub fn joined(rule: Rule, mask: Option<u128>, asked: Option<u128>, ones: u128) -> Option<Bits>
    requires rule { IsRule ones rule }
    requires asked { IsAsked ones mask asked }
    requires free { rule ≡ Free → mask ≡ None }
    ensures some { IfSome result (Joined ones rule mask asked) }
    ensures none { IfNone result ((o : Option ℕ) → seen mask o ≡ asked → Obeys rule o → ⊥) }
{
    match (rule, mask, asked) {
        (Rule::Free, _, _) => Some(Bits {
            mask: None,
            known: None,
        }),
        (Rule::Absent, None, _) => Some(Bits {
            mask: Some(0),
            known: None,
        }),
        (Rule::Absent, Some(_), _) => None,
        (Rule::Under(bits, said), Some(mask), Some(asked)) => {
            if asked & bits == said & mask {
                return Some(Bits {
                    mask: Some(mask | bits),
                    known: Some(asked | said),
                });
            }
            None
        }
        (Rule::Under(bits, said), _, _) => Some(Bits {
            mask: Some(bits),
            known: Some(said),
        }),
    }
}
