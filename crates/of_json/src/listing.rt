//! Items with commas between them.
ghost use Rattle.std.specs.Prelude.{◌≡◌, ◌++◌, ◌∷◌, ℕ, List, OnOk};
ghost use Rattle.std.specs.List.{flat_map};
ghost use Rattle.of_values.specs.Each.{AppendsEach};
ghost use Rattle.of_json.specs.{Parts.listed, Strings.array_member};

use crate::strings::begin_array;
use std::alloc::AllocError;

// Appends items, with a comma before each.
fn push_further<T, F: Fn(&mut Vec<u8>, &T) -> Result<(), AllocError>>(
    out: &mut Vec<u8>,
    items: &[T],
    push: &F,
) -> Result<(), AllocError>
    requires { F.IsAlwaysCallable push.now }
    ensures { (text : T → List ℕ) → AppendsEach (F.post push.now) text → OnOk result (out.new.items ≡ out.old.items ++ flat_map (λ x. 44 ∷ text x) items.now) }
{
    for item in items {
        out.push(b',')?;
        push(out, item)?;
    }
    Ok(())
}

/// Appends items, with commas between them. `push` appends the text of an item.
pub fn push_listed<T, F: Fn(&mut Vec<u8>, &T) -> Result<(), AllocError>>(
    out: &mut Vec<u8>,
    items: &[T],
    push: F,
) -> Result<(), AllocError>
    requires { F.IsAlwaysCallable push }
    ensures { (text : T → List ℕ) → AppendsEach (F.post push) text → OnOk result (out.new.items ≡ out.old.items ++ listed text items.now) }
{
    match items {
        [] => Ok(()),
        [first, others @ ..] => {
            push(out, first)?;
            push_further(out, others, &push)
        }
    }
}

/// Appends a further member: an array of items. `push` appends the text of an item.
#[tactic(auto, unfolding(crate::specs::Strings::array_member))]
pub fn push_array_member<T, F: Fn(&mut Vec<u8>, &T) -> Result<(), AllocError>>(
    out: &mut Vec<u8>,
    name: &[u8],
    items: &[T],
    push: F,
) -> Result<(), AllocError>
    requires { F.IsAlwaysCallable push }
    ensures { (text : T → List ℕ) → AppendsEach (F.post push) text →
        OnOk result (out.new.items ≡ out.old.items ++ array_member name.now (listed text items.now)) }
{
    begin_array(out, name)?;
    push_listed(out, items, push)?;
    out.push(b']')?;
    Ok(())
}
