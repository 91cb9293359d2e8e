//! What is appended for each item of a list.
ghost use Rattle.std.specs.Prelude.{◌≡◌, ◌++◌, List, OnOk};
ghost use Rattle.std.specs.List.{flat_map};
ghost use Rattle.of_values.specs.Each.{AppendsEach};

use std::alloc::AllocError;

/// Appends what `push` appends for each item, in their order.
pub fn push_each<T, U, F: Fn(&mut Vec<U>, &T) -> Result<(), AllocError>>(
    out: &mut Vec<U>,
    items: &[T],
    push: F,
) -> Result<(), AllocError>
    requires { F.IsAlwaysCallable push }
    ensures { (text : T → List U) → AppendsEach (F.post push) text → OnOk result (out.new.items ≡ out.old.items ++ flat_map text items.now) }
{
    for item in items {
        push(out, item)?;
    }
    Ok(())
}
