//! Lists that grow.
ghost use Rattle.std.specs.Prelude.{◌≡◌, ◌++◌, OnOk};
ghost use Rattle.of_ovs_words.specs.Outcomes.{one};

use std::alloc::AllocError;

/// Appends an item, if there is one.
pub fn push_one<T: Drop>(list: &mut Vec<T>, item: Option<T>) -> Result<(), AllocError>
    ensures { OnOk result (list.new.items ≡ list.old.items ++ one item) }
{
    if let Some(item) = item {
        list.push(item)?;
    }
    Ok(())
}
