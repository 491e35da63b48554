//! The ids of the keys of another set.

ghost use Rattle.std.specs.Prelude.{◌≡◌, OnOk};
ghost use Rattle.keys.specs.Keys.{AreIds, with_keys};

use crate::key_set::KeySet;
use arrays::NoMemory;

/// Puts the id of each key of the other set in place of what was there. A key that is new is put at the end.
pub fn intern_keys(
    keys: &mut KeySet<'_>,
    ids: &mut Vec<usize>,
    others: &KeySet<'_>,
) -> Result<(), NoMemory>
    ensures keys { OnOk result (keys.new ≡ with_keys keys.old others.now) }
    ensures ids { OnOk result (AreIds keys.new others.now ids.new.items) }
{
    ids.clear();
    ids.reserve(others.len())?;
    for place in 0..others.len() {
        ids.push(keys.intern_key(others, place)?)?;
    }
    Ok(())
}
