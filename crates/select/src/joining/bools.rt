//! Truth values one after the other.

ghost use Rattle.std.specs.Prelude.{◌≡◌, ◌+◌, ◌++◌, ◌≤◌, IfOk, OnOk, length};
ghost use Rattle.std.specs.List.{All};
ghost use Rattle.arrays.specs.Kind as kind;
ghost use Rattle.arrays.specs.Prelude.{Seen, joined_items, most_slots, shown};

use arrays::{Array, BoolBuilder, NoMemory, View};
use std::alloc::Global;

/// The truth values of views, which have so many slots together.
pub(super) fn join(alloc: Global, views: &[View<'_>], slots: usize) -> Result<Array, NoMemory>
    requires kinds { All (λ (s : Seen). s.kind ≡ kind.boolean) views.now }
    requires slots { slots ≡ length (joined_items views.now) }
    requires short { slots ≤ most_slots }
    ensures { IfOk result (λ r. r ≡ shown kind.boolean (joined_items views.now)) }
{
    let mut builder = BoolBuilder::with_capacity(alloc, slots)?;
    for view in views {
        push_all(&mut builder, view)?;
    }
    builder.finish()
}

/// Adds all slots of a view at the end.
fn push_all(builder: &mut BoolBuilder, view: &View<'_>) -> Result<(), NoMemory>
    requires kind { view.now.kind ≡ kind.boolean }
    requires room { length builder.old + length view.now.items ≤ most_slots }
    ensures { OnOk result (builder.new ≡ builder.old ++ view.now.items) }
{
    for i in 0..view.len() {
        builder.push(view.bool_at(i))?;
    }
    Ok(())
}
