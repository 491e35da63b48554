//! Texts one after the other.

ghost use Rattle.std.specs.Prelude.{◌≡◌, ◌≤◌, IfErr, IfOk, length};
ghost use Rattle.std.specs.List.{All};
ghost use Rattle.arrays.specs.Kind as kind;
ghost use Rattle.arrays.specs.Prelude.{Seen, is_full, joined_items, most_slots, shown, text_bytes};
ghost use Rattle.select.specs.Fault.{IsFull};

use crate::fault::SelectFault;
use arrays::{Array, OffsetWidth, TextBuilder, View};
use std::alloc::Global;

/// The texts of views without a dictionary whose offsets are of this width, which have so many slots together.
pub(super) fn join(
    alloc: Global,
    width: OffsetWidth,
    views: &[View<'_>],
    slots: usize,
) -> Result<Array, SelectFault>
    requires kinds { All (λ (s : Seen). s.kind ≡ kind.texts width) views.now }
    requires slots { slots ≡ length (joined_items views.now) }
    requires short { slots ≤ most_slots }
    ensures ok { IfOk result (λ r. r ≡ shown (kind.texts width) (joined_items views.now)) }
    ensures err { IfErr result (IsFull (is_full width (text_bytes (joined_items views.now)))) }
{
    let mut all = TextBuilder::with_capacity(alloc, width, slots, 0)?;
    for view in views {
        all = all.extended(&view.texts(width))?;
    }
    Ok(all.finish()?)
}
