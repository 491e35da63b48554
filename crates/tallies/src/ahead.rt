//! Room for what is likely to come.

ghost use Rattle.std.specs.Prelude.{◌≡◌};

/// The most items for which there is room before they come.
const MOST: usize = 1 << 17;

/// Where there is no room for so many items, makes room for eight times as many, so that few are copied when more come. Room that isn't
/// used takes addresses alone. Where it was refused, nothing is changed.
pub(crate) fn make_room<T>(items: &mut Vec<T>, count: usize)
    ensures { items.new.items ≡ items.old.items }
{
    if items.capacity() < count {
        let ahead = count.saturating_mul(8).min(MOST);
        let _refused = items.reserve(ahead.saturating_sub(items.len())).is_err();
    }
}
