//! Slots of views, and what they show.

ghost use Rattle.std.specs.Prelude.{◌≡◌, ◌+◌, length};

use arrays::{Array, OffsetWidth, Offsets, View, ViewType};

/// So many slots of an array, from one on, as far as they are there.
pub fn slots_of(array: &Array, start: usize, len: usize) -> View<'_> {
    let view = array.view();
    let start = start.min(view.len());
    view.slice(start, len.min(view.len() - start))
}

/// Whether the slots of a view hold these numbers, and as many are counted as null.
pub fn shows_numbers(view: &View<'_>, numbers: &[Option<i128>]) -> bool {
    let ViewType::Int(_) = view.ty() else {
        return false;
    };
    if view.len() != numbers.len() {
        return false;
    }
    let mut nulls = 0usize;
    for (i, number) in numbers.iter().enumerate() {
        if view.int_at(i) != *number || view.holds(i) != number.is_some() {
            return false;
        }
        nulls = nulls.wrapping_add(usize::from(number.is_none()));
    }
    view.null_count() == nulls
}

/// Whether the slots of a view hold these truth values, and as many are counted as null.
pub fn shows_bools(view: &View<'_>, bools: &[Option<bool>]) -> bool {
    let ViewType::Bool = view.ty() else {
        return false;
    };
    if view.len() != bools.len() {
        return false;
    }
    let mut nulls = 0usize;
    for (i, value) in bools.iter().enumerate() {
        if view.bool_at(i) != *value || view.holds(i) != value.is_some() {
            return false;
        }
        nulls = nulls.wrapping_add(usize::from(value.is_none()));
    }
    view.null_count() == nulls
}

/// Whether the slots of a view hold these texts, in a dictionary or not.
pub fn shows_texts(view: &View<'_>, texts: &[Option<&str>]) -> bool {
    let (ViewType::Text(_) | ViewType::Dict) = view.ty() else {
        return false;
    };
    if view.len() != texts.len() {
        return false;
    }
    let mut nulls = 0usize;
    for (i, text) in texts.iter().enumerate() {
        if view.text_at(i) != *text || view.holds(i) != text.is_some() {
            return false;
        }
        nulls = nulls.wrapping_add(usize::from(text.is_none()));
    }
    // A slot of a dictionary may name a null, and isn't one itself then.
    view.null_count() == nulls || view.ty().is_same(ViewType::Dict)
}

/// Whether a view holds these codes, into a dictionary of these entries, and with them these texts.
pub fn shows_encoded(
    view: &View<'_>,
    codes: &[Option<i128>],
    entries: &[Option<&str>],
    texts: &[Option<&str>],
) -> bool {
    let ViewType::Dict = view.ty() else {
        return false;
    };
    let found = view.codes();
    shows_numbers(&found, codes)
        && view.null_count() == found.null_count()
        && shows_texts(&view.entries(), entries)
        && shows_texts(view, texts)
}

/// The numbers of a list, none where it is null.
pub type Numbers<'a> = Option<&'a [Option<i128>]>;

/// Whether the slots of a view hold these lists of numbers, and as many are counted as null.
pub fn shows_lists(view: &View<'_>, lists: &[Numbers<'_>]) -> bool {
    let ViewType::List(_, _) = view.ty() else {
        return false;
    };
    if view.len() != lists.len() {
        return false;
    }
    let mut nulls = 0usize;
    for (i, list) in lists.iter().enumerate() {
        let is_same = match (view.list_at(i), list) {
            (Some(items), Some(numbers)) => shows_numbers(&items, *numbers),
            (None, None) => true,
            _ => false,
        };
        if !is_same || view.holds(i) != list.is_some() {
            return false;
        }
        nulls = nulls.wrapping_add(usize::from(list.is_none()));
    }
    view.null_count() == nulls
}

/// Whether these are the offsets of a view of texts or lists.
pub fn has_offsets(view: &View<'_>, offsets: &[usize]) -> bool {
    match view.ty() {
        ViewType::Text(width) => {
            let texts = view.texts(width);
            are_same(&texts.offsets, texts.slots, offsets)
        }
        ViewType::List(_, _) => {
            let lists = view.lists();
            are_same(&lists.offsets, lists.slots, offsets)
        }
        _ => false,
    }
}

/// Whether the offsets of so many slots are these.
fn are_same(offsets: &Offsets<'_>, slots: u32, others: &[usize]) -> bool
    requires { length offsets.now ≡ slots + 1 }
{
    if others.len() != slots as usize + 1 {
        return false;
    }
    for (i, other) in others.iter().enumerate() {
        if offsets.get(i) != *other {
            return false;
        }
    }
    true
}

/// Whether a view is of texts or lists whose offsets are of this width.
pub fn has_width(view: &View<'_>, width: OffsetWidth) -> bool {
    match view.ty() {
        ViewType::Text(own) => own == width,
        ViewType::List(own, _) => own == width,
        _ => false,
    }
}

/// Whether the items of lists have this name, and are nullable or not.
pub fn has_item(view: &View<'_>, name: &str, nullable: bool) -> bool {
    match view.ty() {
        ViewType::List(_, item) => item.name.as_str() == name && item.nullable == nullable,
        _ => false,
    }
}
