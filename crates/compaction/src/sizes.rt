//! How much texts and lists hold, counted without memory.

ghost use Rattle.std.specs.Prelude.{◌≡◌, ◌+◌, ◌<◌, ◌≤◌, true, length, IfNone, IfSome};
ghost use Rattle.arrays.specs.Kind as kind;
ghost use Rattle.arrays.specs.Prelude.{depth, inner_items, is_list, is_past, most_slots, text_bytes};
ghost use Rattle.compaction.specs.Sizes.{levels, size_at};

use arrays::{MOST_SLOTS, OffsetWidth, View, ViewType};

/// At how many levels a view may hold too much: those of its lists, of the lists in them, and of the texts with offsets of
/// 32 bits.
pub(crate) fn levels(view: &View<'_>) -> usize
    ensures count { result ≡ levels view.now.kind }
    ensures few { result ≤ depth view.now.kind + 1 }
{
    match view.ty() {
        ViewType::Text(OffsetWidth::Narrow) => 1,
        ViewType::List(_, _) => 1 + levels(&view.lists().child),
        ViewType::Int(_) | ViewType::Bool | ViewType::Text(OffsetWidth::Wide) | ViewType::Dict => 0,
    }
}

/// `before`, and how much a view holds at a level. None where that is past what offsets count.
pub(crate) fn with_size(view: &View<'_>, level: usize, before: usize) -> Option<usize>
    requires { before ≤ most_slots }
    ensures some { IfSome result (λ n. (n ≡ before + size_at view.now.kind level view.now.items) × (n ≤ most_slots)) }
    ensures none { IfNone result (is_past (before + size_at view.now.kind level view.now.items) ≡ true) }
{
    match view.ty() {
        ViewType::Text(OffsetWidth::Narrow) if level == 0 => with_bytes(view, before),
        ViewType::List(_, _) if level == 0 => with_items(view, before),
        ViewType::List(_, _) => {
            let mut size = before;
            for i in 0..view.len() {
                if let Some(list) = view.list_at(i) {
                    size = with_size(&list, level - 1, size)?;
                }
            }
            Some(size)
        }
        _ => Some(before),
    }
}

/// The same of the bytes of texts.
fn with_bytes(view: &View<'_>, before: usize) -> Option<usize>
    requires kind { view.now.kind ≡ kind.utf8 }
    requires few { before ≤ most_slots }
    ensures some { IfSome result (λ n. (n ≡ before + text_bytes view.now.items) × (n ≤ most_slots)) }
    ensures none { IfNone result (is_past (before + text_bytes view.now.items) ≡ true) }
{
    let mut bytes = before;
    for i in 0..view.len() {
        if let Some(text) = view.text_as(OffsetWidth::Narrow, i) {
            bytes = sum_of(bytes, text.len())?;
        }
    }
    Some(bytes)
}

/// The same of the items of lists.
fn with_items(view: &View<'_>, before: usize) -> Option<usize>
    requires kind { is_list view.now.kind ≡ true }
    requires few { before ≤ most_slots }
    ensures some { IfSome result (λ n. (n ≡ before + length (inner_items view.now.items)) × (n ≤ most_slots)) }
    ensures none { IfNone result (is_past (before + length (inner_items view.now.items)) ≡ true) }
{
    let mut items = before;
    for i in 0..view.len() {
        if let Some(list) = view.list_at(i) {
            items = sum_of(items, list.len())?;
        }
    }
    Some(items)
}

/// The sum, none where it is past what offsets count.
fn sum_of(before: usize, more: usize) -> Option<usize>
    requires { before ≤ most_slots }
    ensures some { IfSome result (λ n. (n ≡ before + more) × (n ≤ most_slots)) }
    ensures none { IfNone result (is_past (before + more) ≡ true) }
{
    if more > MOST_SLOTS - before {
        return None;
    }
    Some(before + more)
}
