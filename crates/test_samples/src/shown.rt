//! What slots hold, as tables of cases say it.

use crate::results::has_validity_only_where_null;
use crate::slots::{
    Numbers, has_offsets, shows_bools, shows_encoded, shows_lists, shows_numbers, shows_texts,
};
use arrays::{Array, View, ViewType};

/// The texts of slots, none where a slot is null.
type Texts = &'static [Option<&'static str>];

/// What the slots of a view hold.
#[derive(Clone, Copy)]
pub enum Shown {
    Numbers(&'static [Option<i128>]),
    Bools(&'static [Option<bool>]),
    /// Texts without a dictionary, whatever the width of their offsets.
    Texts(Texts),
    /// Texts in a dictionary, whatever their codes are.
    Named(Texts),
    /// Codes, the entries of their dictionary, and the texts of both.
    Encoded(&'static [Option<i128>], Texts, Texts),
    Lists(&'static [Numbers<'static>]),
    ListsOfLists(&'static [Option<&'static [Numbers<'static>]>]),
}

/// Whether this is what the slots of a view hold.
pub fn shows(view: &View<'_>, shown: Shown) -> bool {
    match shown {
        Shown::Numbers(numbers) => shows_numbers(view, numbers),
        Shown::Bools(bools) => shows_bools(view, bools),
        Shown::Texts(texts) => matches!(view.ty(), ViewType::Text(_)) && shows_texts(view, texts),
        Shown::Named(texts) => view.ty().is_same(ViewType::Dict) && shows_texts(view, texts),
        Shown::Encoded(codes, entries, texts) => shows_encoded(view, codes, entries, texts),
        Shown::Lists(lists) => shows_lists(view, lists),
        Shown::ListsOfLists(lists) => shows_lists_of_lists(view, lists),
    }
}

/// Whether the slots of a view hold these lists of lists.
fn shows_lists_of_lists(view: &View<'_>, lists: &[Option<&[Numbers<'_>]>]) -> bool {
    let ViewType::List(_, _) = view.ty() else {
        return false;
    };
    if view.len() != lists.len() {
        return false;
    }
    let mut nulls = 0usize;
    for (i, list) in lists.iter().enumerate() {
        let is_same = match (view.list_at(i), list) {
            (Some(items), Some(inner)) => shows_lists(&items, *inner),
            (None, None) => true,
            _ => false,
        };
        if !is_same || view.holds(i) != list.is_some() {
            return false;
        }
        nulls = nulls.wrapping_add(usize::from(list.is_none()));
    }
    view.null_count() == nulls
}

/// Whether a result holds this, and has a bitmap only where a slot is null.
pub fn is_result(column: &Array, shown: Shown) -> bool {
    let view = column.view();
    shows(&view, shown) && has_validity_only_where_null(&view)
}

/// The offsets of lists, and how many items their child has: of the outermost first, and then of their items.
pub type Layers = &'static [(&'static [usize], usize)];

/// Whether the lists of a view begin and end there, from the outermost on.
pub fn has_layers(view: &View<'_>, layers: Layers) -> bool {
    let mut lists = view.slice(0, view.len());
    for (offsets, items) in layers {
        let ViewType::List(_, _) = lists.ty() else {
            return false;
        };
        let child = lists.lists().child;
        if child.len() != *items || !has_offsets(&lists, *offsets) {
            return false;
        }
        if !has_validity_only_where_null(&child) {
            return false;
        }
        lists = child;
    }
    true
}
