//! Dictionary-encoded views, whose codes are found once.

ghost use Rattle.std.specs.Prelude.{◌≡◌, ◌<◌, IfSome, Some, length, option_map, pos, slice_get};
ghost use Rattle.arrays.specs.Prelude.{item_of, looked_up};

use arrays::validity::is_valid;
use arrays::{Bits, INT32, View, ViewType, natural_at};
use std::marker::Model;

/// A dictionary-encoded view, whose codes are found once and not at each row.
#[derive(Drop)]
pub(crate) struct CodedView<'a, 'b> {
    view: &'a View<'b>,
    numbers: &'b [u8],
    validity: Option<Bits<'b>>,
}

impl<'a, 'b> Model for CodedView<'a, 'b> {
    ghost use Rattle.arrays.specs.Prelude.{Seen, seen_code};
    ghost use Rattle.pool.specs.CodedViews.{HasCodes};

    ghost Value = { Seen };

    ghost coded = { seen_code };

    ghost view = { λ c. c.view.now };

    ghost invariant = { λ c. HasCodes c.numbers.now c.validity c.view.now };
}

impl<'a, 'b> CodedView<'a, 'b> {
    /// The view, none without a dictionary.
    pub(crate) fn of(view: &'a View<'b>) -> Option<CodedView<'a, 'b>>
        ensures { IfSome result (λ c. c ≡ view.now) }
    {
        let ViewType::Dict = view.ty() else {
            return None;
        };
        Some(CodedView {
            view,
            numbers: view.codes().numbers(INT32),
            validity: view.validity(),
        })
    }

    /// The entry that slot `i` names, none where the slot isn't valid.
    #[inline(always)]
    pub(crate) fn code_at(&self, i: usize) -> Option<usize>
        requires { i < length self.now.items }
        ensures item { slice_get self.now.items i
            ≡ Some (looked_up self.now.entries.items (item_of (option_map pos result))) }
        ensures entry { IfSome result (λ c. c < length self.now.entries.items) }
    {
        if !is_valid(&self.validity, i) {
            return None;
        }
        Some(natural_at(self.numbers, i))
    }
}
