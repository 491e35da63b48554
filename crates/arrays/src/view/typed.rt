//! What every view knows of its items.

ghost use Rattle.std.specs.Prelude.{All, ◌≡◌, false, ℕ};
ghost use Rattle.types.specs.Number.{number_at, IsOfType};
ghost use Rattle.arrays.specs.Lengths.{is_too_big};
ghost use Rattle.arrays.specs.Typed.{IsItemOf};

use crate::view::{View, ViewType};
use types::{IntType, OffsetWidth};

impl<'a> View<'a> {
    /// Says that each item is null or of the view's kind, a text in UTF-8, and that the bytes of texts and the items of
    /// lists are no more than may be. Nothing is looked at, and nothing changes.
    pub fn tell_items(&self)
        ensures typed { All (IsItemOf self.now.kind) self.now.items }
        ensures few { is_too_big self.now.kind self.now.items ≡ false }
    {
        match self.ty() {
            ViewType::Int(ty) => tell_range(ty, self.numbers(ty)),
            ViewType::Bool => {
                let _ = self.bool_bits();
            }
            ViewType::Text(width) => {
                let _ = self.texts(width);
            }
            ViewType::List(_, _) => self.lists().child.tell_items(),
            ViewType::Dict => {
                let _ = self.codes();
                let _ = self.entries().texts(OffsetWidth::Narrow);
            }
        }
    }
}

/// Says that the numbers that lie in bytes are of their type.
fn tell_range(ty: IntType, numbers: &[u8])
    ensures { (j : ℕ) → IsOfType ty (number_at ty numbers.now j) }
{
    let _ = (ty.signed, numbers.is_empty());
}
