//! What a dictionary-encoded array has beside its codes.

ghost use Rattle.std.specs.Prelude.{◌≡◌, true};
ghost use Rattle.std.specs.Arc.{arc_value};
ghost use Rattle.types.specs.Kind.{dict, kind_of, same_kind};

use crate::words::Words;
use std::sync::Arc;
use types::DataType;

/// The type of a dictionary-encoded array, and its dictionary.
#[derive(Drop)]
pub(crate) struct Encoding {
    pub(crate) ty: DataType,
    pub(crate) words: Arc<Words>,
    ghost is_dict: { same_kind (kind_of ty) dict ≡ true },
}

impl Encoding {
    /// By the texts of the dictionary.
    pub(super) fn of(words: Arc<Words>) -> Encoding
        ensures { arc_value result.words ≡ arc_value words }
    {
        Encoding {
            ty: DataType::Dict,
            words,
        }
    }
}
