//! The parts of an array, for whoever hands them on as Arrow lays them out.

ghost use Rattle.std.specs.Prelude.{◌≡◌, option_map};
ghost use Rattle.std.specs.Arc.{arc_value};
ghost use Rattle.arrays.specs.Lent.{read_lent};
ghost use Rattle.arrays.specs.Parts.{read_alone};
ghost use Rattle.types.specs.Kind.{Kind};

use crate::array::parts::Parts;
use crate::words::Words;
use colbits::Buffer;
use layout::RawArray;
use std::sync::Arc;

/// The parts of a lawful array, lent. (Arrow columnar format, "Buffer Listing for Each Layout")
#[derive(Drop)]
pub struct LentParts<'a> {
    /// How many slots there are.
    pub length: u64,
    /// The validity, none where it is absent, and the buffers that the layout names. One may be longer than the slots want.
    pub buffers: &'a [Option<Buffer>],
    /// Of lists the array of their items.
    pub children: &'a [RawArray],
    /// Of codes the texts that they name.
    pub words: Option<&'a Arc<Words>>,
}

impl<'a> LentParts<'a> {
    /// The parts with this dictionary, if there is one.
    pub(crate) fn of(parts: &'a Parts, words: Option<&'a Arc<Words>>) -> LentParts<'a>
        ensures { (k : Kind) → read_lent k result ≡ read_alone k parts.now (option_map (λ w. arc_value w.now) words.entry) }
    {
        LentParts {
            length: parts.length,
            buffers: &parts.buffers,
            children: &parts.children,
            words,
        }
    }
}
