//! A column that lies in memory elsewhere.

ghost use Rattle.std.specs.Prelude.{◌≡◌};
ghost use Rattle.flat.specs.Content.{content_of};

use crate::content::Content;

/// A column, or what lies in one: its field and its array, as `ArrowSchema` and `ArrowArray` have them, with the lengths of its
/// buffers. (Arrow C data interface, "Structure definitions")
///
/// The node of a list is followed by that of its items, that of a dictionary's indices by that of its texts. Where it has no
/// validity or no second buffer, there are no bytes.
#[repr(C)]
#[derive(Clone, Copy, Drop)]
pub struct Node<'a> {
    /// `c C s S i I l L b u U +l +L`; with a dictionary that of its indices.
    pub format: &'a [u8],
    /// UTF-8. That of a dictionary isn't read.
    pub name: &'a [u8],
    /// 0 where its slots may not be null.
    pub nullable: u32,
    /// 0 where it has none.
    pub dictionary: u32,
    /// 1 of a list, else 0.
    pub children: u64,
    /// How many slots there are.
    pub length: u64,
    /// The greatest number where it isn't known.
    pub null_count: u64,
    /// A bit for each slot, 1 where it is valid.
    pub validity: &'a [u8],
    /// Numbers, bits, offsets or indices.
    pub first: &'a [u8],
    /// The bytes of texts.
    pub second: &'a [u8],
}

impl Node<'_> {
    /// What it holds, none where its format is unknown, or its children or its dictionary aren't those of its format.
    pub(crate) fn content(&self) -> Option<Content>
        ensures { result ≡ content_of self.now }
    {
        Content::of_format(self.format)?.with(self.children, self.dictionary)
    }
}
