//! What several tests select from, and what they compare selections with.

use arrays::{Array, View};
use std::alloc::Global;
use std::test::Fail;
use test_samples::{
    Flat, INT8, Layers, Sample, Shown, Widths, has_layers, is_result, sampled_at, slots_of,
};

pub(crate) const INT8S: Flat = Flat::Int(INT8);

/// The numbers 1, 2, 3, 4, null, 6, 7, null.
pub(crate) const NUMBERS: Sample = Sample::Of((
    INT8S,
    8,
    &[Some(&[0x6f]), Some(&[1, 2, 3, 4, 5, 6, 7, 8])],
));

/// True, false, true, true, null, false, null, true.
pub(crate) const TRUTHS: Sample = Sample::Of((Flat::Bool, 8, &[Some(&[0xaf]), Some(&[0xdd])]));

/// An array, and of its slots from one on so many.
pub(crate) type Slots = (Sample, usize, usize);

/// Slots of an array.
#[derive(Clone, Copy)]
pub(crate) enum Piece {
    All(Sample),
    /// From one on, so many.
    Part(Sample, usize, usize),
}

impl Piece {
    /// The array that it is of, with offsets of these widths.
    pub(crate) fn array(self, alloc: Global, widths: Widths) -> Result<Array, Fail> {
        match self {
            Piece::All(sample) => sampled_at(alloc, widths, sample),
            Piece::Part(sample, _, _) => sampled_at(alloc, widths, sample),
        }
    }

    /// Its slots in that array.
    pub(crate) fn slots(self, array: &Array) -> View<'_> {
        match self {
            Piece::All(_) => array.view(),
            Piece::Part(_, start, len) => slots_of(array, start, len),
        }
    }
}

/// What a selection gives.
#[derive(Clone, Copy)]
pub(crate) enum Selected {
    Slots(Shown),
    /// Lists that begin and end there.
    Lists(Shown, Layers),
}

/// Whether a selection from an array gives this, and is of its type.
pub(crate) fn is_selected(rows: &Array, from: &View<'_>, selected: Selected) -> bool {
    let view = rows.view();
    let is_given = match selected {
        Selected::Slots(shown) => is_result(rows, shown),
        Selected::Lists(shown, layers) => { is_result(rows, shown) && has_layers(&view, layers) }
    };
    is_given && view.ty().is_same(from.ty())
}
