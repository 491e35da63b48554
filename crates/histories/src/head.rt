//! The word that all who add to a log share.

ghost use Rattle.std.specs.Prelude.{◌≡◌};
ghost use Rattle.histories.specs.Rule.{head_of};

use crate::naming::Naming;
use crate::rule::Law;
use logbook::Word;
use std::marker::PhantomData;

/// How long the log is. Who adds to it needs this beside a front.
#[derive(Drop)]
pub struct Head<E, N: Naming> {
    pub(crate) word: Word<E, u64, Law<E>>,
    pub(crate) of: PhantomData<N>,
    ghost is_head: { word ≡ head_of N.book },
}
