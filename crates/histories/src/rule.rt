//! The rule of a log, and its steps.

use crate::naming::Noted;
use logbook::{Gain, Plain, Play, Rule};
use std::marker::PhantomData;

/// The first of the book's words is the length of the log; the second is left alone.
pub struct Law<E> {
    of: PhantomData<E>,
}

impl<E> Rule<E, u64> for Law<E> {
    ghost use Rattle.std.specs.Prelude.{[]};
    ghost use base.Fml.{ftrue};
    ghost use Rattle.histories.specs.Rule.{IsCounted};

    ghost holds = { λ cells log. IsCounted cells log };

    ghost first = { [] };

    ghost hinted = { λ n log. Unit {0} };

    ghost shows = { λ log. [] };

    ghost keeps = { λ names log. ftrue };

    ghost moves = { λ ask before after answer. Unit {0} };
}

/// Nothing is traded for a step.
pub struct Nothing;

impl<E> Gain<E, u64> for Nothing {
    ghost use base.Fml.{ftrue};

    ghost after = { λ names about answer. ftrue };
}

/// The step that adds an entry.
pub struct Add;

impl<E> Play<E, u64> for Add {
    ghost use Rattle.histories.specs.Rule.{Adds};

    ghost then = { Adds };
}

impl<X: Noted<E>, E> Plain<X, E, u64> for Add {
    ghost use Rattle.std.specs.Prelude.{None};

    ghost ask = { X.noted };

    ghost state = { λ value. None };
}
