//! Tests of what three-valued logic does by words and by lanes: each answer is compared with the truth values, one by one.

use arrays::{Array, DataType, View, ViewType, validate};
use kernels::{kleene_and, kleene_not, kleene_or};
use std::alloc::Global;
use std::process::Abort;
use std::test::Fail;
use test_samples::{raw, slots_of};

/// Lengths at which words and lanes end, and their neighbours.
const LENGTHS: [usize; 11] = [0, 1, 7, 63, 64, 65, 127, 128, 511, 512, 513];

/// Bytes whose bits are in no order.
fn noise(salt: u32) -> [u8; 65] {
    let mut bytes = [0; 65];
    for k in 0..65 {
        let number = (k as u32).wrapping_add(salt).wrapping_mul(2_654_435_761);
        bytes[k] = (number >> 24) as u8;
    }
    bytes
}

/// 520 truth values and nulls in no order.
fn truths(alloc: Global, salt: u32) -> Result<Array, Fail> {
    let (validity, values) = (noise(salt), noise(salt.wrapping_add(100)));
    let positions = [Some(validity.as_slice()), Some(values.as_slice())];
    Ok(validate(alloc, raw(alloc, DataType::Bool, 520, &positions)?)?)
}

/// What is made of truth values.
#[derive(Clone, Copy)]
enum Logic {
    And,
    Or,
    Not,
}

impl Logic {
    fn of_truths(self, a: Option<bool>, b: Option<bool>) -> Option<bool> {
        match (self, a, b) {
            (Logic::And, Some(false), _) => Some(false),
            (Logic::And, Some(true), b) => b,
            (Logic::And, None, Some(false)) => Some(false),
            (Logic::Or, Some(true), _) => Some(true),
            (Logic::Or, Some(false), b) => b,
            (Logic::Or, None, Some(true)) => Some(true),
            (Logic::Not, Some(a), _) => Some(!a),
            _ => None,
        }
    }

    /// The answer for two views, of which `Not` takes the first; none where it was refused.
    fn of_views(self, alloc: Global, a: &View<'_>, b: &View<'_>) -> Option<Array> {
        match self {
            Logic::And => kleene_and(alloc, a, b).ok(),
            Logic::Or => kleene_or(alloc, a, b).ok(),
            Logic::Not => kleene_not(alloc, a).ok(),
        }
    }

    /// Whether each slot of a view is made of those of two others.
    fn is_made(self, made: &View<'_>, a: &View<'_>, b: &View<'_>) -> bool {
        let (ViewType::Bool, ViewType::Bool) = (a.ty(), b.ty()) else {
            return false;
        };
        let ViewType::Bool = made.ty() else {
            return false;
        };
        if made.len() != a.len() || made.len() != b.len() {
            return false;
        }
        for i in 0..made.len() {
            if made.bool_at(i) != self.of_truths(a.bool_at(i), b.bool_at(i)) {
                return false;
            }
        }
        true
    }

    /// Asserts that it is made of so many slots from each two starts on.
    fn assert_from_each_start(
        self,
        rt: &impl Abort,
        alloc: Global,
        a: &Array,
        b: &Array,
        len: usize,
    ) {
        for pair in 0..64 {
            let a = slots_of(a, pair / 8, len);
            let b = slots_of(b, pair % 8, len);
            let is_made = match self.of_views(alloc, &a, &b) {
                Some(made) => self.is_made(&made.view(), &a, &b),
                None => false,
            };
            assert!(rt; is_made, "starts {pair} of {len}");
        }
    }
}

/// Asserts it at each length.
fn expect(rt: &impl Abort, alloc: Global, logic: Logic) -> Result<(), Fail> {
    let a = truths(alloc, 3)?;
    let b = truths(alloc, 8)?;
    for len in LENGTHS {
        logic.assert_from_each_start(rt, alloc, &a, &b, len);
    }
    Ok(())
}

#[test]
fn tells_both(rt: HostRuntime) -> Result<(), Fail> {
    expect(&rt, rt.alloc(), Logic::And)
}

#[test]
fn tells_either(rt: HostRuntime) -> Result<(), Fail> {
    expect(&rt, rt.alloc(), Logic::Or)
}

#[test]
fn tells_the_contrary(rt: HostRuntime) -> Result<(), Fail> {
    expect(&rt, rt.alloc(), Logic::Not)
}
