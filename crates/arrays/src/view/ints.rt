//! Numbers whose type the compiler knows.

ghost use Rattle.std.specs.Prelude.{◌≡◌, ◌*◌, ◌<◌, ◌≤◌, ◌^◌, ◌≤ℤ◌, length, neg_ℤ, pos};
ghost use Rattle.std.specs.Option.{ForSome};
ghost use Rattle.types.specs.Kind as kind;
ghost use Rattle.types.specs.Prelude.{IsOfType, bytes_of, most_slots, number_at};
ghost use Rattle.arrays.specs.Slot.{item_at, item_of};
ghost use Rattle.arrays.specs.Values.{HasNumbers, number_in, number_items};

use crate::validity::is_valid;
use crate::view::View;
use colbits::Bits;
use std::marker::PhantomData;
use types::Integer;

/// The numbers of a column of type `T`, one for each slot.
#[derive(Drop)]
pub struct Ints<'a, T: Integer> {
    /// The numbers, little-endian and behind one another. What lies under a null is any number.
    pub values: &'a [u8],
    /// Which slots are valid, none where all of them are.
    pub validity: Option<Bits<'a>>,
    /// How many slots there are.
    pub slots: u32,
    of: PhantomData<T>,
    ghost whole: { slots * bytes_of T.ty.bits ≤ length values.now },
    ghost short: { slots ≤ most_slots },
}

impl<'a, T: Integer> Ints<'a, T> {
    /// The number that lies in slot `i`, whether the slot is valid or not.
    #[inline(always)]
    pub fn read(&self, i: usize) -> T
        requires { i < self.now.slots }
        ensures { T.value result ≡ number_at T.ty self.now.values.now i }
    {
        T::read(self.values, i)
    }

    /// The number of slot `i`, none where it is null.
    #[inline(always)]
    pub fn get(&self, i: usize) -> Option<i128>
        requires { i < self.now.slots }
        ensures value { result ≡ number_in T.ty self.now.values.now self.now.validity i }
        ensures item { item_at (number_items T.ty self.now.values.now self.now.validity self.now.slots) i ≡ item_of result }
        ensures of_type { ForSome result (IsOfType T.ty) }
        ensures low { ForSome result (λ z. neg_ℤ (pos (2 ^ 64)) ≤ℤ z) }
        ensures high { ForSome result (λ z. z ≤ℤ pos (2 ^ 64)) }
    {
        if is_valid(&self.validity, i) {
            Some(self.read(i).wide())
        } else {
            None
        }
    }
}

impl<'a> View<'a> {
    /// The numbers of a view of integers of type `T`.
    pub fn ints<T: Integer>(&self) -> Ints<'a, T>
        requires { self.now.kind ≡ kind.int T.ty }
        ensures values { HasNumbers T.ty result.values.now self.now }
        ensures validity { result.validity ≡ self.now.validity }
        ensures slots { result.slots ≡ length self.now.items }
        ensures items { number_items T.ty result.values.now result.validity result.slots ≡ self.now.items }
    {
        Ints {
            values: self.numbers(T::ty()),
            validity: self.validity(),
            slots: self.slots(),
            of: PhantomData,
        }
    }
}
