//! The nulls, the least and the greatest of items that come one by one.

ghost use Rattle.std.specs.Prelude.{◌≡◌, ◌+◌, ◌^◌, ◌<◌, None, Some, option_map};
ghost use Rattle.std.specs.Ordering.{is_gt};
ghost use Rattle.arrays.specs.Prelude.{Item, order};
ghost use Rattle.group.specs.Stats.{greater, lesser};
ghost use Rattle.group.specs.Tally.{chosen};

/// Values that come before or behind one another.
pub(crate) trait Value: Copy {
    ghost use Rattle.arrays.specs.Prelude.{Item};

    // The value as an item.
    ghost item: { Self → Item };

    /// Whether it comes behind the other.
    fn exceeds(self, other: Self) -> bool
        ensures { result ≡ is_gt (order (item self) (item other)) };
}

impl Value for bool {
    ghost use Rattle.arrays.specs.Prelude.{boolean};

    ghost item = { boolean };

    fn exceeds(self, other: bool) -> bool {
        self & !other
    }
}

impl<'a> Value for &'a str {
    ghost use Rattle.arrays.specs.Prelude.{text};

    ghost item = { λ s. text s.now };

    fn exceeds(self, other: &'a str) -> bool {
        self.cmp(other).is_gt()
    }
}

/// How many items were null, and the least and the greatest of the others.
#[derive(Clone, Copy)]
pub(crate) struct Tally<V> {
    pub(crate) nulls: u64,
    pub(crate) least: Option<V>,
    pub(crate) greatest: Option<V>,
}

impl<V: Value> Tally<V> {
    /// That of no items.
    pub(crate) fn new() -> Tally<V>
        ensures nulls { result.nulls ≡ 0 }
        ensures least { result.least ≡ None }
        ensures greatest { result.greatest ≡ None }
    {
        Tally {
            nulls: 0,
            least: None,
            greatest: None,
        }
    }

    /// With a null more.
    pub(crate) fn with_null(self) -> Tally<V>
        requires { self.nulls < 2 ^ 40 }
        ensures nulls { result.nulls ≡ self.nulls + 1 }
        ensures least { result.least ≡ self.least }
        ensures greatest { result.greatest ≡ self.greatest }
    {
        Tally {
            nulls: self.nulls + 1,
            least: self.least,
            greatest: self.greatest,
        }
    }

    /// With a value more.
    pub(crate) fn with_value(self, value: V) -> Tally<V>
        ensures nulls { result.nulls ≡ self.nulls }
        ensures least { option_map V.item result.least ≡ Some (chosen lesser (option_map V.item self.least) (V.item value)) }
        ensures greatest { option_map V.item result.greatest ≡ Some (chosen greater (option_map V.item self.greatest) (V.item value)) }
    {
        Tally {
            nulls: self.nulls,
            least: Some(lesser(self.least, value)),
            greatest: Some(greater(self.greatest, value)),
        }
    }
}

/// The least so far, if there is one, or a value that comes before it.
pub(crate) fn lesser<V: Value>(best: Option<V>, value: V) -> V
    ensures { V.item result ≡ chosen lesser (option_map V.item best) (V.item value) }
{
    match best {
        None => value,
        Some(best) => if best.exceeds(value) { value } else { best },
    }
}

/// The greatest so far, if there is one, or a value that comes behind it.
pub(crate) fn greater<V: Value>(best: Option<V>, value: V) -> V
    ensures { V.item result ≡ chosen greater (option_map V.item best) (V.item value) }
{
    match best {
        None => value,
        Some(best) => if value.exceeds(best) { value } else { best },
    }
}
