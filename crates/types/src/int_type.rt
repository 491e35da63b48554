//! Integer types.

ghost use Rattle.std.specs.Prelude.{◌≡◌};

/// How many bits an integer has.
#[derive(Clone, Copy, Debug, PartialEq, Eq)]
pub enum Width {
    W8,
    W16,
    W32,
    W64,
}

impl Width {
    ghost use Rattle.types.specs.Kind.{bytes_of};

    /// How many bytes a number of this width takes.
    pub fn bytes(self) -> usize
        ensures { result ≡ bytes_of self }
    {
        match self {
            Width::W8 => 1,
            Width::W16 => 2,
            Width::W32 => 4,
            Width::W64 => 8,
        }
    }
}

/// An integer type: its width, and whether it is two's complement.
#[derive(Clone, Copy, Debug, PartialEq, Eq)]
pub struct IntType {
    pub bits: Width,
    pub signed: bool,
}

impl IntType {
    ghost use Rattle.types.specs.Number.{is_of_type};

    /// Whether the number is in the type's range.
    #[inline]
    pub fn holds(self, number: i128) -> bool
        ensures { result ≡ is_of_type self number }
    {
        let count: i128 = match self.bits {
            Width::W8 => 1 << 8,
            Width::W16 => 1 << 16,
            Width::W32 => 1 << 32,
            Width::W64 => 1 << 64,
        };
        if self.signed {
            -count / 2 <= number && number < count / 2
        } else {
            0 <= number && number < count
        }
    }
}

/// Signed numbers of 32 bits: the type of a dictionary's codes.
pub const INT32: IntType = IntType {
    bits: Width::W32,
    signed: true,
};

/// Signed numbers of 64 bits: what a literal is unless what stands beside it is of another integer type.
pub const INT64: IntType = IntType {
    bits: Width::W64,
    signed: true,
};
