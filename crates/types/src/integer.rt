//! The eight integer types, as numbers that lie in bytes.
ghost use Rattle.std.specs.Prelude.{◌≡◌, ◌+◌, ◌*◌, ◌^◌, ◌≤◌, ◌++◌, ◌≤ℤ◌, ◌+ℤ◌, ◌-ℤ◌, ◌*ℤ◌, false, neg_ℤ, pos, length, true, OnErr, OnOk};
ghost use Rattle.std.specs.Ordering.{int_cmp, is_lt};
ghost use Rattle.std.proofs.Common.{lit≤};
ghost use Rattle.types.specs.Kind.{bytes_of};
ghost use Rattle.types.specs.Number.{IsOfType, IsResult, bytes_of_number, is_of_type, number_at};

use crate::int_type::{IntType, Width};
use colbits::NoMemory;

/// One of Rust's eight integer types up to 64 bits, so that code over a column of numbers is written once. `i128` holds
/// the numbers of each of them.
pub trait Integer: Copy {
    ghost use Rattle.std.specs.Prelude.{ℤ};
    ghost use Rattle.types.specs.declared.int_type.IntType.{IntType};

    // The type's width and sign.
    ghost ty: { IntType };

    // The number that a value is.
    ghost value: { Self → ℤ };

    /// The type's width and sign.
    fn ty() -> IntType
        ensures { result ≡ ty };

    /// Number `j` of the little-endian numbers.
    fn read(numbers: &[u8], j: usize) -> Self
        requires { j * bytes_of ty.bits + bytes_of ty.bits ≤ length numbers.now }
        ensures { value result ≡ number_at ty numbers.now j };

    /// The number, as the numbers of each type fit it.
    fn wide(self) -> i128
        ensures value { result ≡ value self }
        ensures of_type { IsOfType ty result }

        // A number of any of the eight types is from -2^64 to 2^64.
        ensures low { neg_ℤ (pos (2 ^ 64)) ≤ℤ result }
        ensures high { result ≤ℤ pos (2 ^ 64) };

    /// The number in its own type.
    fn narrow(number: i128) -> Self
        requires { IsOfType ty number }
        ensures { value result ≡ number };

    /// Number `j` of the little-endian numbers, as the numbers of each type fit it.
    #[inline(always)]
    fn at(numbers: &[u8], j: usize) -> i128
        requires { j * bytes_of ty.bits + bytes_of ty.bits ≤ length numbers.now }
        ensures value { result ≡ number_at ty numbers.now j }
        ensures of_type { IsOfType ty result }
        ensures low { neg_ℤ (pos (2 ^ 64)) ≤ℤ result }
        ensures high { result ≤ℤ pos (2 ^ 64) }
    {
        Self::read(numbers, j).wide()
    }

    /// Whether the number is in the type's range.
    #[inline(always)]
    fn holds(number: i128) -> bool
        ensures { result ≡ is_of_type ty number }
    {
        Self::ty().holds(number)
    }

    /// Whether the number is less than the other.
    fn is_less(self, other: Self) -> bool
        ensures { result ≡ is_lt (int_cmp (value self) (value other)) };

    /// Both together, by the type's own arithmetic: it comes with whether the sum is outside the type, and is any number then.
    fn overflowing_add(self, other: Self) -> (Self, bool)
        ensures { IsResult ty (value self +ℤ value other) (value result.0) result.1 };

    /// This one less the other, likewise.
    fn overflowing_sub(self, other: Self) -> (Self, bool)
        ensures { IsResult ty (value self -ℤ value other) (value result.0) result.1 };

    /// This one times the other, likewise.
    fn overflowing_mul(self, other: Self) -> (Self, bool)
        ensures { IsResult ty (value self *ℤ value other) (value result.0) result.1 };

    /// Adds the number's bytes at the end, little-endian. A refused growth changes nothing.
    fn push(numbers: &mut Vec<u8>, number: i128) -> Result<(), NoMemory>
        requires { IsOfType ty number }
        ensures ok { OnOk result (numbers.new.items ≡ numbers.old.items ++ bytes_of_number ty number) }
        ensures err { OnErr result (numbers.new.items ≡ numbers.old.items) };
}

/// An integer type whose values take `N` bytes.
pub trait Packed<const N: usize>: Integer {
    /// The number's bytes, little-endian.
    fn bytes(self) -> [u8; N]
        ensures { result ≡ bytes_of_number Self.ty (Self.value self) };

    ghost small: { N ≤ 8 };
}

impl Integer for i8 {
    ghost use Rattle.std.specs.Prelude.{true};
    ghost use Rattle.types.specs.declared.int_type.Width.TheVariants.{W8};

    ghost ty = { record { bits = W8; signed = true } };

    ghost value = { λ x. x };

    fn ty() -> IntType {
        signed(Width::W8)
    }

    #[inline(always)]
    fn read(numbers: &[u8], j: usize) -> i8 {
        let (rows, _rest) = numbers.as_chunks::<1>();
        i8::from_le_bytes(rows[j])
    }

    #[inline(always)]
    fn wide(self) -> i128 {
        i128::from(self)
    }

    #[inline(always)]
    fn narrow(number: i128) -> i8 {
        number as i8
    }

    #[inline(always)]
    fn is_less(self, other: i8) -> bool {
        self < other
    }

    #[inline(always)]
    fn overflowing_add(self, other: i8) -> (i8, bool) {
        self.overflowing_add(other)
    }

    #[inline(always)]
    fn overflowing_sub(self, other: i8) -> (i8, bool) {
        self.overflowing_sub(other)
    }

    #[inline(always)]
    fn overflowing_mul(self, other: i8) -> (i8, bool) {
        self.overflowing_mul(other)
    }

    #[tactic(auto, unfolding(crate::specs::Number::bytes_of_number))]
    fn push(numbers: &mut Vec<u8>, number: i128) -> Result<(), NoMemory> {
        numbers.extend_from_slice(&(number as i8).to_le_bytes())?;
        Ok(())
    }
}

impl Packed<1> for i8 {
    ghost small = { lit≤ tt };

    #[inline(always)]
    #[tactic(auto, unfolding(crate::specs::Number::bytes_of_number))]
    fn bytes(self) -> [u8; 1] {
        self.to_le_bytes()
    }
}

impl Integer for u8 {
    ghost use Rattle.std.specs.Prelude.{false};
    ghost use Rattle.types.specs.declared.int_type.Width.TheVariants.{W8};

    ghost ty = { record { bits = W8; signed = false } };

    ghost value = { λ x. pos x };

    fn ty() -> IntType {
        unsigned(Width::W8)
    }

    #[inline(always)]
    fn read(numbers: &[u8], j: usize) -> u8 {
        let (rows, _rest) = numbers.as_chunks::<1>();
        u8::from_le_bytes(rows[j])
    }

    #[inline(always)]
    fn wide(self) -> i128 {
        i128::from(self)
    }

    #[inline(always)]
    fn narrow(number: i128) -> u8 {
        number as u8
    }

    #[inline(always)]
    fn is_less(self, other: u8) -> bool {
        self < other
    }

    #[inline(always)]
    fn overflowing_add(self, other: u8) -> (u8, bool) {
        self.overflowing_add(other)
    }

    #[inline(always)]
    fn overflowing_sub(self, other: u8) -> (u8, bool) {
        self.overflowing_sub(other)
    }

    #[inline(always)]
    fn overflowing_mul(self, other: u8) -> (u8, bool) {
        self.overflowing_mul(other)
    }

    #[tactic(auto, unfolding(crate::specs::Number::bytes_of_number))]
    fn push(numbers: &mut Vec<u8>, number: i128) -> Result<(), NoMemory> {
        numbers.extend_from_slice(&(number as u8).to_le_bytes())?;
        Ok(())
    }
}

impl Packed<1> for u8 {
    ghost small = { lit≤ tt };

    #[inline(always)]
    #[tactic(auto, unfolding(crate::specs::Number::bytes_of_number))]
    fn bytes(self) -> [u8; 1] {
        self.to_le_bytes()
    }
}

impl Integer for i16 {
    ghost use Rattle.std.specs.Prelude.{true};
    ghost use Rattle.types.specs.declared.int_type.Width.TheVariants.{W16};

    ghost ty = { record { bits = W16; signed = true } };

    ghost value = { λ x. x };

    fn ty() -> IntType {
        signed(Width::W16)
    }

    #[inline(always)]
    fn read(numbers: &[u8], j: usize) -> i16 {
        let (rows, _rest) = numbers.as_chunks::<2>();
        i16::from_le_bytes(rows[j])
    }

    #[inline(always)]
    fn wide(self) -> i128 {
        i128::from(self)
    }

    #[inline(always)]
    fn narrow(number: i128) -> i16 {
        number as i16
    }

    #[inline(always)]
    fn is_less(self, other: i16) -> bool {
        self < other
    }

    #[inline(always)]
    fn overflowing_add(self, other: i16) -> (i16, bool) {
        self.overflowing_add(other)
    }

    #[inline(always)]
    fn overflowing_sub(self, other: i16) -> (i16, bool) {
        self.overflowing_sub(other)
    }

    #[inline(always)]
    fn overflowing_mul(self, other: i16) -> (i16, bool) {
        self.overflowing_mul(other)
    }

    #[tactic(auto, unfolding(crate::specs::Number::bytes_of_number))]
    fn push(numbers: &mut Vec<u8>, number: i128) -> Result<(), NoMemory> {
        numbers.extend_from_slice(&(number as i16).to_le_bytes())?;
        Ok(())
    }
}

impl Packed<2> for i16 {
    ghost small = { lit≤ tt };

    #[inline(always)]
    #[tactic(auto, unfolding(crate::specs::Number::bytes_of_number))]
    fn bytes(self) -> [u8; 2] {
        self.to_le_bytes()
    }
}

impl Integer for u16 {
    ghost use Rattle.std.specs.Prelude.{false};
    ghost use Rattle.types.specs.declared.int_type.Width.TheVariants.{W16};

    ghost ty = { record { bits = W16; signed = false } };

    ghost value = { λ x. pos x };

    fn ty() -> IntType {
        unsigned(Width::W16)
    }

    #[inline(always)]
    fn read(numbers: &[u8], j: usize) -> u16 {
        let (rows, _rest) = numbers.as_chunks::<2>();
        u16::from_le_bytes(rows[j])
    }

    #[inline(always)]
    fn wide(self) -> i128 {
        i128::from(self)
    }

    #[inline(always)]
    fn narrow(number: i128) -> u16 {
        number as u16
    }

    #[inline(always)]
    fn is_less(self, other: u16) -> bool {
        self < other
    }

    #[inline(always)]
    fn overflowing_add(self, other: u16) -> (u16, bool) {
        self.overflowing_add(other)
    }

    #[inline(always)]
    fn overflowing_sub(self, other: u16) -> (u16, bool) {
        self.overflowing_sub(other)
    }

    #[inline(always)]
    fn overflowing_mul(self, other: u16) -> (u16, bool) {
        self.overflowing_mul(other)
    }

    #[tactic(auto, unfolding(crate::specs::Number::bytes_of_number))]
    fn push(numbers: &mut Vec<u8>, number: i128) -> Result<(), NoMemory> {
        numbers.extend_from_slice(&(number as u16).to_le_bytes())?;
        Ok(())
    }
}

impl Packed<2> for u16 {
    ghost small = { lit≤ tt };

    #[inline(always)]
    #[tactic(auto, unfolding(crate::specs::Number::bytes_of_number))]
    fn bytes(self) -> [u8; 2] {
        self.to_le_bytes()
    }
}

impl Integer for i32 {
    ghost use Rattle.std.specs.Prelude.{true};
    ghost use Rattle.types.specs.declared.int_type.Width.TheVariants.{W32};

    ghost ty = { record { bits = W32; signed = true } };

    ghost value = { λ x. x };

    fn ty() -> IntType {
        signed(Width::W32)
    }

    #[inline(always)]
    fn read(numbers: &[u8], j: usize) -> i32 {
        let (rows, _rest) = numbers.as_chunks::<4>();
        i32::from_le_bytes(rows[j])
    }

    #[inline(always)]
    fn wide(self) -> i128 {
        i128::from(self)
    }

    #[inline(always)]
    fn narrow(number: i128) -> i32 {
        number as i32
    }

    #[inline(always)]
    fn is_less(self, other: i32) -> bool {
        self < other
    }

    #[inline(always)]
    fn overflowing_add(self, other: i32) -> (i32, bool) {
        self.overflowing_add(other)
    }

    #[inline(always)]
    fn overflowing_sub(self, other: i32) -> (i32, bool) {
        self.overflowing_sub(other)
    }

    #[inline(always)]
    fn overflowing_mul(self, other: i32) -> (i32, bool) {
        self.overflowing_mul(other)
    }

    #[tactic(auto, unfolding(crate::specs::Number::bytes_of_number))]
    fn push(numbers: &mut Vec<u8>, number: i128) -> Result<(), NoMemory> {
        numbers.extend_from_slice(&(number as i32).to_le_bytes())?;
        Ok(())
    }
}

impl Packed<4> for i32 {
    ghost small = { lit≤ tt };

    #[inline(always)]
    #[tactic(auto, unfolding(crate::specs::Number::bytes_of_number))]
    fn bytes(self) -> [u8; 4] {
        self.to_le_bytes()
    }
}

impl Integer for u32 {
    ghost use Rattle.std.specs.Prelude.{false};
    ghost use Rattle.types.specs.declared.int_type.Width.TheVariants.{W32};

    ghost ty = { record { bits = W32; signed = false } };

    ghost value = { λ x. pos x };

    fn ty() -> IntType {
        unsigned(Width::W32)
    }

    #[inline(always)]
    fn read(numbers: &[u8], j: usize) -> u32 {
        let (rows, _rest) = numbers.as_chunks::<4>();
        u32::from_le_bytes(rows[j])
    }

    #[inline(always)]
    fn wide(self) -> i128 {
        i128::from(self)
    }

    #[inline(always)]
    fn narrow(number: i128) -> u32 {
        number as u32
    }

    #[inline(always)]
    fn is_less(self, other: u32) -> bool {
        self < other
    }

    #[inline(always)]
    fn overflowing_add(self, other: u32) -> (u32, bool) {
        self.overflowing_add(other)
    }

    #[inline(always)]
    fn overflowing_sub(self, other: u32) -> (u32, bool) {
        self.overflowing_sub(other)
    }

    #[inline(always)]
    fn overflowing_mul(self, other: u32) -> (u32, bool) {
        self.overflowing_mul(other)
    }

    #[tactic(auto, unfolding(crate::specs::Number::bytes_of_number))]
    fn push(numbers: &mut Vec<u8>, number: i128) -> Result<(), NoMemory> {
        numbers.extend_from_slice(&(number as u32).to_le_bytes())?;
        Ok(())
    }
}

impl Packed<4> for u32 {
    ghost small = { lit≤ tt };

    #[inline(always)]
    #[tactic(auto, unfolding(crate::specs::Number::bytes_of_number))]
    fn bytes(self) -> [u8; 4] {
        self.to_le_bytes()
    }
}

impl Integer for i64 {
    ghost use Rattle.std.specs.Prelude.{true};
    ghost use Rattle.types.specs.declared.int_type.Width.TheVariants.{W64};

    ghost ty = { record { bits = W64; signed = true } };

    ghost value = { λ x. x };

    fn ty() -> IntType {
        signed(Width::W64)
    }

    #[inline(always)]
    fn read(numbers: &[u8], j: usize) -> i64 {
        let (rows, _rest) = numbers.as_chunks::<8>();
        i64::from_le_bytes(rows[j])
    }

    #[inline(always)]
    fn wide(self) -> i128 {
        i128::from(self)
    }

    #[inline(always)]
    fn narrow(number: i128) -> i64 {
        number as i64
    }

    #[inline(always)]
    fn is_less(self, other: i64) -> bool {
        self < other
    }

    #[inline(always)]
    fn overflowing_add(self, other: i64) -> (i64, bool) {
        self.overflowing_add(other)
    }

    #[inline(always)]
    fn overflowing_sub(self, other: i64) -> (i64, bool) {
        self.overflowing_sub(other)
    }

    #[inline(always)]
    fn overflowing_mul(self, other: i64) -> (i64, bool) {
        self.overflowing_mul(other)
    }

    #[tactic(auto, unfolding(crate::specs::Number::bytes_of_number))]
    fn push(numbers: &mut Vec<u8>, number: i128) -> Result<(), NoMemory> {
        numbers.extend_from_slice(&(number as i64).to_le_bytes())?;
        Ok(())
    }
}

impl Packed<8> for i64 {
    ghost small = { lit≤ tt };

    #[inline(always)]
    #[tactic(auto, unfolding(crate::specs::Number::bytes_of_number))]
    fn bytes(self) -> [u8; 8] {
        self.to_le_bytes()
    }
}

impl Integer for u64 {
    ghost use Rattle.std.specs.Prelude.{false};
    ghost use Rattle.types.specs.declared.int_type.Width.TheVariants.{W64};

    ghost ty = { record { bits = W64; signed = false } };

    ghost value = { λ x. pos x };

    fn ty() -> IntType {
        unsigned(Width::W64)
    }

    #[inline(always)]
    fn read(numbers: &[u8], j: usize) -> u64 {
        let (rows, _rest) = numbers.as_chunks::<8>();
        u64::from_le_bytes(rows[j])
    }

    #[inline(always)]
    fn wide(self) -> i128 {
        i128::from(self)
    }

    #[inline(always)]
    fn narrow(number: i128) -> u64 {
        number as u64
    }

    #[inline(always)]
    fn is_less(self, other: u64) -> bool {
        self < other
    }

    #[inline(always)]
    fn overflowing_add(self, other: u64) -> (u64, bool) {
        self.overflowing_add(other)
    }

    #[inline(always)]
    fn overflowing_sub(self, other: u64) -> (u64, bool) {
        self.overflowing_sub(other)
    }

    #[inline(always)]
    fn overflowing_mul(self, other: u64) -> (u64, bool) {
        self.overflowing_mul(other)
    }

    #[tactic(auto, unfolding(crate::specs::Number::bytes_of_number))]
    fn push(numbers: &mut Vec<u8>, number: i128) -> Result<(), NoMemory> {
        numbers.extend_from_slice(&(number as u64).to_le_bytes())?;
        Ok(())
    }
}

impl Packed<8> for u64 {
    ghost small = { lit≤ tt };

    #[inline(always)]
    #[tactic(auto, unfolding(crate::specs::Number::bytes_of_number))]
    fn bytes(self) -> [u8; 8] {
        self.to_le_bytes()
    }
}

/// The signed type of this width.
fn signed(bits: Width) -> IntType
    ensures { result ≡ record { bits = bits; signed = true } }
{
    IntType { bits, signed: true }
}

/// The unsigned type of this width.
fn unsigned(bits: Width) -> IntType
    ensures { result ≡ record { bits = bits; signed = false } }
{
    IntType {
        bits,
        signed: false,
    }
}
