//! Checked arithmetic on two columns of one integer type, place by place.

ghost use Rattle.std.specs.Prelude.{◌≡◌, ◌+◌, ◌++◌, ◌<◌, ◌≤◌, ◌+ℤ◌, ◌-ℤ◌, ◌*ℤ◌, IfErr, IfNone, IfOk, IfSome, OnOk};
ghost use Rattle.std.specs.Prelude.{None, true, false, length};
ghost use Rattle.arrays.specs.Kind as kind;
ghost use Rattle.arrays.specs.Prelude.{IsResult, is_of_type, most_slots, shown, valid_in, view_kind};
ghost use Rattle.kernels.specs.Arithmetic.{are_one_int, arithmetic_fault, operands_fault, results};
ghost use Rattle.kernels.specs.Beside.{fault_from, fault_with, number_beside, number_fault};
ghost use Rattle.kernels.specs.Computed.{AreOutside, AreResults, AreRows, StopsAt, bytes_of_results, result_at};
ghost use Rattle.kernels.specs.Fault.{IsKernelFault};

use crate::fault::KernelFault;
use crate::side::{One, Own, Side, type_with};
use arrays::validity::{buffer_of, valid_word};
use arrays::{Array, IntType, Integer, Packed, View, ViewType, with_integer};
use colbits::{BitmapBuf, Bits, Buffer, NoMemory};
use std::alloc::Global;
use truths::both_valid;

/// The sums of two columns of one integer type: null where either is null, else the exact sum, which has to be of
/// the type. `TypesDiffer` unless both columns are of one integer type; else `LengthsDiffer` unless they are of one
/// length; else `Overflow` at the least row where both have a number and the sum is outside the type. What lies
/// under a null is never looked at. `NoMemory` where a growth was refused.
///
/// `[1, null, 3]` and `[4, 5, 6]` give `[5, null, 9]`; of 8-bit numbers `[1, 100]` and `[1, 100]` are an `Overflow` at row 1.
pub fn add(alloc: Global, a: &View<'_>, b: &View<'_>) -> Result<Array, KernelFault>
    ensures ok { IfOk result (λ r. (arithmetic_fault ◌+ℤ◌ a.now b.now ≡ None)
        × (r ≡ shown a.now.kind (results ◌+ℤ◌ a.now.items b.now.items))) }
    ensures err { IfErr result (λ e. IsKernelFault (operands_fault a.now b.now) (arithmetic_fault ◌+ℤ◌ a.now b.now) e) }
{
    compute::<Sum>(alloc, a, b)
}

/// The differences of two columns of one integer type, the second taken from the first: null where either is null,
/// else the exact difference, which has to be of the type. The errors are those of [`add`], with the difference in
/// place of the sum.
pub fn sub(alloc: Global, a: &View<'_>, b: &View<'_>) -> Result<Array, KernelFault>
    ensures ok { IfOk result (λ r. (arithmetic_fault ◌-ℤ◌ a.now b.now ≡ None)
        × (r ≡ shown a.now.kind (results ◌-ℤ◌ a.now.items b.now.items))) }
    ensures err { IfErr result (λ e. IsKernelFault (operands_fault a.now b.now) (arithmetic_fault ◌-ℤ◌ a.now b.now) e) }
{
    compute::<Difference>(alloc, a, b)
}

/// The products of two columns of one integer type: null where either is null, else the exact product, which has
/// to be of the type. The errors are those of [`add`], with the product in place of the sum.
pub fn mul(alloc: Global, a: &View<'_>, b: &View<'_>) -> Result<Array, KernelFault>
    ensures ok { IfOk result (λ r. (arithmetic_fault ◌*ℤ◌ a.now b.now ≡ None)
        × (r ≡ shown a.now.kind (results ◌*ℤ◌ a.now.items b.now.items))) }
    ensures err { IfErr result (λ e. IsKernelFault (operands_fault a.now b.now) (arithmetic_fault ◌*ℤ◌ a.now b.now) e) }
{
    compute::<Product>(alloc, a, b)
}

/// The sums of a column's numbers and one number: what [`add`] gives of the column and one of its type and length that
/// has the number at each slot. `TypesDiffer` unless the column is of an integer type that has the number; else
/// `Overflow` as in [`add`]. `NoMemory` where a growth was refused.
pub fn add_number(alloc: Global, a: &View<'_>, number: i128) -> Result<Array, KernelFault>
    ensures ok { IfOk result (λ r. (fault_with ◌+ℤ◌ a.now number ≡ None)
        × (r ≡ shown a.now.kind (results ◌+ℤ◌ a.now.items (number_beside a.now number).items))) }
    ensures err { IfErr result (λ e. IsKernelFault (number_fault a.now number) (fault_with ◌+ℤ◌ a.now number) e) }
{
    compute_with::<Sum>(alloc, a, number)
}

/// The differences of a column's numbers and one number, which is taken from each. The errors are those of
/// [`add_number`], with the difference in place of the sum.
pub fn sub_number(alloc: Global, a: &View<'_>, number: i128) -> Result<Array, KernelFault>
    ensures ok { IfOk result (λ r. (fault_with ◌-ℤ◌ a.now number ≡ None)
        × (r ≡ shown a.now.kind (results ◌-ℤ◌ a.now.items (number_beside a.now number).items))) }
    ensures err { IfErr result (λ e. IsKernelFault (number_fault a.now number) (fault_with ◌-ℤ◌ a.now number) e) }
{
    compute_with::<Difference>(alloc, a, number)
}

/// The differences of one number and a column's numbers, each of which is taken from it. The errors are those of
/// [`add_number`], with the difference in place of the sum.
pub fn sub_from_number(alloc: Global, a: &View<'_>, number: i128) -> Result<Array, KernelFault>
    ensures ok { IfOk result (λ r. (fault_from ◌-ℤ◌ number a.now ≡ None)
        × (r ≡ shown a.now.kind (results ◌-ℤ◌ (number_beside a.now number).items a.now.items))) }
    ensures err { IfErr result (λ e. IsKernelFault (number_fault a.now number) (fault_from ◌-ℤ◌ number a.now) e) }
{
    compute_with::<Reversed>(alloc, a, number)
}

/// The products of a column's numbers and one number. The errors are those of [`add_number`], with the product in
/// place of the sum.
pub fn mul_number(alloc: Global, a: &View<'_>, number: i128) -> Result<Array, KernelFault>
    ensures ok { IfOk result (λ r. (fault_with ◌*ℤ◌ a.now number ≡ None)
        × (r ≡ shown a.now.kind (results ◌*ℤ◌ a.now.items (number_beside a.now number).items))) }
    ensures err { IfErr result (λ e. IsKernelFault (number_fault a.now number) (fault_with ◌*ℤ◌ a.now number) e) }
{
    compute_with::<Product>(alloc, a, number)
}

/// An operation on two numbers of the eight integer types.
trait Operation {
    ghost use Rattle.std.specs.Prelude.{◌≡◌, ◌^◌, ◌≤ℤ◌, ℤ, neg_ℤ, pos, false, IfNone, IfSome};
    ghost use Rattle.arrays.specs.Prelude.{IntType, IsResult, is_of_type};

    // The exact result, of any size.
    ghost exact: { ℤ → ℤ → ℤ };

    /// The exact result, none only where it is in none of the eight types.
    fn apply(x: i128, y: i128) -> Option<i128>
        requires low_x { neg_ℤ (pos (2 ^ 64)) ≤ℤ x }
        requires high_x { x ≤ℤ pos (2 ^ 64) }
        requires low_y { neg_ℤ (pos (2 ^ 64)) ≤ℤ y }
        requires high_y { y ≤ℤ pos (2 ^ 64) }
        ensures some { IfSome result (λ z. z ≡ exact x y) }
        ensures none { IfNone result ((t : IntType) → is_of_type t (exact x y) ≡ false) };

    /// The result by the type's own arithmetic, and whether it is outside the type.
    fn own<T: Integer>(x: T, y: T) -> (T, bool)
        ensures { IsResult T.ty (exact (T.value x) (T.value y)) (T.value result.0) result.1 };
}

/// The first number and the second together.
struct Sum;

impl Operation for Sum {
    ghost use Rattle.std.specs.Prelude.{◌+ℤ◌};

    ghost exact = { ◌+ℤ◌ };

    #[inline(always)]
    fn apply(x: i128, y: i128) -> Option<i128> {
        Some(x + y)
    }

    #[inline(always)]
    fn own<T: Integer>(x: T, y: T) -> (T, bool) {
        x.overflowing_add(y)
    }
}

/// The first number less the second.
struct Difference;

impl Operation for Difference {
    ghost use Rattle.std.specs.Prelude.{◌-ℤ◌};

    ghost exact = { ◌-ℤ◌ };

    #[inline(always)]
    fn apply(x: i128, y: i128) -> Option<i128> {
        Some(x - y)
    }

    #[inline(always)]
    fn own<T: Integer>(x: T, y: T) -> (T, bool) {
        x.overflowing_sub(y)
    }
}

/// The second number less the first.
struct Reversed;

impl Operation for Reversed {
    ghost use Rattle.std.specs.Prelude.{◌-ℤ◌};

    ghost exact = { λ x y. y -ℤ x };

    #[inline(always)]
    fn apply(x: i128, y: i128) -> Option<i128> {
        Some(y - x)
    }

    #[inline(always)]
    fn own<T: Integer>(x: T, y: T) -> (T, bool) {
        y.overflowing_sub(x)
    }
}

/// The first number times the second.
struct Product;

impl Operation for Product {
    ghost use Rattle.std.specs.Prelude.{◌*ℤ◌};

    ghost exact = { ◌*ℤ◌ };

    #[inline(always)]
    fn apply(x: i128, y: i128) -> Option<i128> {
        x.checked_mul(y)
    }

    #[inline(always)]
    fn own<T: Integer>(x: T, y: T) -> (T, bool) {
        x.overflowing_mul(y)
    }
}

/// The results of two columns, whose types and lengths are looked at here.
fn compute<O: Operation>(alloc: Global, a: &View<'_>, b: &View<'_>) -> Result<Array, KernelFault>
    ensures ok { IfOk result (λ r. (arithmetic_fault O.exact a.now b.now ≡ None)
        × (r ≡ shown a.now.kind (results O.exact a.now.items b.now.items))) }
    ensures err { IfErr result (λ e. IsKernelFault (operands_fault a.now b.now) (arithmetic_fault O.exact a.now b.now) e) }
{
    let ty = one_type(a.ty(), b.ty())?;
    if a.len() != b.len() {
        return Err(KernelFault::LengthsDiffer);
    }
    with_integer!(ty, computed::<_, _, O>(alloc, a, b))
}

/// The integer type of two columns.
fn one_type(a: ViewType<'_>, b: ViewType<'_>) -> Result<IntType, KernelFault>
    ensures ok { IfOk result (λ t. (view_kind a.entry ≡ kind.int t) × (view_kind b.entry ≡ kind.int t)) }
    ensures err { IfErr result (λ e. (are_one_int (view_kind a.entry) (view_kind b.entry) ≡ false)
        × (e ≡ KernelFault.TypesDiffer)) }
{
    if let (ViewType::Int(s), ViewType::Int(t)) = (a, b) {
        if s == t {
            return Ok(s);
        }
    }
    Err(KernelFault::TypesDiffer)
}

/// The results of two columns of this integer type and of one length.
fn computed<T: Packed<N>, const N: usize, O: Operation>(
    alloc: Global,
    a: &View<'_>,
    b: &View<'_>,
) -> Result<Array, KernelFault>
    requires kind_a { a.now.kind ≡ kind.int T.ty }
    requires kind_b { b.now.kind ≡ kind.int T.ty }
    requires lengths { length a.now.items ≡ length b.now.items }
    ensures ok { IfOk result (λ r. (arithmetic_fault O.exact a.now b.now ≡ None)
        × (r ≡ shown a.now.kind (results O.exact a.now.items b.now.items))) }
    ensures err { IfErr result (λ e. IsKernelFault (operands_fault a.now b.now) (arithmetic_fault O.exact a.now b.now) e) }
{
    let validity = both_valid(alloc, a, b)?;
    let (x, y) = (a.ints::<T>(), b.ints::<T>());
    let numbers = numbers::<O, T, _, _, N>(alloc, &x, &y, &bits_of(&validity), x.slots)?;
    let values = Buffer::from_vec(numbers)?;
    Ok(Array::from_numbers(alloc, T::ty(), x.slots, buffer_of(validity), values)?)
}

/// The results of a column and a number, whose type is looked at here.
fn compute_with<O: Operation>(
    alloc: Global,
    a: &View<'_>,
    number: i128,
) -> Result<Array, KernelFault>
    ensures ok { IfOk result (λ r. (fault_with O.exact a.now number ≡ None)
        × (r ≡ shown a.now.kind (results O.exact a.now.items (number_beside a.now number).items))) }
    ensures err { IfErr result (λ e. IsKernelFault (number_fault a.now number) (fault_with O.exact a.now number) e) }
{
    let ty = type_with(a.ty(), number)?;
    with_integer!(ty, computed_with::<_, _, O>(alloc, a, number))
}

/// The results of a column of this integer type and a number of it.
fn computed_with<T: Packed<N>, const N: usize, O: Operation>(
    alloc: Global,
    a: &View<'_>,
    number: i128,
) -> Result<Array, KernelFault>
    requires kind { a.now.kind ≡ kind.int T.ty }
    requires has { is_of_type T.ty number ≡ true }
    ensures ok { IfOk result (λ r. (fault_with O.exact a.now number ≡ None)
        × (r ≡ shown a.now.kind (results O.exact a.now.items (number_beside a.now number).items))) }
    ensures err { IfErr result (λ e. IsKernelFault (number_fault a.now number) (fault_with O.exact a.now number) e) }
{
    // A number is valid at each slot, so that the column's own validity is that of the results.
    let validity = both_valid(alloc, a, a)?;
    let x = a.ints::<T>();
    let y = One {
        number: T::narrow(number),
        slots: x.slots,
    };
    let numbers = numbers::<O, T, _, _, N>(alloc, &x, &y, &bits_of(&validity), x.slots)?;
    let values = Buffer::from_vec(numbers)?;
    Ok(Array::from_numbers(alloc, T::ty(), x.slots, buffer_of(validity), values)?)
}

/// The bits of a validity.
fn bits_of(validity: &Option<BitmapBuf>) -> Option<Bits<'_>>
    ensures { result ≡ validity.now }
{
    match validity {
        Some(bitmap) => Some(bitmap.bits()),
        None => None,
    }
}

/// The results of `len` slots as numbers of the type, any number where a slot isn't valid. It stops in the first 64
/// slots that hold a valid one whose result is outside the type.
fn numbers<O: Operation, T: Packed<N>, A: Own<T>, B: Own<T>, const N: usize>(
    alloc: Global,
    a: &A,
    b: &B,
    valid: &Option<Bits<'_>>,
    len: u32,
) -> Result<Vec<u8>, KernelFault>
    requires short { len ≤ most_slots }
    requires a { len ≤ A.count a.now }
    requires b { len ≤ B.count b.now }
    ensures ok { let exact = result_at O.exact (A.number a.now) (B.number b.now) in
        IfOk result (λ v. AreResults T.ty exact (valid_in valid.now) len v.items) }
    ensures err { let exact = result_at O.exact (A.number a.now) (B.number b.now) in
        IfErr result (λ e. StopsAt T.ty exact (valid_in valid.now) len e) }
{
    let count = len as usize;
    let words = count / 64;

    // A buffer is padded by at most 63 bytes, so that the numbers aren't copied again.
    let mut numbers = Vec::with_capacity(alloc, count * T::ty().bits.bytes() + 63)?;
    for w in 0..words {
        push_word::<O, T, A, B, N>(&mut numbers, a, b, valid, 64 * w)?;
    }
    push_checked::<O, T, A, B>(&mut numbers, a, b, valid, 64 * words, count - 64 * words)?;
    Ok(numbers)
}

/// Adds the results of the 64 slots from slot `start` on, and tells the first valid one that is outside the type. They are looked
/// at one by one only where one of them, valid or not, is outside.
fn push_word<O: Operation, T: Packed<N>, A: Own<T>, B: Own<T>, const N: usize>(
    numbers: &mut Vec<u8>,
    a: &A,
    b: &B,
    valid: &Option<Bits<'_>>,
    start: usize,
) -> Result<(), KernelFault>
    requires short { start + 64 ≤ most_slots }
    requires a { start + 64 ≤ A.count a.now }
    requires b { start + 64 ≤ B.count b.now }
    requires before { let exact = result_at O.exact (A.number a.now) (B.number b.now) in
        AreResults T.ty exact (valid_in valid.now) start numbers.old.items }
    ensures ok { let exact = result_at O.exact (A.number a.now) (B.number b.now) in
        OnOk result (AreResults T.ty exact (valid_in valid.now) (start + 64) numbers.new.items) }
    ensures err { let exact = result_at O.exact (A.number a.now) (B.number b.now) in
        IfErr result (λ e. StopsAt T.ty exact (valid_in valid.now) (start + 64) e) }
{
    let mut rows = [[0; N]; 64];
    if write_rows::<O, T, A, B, N>(&mut rows, a, b, start) {
        return push_checked::<O, T, A, B>(numbers, a, b, valid, start, 64);
    }
    numbers.extend_from_slice(rows.as_flattened())?;
    Ok(())
}

/// Writes the bytes of the results of the 64 slots from slot `start` on, and tells whether one of them is outside the type.
#[inline(always)]
fn write_rows<O: Operation, T: Packed<N>, A: Own<T>, B: Own<T>, const N: usize>(
    rows: &mut [[u8; N]; 64],
    a: &A,
    b: &B,
    start: usize,
) -> bool
    requires short { start + 64 ≤ most_slots }
    requires a { start + 64 ≤ A.count a.now }
    requires b { start + 64 ≤ B.count b.now }
    ensures size { length rows.new ≡ 64 }
    ensures rows { let exact = result_at O.exact (A.number a.now) (B.number b.now) in
        result ≡ false → AreRows T.ty exact start 64 rows.new }
{
    let mut outside = false;
    for j in 0..64 {
        let (number, is_outside) = O::own(a.own(start + j), b.own(start + j));
        outside |= is_outside;
        rows[j] = number.bytes();
    }
    outside
}

/// Adds the results of `count` slots from slot `start` on, and tells the first valid one that is outside the type.
fn push_checked<O: Operation, T: Integer, A: Side, B: Side>(
    numbers: &mut Vec<u8>,
    a: &A,
    b: &B,
    valid: &Option<Bits<'_>>,
    start: usize,
    count: usize,
) -> Result<(), KernelFault>
    requires word { count ≤ 64 }
    requires short { start + count ≤ most_slots }
    requires a { start + count ≤ A.count a.now }
    requires b { start + count ≤ B.count b.now }
    requires before { let exact = result_at O.exact (A.number a.now) (B.number b.now) in
        AreResults T.ty exact (valid_in valid.now) start numbers.old.items }
    ensures ok { let exact = result_at O.exact (A.number a.now) (B.number b.now) in
        OnOk result (AreResults T.ty exact (valid_in valid.now) (start + count) numbers.new.items) }
    ensures err { let exact = result_at O.exact (A.number a.now) (B.number b.now) in
        IfErr result (λ e. StopsAt T.ty exact (valid_in valid.now) (start + count) e) }
{
    let outside = push_results::<O, T, A, B>(numbers, a, b, start, count)?;
    let bad = outside & valid_word(valid, start);
    if bad != 0 {
        return Err(KernelFault::Overflow {
            row: start + bad.trailing_zeros() as usize,
        });
    }
    Ok(())
}

/// Adds the results of `count` slots from slot `start` on, 0 where one is outside the type, and tells where these are:
/// the first slot's bit is the least significant. Nothing branches on a result.
#[inline(always)]
fn push_results<O: Operation, T: Integer, A: Side, B: Side>(
    numbers: &mut Vec<u8>,
    a: &A,
    b: &B,
    start: usize,
    count: usize,
) -> Result<u64, NoMemory>
    requires word { count ≤ 64 }
    requires short { start + count ≤ most_slots }
    requires a { start + count ≤ A.count a.now }
    requires b { start + count ≤ B.count b.now }
    ensures numbers { let exact = result_at O.exact (A.number a.now) (B.number b.now) in
        OnOk result (numbers.new.items ≡ numbers.old.items ++ bytes_of_results T.ty exact start count) }
    ensures outside { let exact = result_at O.exact (A.number a.now) (B.number b.now) in
        IfOk result (λ word. AreOutside T.ty exact start count word) }
{
    let mut outside = 0;
    for j in 0..count {
        let number = exact_number::<O, T, A, B>(a, b, start + j);
        outside |= u64::from(number.is_none()) << j;
        T::push(numbers, number.unwrap_or(0))?;
    }
    Ok(outside)
}

/// The exact result of the two numbers `j`, none where it is outside the type.
#[inline(always)]
fn exact_number<O: Operation, T: Integer, A: Side, B: Side>(a: &A, b: &B, j: usize) -> Option<i128>
    requires a { j < A.count a.now }
    requires b { j < B.count b.now }
    ensures some { IfSome result (λ z. (z ≡ result_at O.exact (A.number a.now) (B.number b.now) j) × (is_of_type T.ty z ≡ true)) }
    ensures none { IfNone result (is_of_type T.ty (result_at O.exact (A.number a.now) (B.number b.now) j) ≡ false) }
{
    match O::apply(a.at(j), b.at(j)) {
        Some(number) if T::holds(number) => Some(number),
        _ => None,
    }
}
