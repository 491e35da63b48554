//! From an integer type that is known when the program runs to one that the compiler knows.

/// A call at Rust's type behind an [`IntType`](crate::IntType), which stands in the place of the `_`: that of a function,
/// as `with_integer!(ty, gather::<_, R>(rows))`, or that of the trait [`Integer`](crate::Integer), as
/// `with_integer!(ty, <_>::at(numbers, j))`.
#[macro_export]
macro_rules! with_integer {
    ($ty:expr, $function:ident::<_ $(, $other:tt)*>($($argument:expr),* $(,)?)) => {
        match ($ty.bits, $ty.signed) {
            ($crate::Width::W8, true) => $function::<i8 $(, $other)*>($($argument),*),
            ($crate::Width::W8, false) => $function::<u8 $(, $other)*>($($argument),*),
            ($crate::Width::W16, true) => $function::<i16 $(, $other)*>($($argument),*),
            ($crate::Width::W16, false) => $function::<u16 $(, $other)*>($($argument),*),
            ($crate::Width::W32, true) => $function::<i32 $(, $other)*>($($argument),*),
            ($crate::Width::W32, false) => $function::<u32 $(, $other)*>($($argument),*),
            ($crate::Width::W64, true) => $function::<i64 $(, $other)*>($($argument),*),
            ($crate::Width::W64, false) => $function::<u64 $(, $other)*>($($argument),*),
        }
    };
    ($ty:expr, <_>::$function:ident($($argument:expr),* $(,)?)) => {
        match ($ty.bits, $ty.signed) {
            ($crate::Width::W8, true) => <i8 as $crate::Integer>::$function($($argument),*),
            ($crate::Width::W8, false) => <u8 as $crate::Integer>::$function($($argument),*),
            ($crate::Width::W16, true) => <i16 as $crate::Integer>::$function($($argument),*),
            ($crate::Width::W16, false) => <u16 as $crate::Integer>::$function($($argument),*),
            ($crate::Width::W32, true) => <i32 as $crate::Integer>::$function($($argument),*),
            ($crate::Width::W32, false) => <u32 as $crate::Integer>::$function($($argument),*),
            ($crate::Width::W64, true) => <i64 as $crate::Integer>::$function($($argument),*),
            ($crate::Width::W64, false) => <u64 as $crate::Integer>::$function($($argument),*),
        }
    };
}
