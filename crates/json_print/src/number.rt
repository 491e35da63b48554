//! Numbers of a column as text.

ghost use Rattle.std.specs.Prelude.{◌^◌, ◌-◌, ◌≤ℤ◌, OnOk, neg_ℤ, pos};
ghost use Rattle.std.specs.Fmt.{signed_decimal};
ghost use Rattle.arrays.specs.Prelude.{IsOfType};
ghost use Rattle.json_base.specs.Prelude.{string};
ghost use Rattle.json_print.specs.ColumnData.{int_data, offset_data, whole_data};
ghost use Rattle.json_print.specs.Written.{Adds};

use crate::output::Output;
use arrays::{IntType, NoMemory, OffsetWidth, Width};

/// Writes a number of at most 64 bits.
fn write_plain(out: &mut Output, number: i128) -> Result<(), NoMemory>
    requires low { neg_ℤ (pos (2 ^ 63)) ≤ℤ number }
    requires high { number ≤ℤ pos (2 ^ 64 - 1) }
    ensures { OnOk result (Adds (whole_data number) out.old out.new) }
{
    if number < 0 {
        out.negative(number as i64)
    } else {
        out.number(number as u64)
    }
}

/// Writes a number of at most 64 bits within quotes.
fn write_quoted(out: &mut Output, number: i128) -> Result<(), NoMemory>
    requires low { neg_ℤ (pos (2 ^ 63)) ≤ℤ number }
    requires high { number ≤ℤ pos (2 ^ 64 - 1) }
    ensures { OnOk result (Adds (string (signed_decimal number)) out.old out.new) }
{
    if number < 0 {
        out.quoted_negative(number as i64)
    } else {
        out.quoted_number(number as u64)
    }
}

/// Writes a number of a type.
#[tactic(auto, using(crate::proofs::Ranges::ranges))]
pub(crate) fn write_number(out: &mut Output, ty: IntType, number: i128) -> Result<(), NoMemory>
    requires { IsOfType ty number }
    ensures { OnOk result (Adds (int_data ty.bits number) out.old out.new) }
{
    match ty.bits {
        Width::W64 => write_quoted(out, number),
        Width::W8 | Width::W16 | Width::W32 => write_plain(out, number),
    }
}

/// Writes an offset of texts or lists: within quotes where it has 64 bits.
pub(crate) fn write_offset(
    out: &mut Output,
    width: OffsetWidth,
    offset: u64,
) -> Result<(), NoMemory>
    ensures { OnOk result (Adds (offset_data width offset) out.old out.new) }
{
    match width {
        OffsetWidth::Narrow => out.number(offset),
        OffsetWidth::Wide => out.quoted_number(offset),
    }
}
