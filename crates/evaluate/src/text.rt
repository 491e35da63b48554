//! Comparisons with a text that is the same at each row.

ghost use Rattle.std.specs.Prelude.{◌≡◌, ◌≤◌, true, is_some, length, Some, IfOk, IfErr};
ghost use Rattle.arrays.specs.Item as item;
ghost use Rattle.arrays.specs.Prelude.{is_text, item_at, most_slots, order};
ghost use Rattle.kernels.specs.Order.{meets};
ghost use Rattle.query.specs.Sorts.{sort_of_kind, sort_of_two};
ghost use Rattle.query.specs.declared.sort.Sort.TheVariants as sort;
ghost use Rattle.evaluate.specs.Value.{of_two};
ghost use Rattle.evaluate.specs.Making.{AreMade, in_order};

use crate::columns::comparison_of;
use crate::constant::repeated_truth;
use crate::stop::Stop;
use crate::values::{Operand, Values};
use arrays::View;
use kernels::{CmpOp, Items, Places, array_of};
use query::Op;
use std::alloc::Global;
use std::cmp::Ordering;

/// A comparison of two texts, at each row.
pub(crate) fn compare_texts<'a>(
    alloc: Global,
    op: Op,
    left: &str,
    right: &str,
    len: usize,
) -> Result<Values<'a>, Stop>
    requires short { len ≤ most_slots }
    requires sort { is_some (sort_of_two op sort.Text sort.Text) ≡ true }
    ensures ok { IfOk result (AreMade (sort_of_two op sort.Text sort.Text)
        (λ i. of_two op (item.text left.now) (item.text right.now)) len) }
    ensures err { IfErr result (λ e. e ≡ Stop.NoMemory) }
{
    let Some(comparison) = comparison_of(op) else {
        unreachable!()
    };
    let order = order_of(left, right, true);
    let array = repeated_truth(alloc, meets(comparison, order), len)?;
    Ok(Values::Column(Operand::Made(array)))
}

/// A comparison of a column of texts with a text, which stands before the column or behind it.
pub(crate) fn compare_with_text<'a>(
    alloc: Global,
    op: Op,
    view: &View<'_>,
    text: &str,
    is_first: bool,
) -> Result<Values<'a>, Stop>
    requires sort { is_some (in_order is_first (sort_of_two op) sort.Text (sort_of_kind view.now.kind)) ≡ true }
    ensures ok { IfOk result (AreMade (in_order is_first (sort_of_two op) sort.Text (sort_of_kind view.now.kind))
        (λ i. in_order is_first (of_two op) (item.text text.now) (item_at view.now.items i)) (length view.now.items)) }
    ensures err { IfErr result (λ e. e ≡ Stop.NoMemory) }
{
    let Some(op) = comparison_of(op) else {
        unreachable!()
    };
    let beside = BesideText {
        view,
        text,
        op,
        is_first,
        slots: view.slots(),
    };
    let array = array_of(alloc, &Items { view }, &beside)?;
    Ok(Values::Column(Operand::Made(array)))
}

/// How a text and another stand to each other, or the other and the text.
fn order_of(text: &str, other: &str, is_first: bool) -> Ordering
    ensures { result ≡ in_order is_first order (item.text text.now) (item.text other.now) }
{
    if is_first {
        text.cmp(other)
    } else {
        other.cmp(text)
    }
}

/// Whether two texts that stand so to each other meet the comparison.
fn meets(op: CmpOp, order: Ordering) -> bool
    ensures { result ≡ meets op order }
{
    match op {
        CmpOp::Eq => order.is_eq(),
        CmpOp::Ne => order.is_ne(),
        CmpOp::Lt => order.is_lt(),
        CmpOp::Le => order.is_le(),
        CmpOp::Gt => order.is_gt(),
        CmpOp::Ge => order.is_ge(),
    }
}

/// A column of texts beside a text.
#[derive(Drop)]
struct BesideText<'a, 'b> {
    view: &'a View<'b>,
    text: &'a str,
    op: CmpOp,
    is_first: bool,
    slots: u32,
    ghost texts: { is_text view.now.kind ≡ true },
    ghost size: { length view.now.items ≡ slots },
    ghost short: { slots ≤ most_slots },
}

impl<'a, 'b> Places for BesideText<'a, 'b> {
    ghost use Rattle.evaluate.specs.Making.{in_order};

    ghost at = { λ b i. meets b.op (in_order b.is_first order (item.text b.text.now) (item_at b.view.now.items i)) };

    ghost count = { λ b. b.slots };

    fn len(&self) -> usize {
        self.slots as usize
    }

    fn at(&self, i: usize) -> bool {
        let order = match self.view.text_at(i) {
            Some(other) => order_of(self.text, other, self.is_first),
            None => Ordering::Equal,
        };
        meets(self.op, order)
    }
}
