//! Calls on columns: kernels, selections and statistics.

use crate::columns::Column;
use crate::refusals::Refused;
use crate::run::{Due, Ran, Scene, Stop, given, run, told};
use crate::sweep::Trial;
use crate::tell::tell_each;
use arrays::{Array, RawArray, View, has_dict_in_list, is_too_deep, validate};
use group::{ColumnStats, joined, stats_of};
use kernels::{
    CmpOp, KernelFault, add, add_number, compare, compare_number, is_null, kleene_and, kleene_not,
    kleene_or, mul, mul_number, sub, sub_from_number, sub_number,
};
use select::{concat, copy, filter, take};
use std::alloc::Global;
use std::test::Fail;

/// A kernel, on one column or on two that are alike.
#[derive(Clone, Copy)]
enum Kernel {
    Add,
    Sub,
    Mul,
    AddNumber,
    SubNumber,
    SubFromNumber,
    MulNumber,
    Compare,
    CompareNumber,
    And,
    Or,
    Not,
    IsNull,
}

/// A call that makes a column of another.
#[derive(Clone, Copy)]
enum Selection {
    Take,
    Filter,
    Concat,
    Copy,
    Validate,
    /// Nulls of the column's type.
    Nulls,
}

/// A call that makes statistics.
#[derive(Clone, Copy)]
enum Summary {
    Of,
    Joined,
    Copy,
}

#[derive(Clone, Copy)]
enum Call {
    Kernel(Kernel),
    Selection(Selection),
    Summary(Summary),
}

/// A call, and the column that it is given.
#[derive(Clone, Copy)]
pub(crate) struct Case(Call, Column);

/// A call on a column.
macro_rules! on {
    ($kind:ident :: $call:ident, $column:ident) => {
        Case(Call::$kind($kind::$call), Column::$column)
    };
}

/// A selection of each column.
macro_rules! of_each {
    ($name:literal, $selection:ident) => {
        [
            (concat!($name, ", numbers"), on!(Selection::$selection, Numbers)),
            (concat!($name, ", truth values"), on!(Selection::$selection, Bools)),
            (concat!($name, ", texts"), on!(Selection::$selection, Texts)),
            (concat!($name, ", large texts"), on!(Selection::$selection, LargeTexts)),
            (concat!($name, ", codes"), on!(Selection::$selection, Codes)),
            (concat!($name, ", lists"), on!(Selection::$selection, Lists)),
            (concat!($name, ", large lists"), on!(Selection::$selection, LargeLists)),
            (concat!($name, ", lists of lists"), on!(Selection::$selection, ListsOfLists)),
            (
                concat!($name, ", large lists of lists"),
                on!(Selection::$selection, LargeListsOfLists),
            ),
        ]
    };
}

pub(crate) static TAKE: [(&str, Case); 9] = of_each!("take", Take);

pub(crate) static FILTER: [(&str, Case); 9] = of_each!("filter", Filter);

pub(crate) static CONCAT: [(&str, Case); 9] = of_each!("concat", Concat);

pub(crate) static COPY: [(&str, Case); 9] = of_each!("select::copy", Copy);

pub(crate) static VALIDATE: [(&str, Case); 9] = of_each!("validate", Validate);

pub(crate) static NULLS: [(&str, Case); 9] = of_each!("Array::nulls", Nulls);

#[rattlefmt::skip]
pub(crate) static KERNELS: [(&str, Case); 23] = [
    ("add", on!(Kernel::Add, Numbers)),
    ("add, 64 bits", on!(Kernel::Add, Long)),
    ("sub", on!(Kernel::Sub, Numbers)),
    ("mul", on!(Kernel::Mul, Numbers)),
    ("add_number", on!(Kernel::AddNumber, Numbers)),
    ("add_number, 64 bits", on!(Kernel::AddNumber, Long)),
    ("sub_number", on!(Kernel::SubNumber, Numbers)),
    ("sub_from_number", on!(Kernel::SubFromNumber, Numbers)),
    ("mul_number", on!(Kernel::MulNumber, Numbers)),
    ("compare", on!(Kernel::Compare, Numbers)),
    ("compare, 64 bits", on!(Kernel::Compare, Long)),
    ("compare, truth values", on!(Kernel::Compare, Bools)),
    ("compare, texts", on!(Kernel::Compare, Texts)),
    ("compare, large texts", on!(Kernel::Compare, LargeTexts)),
    ("compare, codes", on!(Kernel::Compare, Codes)),
    ("compare_number", on!(Kernel::CompareNumber, Numbers)),
    ("kleene_and", on!(Kernel::And, Bools)),
    ("kleene_or", on!(Kernel::Or, Bools)),
    ("kleene_not", on!(Kernel::Not, Bools)),
    ("is_null", on!(Kernel::IsNull, Numbers)),
    ("is_null, codes", on!(Kernel::IsNull, Codes)),
    ("is_null, lists", on!(Kernel::IsNull, Lists)),
    ("is_null, large lists", on!(Kernel::IsNull, LargeLists)),
];

#[rattlefmt::skip]
pub(crate) static STATISTICS: [(&str, Case); 9] = [
    ("stats_of, texts", on!(Summary::Of, Texts)),
    ("stats_of, large texts", on!(Summary::Of, LargeTexts)),
    ("stats_of, codes", on!(Summary::Of, Codes)),
    ("joined, texts", on!(Summary::Joined, Texts)),
    ("joined, large texts", on!(Summary::Joined, LargeTexts)),
    ("joined, codes", on!(Summary::Joined, Codes)),
    ("ColumnStats::copy, texts", on!(Summary::Copy, Texts)),
    ("ColumnStats::copy, large texts", on!(Summary::Copy, LargeTexts)),
    ("ColumnStats::copy, codes", on!(Summary::Copy, Codes)),
];

impl<R> Trial<R> for Case {
    fn run(&self, rt: &R, alloc: Global, refused: Option<Refused>) -> Result<Ran, Fail> {
        let Case(call, column) = *self;
        let array = column.array(alloc)?;
        let mut scene = Columns {
            call,
            stats: stats_of(alloc, &array.view())?,
            arrays: [array, other(call, column).array(alloc)?],
            raw: column.parts(alloc)?,
        };
        run(rt, alloc, &mut scene, Due::Answer, refused)
    }
}

/// What goes with a column: the rows that are taken, the mask, or the column itself.
fn other(call: Call, column: Column) -> Column {
    match (call, column) {
        (Call::Selection(Selection::Take), _) => Column::Rows,
        (Call::Selection(Selection::Filter), Column::Codes) => Column::Kept(5),
        (Call::Selection(Selection::Filter), Column::ListsOfLists | Column::LargeListsOfLists) =>
            Column::Kept(3),
        (Call::Selection(Selection::Filter), _) => Column::Kept(4),
        _ => column,
    }
}

/// A call with a column and what goes with it, the parts of the column, and its statistics.
#[derive(Drop)]
struct Columns {
    call: Call,
    arrays: [Array; 2],
    raw: RawArray,
    stats: ColumnStats,
}

impl<R> Scene<R> for Columns {
    fn call(&mut self, _rt: &R, alloc: Global, report: &mut String) -> Result<(), Stop> {
        let [column, other] = &self.arrays;
        let (view, other) = (column.view(), other.view());
        match self.call {
            Call::Kernel(kernel) => given(report, computed(alloc, kernel, &view, &other)),
            Call::Selection(selection) => self.tell_selection(alloc, report, selection),
            Call::Summary(summary) => self.tell_summary(alloc, report, summary),
        }
    }

    fn tell(&mut self, _rt: &R, report: &mut String) -> Result<(), Fail> {
        let stats = &self.stats;
        write!(report, "{stats:?} ")?;
        Ok(tell_each(report, &self.arrays)?)
    }
}

impl Columns {
    /// Tells what a selection makes of the column.
    fn tell_selection(
        &self,
        alloc: Global,
        report: &mut String,
        selection: Selection,
    ) -> Result<(), Stop> {
        let [column, other] = &self.arrays;
        let (view, other) = (column.view(), other.view());
        match selection {
            Selection::Take => given(report, take(alloc, &view, &other)),
            Selection::Filter => given(report, filter(alloc, &view, &other)),
            Selection::Concat => given(report, concat(alloc, &[view, other])),
            Selection::Copy => given(report, copy(alloc, &view)),
            Selection::Validate => given(report, validate(alloc, self.raw.copy(alloc)?)),
            Selection::Nulls if is_too_deep(column.ty()) || has_dict_in_list(column.ty()) => {
                Err(Stop::Refused)
            }
            Selection::Nulls => given(report, Array::nulls(alloc, column.ty(), 100)),
        }
    }

    /// Tells statistics of the column, or what is made of them.
    fn tell_summary(
        &self,
        alloc: Global,
        report: &mut String,
        summary: Summary,
    ) -> Result<(), Stop> {
        let stats = &self.stats;
        match summary {
            Summary::Of => told(report, stats_of(alloc, &self.arrays[0].view())),
            Summary::Joined if stats.rows < 100 => told(report, joined(alloc, stats, stats)),
            Summary::Joined => Err(Stop::Refused),
            Summary::Copy => told(report, stats.copy(alloc)),
        }
    }
}

/// What a kernel makes of two views, or of the first.
fn computed(
    alloc: Global,
    kernel: Kernel,
    a: &View<'_>,
    b: &View<'_>,
) -> Result<Array, KernelFault> {
    match kernel {
        Kernel::Add => add(alloc, a, b),
        Kernel::Sub => sub(alloc, a, b),
        Kernel::Mul => mul(alloc, a, b),
        Kernel::AddNumber => add_number(alloc, a, 7),
        Kernel::SubNumber => sub_number(alloc, a, 7),
        Kernel::SubFromNumber => sub_from_number(alloc, a, 7),
        Kernel::MulNumber => mul_number(alloc, a, 7),
        Kernel::Compare => compare(alloc, CmpOp::Le, a, b),
        Kernel::CompareNumber => compare_number(alloc, CmpOp::Lt, a, 3),
        Kernel::And => kleene_and(alloc, a, b),
        Kernel::Or => kleene_or(alloc, a, b),
        Kernel::Not => kleene_not(alloc, a),
        Kernel::IsNull => is_null(alloc, a),
    }
}
