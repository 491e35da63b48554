//! Columns of texts recoded into a pool.

ghost use Rattle.arrays.specs.Slot.{is_recodable};
ghost use Rattle.std.specs.Prelude.{◌≡◌, IsTrue, true};

use crate::columns::Column;
use crate::refusals::Refused;
use crate::run::{Due, Ran, Scene, Stop, given, run};
use crate::sweep::Trial;
use crate::tell::tell_each;
use arrays::{Array, OffsetWidth, View, ViewType, Words};
use pool::{TextPool, recode, unify};
use std::alloc::Global;
use std::test::Fail;
use test_samples::coded;

/// A call that gives texts a dictionary, or makes one a column.
#[derive(Clone, Copy)]
enum Coding {
    Recode,
    Unify,
    ToArray,
    ToArrayAfter,
}

/// A call, and the column that it is given.
#[derive(Clone, Copy)]
pub(crate) struct Case(Coding, Column);

#[rattlefmt::skip]
pub(crate) static CASES: [(&str, Case); 6] = [
    ("recode, texts", Case(Coding::Recode, Column::Texts)),
    ("recode, codes", Case(Coding::Recode, Column::Codes)),
    ("unify, texts", Case(Coding::Unify, Column::Texts)),
    ("unify, codes", Case(Coding::Unify, Column::Codes)),
    ("TextPool::to_array", Case(Coding::ToArray, Column::Texts)),
    ("TextPool::to_array_after", Case(Coding::ToArrayAfter, Column::Texts)),
];

impl<R> Trial<R> for Case {
    fn run(&self, rt: &R, alloc: Global, refused: Option<Refused>) -> Result<Ran, Fail> {
        let Case(coding, column) = *self;
        let mut scene = Recoding {
            coding,
            pool: pool_of_a(alloc)?,
            columns: [column.array(alloc)?, coded(alloc)?],
        };
        run(rt, alloc, &mut scene, Due::Answer, refused)
    }
}

/// A pool that has the text a.
fn pool_of_a(alloc: Global) -> Result<TextPool, Fail> {
    let mut pool = TextPool::new(alloc);
    let first = Array::of_texts(alloc, &[Some("a")])?;
    let _codes = recode(alloc, &first.view(), &mut pool)?;
    Ok(pool)
}

/// A call with a pool that has a text, and two columns.
#[derive(Drop)]
struct Recoding {
    coding: Coding,
    pool: TextPool,
    columns: [Array; 2],
}

impl<R> Scene<R> for Recoding {
    fn call(&mut self, _rt: &R, alloc: Global, report: &mut String) -> Result<(), Stop> {
        let [column, other] = &self.columns;
        let (view, other) = (column.view(), other.view());
        if !is_of_texts(&view) || !is_of_texts(&other) {
            return Err(Stop::Refused);
        }
        match self.coding {
            Coding::Recode => given(report, recode(alloc, &view, &mut self.pool)),
            Coding::ToArray => given(report, self.pool.to_array(alloc)),
            Coding::ToArrayAfter => {
                let front = Words::of(TextPool::new(alloc).to_array(alloc)?);
                given(report, self.pool.to_array_after(alloc, &front))
            }
            Coding::Unify => given(report, unify(alloc, &[view, other])),
        }
    }

    /// There are few texts in the pool.
    fn tell(&mut self, _rt: &R, report: &mut String) -> Result<(), Fail> {
        tell_each(report, &self.columns)?;
        for code in 0..10 {
            let text = self.pool.text_of(code);
            write!(report, "{text:?} ")?;
        }
        Ok(())
    }
}

/// Whether a view is of texts that a dictionary may hold.
fn is_of_texts(view: &View<'_>) -> bool
    ensures { IsTrue result → is_recodable view.now.kind ≡ true }
{
    match view.ty() {
        ViewType::Text(OffsetWidth::Narrow) => true,
        ViewType::Dict => true,
        _ => false,
    }
}
