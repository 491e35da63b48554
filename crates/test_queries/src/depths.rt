use crate::building::{column, over, rows_where, schema};
use answers::QueryFault::{TooDeep, WrongKind};
use answers::{Expr, Op, Query, resolve};
use arrayvec::ArrayVec;
use std::alloc::{AllocError, Global};
use std::test::Fail;

/// So many negations of an expression.
fn negated<C: Drop>(alloc: Global, times: u32, expr: Expr<C>) -> Result<Expr<C>, AllocError> {
    let mut outer = expr;
    for _time in 0..times {
        let mut operands = Vec::new(alloc);
        operands.push(outer)?;
        outer = Expr::Op(Op::Not, operands);
    }
    Ok(outer)
}

#[test]
fn no_path_has_more_than_32_expressions(rt: HostRuntime) -> Result<(), Fail> {
    let a = rt.alloc();
    let schema = schema(a)?;
    for (times, fault) in [(30, None), (31, Some(TooDeep)), (1_000_000, Some(TooDeep))] {
        let filter = negated(a, times, over(a, Op::IsNull, &["k"])?)?;
        let query = rows_where(a, filter)?;
        assert!(rt; resolve(a, &query, &schema).err() == fault, "{times}");
    }
    Ok(())
}

#[test]
fn what_is_too_deep_does_not_fit(rt: HostRuntime) -> Result<(), Fail> {
    let a = rt.alloc();
    let schema = schema(a)?;
    for (times, fits) in [(31, true), (32, false), (1_000_000, false)] {
        let query = Query {
            filter: Some(negated(a, times, Expr::Column(3))?),
            by: ArrayVec::new(),
            aggs: Vec::new(a),
        };
        assert!(rt; query.fits(&schema) == fits, "{times}");
    }
    Ok(())
}

#[test]
fn an_operator_has_one_operand_or_two(rt: HostRuntime) -> Result<(), Fail> {
    let a = rt.alloc();
    let mut operands = Vec::new(a);
    for _operand in 0..10_000 {
        operands.push(column(a, "b")?)?;
    }
    let query = rows_where(a, Expr::Op(Op::And, operands))?;
    assert!(rt; resolve(a, &query, &schema(a)?).err() == Some(WrongKind));
    Ok(())
}
