use answers::QueryFault::{AmbiguousColumn, NoColumn, NoMemory, Overflow, TooDeep, WrongKind};
use answers::query_fault_text;
use std::test::Fail;

#[test]
fn faults_are_reported_by_number_and_name(rt: HostRuntime) -> Result<(), Fail> {
    for (fault, text) in [
        (NoColumn, "Q1 NoColumn"),
        (AmbiguousColumn, "Q2 AmbiguousColumn"),
        (WrongKind, "Q3 WrongKind"),
        (Overflow { row: 2 }, "Q4 Overflow row=2"),
        (TooDeep, "Q5 TooDeep"),
        (NoMemory, "Q6 NoMemory"),
    ] {
        let report = query_fault_text(rt.alloc(), fault)?;
        let shown = format!(in rt.alloc(); "{fault}")?;
        assert!(rt;
            report.as_str() == text && shown.as_str() == text,
            "{report} and {shown}"
        );
    }
    Ok(())
}
