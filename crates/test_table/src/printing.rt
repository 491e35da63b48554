//! How faults of a table are printed.

use shared::{AddFault, GatherCause, OpenFault};
use std::alloc::{AllocError, Global};
use std::test::Fail;

/// Why a column isn't added, a table isn't opened, or isn't gathered.
#[derive(Clone, Copy)]
enum Fault {
    Add(AddFault),
    Open(OpenFault),
    Gather(GatherCause),
}

const PRINTED: [(Fault, &str); 10] = [
    (Fault::Add(AddFault::NotNullable), "N1 NotNullable"),
    (Fault::Add(AddFault::TooDeep), "N2 TooDeep"),
    (Fault::Add(AddFault::DictInList), "N3 DictInList"),
    (Fault::Add(AddFault::NoMemory), "N4 NoMemory"),
    (Fault::Open(OpenFault::NoWorkers), "O1 NoWorkers"),
    (Fault::Open(OpenFault::TooMany), "O2 TooMany"),
    (Fault::Open(OpenFault::NoMemory), "O3 NoMemory"),
    (Fault::Open(OpenFault::NoPlace), "O4 NoPlace"),
    (
        Fault::Gather(GatherCause::WorkerMissing { number: 3 }),
        "G1 WorkerMissing number=3",
    ),
    (Fault::Gather(GatherCause::NoMemory), "G2 NoMemory"),
];

#[test]
fn faults_are_printed(rt: HostRuntime) -> Result<(), Fail> {
    for (fault, wanted) in PRINTED {
        let printed = printed(rt.alloc(), fault)?;
        assert!(rt; printed.as_str() == wanted, "{printed}");
    }
    Ok(())
}

fn printed(alloc: Global, fault: Fault) -> Result<String, AllocError> {
    match fault {
        Fault::Add(fault) => format!(in alloc; "{fault}"),
        Fault::Open(fault) => format!(in alloc; "{fault}"),
        Fault::Gather(cause) => format!(in alloc; "{cause}"),
    }
}
