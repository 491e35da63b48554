//! Files of one column of numbers.

use std::alloc::{AllocError, Global};

/// A file of a batch of these numbers, in the column `v`.
pub(crate) fn file_of(alloc: Global, numbers: &[u32]) -> Result<String, AllocError> {
    let mut ones = String::new(alloc);
    let mut texts = String::new(alloc);
    for number in numbers {
        let comma = if ones.is_empty() { "" } else { "," };
        ones.push_str(format!(in alloc; "{comma}1")?.as_str())?;
        texts.push_str(format!(in alloc; "{comma}{number}")?.as_str())?;
    }
    let rows = numbers.len();
    format!(in alloc;
        r#"{{"schema":{{"fields":[{{"name":"v","nullable":true,"type":{{"name":"int","bitWidth":32,"isSigned":true}},"children":[]}}]}},"batches":[{{"count":{rows},"columns":[{{"name":"v","count":{rows},"VALIDITY":[{ones}],"DATA":[{texts}]}}]}}]}}"#
    )
}
