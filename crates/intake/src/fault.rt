use flat::FlatFault;
use table::{AddFault, Refusal};
use thiserror::Error;

/// Why nodes aren't taken into a table.
#[derive(Clone, Copy, Debug, PartialEq, Eq, Error)]
pub enum IntakeFault {
    /// The nodes are no batch, or no schema.
    #[error("{fault}")]
    Flat { fault: FlatFault },
    /// The table doesn't take the batch.
    #[error("{refusal}")]
    Refused { refusal: Refusal },
    /// A column is to be added, and the nodes are none, or several.
    #[error("column: I1 NotOneColumn columns={columns}")]
    NotOneColumn { columns: usize },
    /// No column of the field is added.
    #[error("column: {fault}")]
    Column { fault: AddFault },
}
