//! The schema of a batch: its own, or one that many share.

ghost use Rattle.std.specs.Prelude.{◌≡◌, IfOk};
ghost use Rattle.std.specs.Arc.{arc_value};

use colbits::NoMemory;
use std::alloc::Global;
use std::marker::Model;
use std::sync::Arc;
use types::Schema;

/// The schema of a batch.
///
/// Clauses see its fields.
#[derive(Drop)]
pub(crate) struct BatchSchema {
    owner: Owner,
}

/// Who has a schema.
#[derive(Drop)]
enum Owner {
    One(Schema),
    Many(Arc<Schema>),
}

impl Model for BatchSchema {
    ghost use Rattle.std.specs.Prelude.{List};
    ghost use Rattle.std.specs.Coded.{coded_list};
    ghost use Rattle.types.specs.Prelude.{FieldShape, field_code};
    ghost use Rattle.arrays.specs.BatchSchema.{show_schema};

    ghost Value = { List FieldShape };

    ghost coded = { coded_list field_code };

    ghost view = { show_schema };
}

impl BatchSchema {
    /// A schema of one batch alone. No memory is taken.
    pub(crate) fn own(schema: Schema) -> BatchSchema
        ensures { result ≡ schema }
    {
        BatchSchema {
            owner: Owner::One(schema),
        }
    }

    /// A schema that other batches have too.
    pub(crate) fn shared(schema: Arc<Schema>) -> BatchSchema
        ensures { result ≡ arc_value schema }
    {
        BatchSchema {
            owner: Owner::Many(schema),
        }
    }

    /// The same schema: shared where others have it, else copied.
    pub(crate) fn copy(&self, alloc: Global) -> Result<BatchSchema, NoMemory>
        ensures { IfOk result (λ s. s ≡ self.now) }
    {
        match &self.owner {
            Owner::One(schema) => Ok(BatchSchema::own(schema.copy(alloc)?)),
            Owner::Many(schema) => Ok(BatchSchema::shared(schema.clone()?)),
        }
    }

    /// The schema.
    pub(crate) fn get(&self) -> &Schema
        ensures { result.now ≡ self.now }
    {
        match &self.owner {
            Owner::One(schema) => schema,
            Owner::Many(schema) => schema,
        }
    }
}
