ghost use Rattle.std.specs.Prelude.{◌≡◌, map};
ghost use Rattle.std.specs.Arc.{arc_value};
ghost use Rattle.arrays.specs.File.{File, AreBatchesOf};

use crate::batch::RecordBatch;
use std::marker::Model;
use std::sync::Arc;
use types::Schema;

/// A schema and batches of its types, as a file holds them.
#[derive(Drop)]
pub struct File {
    schema: Arc<Schema>,
    batches: Vec<Arc<RecordBatch>>,
}

impl Model for File {
    ghost use Rattle.std.specs.Prelude.{map};
    ghost use Rattle.std.specs.Arc.{arc_value};
    ghost use Rattle.arrays.specs.File.{File, AreBatchesOf};
    ghost use Rattle.arrays.specs.File.{file_code};

    ghost Value = { File };

    ghost coded = { file_code };

    ghost view = { λ f. record { fields = arc_value f.schema; batches = map arc_value f.batches.items } };

    ghost invariant = { λ f. AreBatchesOf (arc_value f.schema) (map arc_value f.batches.items) };
}

impl File {
    /// A file of the batches, each of the schema's types.
    pub fn new(schema: Arc<Schema>, batches: Vec<Arc<RecordBatch>>) -> File
        requires { AreBatchesOf (arc_value schema) (map arc_value batches.items) }
        ensures { result ≡ record { fields = arc_value schema; batches = map arc_value batches.items } }
    {
        File { schema, batches }
    }

    /// The schema of the batches.
    pub fn schema(&self) -> &Schema
        ensures { result.now ≡ self.now.fields }
    {
        &self.schema
    }

    /// The batches, in order.
    pub fn batches(&self) -> &[Arc<RecordBatch>]
        ensures value { map arc_value result.now ≡ self.now.batches }
        ensures types { AreBatchesOf self.now.fields self.now.batches }
    {
        &self.batches
    }

    /// The schema and the batches themselves.
    pub fn into_parts(self) -> (Arc<Schema>, Vec<Arc<RecordBatch>>)
        ensures schema { arc_value result.0 ≡ self.fields }
        ensures batches { map arc_value result.1.items ≡ self.batches }
        ensures types { AreBatchesOf self.fields self.batches }
    {
        let File { schema, batches } = self;
        (schema, batches)
    }
}
