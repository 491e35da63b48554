//! Files that are loaded into one table, one after the other.
ghost use Rattle.std.specs.Prelude.{◌≡◌, ◌+◌, ◌<◌, All, IfErr, IfOk, OnOk, Some, length, map, take};
ghost use Rattle.arrow_json.specs.Prelude.{AreUnder, file_of};
ghost use Rattle.embed.specs.Loaded.{AddsAll, all_batches};
ghost use Rattle.embed.specs.Refused.{StopsFiles};
ghost use Rattle.reports.specs.Prelude.{OrMemory, table_fields};
ghost use Rattle.table.specs.Prelude.{admitted, batch_cause, IsLegal};
ghost use Rattle.table.specs.Stored.{stored_fields};

use arrays::{File, NoMemory, RecordBatch, Schema};
use reports::{FileFault, RunFault};
use std::alloc::Global;
use table::{Refusal, TableState};

/// A table with all batches of the files.
pub(crate) fn load_files(alloc: Global, files: &[File]) -> Result<TableState, RunFault>
    requires { All (λ f. AreUnder f.fields f.batches) files.now }
    ensures fields { IfOk result (λ t. t.fields ≡ table_fields (map file_of files.now)) }
    ensures loaded { IfOk result (λ t. AddsAll (all_batches (map file_of files.now)) (table_fields (map file_of files.now)) t.history) }
    ensures err { IfErr result (OrMemory (StopsFiles (map file_of files.now))) }
{
    let schema = first_schema(alloc, files)?;
    let mut table = TableState::new(alloc, schema)?;
    for place in 0..files.len() {
        add_file(&mut table, files, place)?;
    }
    Ok(table)
}

/// A copy of the first file's schema, of no fields where there is no file.
fn first_schema(alloc: Global, files: &[File]) -> Result<Schema, NoMemory>
    ensures { IfOk result (λ s. stored_fields s ≡ table_fields (map file_of files.now)) }
{
    match files.first() {
        Some(file) => file.schema().copy(alloc),
        None => match Schema::new(Vec::new(alloc)) {
            Ok(schema) => Ok(schema),
            Err(_) => unreachable!(),
        },
    }
}

/// Adds the batches of the file at a place, in order, up to the first one that is refused, where those of all files before it are
/// added.
fn add_file(table: &mut TableState, files: &[File], place: usize) -> Result<(), RunFault>
    requires place { place < length files.now }
    requires under { All (λ f. AreUnder f.fields f.batches) files.now }
    requires fields { table.old.fields ≡ table_fields (map file_of files.now) }
    requires loaded { AddsAll (all_batches (take place (map file_of files.now))) (table_fields (map file_of files.now)) table.old.history }
    ensures fields { OnOk result (table.new.fields ≡ table_fields (map file_of files.now)) }
    ensures loaded { OnOk result (AddsAll (all_batches (take (place + 1) (map file_of files.now))) (table_fields (map file_of files.now)) table.new.history) }
    ensures err { IfErr result (OrMemory (StopsFiles (map file_of files.now))) }
{
    let batches = files[place].batches();
    for number in 0..batches.len() {
        add_batch(table, place, number, &batches[number])?;
    }
    Ok(())
}

/// Adds a batch that has this number in the file at a place.
fn add_batch(
    table: &mut TableState,
    place: usize,
    number: usize,
    batch: &RecordBatch,
) -> Result<(), RunFault>
    ensures allowed { OnOk result (batch_cause table.old.fields table.old.history batch.now ≡ None) }
    ensures added { OnOk result (table.new ≡ admitted table.old 0 batch.now) }
    ensures legal { IsLegal table.new.fields table.new.history }
    ensures err { IfErr result (OrMemory (λ fault. (refusal : Refusal) × (fault ≡ RunFault.OfFile place (FileFault.Refused number refusal))
        × (batch_cause table.old.fields table.old.history batch.now ≡ Some refusal))) }
{
    match table.admit(0, batch) {
        Ok(_) => Ok(()),
        Err(Refusal::NoMemory) => Err(RunFault::NoMemory),
        Err(refusal) => Err(RunFault::OfFile {
            file: place,
            fault: FileFault::Refused {
                batch: number,
                refusal,
            },
        }),
    }
}
