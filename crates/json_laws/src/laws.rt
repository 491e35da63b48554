ghost use Rattle.std.specs.Prelude.{◌≡◌, ◌+◌, ◌*◌, ◌≤◌, Some, ℕ, ◌<◌, ◌^◌, List, length, false, IsUtf8};
ghost use Rattle.std.specs.List.{AllByRecursion};
ghost use Rattle.arrays.specs.Prelude.{FieldShape, File, Item, kind_of_field};
ghost use Rattle.arrays.specs.Kind as kind;
ghost use Rattle.json_print.specs.Prelude.{ArePlain, AreSmall, FitTables, FitsField, FitsFile, IsPlain, batches_data, code_in, column_data, dictionaries_from, document, is_encoded, schema_data, text};
ghost use Rattle.json_base.specs.Prelude.{Table, depth, read, tables_of};
ghost use Rattle.json_laws.specs.IsFile.{AreShort, IsColumn, IsField, IsFile};
ghost use Rattle.json_read.specs.Prelude.{Reads, ReadsColumn, ReadsSchema, file_of};

/// A column that fits is a plain value: its numbers are of at most 64 bits, and its members stand in the order of their names.
#[tactic(auto, using(json_print::proofs::PlainColumns::column_plain))]
pub fn columns_are_plain()
    ensures { (texts : List (List ℕ)) → length texts < 2 ^ 64 → (f : FieldShape) (items : List Item) → FitsField f items
        → IsPlain (column_data (code_in texts) f items) }
{}

/// A schema is a plain value.
#[tactic(auto, using(json_print::proofs::PlainSchemas::schema_plain))]
pub fn schemas_are_plain()
    ensures { (fields : List FieldShape) → length fields < 2 ^ 64 → IsPlain (schema_data fields) }
{}

/// Batches that fit are plain values.
#[tactic(auto, using(json_print::proofs::PlainBatches::batches_plain))]
pub fn batches_are_plain()
    ensures { (dictionaries : List (List (List ℕ))) (fields : List FieldShape) (tables : List Table)
        → AreSmall dictionaries → FitTables fields tables → ArePlain (batches_data dictionaries fields tables) }
{}

/// A file in memory fits, if the dictionaries that it is printed with are no longer than a column of texts.
#[tactic(auto, using(crate::proofs::FileFits::file_fits))]
pub fn files_fit()
    ensures { (fields : List FieldShape) (tables : List Table) → IsFile fields tables → AreShort (dictionaries_from 0 fields tables) → FitsFile fields tables }
{}

/// The text of a file that fits is JSON of the file's document.
#[tactic(auto, using(json_print::proofs::PlainDocuments::text_read_back))]
pub fn texts_are_read_as_documents()
    ensures { (f : File) → FitsFile f.fields (tables_of f.batches)
        → read (text f) ≡ Some (document f.fields (tables_of f.batches)) }
{}

/// A column is nested two deep, and two more for each list around its innermost items.
#[tactic(auto, using(json_print::proofs::Depths::column_depth))]
pub fn columns_are_shallow()
    ensures { (code : List ℕ → ℕ) (f : FieldShape) (items : List Item)
        → depth (column_data code f items) ≤ 2 + 2 * kind.depth (kind_of_field f) }
{}

/// A column that isn't dictionary-encoded reads back as its items.
#[tactic(auto, using(crate::proofs::ReadColumns::plain_column_read))]
pub fn columns_read_back()
    ensures { (code : List ℕ → ℕ) (f : FieldShape) (rows : ℕ) (items : List Item) → IsField f → is_encoded (kind_of_field f) ≡ false → rows < 2 ^ 31
        → IsColumn (kind_of_field f) rows items → ReadsColumn (kind_of_field f) rows (column_data code f items) items }
{}

/// A schema reads back as its fields.
#[tactic(auto, using(crate::proofs::ReadSchema::schema_read))]
pub fn schemas_read_back()
    ensures { (fields : List FieldShape) → length fields < 2 ^ 63 → AllByRecursion IsField fields → ReadsSchema (schema_data fields) fields }
{}

/// The text of a file is UTF-8.
#[tactic(auto, using(crate::proofs::ReadFile::text_is_utf8))]
pub fn texts_are_utf8()
    ensures { (f : File) → IsFile f.fields (tables_of f.batches) → AreShort (dictionaries_from 0 f.fields (tables_of f.batches)) → IsUtf8 (text f) }
{}

/// What is printed of a file reads back as the file, if its dictionaries are short.
#[tactic(auto, using(crate::proofs::ReadFile::text_reads))]
pub fn what_is_printed_reads_back()
    ensures { (f : File) → IsFile f.fields (tables_of f.batches) → AreShort (dictionaries_from 0 f.fields (tables_of f.batches)) → Reads (text f) (file_of f) }
{}
