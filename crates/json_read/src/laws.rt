//! What holds of files and fields whatever program reads them.
ghost use Rattle.std.specs.Prelude.{◌≡◌, ℕ, List};
ghost use Rattle.arrays.specs.Prelude.{FieldShape};
ghost use Rattle.json_read.specs.JsonField.{FieldTextFault, IsFieldText};
ghost use Rattle.json_read.specs.JsonFile.{BytesFault, Reads};
ghost use Rattle.json_base.specs.JsonTable.{FileData};
ghost use Rattle.json_base.specs.declared.path.Step.{Step};
ghost use Rattle.json_base.specs.declared.fault.JsonFaultKind.{JsonFaultKind};

/// Where a fault stands, nothing is read.
pub fn read_has_no_fault()
    ensures { (bytes : List ℕ) (f : FileData) (kind : JsonFaultKind) (path : List Step) →
        Reads bytes f → BytesFault bytes kind path → ⊥ }
{}

/// The bytes decide what is read.
pub fn bytes_decide_the_file()
    ensures { (bytes : List ℕ) (f g : FileData) → Reads bytes f → Reads bytes g → f ≡ g }
{}

/// Where a fault stands, no field is read.
pub fn read_field_has_no_fault()
    ensures { (bytes : List ℕ) (f : FieldShape) (kind : JsonFaultKind) (path : List Step) →
        IsFieldText bytes f → FieldTextFault bytes kind path → ⊥ }
{}

/// The bytes decide which field is read.
pub fn bytes_decide_the_field()
    ensures { (bytes : List ℕ) (f g : FieldShape) → IsFieldText bytes f → IsFieldText bytes g → f ≡ g }
{}
