ghost use Rattle.std.specs.Prelude.{◌≡◌, List, Some, None, IfOk, IfErr, position, nat_lt, length, ◌==◌};
ghost use Rattle.types.specs.Kind.{kind_of, depth};
ghost use Rattle.types.specs.Shape.{fields_of};
ghost use Rattle.types.specs.declared.data_type.Field.{out-Field};
ghost use Rattle.types.specs.Schema.{is_shallow_with_dict, schema_fault};

use crate::data_type::Field;
use crate::depth::{has_dict_in_list, is_too_deep};
use colbits::NoMemory;
use std::alloc::Global;
use std::marker::Model;
use thiserror::Error;

/// Why a list of fields is no schema.
#[derive(Clone, Copy, Debug, PartialEq, Eq, Error)]
pub enum SchemaFault {
    /// More than 8 lists in one another.
    #[error("C1 TooDeep column={column}")]
    TooDeep { column: usize },
    /// A dictionary inside a list.
    #[error("C2 DictInList column={column}")]
    DictInList { column: usize },
}

/// The fields of a table, in order: none has more than 8 lists in one another, none a dictionary inside a list.
///
/// Clauses see the fields as plain values.
#[derive(Debug, Drop)]
pub struct Schema {
    fields: Vec<Field>,
}

impl Model for Schema {
    ghost use Rattle.std.specs.Prelude.{◌≡◌, List, None};
    ghost use Rattle.std.specs.Coded.{coded_list};
    ghost use Rattle.types.specs.FieldCode.{field_code};
    ghost use Rattle.types.specs.Shape.{FieldShape, fields_of};

    ghost Value = { List FieldShape };

    ghost coded = { coded_list field_code };

    ghost use Rattle.types.specs.Schema.{schema_fault};

    ghost view = { λ s. fields_of s.fields.items };

    ghost invariant = { λ s. schema_fault (fields_of s.fields.items) ≡ None };
}

impl Schema {
    /// The schema of the fields. The first fault is reported, of each kind at the least column; what was
    /// handed in is gone then.
    pub fn new(fields: Vec<Field>) -> Result<Schema, SchemaFault>
        ensures ok { IfOk result (λ s. (s ≡ fields_of fields.items)
            × (schema_fault (fields_of fields.items) ≡ None)) }
        ensures err { IfErr result (λ e. schema_fault (fields_of fields.items) ≡ Some e) }
    {
        match first_fault(&fields) {
            Some(fault) => Err(fault),
            None => Ok(Schema { fields }),
        }
    }

    /// A copy of the schema.
    pub fn copy(&self, alloc: Global) -> Result<Schema, NoMemory>
        ensures { IfOk result (λ s. s ≡ self.now) }
    {
        let fields = copies(alloc, &self.fields)?;
        Ok(Schema { fields })
    }

    /// How many fields there are.
    pub fn len(&self) -> usize
        ensures { result ≡ length self.now }
    {
        self.fields.len()
    }

    /// Whether there is no field.
    pub fn is_empty(&self) -> bool
        ensures { result ≡ (length self.now == 0) }
    {
        self.len() == 0
    }

    /// The fields.
    pub fn fields(&self) -> &[Field]
        ensures value { fields_of result.now ≡ self.now }
        ensures lawful { schema_fault self.now ≡ None }
    {
        &self.fields
    }
}

/// A copy of each field.
fn copies(alloc: Global, fields: &[Field]) -> Result<Vec<Field>, NoMemory>
    ensures { IfOk result (λ v. fields_of v.items ≡ fields_of fields.now) }
{
    let mut copied = Vec::with_capacity(alloc, fields.len())?;
    for field in fields {
        copied.push(field.copy(alloc)?)?;
    }
    Ok(copied)
}

/// The first fault of the fields.
#[tactic(auto, using(crate::proofs::SchemaLemmas::by_kinds))]
fn first_fault(fields: &[Field]) -> Option<SchemaFault>
    ensures { result ≡ schema_fault (fields_of fields.now) }
{
    if let Some(column) = first_deep(fields) {
        return Some(SchemaFault::TooDeep { column });
    }
    match first_with_dict(fields) {
        Some(column) => Some(SchemaFault::DictInList { column }),
        None => None,
    }
}

/// The least column with more than 8 lists in one another.
fn first_deep(fields: &[Field]) -> Option<usize>
    ensures { result ≡ position (λ f. nat_lt 8 (depth (kind_of (out-Field f).ty))) fields.now }
{
    fields.iter().position(|f| is_too_deep(&f.ty))
}

/// The least column with a dictionary inside a list. It doesn't look into a field that is too deep.
fn first_with_dict(fields: &[Field]) -> Option<usize>
    ensures { result ≡ position (λ f. is_shallow_with_dict (kind_of (out-Field f).ty)) fields.now }
{
    fields
        .iter()
        .position(|f| !is_too_deep(&f.ty) && has_dict_in_list(&f.ty))
}
