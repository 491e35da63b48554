//! What names and positions call among the fields of a schema.

ghost use Rattle.std.specs.Prelude.{◌≡◌, count_by, position};
ghost use Rattle.types.specs.Shape.{field_of, fields_of};
ghost use Rattle.query.specs.CalledColumns.{has_name, place_of, sort_at, sort_named};

use crate::check::Column;
use crate::fault::QueryFault;
use crate::sort::{Sort, sort_of_type};
use types::{Field, Schema};

impl Column for u32 {
    ghost use Rattle.query.specs.CalledColumns.{sort_at};

    ghost sort_in = { sort_at };

    fn sort_in(&self, schema: &Schema) -> Result<Sort, QueryFault> {
        sort_at(schema.fields(), *self as usize)
    }
}

impl Column for String {
    ghost use Rattle.std.specs.Prelude.{string_bytes};
    ghost use Rattle.query.specs.CalledColumns.{sort_named};

    ghost sort_in = { λ fields name. sort_named fields (string_bytes name) };

    fn sort_in(&self, schema: &Schema) -> Result<Sort, QueryFault> {
        sort_named(schema.fields(), self.as_str())
    }
}

/// The sort of the column at a position, which must be that of a field.
fn sort_at(fields: &[Field], place: usize) -> Result<Sort, QueryFault>
    ensures { result ≡ sort_at (fields_of fields.now) place }
{
    match fields.get(place) {
        Some(field) => Ok(sort_of_type(&field.ty)),
        None => Err(QueryFault::NoColumn),
    }
}

/// The sort of the column of a name, which exactly one field must have.
fn sort_named(fields: &[Field], name: &str) -> Result<Sort, QueryFault>
    ensures { result ≡ sort_named (fields_of fields.now) name.now }
{
    match count_of(fields, name) {
        0 => Err(QueryFault::NoColumn),
        1 => sort_at(fields, place_of(fields, name)),
        _ => Err(QueryFault::AmbiguousColumn),
    }
}

/// How many fields have the name.
#[tactic(auto, using(crate::proofs::ColumnLemmas::fields))]
fn count_of(fields: &[Field], name: &str) -> usize
    ensures { result ≡ count_by (has_name name.now) (fields_of fields.now) }
{
    fields.iter().filter(|field| has_name(field, name)).count()
}

/// The position of the first field of the name; how many fields there are, where none has it.
pub(crate) fn place_of(fields: &[Field], name: &str) -> usize
    ensures { result ≡ place_of (fields_of fields.now) name.now }
{
    first_of(fields, name).unwrap_or(fields.len())
}

/// The position of the first field of the name.
fn first_of(fields: &[Field], name: &str) -> Option<usize>
    ensures { result ≡ position (λ f. has_name name.now (field_of f)) fields.now }
{
    fields.iter().position(|field| has_name(field, name))
}

/// Whether the field has the name.
#[tactic(auto, using(crate::proofs::ColumnLemmas::fields))]
fn has_name(field: &Field, name: &str) -> bool
    ensures { result ≡ has_name name.now (field_of field.now) }
{
    field.name.as_str() == name
}
