ghost use Rattle.std.specs.Prelude.{◌≡◌, ◌∷◌, ◌++◌, [], IfOk, OnOk, string_bytes};
ghost use Rattle.json_base.specs.JsonPath.{member_name, step_text, pointer};

use arrays::NoMemory;
use std::alloc::{AllocError, Global};
use std::marker::Model;

/// The members of objects that are looked at: those of files up to `Data`, then those of queries.
#[derive(Clone, Copy, Debug, PartialEq, Eq)]
pub enum Member {
    Schema,
    Fields,
    Name,
    Nullable,
    /// `type`, the type of a field.
    DataType,
    BitWidth,
    IsSigned,
    Children,
    Dictionary,
    /// `id`, the number of a dictionary.
    Id,
    IndexType,
    Dictionaries,
    /// `data` of an entry of `dictionaries`: the batch of its texts.
    Texts,
    Batches,
    Count,
    Columns,
    Validity,
    Offset,
    Data,
    Filter,
    By,
    Aggs,
    Column,
    Int,
    Text,
    Op,
    Args,
    Agg,
}

impl Member {
    /// The name that the document has for it.
    pub fn name(self) -> &'static str
        ensures { result.now ≡ member_name self }
    {
        match self {
            Member::Schema => "schema",
            Member::Fields => "fields",
            Member::Name => "name",
            Member::Nullable => "nullable",
            Member::DataType => "type",
            Member::BitWidth => "bitWidth",
            Member::IsSigned => "isSigned",
            Member::Children => "children",
            Member::Dictionary => "dictionary",
            Member::Id => "id",
            Member::IndexType => "indexType",
            Member::Dictionaries => "dictionaries",
            Member::Texts => "data",
            Member::Batches => "batches",
            Member::Count => "count",
            Member::Columns => "columns",
            Member::Validity => "VALIDITY",
            Member::Offset => "OFFSET",
            Member::Data => "DATA",
            Member::Filter => "filter",
            Member::By => "by",
            Member::Aggs => "aggs",
            Member::Column => "column",
            Member::Int => "int",
            Member::Text => "text",
            Member::Op => "op",
            Member::Args => "args",
            Member::Agg => "agg",
        }
    }
}

/// One step into a document: to a member of an object, or to an item of an array.
#[derive(Clone, Copy, Debug, PartialEq, Eq)]
pub enum Step {
    Member(Member),
    Item(usize),
}

/// A place of a document: the steps that lead there from its root.
#[derive(Debug, Drop)]
pub struct Path {
    steps: Vec<Step>,
}

impl Model for Path {
    ghost use Rattle.std.specs.Prelude.{List};
    ghost use Rattle.json_base.specs.declared.path.Step.{Step};

    ghost Value = { List Step };

    ghost view = { λ p. p.steps.items };
}

impl Path {
    /// The document itself.
    pub fn root(alloc: Global) -> Path
        ensures { result ≡ [] }
    {
        Path {
            steps: Vec::new(alloc),
        }
    }

    /// The place that these steps lead to.
    pub fn from_steps(alloc: Global, steps: &[Step]) -> Result<Path, NoMemory>
        ensures { IfOk result (λ p. p ≡ steps.now) }
    {
        let steps = Vec::from_slice(alloc, steps)?;
        Ok(Path { steps })
    }

    /// The steps, from the root on.
    pub fn steps(&self) -> &[Step]
        ensures { result.now ≡ self.now }
    {
        &self.steps
    }

    /// The same place, seen from where this step begins.
    pub fn under(mut self, step: Step) -> Result<Path, NoMemory>
        ensures { IfOk result (λ p. p ≡ step ∷ self) }
    {
        self.steps.insert(0, step)?;
        Ok(self)
    }
}

/// Adds a place as a JSON pointer: a slash before each member's name and each item's number.
/// No name has a `~` or a slash, so none is escaped.
pub(crate) fn push_pointer(text: &mut String, steps: &[Step]) -> Result<(), AllocError>
    ensures { OnOk result (string_bytes text.new ≡ string_bytes text.old ++ pointer steps.now) }
{
    for step in steps {
        push_step(text, *step)?;
    }
    Ok(())
}

fn push_step(text: &mut String, step: Step) -> Result<(), AllocError>
    ensures { OnOk result (string_bytes text.new ≡ string_bytes text.old ++ step_text step) }
{
    text.push_str("/")?;
    match step {
        Step::Member(member) => text.push_str(member.name()),
        Step::Item(index) => {
            write!(text, "{index}")?;
            Ok(())
        }
    }
}
