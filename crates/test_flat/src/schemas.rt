//! Tests of the schemas that nodes name.

use crate::testing::{ALONE, CODES, LIST, assert_case};
use crate::{empty, node};
use arrays::SchemaFault::DictInList;
use arrays::{DataType, Field, Schema, is_too_deep};
use intake::{FlatFault, Node, batch_of, fields_of, nodes_of, schema_of};
use std::alloc::Global;
use std::process::Abort;
use std::test::Fail;
use test_samples::{INT8, UINT16};

/// Six columns, of which the second may hold no null.
static SIX: [Node<'static>; 8] = [
    empty!(b"c", ALONE),
    Node {
        nullable: 0,
        ..empty!(b"b", ALONE)
    },
    empty!(b"U", ALONE),
    empty!(b"+L", LIST),
    empty!(b"S", ALONE),
    empty!(b"i", CODES),
    empty!(b"u", ALONE),
    empty!(b"u", ALONE),
];

/// Whether a column of the six is of its type.
fn is_of_column(ty: &DataType, column: usize) -> bool {
    match (column, ty) {
        (0, DataType::Int(own)) => *own == INT8,
        (3, DataType::LargeList(item)) => match &item.ty {
            DataType::Int(own) => *own == UINT16,
            _ => false,
        },
        (1, DataType::Bool) | (2, DataType::LargeUtf8) | (4, DataType::Dict) => true,
        (5, DataType::Utf8) => true,
        _ => false,
    }
}

#[test]
fn a_schema_has_a_field_for_each_column(rt: HostRuntime) -> Result<(), Fail> {
    let schema = schema_of(rt.alloc(), &SIX)?;
    assert!(rt; schema.len() == 6 && schema.fields().len() == 6);
    for (column, field) in schema.fields().iter().enumerate() {
        assert_case(&rt, is_of_column(&field.ty, column), column);
    }
    Ok(())
}

/// Whether nodes name so many fields.
fn are_fields(alloc: Global, nodes: &[Node<'_>], count: usize) -> bool {
    match schema_of(alloc, nodes) {
        Ok(schema) => schema.len() == count,
        Err(_) => false,
    }
}

/// Whether a node without slots names what another does: the same type, and the same name, which a dictionary hasn't.
fn names_the_same(lent: &Node<'_>, named: &Node<'_>, is_dictionary: bool) -> bool {
    let has_type = (lent.format, lent.children, lent.dictionary)
        == (named.format, named.children, named.dictionary);
    let name: &[u8] = if is_dictionary { b"" } else { named.name };
    let has_name = lent.name == name && (lent.nullable == 0) == (named.nullable == 0);
    has_type && has_name && has_no_slot(lent)
}

fn has_no_slot(node: &Node<'_>) -> bool {
    let sizes = [node.validity.len(), node.first.len(), node.second.len()];
    (node.length, node.null_count) == (0, 0) && sizes == [0, 0, 0]
}

/// Asserts that the fields of the six columns are lent as the nodes that named them.
fn expect_lent(rt: &impl Abort, alloc: Global, schema: &Schema) -> Result<(), Fail> {
    let lent = fields_of(alloc, schema)?;
    assert!(rt; lent.len() == SIX.len());
    for (place, (lent, named)) in lent.iter().zip(&SIX).enumerate() {
        // The texts of the indices.
        let is_dictionary = place == 6;
        assert_case(rt, names_the_same(lent, named, is_dictionary), place);
    }
    assert!(rt; are_fields(alloc, &lent, 6));
    Ok(())
}

#[test]
fn fields_are_lent_as_the_nodes_that_named_them(rt: HostRuntime) -> Result<(), Fail> {
    let schema = schema_of(rt.alloc(), &SIX)?;
    expect_lent(&rt, rt.alloc(), &schema)
}

/// Indices of 64 bits.
static WIDE_CODES: [Node<'static>; 2] = [empty!(b"l", CODES), empty!(b"u", ALONE)];

/// Whether these are indices of 32 bits, and texts without a name that may be null.
fn are_codes(lent: &[Node<'_>]) -> bool {
    match lent {
        [codes, words] => {
            (codes.format, codes.name) == (b"i", b"name")
                && (words.format, words.name) == (b"u", b"")
                && words.nullable != 0
        }
        _ => false,
    }
}

#[test]
fn indices_are_lent_with_32_bits(rt: HostRuntime) -> Result<(), Fail> {
    let alloc = rt.alloc();
    let schema = schema_of(alloc, &WIDE_CODES)?;
    let fields = fields_of(alloc, &schema)?;
    assert!(rt; are_codes(&fields));
    let batch = batch_of(alloc, 0, &WIDE_CODES)?;
    let columns = nodes_of(alloc, &batch)?;
    assert!(rt; are_codes(&columns));
    Ok(())
}

static NAMED: [Node<'static>; 2] = [
    Node {
        name: b"citt\xc3\xa0",
        ..empty!(b"u", ALONE)
    },
    Node {
        name: b"",
        nullable: 0,
        ..empty!(b"l", ALONE)
    },
];

/// Whether these are the fields of the two.
fn are_named(fields: &[Field]) -> bool {
    match fields {
        [city, people] => {
            (city.name.as_str(), city.nullable) == ("città", true)
                && (people.name.as_str(), people.nullable) == ("", false)
        }
        _ => false,
    }
}

#[test]
fn a_field_has_its_name_and_may_be_null(rt: HostRuntime) -> Result<(), Fail> {
    let schema = schema_of(rt.alloc(), &NAMED)?;
    assert!(rt; are_named(schema.fields()));
    Ok(())
}

static WITH_BYTES: [Node<'static>; 1] = [node!(b"i", ALONE, 9, 3, [b"\x01", b"", b""])];

#[test]
fn lengths_and_buffers_are_not_looked_at(rt: HostRuntime) {
    assert!(rt; are_fields(rt.alloc(), &WITH_BYTES, 1));
}

static EIGHT_LISTS: [Node<'static>; 9] = [
    empty!(b"+l", LIST),
    empty!(b"+l", LIST),
    empty!(b"+l", LIST),
    empty!(b"+l", LIST),
    empty!(b"+l", LIST),
    empty!(b"+l", LIST),
    empty!(b"+l", LIST),
    empty!(b"+l", LIST),
    empty!(b"b", ALONE),
];

#[test]
fn eight_lists_are_a_type(rt: HostRuntime) -> Result<(), Fail> {
    let schema = schema_of(rt.alloc(), &EIGHT_LISTS)?;
    assert!(rt; schema.len() == 1);
    assert!(rt; matches!(schema.fields(), [field] if !is_too_deep(&field.ty)));
    Ok(())
}

static INDICES_IN_A_LIST: [Node<'static>; 4] = [
    empty!(b"b", ALONE),
    empty!(b"+l", LIST),
    empty!(b"c", CODES),
    empty!(b"u", ALONE),
];

#[test]
fn a_list_of_indices_is_no_field(rt: HostRuntime) {
    let fault = FlatFault::Schema {
        fault: DictInList { column: 1 },
    };
    assert!(rt; schema_of(rt.alloc(), &INDICES_IN_A_LIST).err() == Some(fault));
}
