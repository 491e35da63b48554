//! What holds of reading and printing, by definitions alone.

pub use json_print::laws::plain_values_read_back;
pub use json_query::laws::each_query_is_read_as_itself;
pub use json_read::laws::{
    bytes_decide_the_field, bytes_decide_the_file, read_field_has_no_fault, read_has_no_fault,
};
