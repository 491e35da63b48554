//! Where a value is read from.

ghost use Rattle.std.specs.Prelude.{◌≤◌, length};

/// A place in a text, and how deep a value that is read from there may be nested.
#[derive(Clone, Copy, Drop)]
pub struct Cursor<'t> {
    pub text: &'t str,
    pub at: usize,
    pub depth: usize,
    ghost within: { at ≤ length text.now },
}
