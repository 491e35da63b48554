//! Names of files as they are reported: in one line.
ghost use Rattle.std.specs.Prelude.{◌≡◌, ◌++◌, ◌<◌, ◌⊎◌, OnOk, string_bytes};
ghost use Rattle.json.specs.Print.{escape_byte};
ghost use Rattle.reports.specs.Lines.{escaped_char, escaped_name};

use std::alloc::AllocError;

/// Adds a name.
#[tactic(auto, using(std::proofs::lemmas::List::flat_map_more))]
pub(crate) fn push_name(text: &mut String, name: &str) -> Result<(), AllocError>
    ensures { OnOk result (string_bytes text.new ≡ string_bytes text.old ++ escaped_name name.now) }
{
    for c in name.chars() {
        push_char(text, c)?;
    }
    Ok(())
}

/// Adds a character of a name.
fn push_char(text: &mut String, c: char) -> Result<(), AllocError>
    ensures { OnOk result (string_bytes text.new ≡ string_bytes text.old ++ escaped_char c) }
{
    if c == '\\' || c < ' ' {
        text.push_str(escape_of(c))
    } else if c == '\u{7f}' {
        text.push_str("\\u007f")
    } else {
        text.push(c)
    }
}

/// What stands for a control character, or else for the backslash, in a JSON string.
#[tactic(auto, unfolding(json::specs::Print::escape_byte))]
fn escape_of(c: char) -> &'static str
    requires { (c < 32) ⊎ (c ≡ 92) }
    ensures { result.now ≡ escape_byte c }
{
    match c {
        '\u{0}' => "\\u0000",
        '\u{1}' => "\\u0001",
        '\u{2}' => "\\u0002",
        '\u{3}' => "\\u0003",
        '\u{4}' => "\\u0004",
        '\u{5}' => "\\u0005",
        '\u{6}' => "\\u0006",
        '\u{7}' => "\\u0007",
        '\u{8}' => "\\b",
        '\u{9}' => "\\t",
        '\u{a}' => "\\n",
        '\u{b}' => "\\u000b",
        '\u{c}' => "\\f",
        '\u{d}' => "\\r",
        '\u{e}' => "\\u000e",
        '\u{f}' => "\\u000f",
        '\u{10}' => "\\u0010",
        '\u{11}' => "\\u0011",
        '\u{12}' => "\\u0012",
        '\u{13}' => "\\u0013",
        '\u{14}' => "\\u0014",
        '\u{15}' => "\\u0015",
        '\u{16}' => "\\u0016",
        '\u{17}' => "\\u0017",
        '\u{18}' => "\\u0018",
        '\u{19}' => "\\u0019",
        '\u{1a}' => "\\u001a",
        '\u{1b}' => "\\u001b",
        '\u{1c}' => "\\u001c",
        '\u{1d}' => "\\u001d",
        '\u{1e}' => "\\u001e",
        '\u{1f}' => "\\u001f",
        _ => "\\\\",
    }
}
