//! What holds of the texts that are printed.

ghost use Rattle.std.specs.Prelude.{◌≡◌, ◌≤◌, Some};
ghost use Rattle.json_base.specs.Prelude.{Data, compact_text, depth, max_depth, read};
ghost use Rattle.json_print.specs.Plain.{IsPlain};

/// The compact text of a plain value is JSON of that value, and of no other.
#[tactic(auto, using(crate::proofs::ReadBack::read_back))]
pub fn plain_values_read_back()
    ensures { (d : Data) → IsPlain d → depth d ≤ max_depth → read (compact_text d) ≡ Some d }
{}
