//! What holds of texts whatever program reads them.

ghost use Rattle.std.specs.Prelude.{◌≡◌, ℕ, List, [], false, Some};
ghost use Rattle.json.specs.Lex.{lex, between, begins_colon};
ghost use Rattle.serde_json.specs.Data.{Data};
ghost use Rattle.serde_json.specs.Read.{max_depth, read};
ghost use Rattle.json_scan.specs.Spelling.{SpellsAt};

/// Two readings at one place are of one value.
pub fn same_value()
    ensures { (depth : ℕ) (xs ys zs : List ℕ) (d e : Data) → SpellsAt depth xs d ys → SpellsAt depth xs e zs
        → begins_colon (lex between ys) ≡ false → begins_colon (lex between zs) ≡ false → d ≡ e }
{}

/// A value with nothing but spaces behind it is the document that `serde_json` reads.
pub fn whole_document()
    ensures { (xs ys : List ℕ) (d : Data) → SpellsAt max_depth xs d ys → lex between ys ≡ [] → read xs ≡ Some d }
{}
