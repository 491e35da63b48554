//! A JSON text in the making.

ghost use Rattle.std.specs.Prelude.{◌≡◌, [], ◌∷◌, ◌++◌, decimal, OnOk, string_bytes};
ghost use Rattle.std.specs.Fmt.{signed_decimal};
ghost use Rattle.json.specs.Print.{print};
ghost use Rattle.json.specs.Token as token;

use arrays::NoMemory;
use json::Writer;
use std::alloc::Global;
use std::marker::Model;

/// A text of JSON tokens, without a space. Clauses see the tokens so far.
#[derive(Drop)]
pub(crate) struct Output {
    writer: Writer,
}

impl Model for Output {
    ghost use Rattle.std.specs.Prelude.{◌≡◌, List, []};
    ghost use Rattle.json.specs.Token.{Token, tokens_code};

    ghost Value = { List Token };

    ghost coded = { tokens_code };

    ghost view = { λ o. o.writer.tokens };

    ghost invariant = { λ o. o.writer.before ≡ [] };
}

impl Output {
    /// A text of nothing, which takes no memory until the first token.
    pub(crate) fn new(alloc: Global) -> Output
        ensures { result ≡ [] }
    {
        Output {
            writer: Writer::new(Vec::new(alloc)),
        }
    }

    /// The text.
    pub(crate) fn into_text(self) -> String
        ensures { string_bytes result ≡ print self }
    {
        match String::from_utf8(self.writer.into_inner()) {
            Ok(text) => text,
            // The writer's text is UTF-8.
            Err(_) => unreachable!(),
        }
    }

    pub(crate) fn begin_object(&mut self) -> Result<(), NoMemory>
        ensures { OnOk result (self.new ≡ self.old ++ token.begin_object ∷ []) }
    {
        self.writer.begin_object()?;
        Ok(())
    }

    pub(crate) fn end_object(&mut self) -> Result<(), NoMemory>
        ensures { OnOk result (self.new ≡ self.old ++ token.end_object ∷ []) }
    {
        self.writer.end_object()?;
        Ok(())
    }

    pub(crate) fn begin_array(&mut self) -> Result<(), NoMemory>
        ensures { OnOk result (self.new ≡ self.old ++ token.begin_array ∷ []) }
    {
        self.writer.begin_array()?;
        Ok(())
    }

    pub(crate) fn end_array(&mut self) -> Result<(), NoMemory>
        ensures { OnOk result (self.new ≡ self.old ++ token.end_array ∷ []) }
    {
        self.writer.end_array()?;
        Ok(())
    }

    pub(crate) fn key(&mut self, name: &str) -> Result<(), NoMemory>
        ensures { OnOk result (self.new ≡ self.old ++ token.key name.now ∷ []) }
    {
        self.writer.key(name)?;
        Ok(())
    }

    pub(crate) fn string(&mut self, text: &str) -> Result<(), NoMemory>
        ensures { OnOk result (self.new ≡ self.old ++ token.string text.now ∷ []) }
    {
        self.writer.string(text)?;
        Ok(())
    }

    pub(crate) fn boolean(&mut self, truth: bool) -> Result<(), NoMemory>
        ensures { OnOk result (self.new ≡ self.old ++ token.boolean truth ∷ []) }
    {
        self.writer.boolean(truth)?;
        Ok(())
    }

    pub(crate) fn number(&mut self, number: u64) -> Result<(), NoMemory>
        ensures { OnOk result (self.new ≡ self.old ++ token.number (decimal number) ∷ []) }
    {
        self.writer.u64(number)?;
        Ok(())
    }

    pub(crate) fn negative(&mut self, number: i64) -> Result<(), NoMemory>
        ensures { OnOk result (self.new ≡ self.old ++ token.number (signed_decimal number) ∷ []) }
    {
        self.writer.i64(number)?;
        Ok(())
    }

    /// A number within quotes.
    pub(crate) fn quoted_number(&mut self, number: u64) -> Result<(), NoMemory>
        ensures { OnOk result (self.new ≡ self.old ++ token.string (decimal number) ∷ []) }
    {
        self.writer.quoted_u64(number)?;
        Ok(())
    }

    /// A number below 0 within quotes.
    pub(crate) fn quoted_negative(&mut self, number: i64) -> Result<(), NoMemory>
        ensures { OnOk result (self.new ≡ self.old ++ token.string (signed_decimal number) ∷ []) }
    {
        self.writer.quoted_i64(number)?;
        Ok(())
    }
}
