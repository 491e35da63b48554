//! Why a run ended early.

/// Why there is nothing more to print.
#[derive(Clone, Copy)]
pub(crate) enum Fault {
    /// The words ask for nothing.
    Arguments,
    /// Memory ran out, or what was to be measured was refused.
    Memory,
    /// The text is no query of the table.
    NoQuery,
    /// The query had no answer.
    NoAnswer,
    /// The output was not taken.
    Output,
}

impl Fault {
    /// How it is reported.
    pub(crate) fn why(self) -> &'static str {
        match self {
            Fault::Arguments => "bad arguments",
            Fault::Memory => "no memory",
            Fault::NoQuery => "no query of this table",
            Fault::NoAnswer => "no answer",
            Fault::Output => "no output",
        }
    }

    /// The status that the program ends with.
    pub(crate) fn status(self) -> u8 {
        match self {
            Fault::Arguments => 2,
            _ => 1,
        }
    }
}
