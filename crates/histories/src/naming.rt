//! Which log it is, and what a value says as an entry of it.

use std::marker::Brand;

/// Which log it is. Each call of a program picks it.
pub trait Naming {
    ghost use Rattle.logbook.specs.Pages.{Book};

    ghost book: { Book };
}

impl Naming for Brand {
    ghost book = { record { number = 0; log_name = 0; cells_name = 0 } };
}

/// A value that an entry tells of.
pub trait Noted<E> {
    // The entry that the value is.
    ghost noted: { Self → E };
}
