// Lists as text.
use std::fmt;

// Numbers, with a blank before each.
#[derive(Clone, Copy, Debug)]
pub(crate) struct Numbers<'a, T>(pub &'a [T]);

// Bytes, with two hexadecimal digits for each.
#[derive(Clone, Copy, Debug)]
pub(crate) struct Hex<'a>(pub &'a [u8]);

impl<T: fmt::Display> fmt::Display for Numbers<'_, T> {
    fn fmt<W: fmt::Write>(&self, f: &mut fmt::Formatter<W>) -> fmt::Result {
        self.0.iter().try_for_each(|number| write!(f, " {number}"))
    }
}

impl fmt::Display for Hex<'_> {
    fn fmt<W: fmt::Write>(&self, f: &mut fmt::Formatter<W>) -> fmt::Result {
        self.0.iter().try_for_each(|byte| write!(f, "{byte:02x}"))
    }
}
