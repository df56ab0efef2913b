//! Bytes of others, as they are shown within a line.
use std::fmt::{self, Display, Formatter};

/// Bytes that are shown as text: those that are no UTF-8 as `\xff`, and control characters as `\t`, `\r` or `\u{1b}`, so that what is
/// shown stays in its line and says which bytes stand there.
#[derive(Clone, Copy, Drop)]
pub struct Shown<'a>(pub &'a [u8]);

impl Display for Shown<'_> {
    fn fmt<W: fmt::Write>(&self, f: &mut Formatter<W>) -> fmt::Result {
        for chunk in self.0.utf8_chunks() {
            show_text(chunk.valid(), f)?;
            write!(f, "{}", chunk.invalid().escape_ascii())?;
        }
        Ok(())
    }
}

fn show_text<W: fmt::Write>(text: &str, f: &mut Formatter<W>) -> fmt::Result {
    for c in text.chars() {
        if c.is_control() {
            write!(f, "{}", c.escape_default())?;
        } else {
            f.write_char(c)?;
        }
    }
    Ok(())
}
