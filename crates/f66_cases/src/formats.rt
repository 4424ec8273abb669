// The text of a format, as FORTRAN writes it, read into fields.

use f66_tree::Field;
use ground::{List, Text};
use std::alloc::{AllocError, Global};
use std::mem::replace;

/// A format in the middle of its text: a number that is read, the edit whose width is read with its count, and the
/// characters that are left of a text.
#[derive(Drop)]
struct Written {
    fields: List<Field>,
    open: Vec<(u16, List<Field>)>,
    number: Option<u16>,
    edit: Option<(u8, u16)>,
    left: u16,
    text: Vec<u8>,
}

impl Written {
    /// The number before an edit, or one.
    fn count(&mut self) -> u16 {
        self.number.take().unwrap_or(1)
    }

    fn field(&mut self, field: Field) -> Result<(), AllocError> {
        self.fields.push(field)?;
        Ok(())
    }

    fn end_text(&mut self, alloc: Global) -> Result<(), AllocError> {
        let text = replace(&mut self.text, Vec::new(alloc));
        self.field(Field::Chars(Text::new(text)?))
    }

    fn character(&mut self, alloc: Global, byte: u8) -> Result<(), AllocError> {
        self.text.push(byte)?;
        self.left = self.left.saturating_sub(1);
        if self.left == 0 {
            self.end_text(alloc)?;
        }
        Ok(())
    }

    fn begin_text(&mut self, alloc: Global) -> Result<(), AllocError> {
        self.left = self.count();
        if self.left == 0 {
            self.end_text(alloc)?;
        }
        Ok(())
    }

    fn asterisks(&mut self, alloc: Global) -> Result<(), AllocError> {
        for _ in 0..self.count() {
            self.text.push(b'*')?;
        }
        self.end_text(alloc)
    }

    /// An edit ends behind its width.
    fn end_edit(&mut self) -> Result<(), AllocError> {
        let width = self.number.take().unwrap_or(0);
        match self.edit.take() {
            Some((b'I', count)) => self.field(Field::Whole(count, width)),
            Some((b'L', count)) => self.field(Field::Truth(count, width)),
            Some((_, count)) => self.field(Field::Letter(count)),
            None => Ok(()),
        }
    }

    fn begin_group(&mut self, alloc: Global) -> Result<(), AllocError> {
        let before = replace(&mut self.fields, Vec::new(alloc));
        let count = self.count();
        self.open.push((count, before))?;
        Ok(())
    }

    fn end_group(&mut self) -> Result<(), AllocError> {
        self.end_edit()?;
        match self.open.pop() {
            Some((count, before)) => {
                let inside = replace(&mut self.fields, before);
                self.field(Field::Group(count, inside))
            }
            None => Ok(()),
        }
    }

    fn slash(&mut self) -> Result<(), AllocError> {
        self.end_edit()?;
        self.field(Field::Slash)
    }

    fn digit(&mut self, digit: u16) {
        let number = self.number.unwrap_or(0);
        self.number = Some(number.saturating_mul(10).saturating_add(digit));
    }

    fn take(&mut self, alloc: Global, byte: u8) -> Result<(), AllocError> {
        if self.left > 0 {
            return self.character(alloc, byte);
        }
        match byte {
            b'0'..=b'9' => {
                self.digit(u16::from(byte - b'0'));
                Ok(())
            }
            b'I' | b'L' | b'A' => {
                self.edit = Some((byte, self.count()));
                Ok(())
            }
            b'X' => {
                let count = self.count();
                self.field(Field::Skip(count))
            }
            b'H' => self.begin_text(alloc),
            b'*' => self.asterisks(alloc),
            b'(' => self.begin_group(alloc),
            b')' => self.end_group(),
            b'/' => self.slash(),
            _ => self.end_edit(),
        }
    }
}

/// The fields of a format; `7*` stands for a text of 7 asterisks.
pub fn fields_in(alloc: Global, text: &str) -> Result<List<Field>, AllocError> {
    let mut written = Written {
        fields: Vec::new(alloc),
        open: Vec::new(alloc),
        number: None,
        edit: None,
        left: 0,
        text: Vec::new(alloc),
    };
    for byte in text.as_bytes() {
        written.take(alloc, *byte)?;
    }
    written.end_edit()?;
    Ok(written.fields)
}
