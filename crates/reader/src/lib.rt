// The line reader: the bytes of a line and the column reached (document 01, "Script program").
#![tactic(auto)]

ghost use Rattle.std.specs.Prelude.{◌-◌, ◌≡◌, length};
ghost use Rattle.std.specs.Iterator.{at_most};
ghost use Rattle.field.specs.Field.{found, number_from};
ghost use Rattle.reader.specs.inner.Reading.{moved_on};

use field::COLUMNS;

#[derive(Clone, Copy)]
pub struct Reader<'a> {
    pub line: &'a [u8],
    pub column: usize,
}

impl Reader<'_> {
    // The number of the field at the column reached; none where no field starts there.
    pub fn here(&self) -> Option<u32>
        ensures { result ≡ found (number_from self.now.line.now self.now.column) }
    {
        field::read_at(self.line, self.column)
    }
}

// The numbers of a line, field after field from the column reached. Where no field starts there, it gives none, and stays as it was.
impl<'a> Iterator for Reader<'a> {
    type Item = u32;

    ghost next_gives = { λ reader number further. (number ≡ found (number_from reader.line.now reader.column))
        × (further ≡ moved_on reader) };

    ghost remaining = { λ reader. at_most (length reader.line.now - reader.column) };

    fn next(&mut self) -> Option<u32> {
        let number = self.here()?;
        self.column += COLUMNS;
        Some(number)
    }
}
