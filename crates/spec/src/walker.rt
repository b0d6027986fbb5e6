// A walker over the records of a file. It borrows the caller's bytes and copies none.
ghost use Rattle.std.specs.Prelude.{◌≡◌};
ghost use Rattle.spec.specs.Code.{section_at, section_number};

use crate::kinds::Section;
use crate::records::kind_at;

// The bytes, and the number of the next record, counting from 0.
#[derive(Clone, Copy)]
pub(crate) struct Walker<'a> {
    pub(crate) file: &'a [u8],
    pub(crate) next: usize,
}

fn section_at(file: &[u8], i: usize) -> Section
    ensures { section_number result ≡ section_at file.now i }
{
    if i < file.len() / 32 {
        kind_at(file, i).section()
    } else {
        Section::Neither
    }
}

impl<'a> Walker<'a> {
    // The section of the next record; neither at the end of the file.
    pub(crate) fn section(self) -> Section
        ensures { section_number result ≡ section_at self.entry.file.now self.entry.next }
    {
        let Walker { file, next } = self;
        section_at(file, next)
    }
}
