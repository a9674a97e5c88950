// The reader: hands on the records of a lent file one after another, each with its place.
ghost use Rattle.std.specs.Prelude.{◌≡◌, ◌-◌, true, [], length, if◌then◌else◌};
ghost use Rattle.std.specs.Iterator.{at_most};
ghost use Rattle.event_file.specs.Layout.{file_right, first_offset, count};
ghost use Rattle.event_file.specs.Parts.{parts, parts_from};
ghost use Rattle.event_file.specs.Reader.{coming, position, end, fits, HandsOn};

use crate::file_fault::Place;
use crate::records::{Part, Records};
use crate::trailer::Trailer;

impl<'a> Records<'a> {
    // The records that a trailer tells of, where the file has room for them and a trailer; otherwise none.
    pub fn over(file: &'a [u8], trailer: Trailer) -> Records<'a>
        ensures coming { coming result ≡ (if fits trailer.first trailer.count file.now then parts_from file.now trailer.first 0 trailer.count else []) }
        ensures left { result.left ≡ (if fits trailer.first trailer.count file.now then trailer.count else 0) }
        ensures position { position result ≡ (if fits trailer.first trailer.count file.now then trailer.first else 0) }
        ensures whole { file_right file.now ≡ true → trailer.first ≡ first_offset file.now → trailer.count ≡ count file.now → (coming result ≡ parts file.now) × (end result ≡ length file.now - 16) }
    {
        let end = trailer.first + 16 * trailer.count + 16;
        let fits = end as usize <= file.len();
        Records {
            file,
            first: if fits { trailer.first } else { 0 },
            index: 0,
            left: if fits { trailer.count } else { 0 },
        }
    }

    // The offset of the next record; after the last one, of what follows it.
    pub fn offset(&self) -> u32
        ensures value { result ≡ position self.now }
    {
        self.first + 16 * self.index
    }
}

impl<'a> Iterator for Records<'a> {
    type Item = Part<'a>;

    ghost next_gives = { HandsOn };

    ghost remaining = { λ r. at_most r.left };

    // The next record, or none after the last.
    fn next(&mut self) -> Option<Part<'a>> {
        if self.left == 0 {
            return None;
        }
        let index = self.index;
        let offset = self.offset();
        let bytes = self.file[offset as usize..].first_chunk::<16>()?;
        self.index += 1;
        self.left -= 1;
        Some(Part {
            bytes,
            place: Place { index, offset },
        })
    }
}

impl<'a> ExactSizeIterator for Records<'a> {
    fn len(&self) -> usize {
        self.left as usize
    }
}
