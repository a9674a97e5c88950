// A reader's state over a lent file, and what it hands on.
ghost use Rattle.std.specs.Prelude.{◌+◌, ◌*◌, ◌≤◌, length};
ghost use Rattle.event_file.specs.Layout.{most_bytes};

use crate::file_fault::Place;

// One record's bytes, with their place in the file.
#[derive(Drop)]
pub struct Part<'a> {
    pub bytes: &'a [u8; 16],
    pub place: Place,
}

// The records of a file that are still to come. Index and count stand beside the bytes: each record is handed on with its
// index and offset, and after the last one the reader tells where it stands.
#[derive(Drop)]
pub struct Records<'a> {
    pub(crate) file: &'a [u8],
    // the offset of the file's first record
    pub(crate) first: u32,
    // the index of the next record
    pub(crate) index: u32,
    // how many are still to come
    pub(crate) left: u32,
    ghost inside: { first + 16 * index + 16 * left ≤ length file.now },
    ghost small: { first + 16 * index + 16 * left ≤ most_bytes },
}
