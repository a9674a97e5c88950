// A journal in memory that the host lends: a row of numbers for each posting. The place stands beside the memory: with
// only the rest of it kept, each row would begin another borrow, and no plain clause could tell what the whole comes to.

#[derive(Drop)]
pub(crate) struct Rows<'a> {
    pub(crate) rows: &'a mut [u64],
    // how many numbers are taken
    pub(crate) used: usize,
}
