// What a formula is judged in: the table of an opened book, and an image of its facts.
use book::BookTable;

#[derive(Clone, Copy)]
pub(crate) struct Scene<'a> {
    pub(crate) table: &'a BookTable<'a>,
    pub(crate) image: &'a [u8],
}
