// A begun run of a book: a token beside the store. Only `begin` makes one, and only `end` takes it away.
use book::Book;

pub struct BookRun<'b, 'a> {
    book: &'b Book<'a>,
    steps: u32,
}

pub mod calls;
