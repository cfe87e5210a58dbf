// What the book of the task has: its actions in words.
use book::Book;
use middleware::InWords;
use protocol::Name;
use std::io;
use table::Kind;

// The name of the action with that number.
fn name_of<'a>(book: &Book<'a>, number: u32) -> Option<Name<'a>> {
    let at = book.action_at(number)?;
    let entries = &book.table.entries;
    let (operator, operands) = entries.operands.get(at..)?.split_first()?;
    let (_, kinds) = entries.kinds.get(at..)?.split_first()?;
    let objects = kinds
        .iter()
        .take_while(|kind| **kind == u8::from(Kind::Object))
        .count();
    Some(Name {
        operator: *operator,
        objects: operands.get(..objects)?,
    })
}

// Prints the names of the book's actions, in their order.
pub(crate) fn tell_actions(rt: &impl Print, book: &Book) -> io::Result<()> {
    println!(rt; "its actions:")?;
    for number in 0..book.table.sizes.actions {
        if let Some(name) = name_of(book, number) {
            let words = InWords(name);
            println!(rt; "    {words}")?;
        }
    }
    Ok(())
}
