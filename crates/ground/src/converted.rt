// Converting what was read, and writing what comes of it.

use fault::refusal_line;
use files::{Lent, convert};
use rising::{Literal, Sign};
use std::alloc::Global;
use std::io::{self, Write};
use std::process::ExitCode;

// How many bytes the output may have, and how many places each array.
const FILE: usize = 65536;

const PLACES: usize = 8192;

// Writes the book's file, or the line of the refusal.
pub(crate) fn write_converted(
    alloc: Global,
    input: &[u8],
    out: &mut impl Write,
) -> io::Result<ExitCode> {
    let none = Literal {
        atom: 0,
        sign: Sign::Adds,
    };
    let lent = Lent {
        task_kinds: &mut [0; PLACES],
        task_operands: &mut [0; PLACES],
        literals: &mut [none; PLACES],
        book_kinds: &mut [0; PLACES],
        book_operands: &mut [0; PLACES],
    };
    let mut output = [0; FILE];
    match convert(alloc, input, lent, &mut output) {
        Ok(length) => {
            out.write_all(&output[..length])?;
            Ok(ExitCode::SUCCESS)
        }
        Err(fault) => {
            out.write_all(refusal_line(fault).as_bytes())?;
            Ok(ExitCode::FAILURE)
        }
    }
}
