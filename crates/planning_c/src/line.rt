// The line that tells a refusal, in a buffer.
ghost use Rattle.std.specs.Prelude.{◌≡◌, length};
ghost use Rattle.fault.specs.Texts.{refusal_text};
ghost use Rattle.planning_c.specs.Outcomes.{with_line};

use fault::{Fault, refusal_line};

// Writes the line to the front of the buffer, if there is room, and tells its length.
pub(crate) fn put_line(fault: Fault, line: &mut [u8]) -> usize
    ensures told { result ≡ length (refusal_text fault) }
    ensures written { line.new ≡ with_line (refusal_text fault) line.old }
{
    let text = refusal_line(fault);
    let bytes = text.as_str().as_bytes();
    let length = bytes.len();
    if length <= line.len() {
        line[..length].copy_from_slice(bytes);
    }
    length
}
