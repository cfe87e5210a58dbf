// The line that tells a refusal.
ghost use Rattle.std.specs.Prelude.{◌≡◌};
ghost use Rattle.fault.specs.Texts.{refusal_text};

use crate::Fault;
use arrayvec::ArrayString;
use itoa::Buffer;

// The text of the refusal and the end of the line; no refusal has a longer one.
pub fn refusal_line(fault: Fault) -> ArrayString<40>
    ensures { result.bytes ≡ refusal_text fault }
{
    let mut digits = Buffer::new();
    let mut line = ArrayString::new();
    line.push_str("refused ");
    line.push_str(digits.format(u8::from(fault.cause)));
    line.push_str(" ");
    line.push_str(fault.layer.name());
    line.push_str(" ");
    line.push_str(digits.format(fault.place));
    line.push_str("\n");
    line
}
