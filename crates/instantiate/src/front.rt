// Copying a finished book to the front of two arrays.
ghost use Rattle.std.specs.Prelude.{◌≡◌, ◌≤◌, length, map};
ghost use Rattle.table.specs.Entries.{coded};
ghost use Rattle.instantiate.specs.Growing.{over};
ghost use Rattle.instantiate.specs.Outcome.{kinds_of, operands_of};

use table::Head;

// Past the entries both arrays are as they were.
pub(crate) fn copy_to_front(entries: &[Head], kinds: &mut [u8], operands: &mut [u32])
    requires kinds { length entries.now ≤ length kinds.old }
    requires operands { length entries.now ≤ length operands.old }
    ensures kinds { kinds.new ≡ over (kinds_of (map coded entries.now)) kinds.old }
    ensures operands { operands.new ≡ over (operands_of (map coded entries.now)) operands.old }
{
    for (i, entry) in entries.iter().enumerate() {
        kinds[i] = u8::from(entry.kind);
        operands[i] = entry.operand;
    }
}
