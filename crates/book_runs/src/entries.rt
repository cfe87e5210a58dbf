// Single entries of an opened book.
ghost use Rattle.std.specs.Prelude.{◌≡◌, ℕ, ◌+◌, ◌<◌, ◌==◌, slice_index};
ghost use Rattle.table.specs.Kinds.{code_of};

use book::BookTable;
use table::Kind;

// The kind of the entry at place `at`. Of tasks too: one for both would be public, and a public call asks nothing of its caller.
pub(crate) fn kind_at(table: &BookTable, at: usize) -> Kind
    requires within { at < table.now.sizes.entries }
    requires known { slice_index table.now.entries.kinds.now at < 22 }
    ensures { code_of result ≡ slice_index table.now.entries.kinds.now at }
{
    Kind::try_from(table.entries.kinds[at]).unwrap()
}

// Whether an entry of this kind stands at place `at`.
pub(crate) fn is_kind(table: &BookTable, at: usize, kind: Kind) -> bool
    requires { at < table.now.sizes.entries }
    ensures { result ≡ (slice_index table.now.entries.kinds.now at == code_of kind) }
{
    table.entries.kinds[at] == u8::from(kind)
}
