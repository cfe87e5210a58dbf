// What is shown of files.
ghost use Rattle.files.specs.Theorems.{WrittenIsReadBack, ReadIsWrittenAgain};

// What is written is read back.
pub fn what_is_written_is_read_back()
    ensures { WrittenIsReadBack }
{}

// What is read, written out again, is the file.
pub fn what_is_read_is_written_again()
    ensures { ReadIsWrittenAgain }
{}
