// What is shown of sheet files: the function's contract is the statement, and the function does nothing else.
ghost use Rattle.sheet.specs.Laws.{FileLaws};

// A written file is loaded as the placement that it was written from, and a loaded file is written as it was.
pub fn files_are_read_back()
    ensures { FileLaws }
{}
