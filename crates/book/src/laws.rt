// What holds of every book and file, and some worked cases.
// Each answers 0: a function is only what carries the theorems.
ghost use Rattle.book.specs.Laws.{AcceptedFilesAreTexts, TextsReadBack, OneBookForEachText};
ghost use Rattle.book.specs.Cases.{WorkedCases};

// One file for each book, and one book for each file.
pub fn one_file_for_each_book() -> u8
    ensures accepted_files_are_texts { AcceptedFilesAreTexts }
    ensures texts_read_back { TextsReadBack }
    ensures one_book_for_each_text { OneBookForEachText }
{
    0
}

// Worked cases of the definitions, each computed.
pub fn worked_cases() -> u8
    ensures worked_cases_come_out { WorkedCases }
{
    0
}
