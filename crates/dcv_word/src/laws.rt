//! Laws of letters, words and trace lines. Each function here does nothing: its contract is the law.
ghost use Rattle.dcv_word.specs.Laws.{LetterHasItsWidth, LetterOfItsBits, BitsOfItsLetter, BitsFitTheWidth};
ghost use Rattle.dcv_word.specs.Laws.{LettersAreInOrder, EqualLettersAreSame, LettersFollowNumbers};
ghost use Rattle.dcv_word.specs.Laws.{LettersAreTwoToTheWidth, LettersAreOfEachNumber, LetterStandsAtItsBits, LetterStandsOnce, LettersStandInOrder};
ghost use Rattle.dcv_word.specs.Laws.{WordsAreInOrder, EqualWordsAreSame, ShorterIsLess, FirstDifferenceDecides};
ghost use Rattle.dcv_word.specs.Laws.{CommonFrontIsIgnored, CommonEndIsIgnored, EndsAfterADifferenceAreIgnored};
ghost use Rattle.dcv_word.specs.Laws.{LineIsReadBack, ReadingIsOne, LineIsOfOneLetter, TextIsOfOneWord};

/// The letters of a width are the numbers of that many binary digits.
pub fn letters_are_numbers()
    ensures width { LetterHasItsWidth }
    ensures letter { LetterOfItsBits }
    ensures bits { BitsOfItsLetter }
    ensures bound { BitsFitTheWidth }
{}

/// The order of letters is total, tells any two apart, and at one width is that of their numbers.
pub fn letters_are_in_order()
    ensures total { LettersAreInOrder }
    ensures same { EqualLettersAreSame }
    ensures numbers { LettersFollowNumbers }
{}

/// The list of a width's letters has each of them once, and in order.
pub fn letters_of_width_are_all()
    ensures count { LettersAreTwoToTheWidth }
    ensures numbers { LettersAreOfEachNumber }
    ensures place { LetterStandsAtItsBits }
    ensures once { LetterStandsOnce }
    ensures order { LettersStandInOrder }
{}

/// The order of words is total, and tells any two apart: by their lengths, and else by the first letters
/// that differ.
pub fn words_are_in_order()
    ensures total { WordsAreInOrder }
    ensures same { EqualWordsAreSame }
    ensures shorter { ShorterIsLess }
    ensures first { FirstDifferenceDecides }
{}

/// Letters that two words share at their fronts or their ends do not change which comes first.
pub fn word_order_is_kept()
    ensures front { CommonFrontIsIgnored }
    ensures end { CommonEndIsIgnored }
    ensures ends { EndsAfterADifferenceAreIgnored }
{}

/// A line has one reading, and is the line of one letter at most; so is the text that of one word.
pub fn lines_are_read_back()
    ensures back { LineIsReadBack }
    ensures one { ReadingIsOne }
    ensures line { LineIsOfOneLetter }
    ensures text { TextIsOfOneWord }
{}
