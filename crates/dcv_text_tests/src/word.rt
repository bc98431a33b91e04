// Tests of `dcv_word`: words that are written and compared, and the words of faults.
use dcv_word::{Letter, LetterFault, Word, shortlex};
use std::alloc::{AllocError, Global};
use std::cmp::Ordering;
use std::test::Fail;

// The text of a word of two letters over two variables.
fn text_of_two(alloc: Global) -> Result<Vec<u8>, AllocError> {
    let mut word = Word::new(alloc, 2);
    word.push(Letter::new(2, 2))?;
    word.push(Letter::new(2, 3))?;
    word.text(alloc)
}

// How a word of one letter and a word of two compare, of which the one letter is the greatest and the two are the least.
fn one_and_two(alloc: Global) -> Result<Ordering, AllocError> {
    let mut one = Word::new(alloc, 2);
    one.push(Letter::new(2, 3))?;
    let mut two = Word::new(alloc, 2);
    two.push(Letter::new(2, 0))?;
    two.push(Letter::new(2, 0))?;
    Ok(shortlex(&one, &two))
}

#[test]
fn words_are_written_and_compared(rt: HostRuntime) -> Result<(), Fail> {
    let text = text_of_two(rt.alloc())?;
    assert_eq!(rt; text.as_slice(), b"10\n11\n".as_slice());
    drop(text);
    assert_eq!(rt; one_and_two(rt.alloc())?, Ordering::Less);
    Ok(())
}

#[test]
fn faults_are_told_in_words(rt: HostRuntime) -> Result<(), Fail> {
    let alloc = rt.alloc();
    let cases = [
        (
            LetterFault::Width,
            "the line has another number of values than there are variables",
        ),
        (
            LetterFault::Character { at: 7 },
            "byte 7 of the line is no value",
        ),
    ];
    for (fault, words) in cases {
        assert_eq!(rt; fault.to_string(alloc)?.as_str(), words);
    }
    Ok(())
}
