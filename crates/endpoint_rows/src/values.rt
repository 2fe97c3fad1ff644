//! The answers that words stand for.

use endpoint::Answer;
use row_text::{count, first, number, size};
use row_words::{value, whole};
use std::alloc::Global;
use std::test::Fail;
use wire_base::DatumList;

/// The numbers from 1 to this one.
fn numbers(alloc: Global, last: i64) -> Result<DatumList, Fail> {
    let mut items = DatumList::new(alloc);
    for n in 1..=last {
        items.push(whole(n))?;
    }
    Ok(items)
}

/// The numbers from 1 to the first word's, in pages of the second's, where those of the third go with the result.
fn in_pages(alloc: Global, words: &str) -> Result<Answer, Fail> {
    let (last, sizes) = first(words);
    let (page, early) = first(sizes);
    let values = numbers(alloc, number(last))?;
    Ok(Answer::Sequence(values, size(page), size(early)))
}

/// The answer that words stand for: `sequence` with three numbers, `object` with its number, or a value.
pub fn answer_of(alloc: Global, words: &str) -> Result<Answer, Fail> {
    match words.split_once(' ') {
        Some(("sequence", sizes)) => in_pages(alloc, sizes),
        Some(("object", object)) => Ok(Answer::Object(count(object))),
        _ => Ok(Answer::Value(value(alloc, words)?)),
    }
}
