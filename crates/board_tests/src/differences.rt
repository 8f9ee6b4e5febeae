//! The words in which a failed assertion says where two texts differ.

use crate::assertions::assert_text;
use fakes::{TextDifference, once_more};
use std::alloc::{AllocError, Global};

/// The words for the difference of two texts, or `None` if they have none.
fn words_of(alloc: Global, found: &[u8], wanted: &[u8]) -> Result<Option<String>, AllocError> {
    match TextDifference::of(found, wanted) {
        None => Ok(None),
        Some(difference) => Ok(Some(format!(in alloc; "{difference}")?)),
    }
}

/// Two texts that differ, and the words.
const DIFFERENCES: [(&str, &str, &str); 5] = [
    (
        "ab\ncd\tef",
        "ab\ncd\teg\n",
        "8 bytes were found and 9 wanted; they differ in line 2, after 7 bytes\n  \
            found: \"ab\\ncd\\tef\"\n wanted: \"ab\\ncd\\teg\\n\"",
    ),
    (
        "",
        "end\n",
        "0 bytes were found and 4 wanted; they differ in line 1, after 0 bytes\n  \
            found: \"\"\n wanted: \"end\\n\"",
    ),
    (
        "at 0 0\nat 0 1\n",
        "at 0 0\n",
        "14 bytes were found and 7 wanted; they differ in line 2, after 7 bytes\n  \
            found: \"at 0 0\\nat 0 1\\n\"\n wanted: \"at 0 0\\n\"",
    ),
    (
        "a line feed\n",
        "a line feed\r\n",
        "12 bytes were found and 13 wanted; they differ in line 1, after 11 bytes\n  \
            found: \"a line feed\\n\"\n wanted: \"a line feed\\r\\n\"",
    ),
    (
        "abcdefghijklmnopqrstuvwxyzabcdefghijklmnopqrstuvwxyz",
        "abcdefghijklmnopqrstuvwxyz_bcdefghijklmnopqrstuvwxyz",
        "52 bytes were found and 52 wanted; they differ in line 1, after 26 bytes\n  \
            found: \"opqrstuvwxyzabcdefghijkl\"\n wanted: \"opqrstuvwxyz_bcdefghijkl\"",
    ),
];

#[test]
fn texts_that_differ(rt: HostRuntime) {
    for (found, wanted, words) in &DIFFERENCES {
        let call = || words_of(rt.alloc(), found.as_bytes(), wanted.as_bytes());
        let said = once_more(AllocError, call)
            .expect(&rt, "memory")
            .expect(&rt, "a difference");
        assert_text(&rt, *found, said.as_bytes(), words.as_bytes());
    }
}

#[test]
fn a_text_and_itself(rt: HostRuntime) {
    for (text, _, _) in &DIFFERENCES {
        let difference = TextDifference::of(text.as_bytes(), text.as_bytes());
        assert!(&rt; difference.is_none(), "{text}");
    }
}
