// The words of a line.
use std::alloc::{AllocError, Global};
use std::io;

/// Where in a line a reader of it is: outside of each text, in one, or in one after a backslash.
#[derive(Clone, Copy, PartialEq, Eq)]
enum Place {
    Outside,
    Text,
    Escape,
}

impl Place {
    /// Where it is after this character.
    fn after(self, letter: char) -> Place {
        match (self, letter) {
            (Place::Outside, '"') | (Place::Escape, _) => Place::Text,
            (Place::Text, '"') => Place::Outside,
            (Place::Text, '\\') => Place::Escape,
            (place, _) => place,
        }
    }
}

/// The words of a line, which spaces part. A text in quotes is one word, or a part of one, with its quotes.
pub fn words_of(alloc: Global, line: &str) -> Result<Vec<String>, AllocError> {
    let mut words = Vec::new(alloc);
    let mut word = String::new(alloc);
    let mut place = Place::Outside;
    for letter in line.chars() {
        place = place.after(letter);
        if letter == ' ' && place == Place::Outside {
            push_word(&mut words, &word)?;
            word.clear();
        } else {
            word.push(letter)?;
        }
    }
    push_word(&mut words, &word)?;
    Ok(words)
}

/// Adds a word, unless it is empty.
fn push_word(words: &mut Vec<String>, word: &String) -> Result<(), AllocError> {
    if !word.is_empty() {
        words.push(word.clone()?)?;
    }
    Ok(())
}

/// The text that a word stands for: what its quotes hold, or the word.
pub fn text_of(alloc: Global, word: &str) -> io::Result<String> {
    let Some(rest) = word.strip_prefix('"') else {
        return Ok(word.to_string(alloc)?);
    };
    let text = rest.strip_suffix('"').ok_or_else(malformed)?;
    Ok(unescaped(alloc, text)?)
}

/// A text with what its escapes stand for.
fn unescaped(alloc: Global, text: &str) -> Result<String, AllocError> {
    let mut plain = String::new(alloc);
    let mut escaped = false;
    for letter in text.chars() {
        if letter == '\\' && !escaped {
            escaped = true;
        } else {
            plain.push(if escaped { escape(letter) } else { letter })?;
            escaped = false;
        }
    }
    Ok(plain)
}

/// What a character stands for after a backslash.
fn escape(letter: char) -> char {
    match letter {
        'n' => '\n',
        'r' => '\r',
        other => other,
    }
}

/// The error for a line of no form, with which the program ends.
pub fn malformed() -> io::Error {
    io::Error::from(io::ErrorKind::InvalidInput)
}

/// The number that a word is.
pub fn number_of(word: &str) -> io::Result<u64> {
    word.parse::<u64>().map_err(|_| malformed())
}

/// The numbers that words are.
pub fn numbers_of(alloc: Global, words: &[String]) -> io::Result<Vec<u64>> {
    let mut numbers = Vec::new(alloc);
    for word in words {
        numbers.push(number_of(word.as_str())?)?;
    }
    Ok(numbers)
}

/// The first and the last of the numbers `A..B`.
pub fn range_of(text: &str) -> io::Result<(u16, u16)> {
    let (first, last) = text.split_once("..").ok_or_else(malformed)?;
    match (first.parse::<u16>(), last.parse::<u16>()) {
        (Ok(first), Ok(last)) => Ok((first, last)),
        _ => Err(malformed()),
    }
}

/// A word with a range in braces: what stands before them, the first and the last number, and what
/// stands after them.
#[derive(Clone, Copy)]
pub struct Braces<'a> {
    pub before: &'a str,
    pub first: u16,
    pub last: u16,
    pub after: &'a str,
}

/// The parts of a word with a range in braces, or none where it has no braces or is a text in quotes.
pub fn braces_in(word: &str) -> io::Result<Option<Braces<'_>>> {
    if word.starts_with('"') {
        return Ok(None);
    }
    let Some((before, rest)) = word.split_once('{') else {
        return Ok(None);
    };
    let (range, after) = rest.split_once('}').ok_or_else(malformed)?;
    let (first, last) = range_of(range)?;
    Ok(Some(Braces {
        before,
        first,
        last,
        after,
    }))
}

/// The texts that words stand for. One with a range stands for as many as that has numbers.
pub fn texts_of(alloc: Global, words: &[String]) -> io::Result<Vec<String>> {
    let mut texts = Vec::new(alloc);
    for word in words {
        push_texts(alloc, &mut texts, word.as_str())?;
    }
    Ok(texts)
}

/// Adds the texts that a word stands for.
fn push_texts(alloc: Global, texts: &mut Vec<String>, word: &str) -> io::Result<()> {
    match braces_in(word)? {
        Some(braces) => push_numbered(alloc, texts, braces)?,
        None => texts.push(text_of(alloc, word)?)?,
    }
    Ok(())
}

/// Adds a text for each number in braces.
fn push_numbered(
    alloc: Global,
    texts: &mut Vec<String>,
    braces: Braces<'_>,
) -> Result<(), AllocError> {
    let Braces { before, after, .. } = braces;
    for number in braces.first..=braces.last {
        texts.push(format!(in alloc; "{before}{number}{after}")?)?;
    }
    Ok(())
}
