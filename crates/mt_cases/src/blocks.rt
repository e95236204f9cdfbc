//! The lines of a case file.
use crate::mistake::Mistake;
use std::alloc::{AllocError, Global};

/// A line that is neither empty nor a comment, and its number in the file, counted from 1.
#[derive(Clone, Copy)]
pub struct Line<'a> {
    pub number: usize,
    pub text: &'a str,
}

impl<'a> Line<'a> {
    /// Returns the first word.
    pub fn first_word(&self) -> &'a str {
        self.text.split_whitespace().next().unwrap_or("")
    }

    /// Whether the line begins a block: `case`, `name` or `refused`.
    pub fn is_head(&self) -> bool {
        matches!(self.first_word(), "case" | "name" | "refused")
    }
}

/// Returns the words of a text, up to a word `#`, which begins a comment.
pub fn words_of(alloc: Global, text: &str) -> Result<Vec<&str>, AllocError> {
    let mut words = Vec::new(alloc);
    for word in text.split_whitespace() {
        if word == "#" {
            break;
        }
        words.push(word)?;
    }
    Ok(words)
}

/// Returns the lines of a file, except empty lines and those that begin with `#`.
pub fn lines_of(alloc: Global, text: &str) -> Result<Vec<Line<'_>>, Mistake> {
    let mut lines = Vec::new(alloc);
    for (place, text) in text.lines().enumerate() {
        let number = place.saturating_add(1);
        let text = text.trim();
        if !text.is_empty() && !text.starts_with('#') {
            lines.push(Line { number, text })?;
        }
    }
    Ok(lines)
}
