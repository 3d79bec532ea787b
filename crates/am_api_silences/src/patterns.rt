//! The patterns of a request.

use am_http::{Call, Request, call_of, filter_texts};
use am_matcher::{Filter, FilterError};
use am_silence::MatcherIter;
use am_silence_json::{BodyError, read_post};
use am_wire::Text;
use std::alloc::{AllocError, Global};

/// Returns the patterns of matchers that are regular expressions, in order.
fn patterns_of_matchers(alloc: Global, matchers: MatcherIter<'_>) -> Result<Vec<Text>, AllocError> {
    let mut patterns = Vec::new(alloc);
    for matcher in matchers {
        if matcher.kind().is_regexp() {
            patterns.push(Text::copied(alloc, matcher.pattern())?)?;
        }
    }
    Ok(patterns)
}

/// The key of a matcher that says whether it is a regular expression.
const KEY: &[u8] = b"isRegex";

/// Returns whether a byte may stand between a key and its value: a quotation mark, a colon, or a blank of JSON.
fn is_between(byte: &u8) -> bool {
    matches!(*byte, b'"' | b':' | b' ' | b'\t' | b'\n' | b'\r')
}

/// Returns whether the value `true` stands behind a key.
fn is_true_behind(rest: &[u8]) -> bool {
    let count = rest.iter().take_while(|byte| is_between(byte)).count();
    match rest.get(count..) {
        Some(value) => value.starts_with(b"true"),
        None => false,
    }
}

/// Returns whether a body may have a regular expression: a matcher says so by its key, unless that is written with escapes.
fn may_have_pattern(body: &[u8]) -> bool {
    if body.contains(&b'\\') {
        return true;
    }
    for (at, word) in body.windows(KEY.len()).enumerate() {
        if word == KEY && is_true_behind(body.get(at + KEY.len()..).unwrap_or(&[])) {
            return true;
        }
    }
    false
}

/// Returns the patterns of a body that is posted, if it is sound.
fn patterns_posted(alloc: Global, body: &[u8]) -> Result<Vec<Text>, AllocError> {
    if !may_have_pattern(body) {
        return Ok(Vec::new(alloc));
    }
    match read_post(alloc, body) {
        Ok(posted) => patterns_of_matchers(alloc, posted.matchers.iter()),
        Err(BodyError::Memory) => Err(AllocError),
        Err(_) => Ok(Vec::new(alloc)),
    }
}

/// Returns the patterns of the filters of a query, up to the first text that is no filter.
fn patterns_in(alloc: Global, query: &str) -> Result<Vec<Text>, AllocError> {
    let texts = filter_texts(alloc, query)?;
    let mut patterns = Vec::new(alloc);
    for text in &texts {
        match Filter::regexp_of(alloc, text) {
            Ok(Some(pattern)) => patterns.push(pattern)?,
            Ok(None) => {}
            Err(FilterError::Memory) => return Err(AllocError),
            Err(_) => break,
        }
    }
    Ok(patterns)
}

/// Returns the regular expressions that are compiled to answer a request, in order: those of the matchers that are posted, or of a
/// list's filters up to the first text that is no filter. None is compiled for another request, nor for a body that is at fault.
///
/// # Errors
///
/// [`AllocError`] if memory runs out.
pub fn patterns_of(alloc: Global, request: &Request) -> Result<Vec<Text>, AllocError> {
    match call_of(&request.method, &request.target) {
        Ok(Call::Post) => patterns_posted(alloc, &request.body),
        Ok(Call::List { query }) => patterns_in(alloc, query),
        _ => Ok(Vec::new(alloc)),
    }
}
