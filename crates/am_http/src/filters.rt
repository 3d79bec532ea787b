//! The filters of a query.

ghost use Rattle.std.specs.Prelude.{◌≡◌, map, IfOk, string_bytes};
ghost use Rattle.am_http.specs.Queries.{decoded, filter_texts_of};

use form_urlencoded::{decode, raw_pairs};
use std::alloc::{AllocError, Global};

/// Returns the text that the bytes of a name or of a value stand for.
fn text_of(alloc: Global, encoded: &[u8]) -> Result<String, AllocError>
    ensures { IfOk result (λ text. string_bytes text ≡ decoded encoded.now) }
{
    decode(alloc, encoded)?.into_owned(alloc)
}

/// Returns the decoded values of a query's pairs named `filter`, in order.
///
/// # Errors
///
/// [`AllocError`] if memory runs out.
pub fn filter_texts(alloc: Global, query: &str) -> Result<Vec<String>, AllocError>
    ensures { IfOk result (λ texts. map string_bytes texts.items ≡ filter_texts_of query.now) }
{
    let mut texts = Vec::new(alloc);
    for (name, value) in raw_pairs(query.as_bytes()) {
        if text_of(alloc, name)?.as_str() == "filter" {
            texts.push(text_of(alloc, value)?)?;
        }
    }
    Ok(texts)
}
