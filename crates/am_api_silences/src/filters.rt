//! The filters of a query.

ghost use Rattle.std.specs.Prelude.{map, Any, IfOk, IfErr, string_bytes};
ghost use Rattle.am_http.specs.Queries.{filter_texts_of};
ghost use Rattle.am_api_silences.specs.Filters.{AreFilters, IsBadFilter, IsFilterFault, IsGoodFilter};

use am_http::{Cause, filter_texts};
use am_matcher::{Dialect, Filter, FilterError, PatternCache};
use std::alloc::Global;

/// Reads a text as a filter.
fn filter_of(dialect: Dialect, patterns: &PatternCache, text: &str) -> Result<Filter, Cause>
    ensures read { IfOk result (IsGoodFilter dialect text.now) }
    ensures refused { IfErr result (IsFilterFault (IsBadFilter dialect text.now)) }
{
    match Filter::parse_in(dialect, patterns, text) {
        Ok(filter) => Ok(filter),
        Err(FilterError::Syntax) => Err(Cause::BadFilter),
        Err(FilterError::BadPattern) => Err(Cause::BadFilter),
        Err(FilterError::Memory) => Err(Cause::Memory),
    }
}

/// Reads texts as filters.
fn filters_of(
    alloc: Global,
    dialect: Dialect,
    patterns: &PatternCache,
    texts: &[String],
) -> Result<Vec<Filter>, Cause>
    ensures read { IfOk result (λ filters. AreFilters dialect (map string_bytes texts.now) filters.items) }
    ensures refused { IfErr result (IsFilterFault (Any (IsBadFilter dialect) (map string_bytes texts.now))) }
{
    let mut filters = Vec::new(alloc);
    for text in texts {
        match filter_of(dialect, patterns, text) {
            Ok(filter) => {
                if filters.push(filter).is_err() {
                    return Err(Cause::Memory);
                }
            }
            Err(cause) => return Err(cause),
        }
    }
    Ok(filters)
}

/// Returns the filters of a query, which is not decoded, with patterns of the dialect. A pattern that is kept is shared.
///
/// # Errors
///
/// [`Cause::BadFilter`] if a text is no filter or its pattern is broken, and [`Cause::Memory`].
pub fn filters_in(
    alloc: Global,
    dialect: Dialect,
    patterns: &PatternCache,
    query: &str,
) -> Result<Vec<Filter>, Cause>
    ensures read { IfOk result (λ filters. AreFilters dialect (filter_texts_of query.now) filters.items) }
    ensures refused { IfErr result (IsFilterFault (Any (IsBadFilter dialect) (filter_texts_of query.now))) }
{
    let Ok(texts) = filter_texts(alloc, query) else {
        return Err(Cause::Memory);
    };
    let filters = filters_of(alloc, dialect, patterns, &texts)?;
    Ok(filters)
}
