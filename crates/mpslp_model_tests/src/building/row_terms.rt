//! Tests of the calls that declare the terms of a row.

use super::calls::{built, named};
use super::{WITH_ROWS, first_absent, has_line, text_of_finished};
use crate::texts::number;
use mpslp_builder::{ReaderBuilder, RowTerms};
use mpslp_types::laws::each_name_is_legal;
use mpslp_types::{BuildFault, FIXED_SEED};
use std::alloc::Global;
use std::test::Fail;

/// Terms out of byte order. Each is a column and its value.
const TERMS: &str = "\
b 2
d 4
c 3
a 1";

/// Terms in falling order, more than are compared one by one.
const MANY: &str = "\
v 1
u 2
t 3
s 4
r 5
q 6
p 7
o 8
n 9
m 10
l 11
k 12
j 13
i 14
h 15
g 16
f 17
e 18";

/// Lines of the model of these terms.
const EXPECTED_OF_MANY: &str = "\
entry r 1 1
entry r 16 16
entry r 17 17
entry r 18 18
entry s 5 5";

/// The column and the value of a term.
fn parts_of(term: &str) -> (&str, &str) {
    term.split_once(' ').unwrap_or((term, ""))
}

/// Adds a term. Whether its column is new.
fn add(alloc: Global, terms: &mut RowTerms, term: &str) -> Result<bool, BuildFault> {
    let (column, value) = parts_of(term);
    let name = named(alloc, column)?;
    each_name_is_legal(&name);
    Ok(terms.add(alloc, name.as_bytes(), number(value))?)
}

/// Whether the column of each of these terms is new among those before it.
fn are_new(alloc: Global, terms: &str) -> Result<bool, BuildFault> {
    let mut kept = RowTerms::new(alloc, FIXED_SEED);
    for term in terms.lines() {
        if !add(alloc, &mut kept, term)? {
            return Ok(false);
        }
    }
    Ok(kept.are_few())
}

/// Adds these terms.
fn add_all(alloc: Global, kept: &mut RowTerms, terms: &str) -> Result<(), BuildFault> {
    for term in terms.lines() {
        add(alloc, kept, term)?;
    }
    Ok(())
}

/// These terms, added after others were cleared.
fn terms_of(alloc: Global, terms: &str) -> Result<RowTerms, BuildFault> {
    let mut kept = RowTerms::new(alloc, FIXED_SEED);
    add(alloc, &mut kept, "x 7")?;
    add_all(alloc, &mut kept, MANY)?;
    kept.clear();
    add_all(alloc, &mut kept, terms)?;
    Ok(kept)
}

/// Declares these terms of a row by one call.
fn declare(
    alloc: Global,
    builder: &mut ReaderBuilder,
    row: &str,
    terms: &str,
) -> Result<(), BuildFault> {
    builder.row_terms(row.as_bytes(), &terms_of(alloc, terms)?)
}

/// Declares a term of a row.
fn declare_one(
    alloc: Global,
    builder: &mut ReaderBuilder,
    row: &str,
    term: &str,
) -> Result<(), BuildFault> {
    let (column, value) = parts_of(term);
    let name = named(alloc, column)?;
    builder.row_term(row.as_bytes(), name, number(value))
}

/// A builder with the objective f, the rows r and s, and these terms of r.
fn with_terms(alloc: Global, terms: &str) -> Result<ReaderBuilder, BuildFault> {
    let draft = built(alloc, WITH_ROWS)?;
    let mut builder = ReaderBuilder { draft };
    declare(alloc, &mut builder, "r", terms)?;
    Ok(builder)
}

/// Declares a term of s and one of the objective.
fn declare_others(alloc: Global, builder: &mut ReaderBuilder) -> Result<(), BuildFault> {
    declare_one(alloc, builder, "s", "e 5")?;
    declare_one(alloc, builder, "f", "a 6")
}

/// The builder after these terms of r and some others.
fn with_all_terms(alloc: Global, terms: &str) -> Result<ReaderBuilder, BuildFault> {
    let mut builder = with_terms(alloc, terms)?;
    declare_others(alloc, &mut builder)?;
    Ok(builder)
}

/// The accessors' results after these terms of r and some others.
fn views_of_terms(alloc: Global, terms: &str) -> Result<Vec<u8>, BuildFault> {
    let builder = with_all_terms(alloc, terms)?;
    Ok(text_of_finished(alloc, builder.draft)?)
}

/// Lines of the model.
const EXPECTED: &str = "\
column a continuous 0 inf objective 6
entry r 1 1
entry r 2 2
entry r 3 3
entry r 4 4
entry s 5 5";

#[test]
fn declares_terms_of_rows(rt: HostRuntime) -> Result<(), Fail> {
    let views = views_of_terms(rt.alloc(), TERMS)?;
    let has_cleared_term = has_line(&views, "entry r 7 7");
    let absent = first_absent(&views, EXPECTED);
    assert_eq!(rt; (absent, has_cleared_term), (None, false));
    Ok(())
}

#[test]
fn finds_columns_twice_in_a_row(rt: HostRuntime) -> Result<(), Fail> {
    assert!(rt; are_new(rt.alloc(), TERMS)?);
    assert!(rt; !are_new(rt.alloc(), "a 1\nb 2\na 3")?);
    assert!(rt; !are_new(rt.alloc(), "b 1\na 2\na 3")?);
    assert!(rt; are_new(rt.alloc(), MANY)?);
    Ok(())
}

/// Whether the column of a term is new after many terms.
fn is_new_after_many(alloc: Global, term: &str) -> Result<bool, BuildFault> {
    let mut kept = terms_of(alloc, MANY)?;
    add(alloc, &mut kept, term)
}

#[test]
fn finds_columns_twice_in_a_long_row(rt: HostRuntime) -> Result<(), Fail> {
    let first = is_new_after_many(rt.alloc(), "t 1")?;
    let last = is_new_after_many(rt.alloc(), "e 1")?;
    let other = is_new_after_many(rt.alloc(), "d 1")?;
    assert_eq!(rt; (first, last, other), (false, false, true));
    Ok(())
}

#[test]
fn declares_many_terms_of_a_row(rt: HostRuntime) -> Result<(), Fail> {
    let views = views_of_terms(rt.alloc(), MANY)?;
    let absent = first_absent(&views, EXPECTED_OF_MANY);
    assert_eq!(rt; absent, None);
    Ok(())
}

/// Whether a builder rejects a second term of r, and a term of no row.
fn refuses_one(alloc: Global, builder: &mut ReaderBuilder) -> bool {
    let second = declare_one(alloc, builder, "r", "c 1");
    let unknown = declare_one(alloc, builder, "q", "c 1");
    second == Err(BuildFault::DuplicateEntry) && unknown == Err(BuildFault::UnknownRow)
}

/// Whether a builder rejects these terms of r once more, and of no row, but not that no row has no terms.
fn refuses_all(alloc: Global, builder: &mut ReaderBuilder, terms: &str) -> bool {
    let second = declare(alloc, builder, "r", terms);
    let unknown = declare(alloc, builder, "q", terms);
    let none = declare(alloc, builder, "q", "");
    second == Err(BuildFault::DuplicateEntry)
        && (unknown == Err(BuildFault::UnknownRow) && none == Ok(()))
}

/// Whether a second term of a row and a term of no row have their errors, and whether several have them.
fn are_refused(alloc: Global, terms: &str) -> Result<(bool, bool), BuildFault> {
    let mut builder = with_terms(alloc, terms)?;
    let is_one_refused = refuses_one(alloc, &mut builder);
    let are_all_refused = refuses_all(alloc, &mut builder, terms);
    Ok((is_one_refused, are_all_refused))
}

#[test]
fn refuses_terms(rt: HostRuntime) -> Result<(), Fail> {
    let (is_one_refused, are_all_refused) = are_refused(rt.alloc(), TERMS)?;
    assert!(rt; is_one_refused && are_all_refused);
    Ok(())
}
