//! Tests of models with and without lists by rows.

use super::calls::built;
use super::{TWO_OF_THREE, first_absent, views_of};
use mpslp_model_core::Model;
use mpslp_types::BuildFault;
use std::alloc::Global;
use std::test::Fail;

/// The model of the calls, without lists by rows.
fn by_columns(alloc: Global) -> Result<Option<Model>, BuildFault> {
    let builder = built(alloc, TWO_OF_THREE)?;
    if !builder.has_objective() {
        return Ok(None);
    }
    Ok(builder.finish_by_columns().ok())
}

/// The model with lists by rows, which are made so many times.
fn with_lists(alloc: Global, model: Model, times: u32) -> Result<Model, BuildFault> {
    let mut model = model;
    for _ in 0..times {
        model = model.with_row_lists(alloc)?;
    }
    Ok(model)
}

/// The accessors' results for a model after lists by rows are made so many times.
fn views_with_lists(alloc: Global, model: Model, times: u32) -> Result<Vec<u8>, BuildFault> {
    let model = with_lists(alloc, model, times)?;
    Ok(views_of(alloc, &model)?)
}

/// The accessors' results for the model of the calls after lists by rows are made so many times.
fn views(alloc: Global, times: u32) -> Result<Vec<u8>, BuildFault> {
    match by_columns(alloc)? {
        Some(model) => views_with_lists(alloc, model, times),
        None => Err(BuildFault::OutOfMemory),
    }
}

/// Whether the accessors' results are the same after lists by rows are made once and so many times.
fn are_the_same(alloc: Global, times: u32) -> Result<bool, BuildFault> {
    let once = views(alloc, 1)?;
    Ok(views(alloc, times)?.as_slice() == once.as_slice())
}

/// Lines of the model.
const TERMS: &str = "\
term a 1
term c 3
term b 2
term c 4";

#[test]
fn rows_are_the_same_with_lists_and_without(rt: HostRuntime) -> Result<(), Fail> {
    assert!(rt; are_the_same(rt.alloc(), 0)?);
    let searched = views(rt.alloc(), 0)?;
    assert_eq!(rt; first_absent(&searched, TERMS), None);
    Ok(())
}

#[test]
fn lists_by_rows_are_made_once(rt: HostRuntime) -> Result<(), Fail> {
    assert!(rt; are_the_same(rt.alloc(), 2)?);
    Ok(())
}
