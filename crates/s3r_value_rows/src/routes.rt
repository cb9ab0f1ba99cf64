//! Targets of requests.

use crate::cells::Cells;
use crate::fault::Fault;
use crate::texts::{add, id_text, owned};
use s3r_routes::{
    Query, RouteFault, Routes, Target, Word, bucket_named, given, key_written, limit_of, path_of,
    route_of, version_of,
};
use std::alloc::{AllocError, Global};

/// What a method asks at a place: a row of the table, or the status of the answer.
fn asked(
    alloc: Global,
    place: &Target<'_>,
    method: &str,
    query: &Query,
) -> Result<String, AllocError> {
    match route_of(place, method, query) {
        Ok(route) => format!(in alloc; "{route:?}"),
        Err(RouteFault::WrongMethod) => String::from_str(alloc, "405"),
        Err(RouteFault::UnknownQuery) => String::from_str(alloc, "501"),
        Err(fault) => format!(in alloc; "{fault:?}"),
    }
}

fn asked_by_each(alloc: Global, place: &Target<'_>, query: &Query) -> Result<String, AllocError> {
    let mut text = String::new(alloc);
    for method in ["GET", "HEAD", "PUT", "POST", "DELETE", "PATCH"] {
        add(&mut text, " ", asked(alloc, place, method, query)?.as_str())?;
    }
    Ok(text)
}

/// What is asked of a target by GET, HEAD, PUT, POST, DELETE and PATCH.
pub fn route(alloc: Global, cells: &Cells) -> Result<String, Fault> {
    let routes = Routes::new(alloc)?;
    let target = cells.text(0);
    let Some(place) = routes.place_of(path_of(target)) else {
        return Err(Fault::Route(RouteFault::NoSuchRoute));
    };
    let query = Query::read(alloc, target.as_bytes())?;
    Ok(asked_by_each(alloc, &place, &query)?)
}

/// How many entries a listing may have.
pub fn limit(alloc: Global, cells: &Cells) -> Result<String, Fault> {
    let query = Query::read(alloc, cells.bytes(0))?;
    let limit = limit_of(&query)?;
    Ok(format!(in alloc; "{limit}")?)
}

fn word_text(alloc: Global, value: Option<&str>) -> Result<String, Fault> {
    owned(alloc, value.unwrap_or("none"))
}

pub fn prefix(alloc: Global, cells: &Cells) -> Result<String, Fault> {
    let query = Query::read(alloc, cells.bytes(0))?;
    word_text(alloc, query.value(Word::Prefix))
}

/// The key marker, which counts as missing where it is empty.
pub fn key_marker(alloc: Global, cells: &Cells) -> Result<String, Fault> {
    let query = Query::read(alloc, cells.bytes(0))?;
    word_text(alloc, given(&query, Word::KeyMarker))
}

pub fn version(alloc: Global, cells: &Cells) -> Result<String, Fault> {
    let query = Query::read(alloc, cells.bytes(0))?;
    let id = version_of(&query)?;
    Ok(id_text(alloc, id)?)
}

/// A bucket as a path names it.
pub fn named(alloc: Global, cells: &Cells) -> Result<String, Fault> {
    let name = bucket_named(alloc, cells.bytes(0))?;
    owned(alloc, name.as_str())
}

/// A key as a path writes it.
pub fn written(alloc: Global, cells: &Cells) -> Result<String, Fault> {
    let key = key_written(alloc, cells.bytes(0))?;
    owned(alloc, key.as_str())
}
