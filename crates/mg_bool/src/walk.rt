//! What the documents of a query are walked with.
use crate::place::Place;
use mg_dev::Store;
use mg_query::Query;

/// What a walk asks: the query, the place that leads where one does, and the number of documents.
#[derive(Drop)]
pub(crate) struct Asks<'a> {
    pub query: &'a Query,
    pub lead: Option<usize>,
    pub all: u32,
}

/// Where a walk over the documents stands: the query's places, a bit for each of them, and the last
/// document that was decided.
#[derive(Drop)]
pub(crate) struct Walk<'a, S: Store> {
    pub places: Vec<Place<'a, S>>,
    pub there: Vec<bool>,
    pub decided: u32,
}
