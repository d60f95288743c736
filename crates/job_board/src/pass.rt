// The passes of a board: each names who may make which calls.
use crate::item::{JobItem, ResultItem};
use crate::outcomes::Left;
use crate::view::View;
use crossbeam_queue::Pass;

pub(crate) type JobPass<J> = Pass<JobItem<J>, View<JobItem<J>>>;

pub(crate) type ResultPass<R> = Pass<ResultItem<R>, View<ResultItem<R>>>;

/// Publishes jobs.
#[derive(Drop)]
pub struct Publisher<J: Drop, R: Drop> {
    pub(crate) jobs: JobPass<J>,
    pub(crate) results: ResultPass<R>,
    // How many jobs were published.
    pub(crate) count: u32,
    pub(crate) left: Left<J, R>,
}

/// Claims jobs, and deposits their results.
#[derive(Drop)]
pub struct Worker<J: Drop, R: Drop> {
    pub(crate) jobs: JobPass<J>,
    pub(crate) results: ResultPass<R>,
    // The index of the job whose result isn't deposited yet.
    pub(crate) held: Option<u32>,
}

/// Collects results.
#[derive(Drop)]
pub struct Collector<R: Drop> {
    pub(crate) results: ResultPass<R>,
}

/// What a publisher that has finished leaves. It closes the board.
#[derive(Drop)]
pub struct Receipt<J: Drop, R: Drop> {
    pub(crate) jobs: JobPass<J>,
    pub(crate) results: ResultPass<R>,
    pub(crate) left: Left<J, R>,
}
