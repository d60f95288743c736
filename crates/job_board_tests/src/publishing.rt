// The publisher, in a thread of its own.
ghost use Rattle.std.specs.Prelude.{◌≡◌, ◌≤◌, [], length};
ghost use Rattle.job_board.specs.Passes.{IsPublisherOf, IsReceiptOf, published};
ghost use Rattle.job_board_tests.specs.Crews.{IsPublishing};

use job_board::{Board, Publisher, Receipt};
use std::snapshot::Snapshot;
use std::sync::Wait;
use std::thread::{Promise, PromisedHandle, Scope, Threads};

/// What the publisher's thread promises.
#[derive(Drop)]
pub(crate) struct PublisherPromise<J: Drop, V: Drop> {
    pub(crate) board: Snapshot<Board<J, V>>,
}

impl<J: Drop, V: Drop> Promise<Receipt<J, V>> for PublisherPromise<J, V> {
    ghost kept_by = { λ p r. IsReceiptOf p.board.value r };
}

/// A publisher that runs in its thread, or has run here.
#[derive(Drop)]
pub(crate) enum Publishing<J: Drop, V: Drop> {
    There(PromisedHandle<Receipt<J, V>, PublisherPromise<J, V>>),
    Here(Receipt<J, V>),
}

fn publish_all<R: Wait, J: Drop, V: Drop>(
    rt: &R,
    board: &Board<J, V>,
    mut publisher: Publisher<J, V>,
    mut jobs: Vec<J>,
) -> Receipt<J, V>
    requires publisher { IsPublisherOf board.now publisher × (published publisher ≡ []) }
    requires few { length jobs.items ≤ board.now.limit }
    ensures { IsReceiptOf board.now result }
{
    'jobs: while !jobs.is_empty() {
        let job = jobs.remove(0);
        board.publish(rt, &mut publisher, job);
    }
    board.finish(rt, publisher)
}

/// Starts the publisher. Publishes here if no thread can be made.
pub(crate) fn start_publisher<
    's,
    E,
    R: Threads + Wait + Sync,
    J: Drop + Send + 's,
    V: Drop + Send + 's,
>(
    scope: &Scope<'s, E>,
    rt: &'s R,
    board: &'s Board<J, V>,
    publisher: Publisher<J, V>,
    jobs: Vec<J>,
) -> Publishing<J, V>
    requires publisher { IsPublisherOf board.now publisher × (published publisher ≡ []) }
    requires few { length jobs.items ≤ board.now.limit }
    ensures { IsPublishing board.now result }
{
    let promise = PublisherPromise {
        board: Snapshot::of(board),
    };
    match scope.spawn_with(
        promise,
        move || -> Receipt<J, V>
            requires publisher { IsPublisherOf board.now publisher × (published publisher ≡ []) }
            requires few { length jobs.items ≤ board.now.limit }
            ensures { IsReceiptOf board.entry.now result }
        { publish_all(rt, board, publisher, jobs) },
    ) {
        Ok(handle) => Publishing::There(handle),
        Err(refused) => Publishing::Here((refused.value)()),
    }
}

/// Waits for the publisher.
pub(crate) fn join_publisher<R: Threads, J: Drop, V: Drop>(
    rt: &R,
    board: &Board<J, V>,
    publishing: Publishing<J, V>,
) -> Receipt<J, V>
    requires { IsPublishing board.now publishing }
    ensures { IsReceiptOf board.now result }
{
    match publishing {
        Publishing::There(handle) => handle.join(rt),
        Publishing::Here(receipt) => receipt,
    }
}
