//! A session may go from one thread to another, and be shared by threads, where its bench may be shared.
use crate::session::Session;
use bench_trait::Bench;

// What this type says is that values of it may go to another thread.
fn may_go<T: Send>() {}

// What this type says is that threads may share a value of it.
fn may_be_shared<T: Sync>() {}

// The two facts. The check proves them here, for every bench that threads may share.
fn sessions<'a, B: Bench + Sync + 'a>() {
    may_go::<Session<'a, B>>();
    may_be_shared::<Session<'a, B>>();
}
