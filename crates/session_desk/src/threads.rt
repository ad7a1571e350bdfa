//! A desk may be shared by threads, and a pass and a hand may go from one thread to another, where the
//! bench of the sessions may be shared.
use crate::desk::Desk;
use crate::hand::Hand;
use crate::pass::Pass;
use bench_trait::Bench;

// What this type says is that values of it may go to another thread.
fn may_go<T: Send>() {}

// What this type says is that threads may share a value of it.
fn may_be_shared<T: Sync>() {}

// The three facts. The check proves them here, for every bench that threads may share.
fn desks<'a, B: Bench + Sync + 'a>() {
    may_be_shared::<Desk<'a, B>>();
    may_go::<Pass<'a, B>>();
    may_go::<Hand>();
}
