// A cell may be shared by threads, and it and its passes may go from one to another, where its state may go.
use crate::cell::TurnCell;
use crate::chronicle::Chronicle;
use crate::pass::CellPass;

// What this type says is that values of it may go to another thread.
fn may_go<T: Send>() {}

// What this type says is that threads may share a value of it.
fn may_be_shared<T: Sync>() {}

// The three facts. The check proves them here, for every state that may go to another thread.
fn cell_and_passes<S: Chronicle + Send>() {
    may_go::<TurnCell<S>>();
    may_be_shared::<TurnCell<S>>();
    may_go::<CellPass<S>>();
}
