//! Frames: how requests and replies of sessions travel over links as bytes. `write_frame` makes the bytes of
//! a frame; a `FrameReader` is fed bytes in pieces and gives the frames in them, in their order. However the
//! bytes are cut, the frames given and what is left are the bytes fed (`pieces_law`).
//!
//! Clauses see a reader as a `Reading`: the bytes that were fed and not given yet, and how many were given
//! before them. `specs/Frames.antt` says which bytes a frame has, `specs/Reading.antt` what a reader answers.
#![tactic(auto)]

mod frame;
mod front;
mod laws;
mod parsing;
mod reader;
#[cfg(test)]
mod tests;

pub use frame::{BUNDLE_MOST, Frame, LENGTH_LEAST, LENGTH_MOST, write_frame};
pub use laws::{one_frame, pieces_law};
pub use reader::{FrameError, FrameReader, NextFrame};
