//! Evidence of Copland: the answers of measurers, the values that phrases make of them, the bytes of
//! a value and of its bundle, and the shapes and weights of evidence. After the evidence forms of
//! Ramsdell et al., Orchestrating Layered Attestations, POST 2019; the bytes, the weights and the
//! text of a shape are this project's own.
//!
//! Clauses see a value as its pointer-free twin, `evidence value` of `specs/Evidence.antt`, and a shape
//! as its twin, `form shape` of `specs/Shape.antt`.
#![tactic(auto)]

mod answer;
mod answers;
mod head;
mod head_laws;
mod measure;
mod shape;
#[cfg(test)]
mod shape_tests;
mod shaping;
#[cfg(test)]
mod tests;
mod text;
mod value;
mod weight;

pub use answer::{ANSWER_BYTES, Answer};
pub use answers::Answers;
pub use head::{
    EMPTY_TAG, HASH_TAG, Head, HeadPrefix, KIM_TAG, NONCE_TAG, PAR_TAG, SEAL_TAG, SEQ_TAG, USM_TAG,
};
pub use head_laws::heads_make_the_bytes;
pub use measure::{MARKED_BYTES, Measure, VALUE_BYTES, VALUE_NESTING};
pub use shape::Shape;
pub use shaping::shape_of;
pub use text::shape_text;
pub use value::Value;
pub use weight::{
    count_is_of_shape, counts_are_of_shapes, first_over, light_phrases_stay_within, worst,
};
