ghost use Rattle.std.specs.Prelude.{◌≡◌, ◌≤◌, length, IfOk};
ghost use Rattle.serde_json.specs.View.{items_view, view};
ghost use Rattle.evidence_types.specs.Answer.{FitsAnswer};
ghost use Rattle.job_reader.specs.Form.{arg_in, args_in, ask_kind, each, reference_in};
ghost use Rattle.job_reader.specs.Reading.{Reads};

use crate::field::{bytes_in, has_only, is_object, located};
use crate::form::FormError;
use crate::path::{field_of, item_of, whole};
use bench_trait::AskKind;
use evidence_types::Answer;
use job_values::{Field, Section, arg_of, name_at, optional_list_at, optional_name_at};
use phrase_tree::{Args, Asp, Place};
use reference_book::Reference;
use serde_json::Value;
use std::alloc::Global;

const REFERENCE_FIELDS: [Field; 5] = [
    Field::Place,
    Field::Target,
    Field::Asp,
    Field::Args,
    Field::Answer,
];

/// The arguments in a list of at most four.
fn each_arg(index: u32, items: &[Value]) -> Result<Args, FormError>
    requires { length items.now ≤ 4 }
    ensures { Reads (λ args. args) result (each (arg_in index) 0 (items_view items.now)) }
{
    let mut args = Args::none();
    for (position, item) in items.iter().enumerate() {
        let at = item_of(Section::References, index, Field::Args, position as u32);
        args.push(located(at, arg_of(item))?).unwrap();
    }
    Ok(args)
}

#[tactic(auto, unfolding(crate::specs::Form::args_in))]
fn args_in(index: u32, tree: &Value) -> Result<Args, FormError>
    ensures { Reads (λ args. args) result (args_in index (view tree.now)) }
{
    let at = field_of(Section::References, index, Field::Args);
    let items = located(at, optional_list_at(tree, Field::Args, 4))?;
    each_arg(index, items)
}

fn kind_of(target: Option<Place>) -> AskKind
    ensures { result ≡ ask_kind target }
{
    match target {
        Some(target) => AskKind::Kim(target),
        None => AskKind::Usm,
    }
}

/// The answer of these bytes, of which there are at most 1,024.
fn answer_of(bytes: &[u8]) -> Answer
    requires { FitsAnswer bytes.now }
    ensures { result ≡ bytes.now }
{
    Answer::of(bytes).unwrap()
}

#[tactic(auto, unfolding(crate::specs::Form::reference_in))]
fn reference_in(alloc: Global, index: u32, tree: &Value) -> Result<Reference, FormError>
    ensures { Reads (λ reference. reference) result (reference_in index (view tree.now)) }
{
    let here = whole(Section::References, index);
    is_object(here, tree)?;
    let at = field_of(Section::References, index, Field::Place);
    let place = located(at, name_at(tree, Field::Place))?;
    let at = field_of(Section::References, index, Field::Target);
    let target = located(at, optional_name_at(tree, Field::Target))?;
    let at = field_of(Section::References, index, Field::Asp);
    let name = located(at, name_at(tree, Field::Asp))?;
    let args = args_in(index, tree)?;
    let at = field_of(Section::References, index, Field::Answer);
    let answer = bytes_in(alloc, at, tree, Field::Answer, 0, 1024)?;
    has_only(here, tree, &REFERENCE_FIELDS)?;
    Ok(Reference {
        place,
        kind: kind_of(target),
        asp: Asp { name, args },
        answer: answer_of(answer.items()),
    })
}

/// The references of a job.
pub(crate) fn references_in(alloc: Global, items: &[Value]) -> Result<Vec<Reference>, FormError>
    requires { length items.now ≤ 4096 }
    ensures read { Reads (λ list. list.items) result (each reference_in 0 (items_view items.now)) }
    ensures all { IfOk result (λ list. length list.items ≡ length items.now) }
{
    let mut references = Vec::new(alloc);
    for (index, item) in items.iter().enumerate() {
        references.push(reference_in(alloc, index as u32, item)?)?;
    }
    Ok(references)
}
