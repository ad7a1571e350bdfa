ghost use Rattle.std.specs.Prelude.{◌≡◌, ◌≤◌, length, IfOk};
ghost use Rattle.serde_json.specs.View.{view};
ghost use Rattle.job_reader.specs.Form.{artefact_in, list_in, optional_list_in, place_in, reference_in, session_in, written_in};
ghost use Rattle.job_reader.specs.Reading.{Reads};
ghost use Rattle.job_reader.specs.Texts.{IsFew, written, written_sessions};

use crate::accepted::BundleIn;
use crate::artefacts::artefacts_in;
use crate::bundle::bundle_in;
use crate::field::{has_only, is_object, located};
use crate::form::FormError;
use crate::path::{top_field, whole};
use crate::places::places_in;
use crate::references::references_in;
use crate::sessions::{SessionText, sessions_in};
use bench_trait::Artefact;
use job_values::{Field, Section, list_at, optional_list_at};
use place_check::PlaceEntry;
use reference_book::Reference;
use serde_json::Value;
use std::alloc::Global;

/// A job as it is written, before the tests over the whole of it.
#[derive(Drop)]
pub(crate) struct JobText<'a> {
    pub places: Vec<PlaceEntry>,
    pub artefacts: Vec<Artefact>,
    pub sessions: Vec<SessionText<'a>>,
    pub references: Vec<Reference>,
    pub bundle: Option<BundleIn>,
}

const JOB_FIELDS: [Field; 5] = [
    Field::Places,
    Field::Artefacts,
    Field::Sessions,
    Field::References,
    Field::Bundle,
];

fn place_list(alloc: Global, tree: &Value) -> Result<Vec<PlaceEntry>, FormError>
    ensures read { Reads (λ list. list.items) result (list_in place_in Field.Places 64 (view tree.now)) }
    ensures few { IfOk result (λ list. length list.items ≤ 64) }
{
    let at = top_field(Field::Places);
    places_in(alloc, located(at, list_at(tree, Field::Places, 1, 64))?)
}

fn artefact_list(alloc: Global, tree: &Value) -> Result<Vec<Artefact>, FormError>
    ensures read { Reads (λ list. list.items) result (optional_list_in artefact_in Field.Artefacts 4096 (view tree.now)) }
    ensures few { IfOk result (λ list. length list.items ≤ 4096) }
{
    let at = top_field(Field::Artefacts);
    artefacts_in(
        alloc,
        located(at, optional_list_at(tree, Field::Artefacts, 4096))?,
    )
}

fn session_list(alloc: Global, tree: &Value) -> Result<Vec<SessionText<'_>>, FormError>
    ensures read { Reads (λ list. written_sessions list.items) result (list_in session_in Field.Sessions 256 (view tree.now)) }
    ensures enough { IfOk result (λ list. 1 ≤ length list.items) }
    ensures few { IfOk result (λ list. length list.items ≤ 256) }
{
    let at = top_field(Field::Sessions);
    sessions_in(alloc, located(at, list_at(tree, Field::Sessions, 1, 256))?)
}

fn reference_list(alloc: Global, tree: &Value) -> Result<Vec<Reference>, FormError>
    ensures read { Reads (λ list. list.items) result (optional_list_in reference_in Field.References 4096 (view tree.now)) }
    ensures few { IfOk result (λ list. length list.items ≤ 4096) }
{
    let at = top_field(Field::References);
    references_in(
        alloc,
        located(at, optional_list_at(tree, Field::References, 4096))?,
    )
}

/// The job that a tree is, or its first fault of form: the tree is walked once, in the order of the
/// fields.
#[tactic(auto, unfolding(crate::specs::Form::written_in))]
pub(crate) fn written_in(
    alloc: Global,
    appraise: bool,
    tree: &Value,
) -> Result<JobText<'_>, FormError>
    ensures read { Reads written result (written_in appraise (view tree.now)) }
    ensures few { IfOk result IsFew }
{
    let here = whole(Section::Top, 0);
    is_object(here, tree)?;
    let places = place_list(alloc, tree)?;
    let artefacts = artefact_list(alloc, tree)?;
    let sessions = match session_list(alloc, tree) {
        Ok(sessions) => sessions,
        Err(error) => return Err(error),
    };
    let references = reference_list(alloc, tree)?;
    let bundle = bundle_in(alloc, appraise, sessions.len() as u32, tree)?;
    match has_only(here, tree, &JOB_FIELDS) {
        Ok(()) => Ok(JobText {
            places,
            artefacts,
            sessions,
            references,
            bundle,
        }),
        Err(error) => Err(error),
    }
}
