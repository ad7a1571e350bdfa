ghost use Rattle.std.specs.Prelude.{◌≡◌, ◌≤◌, length, IfOk};
ghost use Rattle.serde_json.specs.View.{items_view, view};
ghost use Rattle.job_reader.specs.Form.{artefact_in, each};
ghost use Rattle.job_reader.specs.Reading.{Reads};

use crate::field::{any_bytes_in, has_only, is_object, located};
use crate::form::FormError;
use crate::path::{field_of, whole};
use bench_trait::Artefact;
use job_values::{Field, Section, name_at};
use serde_json::Value;
use std::alloc::Global;

const ARTEFACT_FIELDS: [Field; 3] = [Field::Place, Field::Name, Field::Bytes];

#[tactic(auto, unfolding(crate::specs::Form::artefact_in))]
fn artefact_in(alloc: Global, index: u32, tree: &Value) -> Result<Artefact, FormError>
    ensures { Reads (λ artefact. artefact) result (artefact_in index (view tree.now)) }
{
    let here = whole(Section::Artefacts, index);
    is_object(here, tree)?;
    let at = field_of(Section::Artefacts, index, Field::Place);
    let place = located(at, name_at(tree, Field::Place))?;
    let at = field_of(Section::Artefacts, index, Field::Name);
    let name = located(at, name_at(tree, Field::Name))?;
    let at = field_of(Section::Artefacts, index, Field::Bytes);
    let bytes = any_bytes_in(alloc, at, tree, Field::Bytes)?;
    has_only(here, tree, &ARTEFACT_FIELDS)?;
    Ok(Artefact { place, name, bytes })
}

/// The artefacts of a job.
pub(crate) fn artefacts_in(alloc: Global, items: &[Value]) -> Result<Vec<Artefact>, FormError>
    requires { length items.now ≤ 4096 }
    ensures read { Reads (λ list. list.items) result (each artefact_in 0 (items_view items.now)) }
    ensures all { IfOk result (λ list. length list.items ≡ length items.now) }
{
    let mut artefacts = Vec::new(alloc);
    for (index, item) in items.iter().enumerate() {
        artefacts.push(artefact_in(alloc, index as u32, item)?)?;
    }
    Ok(artefacts)
}
