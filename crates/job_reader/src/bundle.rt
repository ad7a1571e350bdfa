ghost use Rattle.std.specs.Prelude.{◌≡◌, ◌≤◌};
ghost use Rattle.serde_json.specs.View.{view};
ghost use Rattle.job_reader.specs.Form.{bundle_in, bundle_of};
ghost use Rattle.job_reader.specs.Reading.{Reads};

use crate::accepted::BundleIn;
use crate::field::{any_bytes_in, has_only, is_object, located};
use crate::form::FormError;
use crate::path::{field_of, top_field, whole};
use job_values::{Field, FieldKind, Section, number_at};
use serde_json::Value;
use std::alloc::Global;

const BUNDLE_FIELDS: [Field; 2] = [Field::Session, Field::Bytes];

#[tactic(auto, unfolding(crate::specs::Form::bundle_of))]
fn bundle_of(alloc: Global, sessions: u32, tree: &Value) -> Result<BundleIn, FormError>
    requires { 1 ≤ sessions }
    ensures { Reads (λ bundle. bundle) result (bundle_of sessions (view tree.now)) }
{
    is_object(top_field(Field::Bundle), tree)?;
    let at = field_of(Section::Bundle, 0, Field::Session);
    let session = located(at, number_at(tree, Field::Session, 0, sessions - 1))?;
    let at = field_of(Section::Bundle, 0, Field::Bytes);
    let bytes = any_bytes_in(alloc, at, tree, Field::Bytes)?;
    has_only(whole(Section::Bundle, 0), tree, &BUNDLE_FIELDS)?;
    Ok(BundleIn { session, bytes })
}

/// The bundle of a job of this many sessions, which only an appraisal requires.
pub(crate) fn bundle_in(
    alloc: Global,
    appraise: bool,
    sessions: u32,
    tree: &Value,
) -> Result<Option<BundleIn>, FormError>
    requires { 1 ≤ sessions }
    ensures { Reads (λ bundle. bundle) result (bundle_in appraise sessions (view tree.now)) }
{
    let Some(member) = tree.get(Field::Bundle.word()) else {
        if appraise {
            return Err(FormError::Fault {
                at: top_field(Field::Bundle),
                kind: FieldKind::Missing,
            });
        }
        return Ok(None);
    };
    Ok(Some(bundle_of(alloc, sessions, member)?))
}
