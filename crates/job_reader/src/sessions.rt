ghost use Rattle.std.specs.Prelude.{◌≡◌, ◌≤◌, length, IfOk};
ghost use Rattle.serde_json.specs.View.{items_view, view};
ghost use Rattle.job_reader.specs.Form.{each, session_in};
ghost use Rattle.job_reader.specs.Reading.{Reads};
ghost use Rattle.job_reader.specs.Texts.{written_session, written_sessions};

use crate::field::{bytes_in, has_only, is_object, located};
use crate::form::FormError;
use crate::path::{field_of, whole};
use job_values::{Field, Section, name_at, text_at};
use phrase_tree::Place;
use serde_json::Value;
use std::alloc::Global;

/// A session as it is written: its phrase is still a text.
#[derive(Drop)]
pub(crate) struct SessionText<'a> {
    pub root: Place,
    pub nonce: [u8; 16],
    pub phrase: &'a str,
}

const SESSION_FIELDS: [Field; 3] = [Field::Root, Field::Nonce, Field::Phrase];

fn sixteen_of(bytes: &[u8]) -> [u8; 16]
    requires { length bytes.now ≡ 16 }
    ensures { result ≡ bytes.now }
{
    let mut sixteen = [0; 16];
    sixteen.copy_from_slice(bytes);
    sixteen
}

#[tactic(auto, unfolding(crate::specs::Form::session_in))]
fn session_in(alloc: Global, index: u32, tree: &Value) -> Result<SessionText<'_>, FormError>
    ensures { Reads written_session result (session_in index (view tree.now)) }
{
    let here = whole(Section::Sessions, index);
    is_object(here, tree)?;
    let at = field_of(Section::Sessions, index, Field::Root);
    let root = located(at, name_at(tree, Field::Root))?;
    let at = field_of(Section::Sessions, index, Field::Nonce);
    let nonce = bytes_in(alloc, at, tree, Field::Nonce, 16, 16)?;
    let at = field_of(Section::Sessions, index, Field::Phrase);
    let phrase = located(at, text_at(tree, Field::Phrase))?;
    has_only(here, tree, &SESSION_FIELDS)?;
    Ok(SessionText {
        root,
        nonce: sixteen_of(nonce.items()),
        phrase,
    })
}

/// The sessions of a job.
pub(crate) fn sessions_in(alloc: Global, items: &[Value]) -> Result<Vec<SessionText<'_>>, FormError>
    requires { length items.now ≤ 256 }
    ensures read { Reads (λ list. written_sessions list.items) result (each session_in 0 (items_view items.now)) }
    ensures all { IfOk result (λ list. length list.items ≡ length items.now) }
{
    let mut sessions = Vec::new(alloc);
    for (index, item) in items.iter().enumerate() {
        match session_in(alloc, index as u32, item) {
            Ok(session) => {
                let Ok(()) = sessions.push(session) else {
                    return Err(FormError::NoMemory);
                };
            }
            Err(error) => return Err(error),
        }
    }
    Ok(sessions)
}
