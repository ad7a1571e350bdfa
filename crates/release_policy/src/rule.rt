ghost use Rattle.std.specs.Prelude.{◌≡◌, ◌<◌, ◌^◌, ◌∷◌, ◌++◌, [], length, OnOk};
ghost use Rattle.release_policy.specs.Rules.{allowed_by, allows, deciding, is_for};

use crate::flow::Flow;
use crate::held::Cover;
use crate::pattern::Pattern;
use phrase_tree::NoMemory;

/// How well what a rule is for has to be covered.
#[derive(Clone, Copy, Debug, PartialEq, Eq)]
pub enum Mode {
    /// Not at all.
    FromBare,
    /// By a seal or a hash.
    FromSealed,
    /// By a hash.
    FromHashed,
    /// It is never allowed.
    Never,
}

/// A rule of a policy: the measurements of a place, by their name, that may go to a place, and how well
/// covered.
#[derive(Clone, Copy, Debug, PartialEq, Eq)]
pub struct Rule {
    pub place: Pattern,
    pub measurement: Pattern,
    pub mode: Mode,
    pub receiver: Pattern,
}

impl Mode {
    fn allows(self, cover: Cover) -> bool
        ensures { result ≡ allows self cover }
    {
        match self {
            Mode::FromBare => true,
            Mode::FromSealed => match cover {
                Cover::Bare => false,
                Cover::Sealed | Cover::Hashed => true,
            },
            Mode::FromHashed => match cover {
                Cover::Bare | Cover::Sealed => false,
                Cover::Hashed => true,
            },
            Mode::Never => false,
        }
    }
}

impl Rule {
    fn is_for(&self, flow: &Flow) -> bool
        ensures { result ≡ is_for flow.now self.now }
    {
        self.place.matches(&flow.place)
            && self.measurement.matches(&flow.measurement)
            && self.receiver.matches(&flow.receiver)
    }
}

/// The first of these rules that is for a flow.
pub(crate) fn deciding(rules: &[Rule], flow: &Flow) -> Option<u32>
    requires { length rules.now < 2 ^ 32 }
    ensures { result ≡ deciding rules.now flow.now }
{
    let mut index = 0;
    for rule in rules {
        if rule.is_for(flow) {
            return Some(index);
        }
        index += 1;
    }
    None
}

/// Whether the rule that decides, if one does, allows what is covered so.
pub(crate) fn allowed_by(rules: &[Rule], deciding: Option<u32>, cover: Cover) -> bool
    ensures { result ≡ allowed_by rules.now deciding cover }
{
    match deciding {
        None => false,
        Some(index) => match rules.get(index as usize) {
            None => false,
            Some(rule) => rule.mode.allows(cover),
        },
    }
}

/// One more rule behind the others.
pub(crate) fn add(rules: &mut Vec<Rule>, rule: Rule) -> Result<(), NoMemory>
    ensures { OnOk result (rules.new.items ≡ rules.old.items ++ rule ∷ []) }
{
    rules.push(rule)?;
    Ok(())
}
