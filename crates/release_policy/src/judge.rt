ghost use Rattle.std.specs.Prelude.{◌≡◌, IfOk};
ghost use Rattle.release_policy.specs.Denials.{denial_of};
ghost use Rattle.std.specs.HashMap.{get};
ghost use Rattle.release_policy.specs.Flow.{same_flow};
ghost use Rattle.release_policy.specs.Memory.{IsJudge};
ghost use Rattle.release_policy.specs.Rules.{deciding};
ghost use Rattle.release_policy.specs.Walked.{first_denied, StopsAt};
ghost use Rattle.release_policy.specs.Disclosures.{disclosed};

use crate::denied::Denial;
use crate::evidence::Evidence;
use crate::flow::Flow;
use crate::held::Held;
use crate::policy::ReleasePolicy;
use crate::rule::{Rule, allowed_by, deciding};
use crate::walk::Stop;
use phrase_tree::{NoMemory, Place};
use std::alloc::Global;
use std::collections::HashMap;
use std::marker::Model;

/// A policy with what it has decided so far, so that each flow is looked up among the rules once.
#[derive(Drop)]
pub(crate) struct Judge<'p> {
    alloc: Global,
    rules: &'p [Rule],
    decisions: HashMap<Flow, Option<u32>>,
}

impl<'p> Model for Judge<'p> {
    ghost use Rattle.std.specs.Prelude.{List};
    ghost use Rattle.release_policy.specs.declared.rule.Rule.{Rule};
    ghost use Rattle.release_policy.specs.Memory.{IsJudge};

    ghost Value = { List Rule };

    ghost view = { λ judge. judge.rules.now };

    ghost invariant = { λ judge. IsJudge judge.rules.now judge.decisions };
}

impl<'p> Judge<'p> {
    /// A judge that has decided nothing yet.
    pub fn of(alloc: Global, policy: &'p ReleasePolicy) -> Judge<'p>
        ensures { result ≡ policy.now }
    {
        Judge {
            alloc,
            rules: policy.rules(),
            decisions: HashMap::new(alloc),
        }
    }
}

/// The rule that decides over a flow, by what was decided before or else by the rules.
fn decide(
    rules: &[Rule],
    decisions: &mut HashMap<Flow, Option<u32>>,
    flow: &Flow,
) -> Result<Option<u32>, NoMemory>
    requires { IsJudge rules.now decisions.old }
    ensures rule { IfOk result (λ rule. rule ≡ deciding rules.now flow.now) }
    ensures judge { IsJudge rules.now decisions.new }
{
    if let Some(rule) = found(decisions, flow) {
        return Ok(rule);
    }
    let rule = deciding(rules, flow);
    decisions.insert(*flow, rule)?;
    Ok(rule)
}

fn found(decisions: &HashMap<Flow, Option<u32>>, flow: &Flow) -> Option<Option<u32>>
    ensures { result ≡ get same_flow decisions.now flow.now }
{
    decisions.get(flow).copied()
}

impl Judge<'_> {
    pub fn alloc(&self) -> Global {
        self.alloc
    }

    /// The denial of a disclosure, if it is not allowed.
    fn deny(
        &mut self,
        event: u32,
        what: &Held,
        receiver: &Place,
    ) -> Result<Option<Denial>, NoMemory>
        ensures denial { IfOk result (λ found. found ≡ denial_of self.old (record { event = event; what = what.now; receiver = receiver.now })) }
        ensures same { self.new ≡ self.old }
    {
        if *receiver == what.place {
            return Ok(None);
        }
        let flow = Flow {
            place: what.place,
            measurement: what.measurement,
            receiver: *receiver,
        };
        let rule = decide(self.rules, &mut self.decisions, &flow)?;
        if allowed_by(self.rules, rule, what.cover) {
            return Ok(None);
        }
        Ok(Some(Denial {
            event,
            leaf: what.event,
            rule,
        }))
    }

    /// Stops at the first denial of what goes to a place at an event.
    pub fn disclose(
        &mut self,
        event: u32,
        receiver: &Place,
        evidence: &Evidence,
    ) -> Result<(), Stop>
        ensures found { StopsAt (first_denied self.old (disclosed event receiver.now evidence.now)) result }
        ensures same { self.new ≡ self.old }
    {
        for what in evidence.reversed().iter().rev() {
            let found = match self.deny(event, what, receiver) {
                Ok(found) => found,
                Err(_) => return Err(Stop::NoMemory),
            };
            if let Some(denial) = found {
                return Err(Stop::Denied(denial));
            }
        }
        Ok(())
    }
}
