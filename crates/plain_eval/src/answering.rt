ghost use Rattle.std.specs.Prelude.{◌≡◌};
ghost use Rattle.evidence_types.specs.Answer.{FitsAnswer};
ghost use Rattle.evidence_types.specs.Answers.{IsRising, answer_at};
ghost use Rattle.plain_eval.specs.AllShort.{AllShort};

use evidence_types::Answer;

/// The answer of an event; no bytes if there is none. It is found by binary search, since the events
/// rise.
#[tactic(auto, using(crate::proofs::AnswerLemmas::rising_take, crate::proofs::AnswerLemmas::rising_drop, crate::proofs::AnswerLemmas::fewer))]
pub(crate) fn answer_of(pairs: &[(u32, Answer)], event: u32) -> &[u8]
    requires { IsRising pairs.now }
    ensures answer { result.now ≡ answer_at pairs.now event }
    ensures few { FitsAnswer result.now }
{
    let middle = pairs.len() / 2;
    let Some(pair) = pairs.get(middle) else {
        return &[];
    };
    if pair.0 == event {
        return pair.1.bytes();
    }
    if event < pair.0 {
        return answer_of(&pairs[..middle], event);
    }
    answer_of(&pairs[middle + 1..], event)
}

/// Each answer is short, as it is of its type. It only goes over them.
pub(crate) fn answers_are_short(pairs: &[(u32, Answer)])
    ensures { AllShort pairs.now }
{
    for pair in pairs {
        let _ = pair.1.bytes();
    }
}
