ghost use Rattle.std.specs.Prelude.{◌≡◌, ◌≢◌, ◌↔◌, ◌^◌, ◌<◌, ◌≤◌, ℕ, IsTrue, MatchOption, codes, decimal, [], ◌∷◌};
ghost use Rattle.order_policy.specs.Policy.{IsPolicyText};
ghost use Rattle.release_policy.specs.PolicyText.{HasPolicy};
ghost use Rattle.copland_cli.specs.Command.{Attest, command_view};
ghost use Rattle.copland_cli.specs.Words.{IsNoNumber, IsNoCommand, Spells, texts};

use crate::input::{BundleNeed, Input};
use itoa::Buffer;
use order_policy::bad_claim;
use release_policy::{bad_part, reading_law};

/// A command of the program.
#[derive(Clone, Copy, Debug)]
pub enum Command<'w> {
    Check,
    Shape,
    Events,
    Code,
    Eval,
    /// A walk by the schedule of this number.
    Walk(u32),
    /// Judges the claims of this policy text.
    Order(&'w str),
    /// Chooses by the release policy of this text.
    Choose(&'w str),
    /// A run by this many workers, from 1 to 16.
    Attest(u32),
    Appraise,
    Upgrade,
    /// The made job of this number.
    Load(u32),
    /// Audits the transcript that the bundle of a job is.
    Audit,
    /// Transcripts by the schedule of this number.
    Record(u32),
}

impl Command<'_> {
    ghost use Rattle.copland_cli.specs.Commands.{input_of};

    /// What the command reads.
    pub fn input(self) -> Input
        ensures { result ≡ input_of (command_view self.entry) }
    {
        match self {
            Command::Check | Command::Shape | Command::Events | Command::Code | Command::Eval => {
                Input::Job(BundleNeed::Optional)
            }
            Command::Walk(_) | Command::Order(_) | Command::Choose(_) | Command::Attest(_) => {
                Input::Job(BundleNeed::Optional)
            }
            Command::Appraise | Command::Upgrade | Command::Audit => {
                Input::Job(BundleNeed::Required)
            }
            Command::Record(_) => Input::Job(BundleNeed::Optional),
            Command::Load(_) => Input::Nothing,
        }
    }
}

/// The greatest number of workers.
const MOST_WORKERS: u32 = 16;

/// The command that these words spell, if any.
pub fn command_of(words: &[String]) -> Option<Command<'_>>
    ensures { MatchOption result (IsNoCommand (texts words.now)) (λ command. Spells (texts words.now) (command_view command)) }
{
    match words {
        [word] => single(word.as_str()),
        [word, second] => paired(word.as_str(), second.as_str()),
        [word, flag, number] => flagged(word.as_str(), flag.as_str(), number.as_str()),
        _ => None,
    }
}

/// The number of workers, where the words are those of `attest`.
pub fn workers_in(words: &[String]) -> Option<u32>
    ensures { MatchOption result
        ((workers : ℕ) → ¬ Spells (texts words.now) (Attest workers))
        (λ workers. Spells (texts words.now) (Attest workers)) }
{
    match command_of(words) {
        Some(command) => workers_by(command),
        None => None,
    }
}

/// The number of workers of the command, if it is `attest`.
fn workers_by(command: Command<'_>) -> Option<u32>
    ensures { MatchOption result
        ((workers : ℕ) → command_view command.entry ≢ Attest workers)
        (λ workers. command_view command.entry ≡ Attest workers) }
{
    match command {
        Command::Attest(workers) => Some(workers),
        Command::Check | Command::Shape | Command::Events | Command::Code | Command::Eval => None,
        Command::Walk(_) | Command::Order(_) | Command::Choose(_) | Command::Record(_) => None,
        Command::Appraise | Command::Upgrade | Command::Load(_) | Command::Audit => None,
    }
}

fn single(word: &str) -> Option<Command<'static>>
    ensures { MatchOption result (IsNoCommand (word.now ∷ [])) (λ command. Spells (word.now ∷ []) (command_view command)) }
{
    if word == "check" {
        return Some(Command::Check);
    }
    if word == "shape" {
        return Some(Command::Shape);
    }
    if word == "events" {
        return Some(Command::Events);
    }
    if word == "code" {
        return Some(Command::Code);
    }
    if word == "eval" {
        return Some(Command::Eval);
    }
    if word == "appraise" {
        return Some(Command::Appraise);
    }
    if word == "upgrade" {
        return Some(Command::Upgrade);
    }
    if word == "audit" {
        return Some(Command::Audit);
    }
    None
}

fn paired<'w>(word: &str, second: &'w str) -> Option<Command<'w>>
    ensures { MatchOption result
        (IsNoCommand (word.now ∷ second.now ∷ []))
        (λ command. Spells (word.now ∷ second.now ∷ []) (command_view command)) }
{
    if word == "order" {
        if is_policy(second) {
            return Some(Command::Order(second));
        }
        return None;
    }
    if word == "choose" {
        if is_release(second) {
            return Some(Command::Choose(second));
        }
        return None;
    }
    let Some(number) = number_of(second) else {
        return None;
    };
    if word == "walk" {
        return Some(Command::Walk(number));
    }
    if word == "load" {
        return Some(Command::Load(number));
    }
    if word == "record" {
        return Some(Command::Record(number));
    }
    None
}

/// Whether a text is that of claims about the order of measurements.
fn is_policy(text: &str) -> bool
    ensures { IsTrue result ↔ IsPolicyText text.now }
{
    bad_claim(text).is_none()
}

/// Whether a text is that of a release policy.
fn is_release(text: &str) -> bool
    ensures { IsTrue result ↔ HasPolicy text.now }
{
    reading_law();
    bad_part(text).is_none()
}

fn flagged(word: &str, flag: &str, number: &str) -> Option<Command<'static>>
    ensures { MatchOption result
        (IsNoCommand (word.now ∷ flag.now ∷ number.now ∷ []))
        (λ command. Spells (word.now ∷ flag.now ∷ number.now ∷ []) (command_view command)) }
{
    let Some(workers) = workers_of(number) else {
        return None;
    };
    if word != "attest" {
        return None;
    }
    if flag != "--workers" {
        return None;
    }
    Some(Command::Attest(workers))
}

/// The number of workers that a text spells, from 1 to 16.
fn workers_of(text: &str) -> Option<u32>
    ensures { MatchOption result
        ((workers : ℕ) → 1 ≤ workers → workers ≤ 16 → text.now ≡ decimal workers → ⊥)
        (λ workers. (text.now ≡ decimal workers) × (1 ≤ workers) × (workers ≤ 16)) }
{
    let Some(workers) = number_of(text) else {
        return None;
    };
    if workers == 0 {
        return None;
    }
    if workers > MOST_WORKERS {
        return None;
    }
    Some(workers)
}

/// The number of 32 bits that a text spells in decimal, without leading zeros.
fn number_of(text: &str) -> Option<u32>
    ensures { MatchOption result (IsNoNumber text.now) (λ number. (text.now ≡ decimal number) × (number < 2 ^ 32)) }
{
    let Ok(number) = text.parse::<u32>() else {
        return None;
    };
    if Buffer::new().format(number) == text {
        Some(number)
    } else {
        None
    }
}
