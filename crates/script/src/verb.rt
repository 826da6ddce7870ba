//! Verbs: the first word of a line.
ghost use Rattle.std.specs.Prelude.{◌≡◌, ◌≢◌, MatchOption};
ghost use Rattle.script.specs.declared.verb.Verb.{Verb as First};
ghost use Rattle.script.specs.Verbs.{name_of, Apart};

/// The kind of a line. Each verb has one name and one order of words, which docs/SCRIPTS.md lists.
#[derive(Clone, Copy, Debug, PartialEq, Eq)]
pub enum Verb {
    New,
    Places,
    Settings,
    Trial,
    TrialEnd,
    TargetTable,
    TargetPut,
    TargetAmend,
    TargetStrike,
    RuleVariable,
    RuleSwitching,
    PutWhole,
    PutFloating,
    AmendWhole,
    AmendFloating,
    LoadWhole,
    LoadFloating,
    Strike,
    Close,
    Deliver,
    Reopen,
}

impl Verb {
    /// The verb with this name, or none.
    pub fn named(name: &str) -> Option<Verb>
        ensures the_verb_of_this_name_or_none { MatchOption result
            ((v : First) → name.now ≢ name_of v) (λ v. name.now ≡ name_of v) }
    {
        match name {
            "new" => Some(Verb::New),
            "places" => Some(Verb::Places),
            "settings" => Some(Verb::Settings),
            "trial" => Some(Verb::Trial),
            "trial-end" => Some(Verb::TrialEnd),
            "target-table" => Some(Verb::TargetTable),
            "target-put" => Some(Verb::TargetPut),
            "target-amend" => Some(Verb::TargetAmend),
            "target-strike" => Some(Verb::TargetStrike),
            "rule-variable" => Some(Verb::RuleVariable),
            "rule-switching" => Some(Verb::RuleSwitching),
            "put-whole" => Some(Verb::PutWhole),
            "put-floating" => Some(Verb::PutFloating),
            "amend-whole" => Some(Verb::AmendWhole),
            "amend-floating" => Some(Verb::AmendFloating),
            "load-whole" => Some(Verb::LoadWhole),
            "load-floating" => Some(Verb::LoadFloating),
            "strike" => Some(Verb::Strike),
            "close" => Some(Verb::Close),
            "deliver" => Some(Verb::Deliver),
            "reopen" => Some(Verb::Reopen),
            _ => None,
        }
    }
}

/// No two verbs share a name, so a line's first word names one verb at most.
pub fn names_are_apart()
    ensures no_two_verbs_share_a_name { Apart }
{}
