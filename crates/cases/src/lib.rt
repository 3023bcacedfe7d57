// What the elevator over a drive answers in the cases that every reader of the deadline rules should try first.
#![tactic(auto)]

ghost use Rattle.cases.specs.Cases.{CasesHold};

/// The cases hold of the definitions that the contracts cite.
pub fn cases_hold()
    ensures { CasesHold }
{}
