//! The theorems: each is the contract of a function that does nothing, so that the check asks for its proof.

ghost use Rattle.rules.specs.Laws.{InEveryHistory, AtEveryMoment, NoFreeCellLive, CountsBalance, FreedAfterRises};
ghost use Rattle.rules.specs.Limits.{CountsWithin, ChildrenWithin, StacksFit, RoundsWithin};
ghost use Rattle.rules.specs.Worked.{WorkedExample};

/// In every history of calls from a newly opened store: no free cell is live, each source count balances, and a
/// dead cell has been free by the third rise of the round number.
pub fn laws_hold()
    ensures safe { InEveryHistory (AtEveryMoment NoFreeCellLive) }
    ensures balanced { InEveryHistory (AtEveryMoment CountsBalance) }
    ensures prompt { InEveryHistory (FreedAfterRises 3) }
{}

/// In every history of calls the counts, the children, the stacks and the rounds stay within their limits.
pub fn limits_hold()
    ensures counts { InEveryHistory (AtEveryMoment (CountsWithin 65535)) }
    ensures children { InEveryHistory (AtEveryMoment (ChildrenWithin 8)) }
    ensures stacks { InEveryHistory (AtEveryMoment StacksFit) }
    ensures rounds { InEveryHistory (AtEveryMoment (RoundsWithin 4294967294)) }
{}

/// Two collections of 40 and 24 steps free all three cells of the worked example.
pub fn example_works_out()
    ensures { WorkedExample 40 24 }
{}
