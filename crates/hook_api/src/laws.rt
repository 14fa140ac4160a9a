//! What holds of every chain of asks. Each function here does nothing, and its contract is a law.

ghost use Rattle.hook_api.specs.Plans.{PlanRefusesNth};
ghost use Rattle.hook_api.specs.Chain.{AskChainAtEachBox, AskChainExtends, ChainAtEachBox, ChainExtends};

/// A chain and an event of the shelf that it leads to are a chain.
pub fn chain_extends()
    ensures { ChainExtends }
{}

/// A chain of asks and an ask of the shelf that it leads to are a chain of asks.
pub fn ask_chain_extends()
    ensures { AskChainExtends }
{}

/// Whatever events lead from one shelf to another, at each box number the places of its asks are consecutive, its count
/// of refusals never falls, and a box that tells has told just the asks that no plan refused, with their answers.
pub fn chain_at_each_box()
    ensures { ChainAtEachBox }
{}

/// The same of asks alone.
pub fn ask_chain_at_each_box()
    ensures { AskChainAtEachBox }
{}

/// After a plan of `nth`, the `nth` ask of its kind is refused and no other, or every ask where `nth` is 0.
pub fn plan_refuses_nth()
    ensures { PlanRefusesNth }
{}
