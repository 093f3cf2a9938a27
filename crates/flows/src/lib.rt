//! The flows of a sheet's belts, their columns, and what the balances derived from them are.
#![tactic(auto)]

ghost use Rattle.kinds.specs.Kinds.{wholes, parities};
ghost use Rattle.flows.specs.Completeness.{Zero, Even, BalancesAreComplete};

/// Of any list of quantities that flows count, not of belts alone: the balances, in whole numbers and in parities, are
/// complete. The call is there for what it says.
pub fn balances_are_complete()
    ensures wholes { BalancesAreComplete wholes Zero }
    ensures parities { BalancesAreComplete parities Even }
{}
