// Laws of binding, of scopes and of visits: each function is a law, and does nothing.

ghost use Rattle.step_core.specs.{BindingLaws.GrownTableLaw, ScopeLaws.ScopesLaw};
ghost use Rattle.step_core.specs.VisitLaws.{VisitBoundLaw, VisitCausalLaw};
ghost use Rattle.step_core.specs.VisitExamples.{
  AddThenDelayVisits,
  SwitchVisits,
  SwitchLateVisits,
  SwitchTwiceVisits,
  FreezeClockVisits,
  SwapMembersVisits,
  SwapMembersWeight,
  FirstOutputVisits,
  RestartLateVisits,
  RestartTwoLateVisits,
  CollectionVisits,
  CollectionEmptyVisits,
  CollectionFullVisits,
  RestartEachVisits,
  FreezeOpenedVisits,
  FreezeCollectionVisits,
  KeepTwiceVisits,
};

/// What is bound to a table fits that table with more rows, and is the same network there.
pub fn binding_laws()
    ensures grown { GrownTableLaw }
{}

/// What a scope stands for is an environment, to which one parameter more and one frozen network
/// more append.
pub fn scope_laws()
    ensures scopes { ScopesLaw }
{}

/// A network has one count of visits for each sample, at most its weight, and the counts don't look
/// ahead.
pub fn visit_laws()
    ensures bounded { VisitBoundLaw }
    ensures causal { VisitCausalLaw }
{}

/// How many nodes the samples of some networks visit, computed by the definitions.
pub fn visit_examples()
    ensures add_then_delay { AddThenDelayVisits }
    ensures switch_at_once { SwitchVisits }
    ensures switch_late { SwitchLateVisits }
    ensures switch_twice { SwitchTwiceVisits }
    ensures freeze_clock { FreezeClockVisits }
    ensures swap_members { SwapMembersVisits }
    ensures swap_members_weight { SwapMembersWeight }
    ensures first_output { FirstOutputVisits }
    ensures restart_late { RestartLateVisits }
    ensures restart_two_late { RestartTwoLateVisits }
    ensures collection { CollectionVisits }
    ensures collection_empty { CollectionEmptyVisits }
    ensures collection_full { CollectionFullVisits }
    ensures restart_each { RestartEachVisits }
    ensures freeze_opened { FreezeOpenedVisits }
    ensures freeze_collection { FreezeCollectionVisits }
    ensures keep_twice { KeepTwiceVisits }
{}
