// Laws of what networks denote: each function is a law, and does nothing.

ghost use Rattle.net_meaning.specs.Congruence.{
  ArrLaw,
  SequenceLaw,
  FirstLaw,
  ParallelLaw,
  LoopLaw,
  PreviousLaw,
  DelayLaw,
  HoldLaw,
  AccumulateLaw,
  AfterLaw,
  RepeatedlyLaw,
  SameSwitchLaw,
  SameRestartLaw,
  SameFreezeLaw,
  SameFreezeMembersLaw,
  InitialOutLaw,
  InitialInLaw,
  SameCollectionLaw,
};
ghost use Rattle.net_meaning.specs.Laws.{LengthLaw, CausalLaw, RetimeLaw};
ghost use Rattle.net_meaning.specs.SwitchLaws.{
  SwitchLaw,
  RestartLaw,
  FreezeLaw,
  FreezeMembersLaw,
  ResumeLaw,
  KeptNumbersLaw,
  LateRestartLaw,
  CollectionLaw,
};
ghost use Rattle.net_meaning.specs.Examples.{
  AddThenDelay,
  OnNothing,
  AddWraps,
  RepeatedlyByTime,
  AfterOnce,
  AfterAtOnce,
  TimeWraps,
  SwitchAtOnce,
  SwitchLate,
  StartedAtTheEvent,
  SwitchTwice,
  SwitchTwiceWeight,
  RestartAtEvents,
  RestartAtTheFirst,
  FreezeClock,
  FreezeAndResume,
  ClockOfSix,
  SwapMembers,
  DelayByTime,
  SumsFedBack,
  SumsHeld,
  EdgeAtTrue,
  MemberNumbers,
  RoutedPasts,
  DelayOfMany,
  IntegralWraps,
  RestartClock,
  SumsAtEvents,
  HeaviestWithin,
  HeaviestHeight,
  JustTooHeavy,
  TooHeavy,
  FirstOutput,
  FirstInput,
  RestartLate,
  RestartLateAtFirst,
  RestartTwoLate,
  Collection,
  CollectionEmpty,
  CollectionFull,
  RestartLateWeight,
  RestartTwoLateWeight,
  CollectionWeight,
  CollectionHeight,
};
ghost use Rattle.net_meaning.specs.GoingOn.{
  RestartAtEach,
  ChooseAndStart,
  RestartedCollection,
  ResumedOpenings,
  OpeningsFrozenFirst,
  LateUnder,
  ResumedCollection,
  ResumedTwice,
  RestartedMember,
  RestartAtEachWeight,
  ChooseAndStartWeight,
  RestartedCollectionWeight,
  ResumedOpeningsWeight,
  LateUnderWeight,
  ResumedCollectionWeight,
  ResumedTwiceWeight,
  RestartedMemberWeight,
};

/// A network outputs one value for each sample, doesn't look ahead, and doesn't see the first
/// step.
pub fn stream_laws()
    ensures length { LengthLaw }
    ensures causal { CausalLaw }
    ensures retimed { RetimeLaw }
{}

/// What the switches and resumed networks output, by the environments that their parts run in.
pub fn switching_laws()
    ensures switch { SwitchLaw }
    ensures restart { RestartLaw }
    ensures freeze { FreezeLaw }
    ensures freeze_members { FreezeMembersLaw }
    ensures resume { ResumeLaw }
    ensures kept_numbers { KeptNumbersLaw }
    ensures late_restart { LateRestartLaw }
    ensures collection { CollectionLaw }
{}

/// What some networks output, computed by the definitions.
pub fn output_examples()
    ensures add_then_delay { AddThenDelay }
    ensures on_nothing { OnNothing }
    ensures add_wraps { AddWraps }
    ensures repeatedly_by_time { RepeatedlyByTime }
    ensures after_once { AfterOnce }
    ensures after_at_once { AfterAtOnce }
    ensures time_wraps { TimeWraps }
    ensures switch_at_once { SwitchAtOnce }
    ensures switch_late { SwitchLate }
    ensures started_at_the_event { StartedAtTheEvent }
    ensures switch_twice { SwitchTwice }
    ensures restart_at_events { RestartAtEvents }
    ensures restart_at_the_first { RestartAtTheFirst }
    ensures freeze_clock { FreezeClock }
    ensures freeze_and_resume { FreezeAndResume }
    ensures clock_of_six { ClockOfSix }
    ensures swap_members { SwapMembers }
    ensures delay_by_time { DelayByTime }
    ensures sums_fed_back { SumsFedBack }
    ensures sums_held { SumsHeld }
    ensures edge_at_true { EdgeAtTrue }
    ensures member_numbers { MemberNumbers }
    ensures routed_pasts { RoutedPasts }
    ensures delay_of_many { DelayOfMany }
    ensures integral_wraps { IntegralWraps }
    ensures restart_clock { RestartClock }
    ensures sums_at_events { SumsAtEvents }
    ensures first_output { FirstOutput }
    ensures first_input { FirstInput }
    ensures restart_late { RestartLate }
    ensures restart_late_at_first { RestartLateAtFirst }
    ensures restart_two_late { RestartTwoLate }
    ensures collection { Collection }
    ensures collection_empty { CollectionEmpty }
    ensures collection_full { CollectionFull }
    ensures restart_at_each { RestartAtEach }
    ensures choose_and_start { ChooseAndStart }
    ensures restarted_collection { RestartedCollection }
    ensures resumed_openings { ResumedOpenings }
    ensures openings_frozen_first { OpeningsFrozenFirst }
    ensures late_under { LateUnder }
    ensures resumed_collection { ResumedCollection }
    ensures resumed_twice { ResumedTwice }
    ensures restarted_member { RestartedMember }
{}

/// What some networks weigh and how high one is, computed by the definitions.
pub fn weight_examples()
    ensures switch_twice_weight { SwitchTwiceWeight }
    ensures heaviest_within { HeaviestWithin }
    ensures heaviest_height { HeaviestHeight }
    ensures just_too_heavy { JustTooHeavy }
    ensures too_heavy { TooHeavy }
    ensures restart_late_weight { RestartLateWeight }
    ensures restart_two_late_weight { RestartTwoLateWeight }
    ensures collection_weight { CollectionWeight }
    ensures collection_height { CollectionHeight }
    ensures restart_at_each_weight { RestartAtEachWeight }
    ensures choose_and_start_weight { ChooseAndStartWeight }
    ensures restarted_collection_weight { RestartedCollectionWeight }
    ensures resumed_openings_weight { ResumedOpeningsWeight }
    ensures late_under_weight { LateUnderWeight }
    ensures resumed_collection_weight { ResumedCollectionWeight }
    ensures resumed_twice_weight { ResumedTwiceWeight }
    ensures restarted_member_weight { RestartedMemberWeight }
{}

/// Each form outputs the same in alike environments where its parts do: one law a form.
pub fn congruence_laws()
    ensures arr { ArrLaw }
    ensures sequence { SequenceLaw }
    ensures first { FirstLaw }
    ensures parallel { ParallelLaw }
    ensures loop_pre { LoopLaw }
    ensures previous { PreviousLaw }
    ensures delay { DelayLaw }
    ensures hold { HoldLaw }
    ensures accumulate { AccumulateLaw }
    ensures after { AfterLaw }
    ensures repeatedly { RepeatedlyLaw }
    ensures switch { SameSwitchLaw }
    ensures restart { SameRestartLaw }
    ensures freeze { SameFreezeLaw }
    ensures freeze_members { SameFreezeMembersLaw }
    ensures initial_out { InitialOutLaw }
    ensures initial_in { InitialInLaw }
    ensures collection { SameCollectionLaw }
{}
