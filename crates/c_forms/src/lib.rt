//! The C of cells and forms, pure logic: a function a form, as trees of `c_meaning`.
//!
//! `specs/Keeping` says which objects have what a network keeps, and `specs/Standing` when the C function of a
//! network is right: from an object that has the store, it has a result, which has the next store, and an
//! answer that represents the step's. `specs/Forms` and `specs/Cells` have the functions; `specs/Ring` and
//! `specs/Delay` that of `delay`, whose queue is a ring buffer; `specs/Collection` that of `rpSwitchB`, whose
//! members stand on two sides; `specs/Checked` the one that a program calls.
#![tactic(auto)]

ghost use Rattle.std.specs.Prelude.{ℕ, List};
ghost use Rattle.sample_core.specs.TypeTree.{TypeTree};
ghost use Rattle.leaf_code.specs.Fitting.{Bounds};
ghost use Rattle.c_meaning.specs.Meaning.{Linked};
ghost use Rattle.c_forms.specs.Keeping.{Shape};
ghost use Rattle.c_forms.specs.Cells.{IPreLaw, HoldLaw, AccumLaw, AfterLaw, RepeatedlyLaw, TimeLaw, IntegralLaw};
ghost use Rattle.c_forms.specs.Delay.{DelayLaw};
ghost use Rattle.c_forms.specs.Freezing.{KSwitchLaw, PSwitchLaw, OldLaw};
ghost use Rattle.c_forms.specs.Members.{ParLaw};
ghost use Rattle.c_forms.specs.Routing.{RoutedLaw, RoutedParLaw};
ghost use Rattle.c_forms.specs.Collection.{CollectionLaw};
ghost use Rattle.c_forms.specs.Checked.{CheckedLaw};
ghost use Rattle.c_forms.specs.Switches.{SwitchLaw, RSwitchLaw};
ghost use Rattle.c_forms.specs.Forms.{ArrLaw, SameStepLaw, SeqLaw, FirstLaw, LoopLaw, OutLaw, InLaw};

/// The C function of each of these forms does the form's step, where those that it calls do theirs.
pub fn form_laws()
    ensures arr { (n : Bounds) (Ps : List TypeTree) (Os : List Shape) (F : ℕ → Linked) → ArrLaw n Ps Os F }
    ensures same { (n : Bounds) (Ps : List TypeTree) (Os : List Shape) (F : ℕ → Linked) → SameStepLaw n Ps Os F }
    ensures seq { (n : Bounds) (Ps : List TypeTree) (Os : List Shape) (F : ℕ → Linked) → SeqLaw n Ps Os F }
    ensures first { (n : Bounds) (Ps : List TypeTree) (Os : List Shape) (F : ℕ → Linked) → FirstLaw n Ps Os F }
    ensures looping { (n : Bounds) (Ps : List TypeTree) (Os : List Shape) (F : ℕ → Linked) → LoopLaw n Ps Os F }
    ensures out { (n : Bounds) (Ps : List TypeTree) (Os : List Shape) (F : ℕ → Linked) → OutLaw n Ps Os F }
    ensures inward { (n : Bounds) (Ps : List TypeTree) (Os : List Shape) (F : ℕ → Linked) → InLaw n Ps Os F }
    ensures par { (n : Bounds) (Ps : List TypeTree) (Os : List Shape) (F : ℕ → Linked) → ParLaw n Ps Os F }
{}

/// The C function of a cell starts it, or steps it.
pub fn cell_c_laws()
    ensures i_pre { (n : Bounds) (Ps : List TypeTree) (Os : List Shape) (F : ℕ → Linked) → IPreLaw n Ps Os F }
    ensures hold { (n : Bounds) (Ps : List TypeTree) (Os : List Shape) (F : ℕ → Linked) → HoldLaw n Ps Os F }
    ensures delay { (n : Bounds) (Ps : List TypeTree) (Os : List Shape) (F : ℕ → Linked) → DelayLaw n Ps Os F }
    ensures accum { (n : Bounds) (Ps : List TypeTree) (Os : List Shape) (F : ℕ → Linked) → AccumLaw n Ps Os F }
    ensures after { (n : Bounds) (Ps : List TypeTree) (Os : List Shape) (F : ℕ → Linked) → AfterLaw n Ps Os F }
    ensures repeatedly { (n : Bounds) (Ps : List TypeTree) (Os : List Shape) (F : ℕ → Linked) → RepeatedlyLaw n Ps Os F }
    ensures time { (n : Bounds) (Ps : List TypeTree) (Os : List Shape) (F : ℕ → Linked) → TimeLaw n Ps Os F }
    ensures integral { (n : Bounds) (Ps : List TypeTree) (Os : List Shape) (F : ℕ → Linked) → IntegralLaw n Ps Os F }
{}

/// The same of switches.
pub fn switch_c_laws()
    ensures switch { (n : Bounds) (Ps : List TypeTree) (Os : List Shape) (F : ℕ → Linked) → SwitchLaw n Ps Os F }
    ensures r_switch { (n : Bounds) (Ps : List TypeTree) (Os : List Shape) (F : ℕ → Linked) → RSwitchLaw n Ps Os F }
    ensures k_switch { (n : Bounds) (Ps : List TypeTree) (Os : List Shape) (F : ℕ → Linked) → KSwitchLaw n Ps Os F }
    ensures p_switch { (n : Bounds) (Ps : List TypeTree) (Os : List Shape) (F : ℕ → Linked) → PSwitchLaw n Ps Os F }
    ensures routed { (n : Bounds) (Ps : List TypeTree) (Os : List Shape) (F : ℕ → Linked) → RoutedLaw n Ps Os F }
    ensures routed_par { (n : Bounds) (Ps : List TypeTree) (Os : List Shape) (F : ℕ → Linked) → RoutedParLaw n Ps Os F }
    ensures old { (n : Bounds) (Qs Ps : List TypeTree) (Rs Os : List Shape) (F : ℕ → Linked) → OldLaw n Qs Ps Rs Os F }
{}

/// The same of `rpSwitchB`, whose C has its members on two sides.
pub fn collection_c_laws()
    ensures collection { (n : Bounds) (Ps : List TypeTree) (Os : List Shape) (F : ℕ → Linked) → CollectionLaw n Ps Os F }
{}

/// The C function that a program calls at each sample does the step, or refuses its `dt`.
pub fn step_c_laws()
    ensures checked { CheckedLaw }
{}
