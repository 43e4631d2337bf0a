// What is asked of what is given, and what tells it.

use crate::beginnings::beginnings_told;
use crate::built::{built_told, doubled_told, measured_told, part_told};
use crate::certificates::certificate_told;
use crate::checks::{check_told, scant_check_told};
use crate::forms::form_told;
use crate::freezing::frozen_told;
use crate::laws::{expr_law_told, net_law_told};
use crate::needs::need_told;
use crate::network_types::network_told;
use crate::networks::file_told;
use crate::optimised::scant_optimised_told;
use crate::places::{place_told, replaced_told, rewritten_told};
use crate::scant_networks::scant_network_told;
use crate::selecting::selected_told;
use row_texts::first_wrong;
use std::alloc::Global;
use std::process::Abort;

/// What is asked of what is given.
#[derive(Clone, Copy)]
pub enum Probe {
    /// How a network file is printed.
    File,
    /// Of each beginning of a network file why it isn't read.
    Beginnings,
    /// A network's weight or height, whatever its types: `KIND | FILE`.
    Measured,
    /// A network's types, weight and height, or why it has none.
    Network,
    /// A network's types, weight and height, and how it is printed.
    Form,
    /// A network's expression of that number, with where it stands and its types: `FILE | NUMBER`.
    Need,
    /// A measure or the types of `(arr x)`, put so many times before itself: `KIND COUNT`.
    Doubled,
    /// The types of a network with a part of that form and number: `FORM NUMBER`.
    Built,
    /// A position or another part of a network, by its name.
    Part,
    /// Whether a call on a whole network is and does: `CALL | FILE`.
    ScantNetwork,
    /// Which of three frozen networks a value selects: `TYPE | VALUE`.
    Selected,
    /// What is frozen with no memory left, by the name of a state.
    Frozen,
    /// What is asked of laws, positions and certificates.
    Law(LawProbe),
}

/// What is asked of laws, of positions and of certificates.
#[derive(Clone, Copy)]
pub enum LawProbe {
    /// What a law makes of an expression: `LAW DIRECTION | EXPR`, or `LAW DIRECTION | EXPR | GIVEN`.
    Expr,
    /// What it makes of a network: `LAW DIRECTION | NET`, or `LAW DIRECTION | NET | GIVEN`; behind
    /// the direction, how many frozen networks are in scope.
    Net,
    /// What stands at a position: `FILE | E POSITION`.
    Place,
    /// A network with another tree at a position: `FILE | LETTER POSITION TREE`.
    Replacing,
    /// The typed network with another tree at a position, where types and limits are kept.
    Rewriting,
    /// How a certificate file is printed.
    File,
    /// What the check of a certificate answers: `SOURCE | TARGET | CERTIFICATE`.
    Check,
    /// What it answers where allocations fail in turn.
    ScantCheck,
    /// What it makes of a network where allocations fail in turn.
    ScantOptimised,
}

/// Adds to the text what the probe finds.
fn tell(alloc: Global, probe: Probe, given: &str, out: &mut String) {
    match probe {
        Probe::File => file_told(alloc, given, out),
        Probe::Beginnings => beginnings_told(alloc, given, out),
        Probe::Measured => measured_told(alloc, given, out),
        Probe::Network => network_told(alloc, given, out),
        Probe::Form => form_told(alloc, given, out),
        Probe::Need => need_told(alloc, given, out),
        Probe::Doubled => doubled_told(alloc, given, out),
        Probe::Built => built_told(alloc, given, out),
        Probe::Part => part_told(alloc, given, out),
        Probe::ScantNetwork => scant_network_told(alloc, given, out),
        Probe::Selected => selected_told(alloc, given, out),
        Probe::Frozen => frozen_told(alloc, given, out),
        Probe::Law(probe) => tell_laws(alloc, probe, given, out),
    }
}

/// Adds to the text what a probe of laws finds.
fn tell_laws(alloc: Global, probe: LawProbe, given: &str, out: &mut String) {
    match probe {
        LawProbe::Expr => expr_law_told(alloc, given, out),
        LawProbe::Net => net_law_told(alloc, given, out),
        LawProbe::Place => place_told(alloc, given, out),
        LawProbe::Replacing => replaced_told(alloc, given, out),
        LawProbe::Rewriting => rewritten_told(alloc, given, out),
        LawProbe::File => certificate_told(alloc, given, out),
        LawProbe::Check => check_told(alloc, given, out),
        LawProbe::ScantCheck => scant_check_told(alloc, given, out),
        LawProbe::ScantOptimised => scant_optimised_told(alloc, given, out),
    }
}

/// Asserts that the probe finds what is wanted of each row.
pub fn all_are_found(rt: &impl Abort, alloc: Global, probe: Probe, rows: &str) {
    let telling = |alloc: Global, given: &str, out: &mut String| tell(alloc, probe, given, out);
    let wrong = first_wrong(alloc, rows, telling);
    assert!(rt; wrong.is_empty(), "{wrong}");
}
