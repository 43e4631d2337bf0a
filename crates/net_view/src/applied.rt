// The text of where steps lead.

ghost use Rattle.std.specs.Prelude.{Err, IfErr, IfOk, map, string_bytes};
ghost use Rattle.net_tree.specs.LawStep.{step_of};
ghost use Rattle.cert_check.specs.StepAnswers.{ApplyAnswer};
ghost use Rattle.net_view.specs.Applied.{PrintsApplied};

use cert_check::{CheckFault, apply_steps};
use net_syntax::TypedNet;
use net_text::print_net;
use net_tree::LawStep;
use std::alloc::Global;

/// The network that the steps lead to from the source, one after the other, as the new text of a
/// network file. `TooManySteps` for more than 10,000 steps, without taking memory; then the first
/// fault of a step, as of `check`; `Memory` if allocation fails.
pub fn applied_text(
    alloc: Global,
    source: &TypedNet,
    steps: &[LawStep],
) -> Result<String, CheckFault>
    ensures told { IfOk result
        (λ text. PrintsApplied source.now (map step_of steps.now) (string_bytes text)) }
    ensures fault { IfErr result
        (λ fault. ApplyAnswer source.now (map step_of steps.now) (Err fault)) }
{
    let last = apply_steps(alloc, source, steps)?;
    let text = print_net(alloc, last.input(), last.net())?;
    Ok(text)
}
