//! What is reported of the workers' outcomes.

ghost use Rattle.std.specs.Prelude.{◌≡◌, ◌≢◌, ◌+◌, ◌<◌, ◌≤◌, ◌++◌, ◌∷◌, [], IfErr, IfOk, List, None, OnOk, length, map, IsTrue, IsFalse, vec_capacity, vec_len};
ghost use Rattle.std.specs.List.{AllZip, Any};
ghost use Rattle.loads.specs.Loaded.{outcome_of};
ghost use Rattle.loads.specs.Report.{AllFinished, IsLeastStopOf, IsReportOf, last_receipts};
ghost use Rattle.shared.specs.Prelude.{IsLeft, Left};

use crate::fault::LoadFault;
use shared::{Naming, Outcome, Receipt, Refusal, Worker};

/// Takes what was left with each worker, in order, into a list that has room for it. Of a worker with whom nothing was left, it
/// is an outcome without receipt and without stop.
pub(crate) fn take_outcomes<N: Naming>(workers: &mut [Worker<N>], outcomes: &mut Vec<Outcome<N>>)
    requires { vec_len outcomes.old + length workers.old ≤ vec_capacity outcomes.old }
    ensures outcomes { outcomes.new.items ≡ outcomes.old.items ++ map outcome_of workers.old }
    ensures taken { AllZip (IsLeft None) workers.old workers.new }
{
    let Some((worker, rest)) = workers.split_first_mut() else {
        return;
    };
    let outcome = worker.take_left().unwrap_or(Outcome::new(None, None));
    outcomes.push(outcome).unwrap();
    take_outcomes(rest, outcomes);
}

/// Nobody was stopped, or else what is to be reported.
fn check_outcomes<N: Naming>(outcomes: &[Outcome<N>]) -> Result<(), LoadFault>
    ensures ok { OnOk result (AllFinished outcomes.now) }
    ensures err { IfErr result (λ e. IsReportOf e outcomes.now) }
{
    if let Some((file, batch, refusal)) = least_stop(outcomes) {
        return Err(LoadFault::Refused {
            file,
            batch,
            refusal,
        });
    }
    if any_stopped(outcomes) {
        return Err(LoadFault::NoMemory);
    }
    Ok(())
}

/// Whether any worker was stopped.
fn any_stopped<N: Naming>(outcomes: &[Outcome<N>]) -> bool
    ensures any { IsTrue result → Any (λ o. o.stop ≢ None) outcomes.now }
    ensures none { IsFalse result → AllFinished outcomes.now }
{
    for outcome in outcomes {
        if outcome.stop().is_some() {
            return true;
        }
    }
    false
}

/// The stop in the least file, of those that were not for want of memory.
fn least_stop<N: Naming>(outcomes: &[Outcome<N>]) -> Option<(usize, usize, Refusal)>
    ensures { IsLeastStopOf result outcomes.now }
{
    let mut least = None;
    for outcome in outcomes {
        least = lesser(least, outcome.stop());
    }
    least
}

/// The least stop, where this was, and another worker was stopped so, or not at all.
fn lesser(
    least: Option<(usize, usize, Refusal)>,
    stop: Option<(usize, usize, Refusal)>,
) -> Option<(usize, usize, Refusal)>
    ensures { (outcomes : List Left) (o : Left) → o.stop ≡ stop → IsLeastStopOf least outcomes → IsLeastStopOf result (outcomes ++ o ∷ []) }
{
    let Some((file, _, refusal)) = stop else {
        return least;
    };
    if let Refusal::NoMemory = refusal {
        return least;
    }
    if let Some((other, _, _)) = least {
        if other < file {
            return least;
        }
    }
    stop
}

/// The receipts of the last batches, in a list that is empty and has room for them, or what is to be reported.
pub(crate) fn receipts_of<N: Naming>(
    outcomes: &[Outcome<N>],
    mut receipts: Vec<Receipt<N>>,
) -> Result<Vec<Receipt<N>>, LoadFault>
    requires empty { receipts.items ≡ [] }
    requires room { length outcomes.now ≤ vec_capacity receipts }
    ensures ok { IfOk result (λ v. AllFinished outcomes.now × (v.items ≡ last_receipts outcomes.now)) }
    ensures err { IfErr result (λ e. IsReportOf e outcomes.now) }
{
    check_outcomes(outcomes)?;
    for outcome in outcomes {
        push_last(outcome, &mut receipts);
    }
    Ok(receipts)
}

/// Appends the receipt of an outcome's last batch, if there is one, to a list that has room for it.
fn push_last<N: Naming>(outcome: &Outcome<N>, receipts: &mut Vec<Receipt<N>>)
    requires { vec_len receipts.old < vec_capacity receipts.old }
    ensures items { receipts.new.items ≡ receipts.old.items ++ last_receipts (outcome.now ∷ []) }
    ensures room { vec_len receipts.new + vec_capacity receipts.old ≤ vec_len receipts.old + 1 + vec_capacity receipts.new }
{
    if let Some(receipt) = outcome.last() {
        receipts.push(receipt.again()).unwrap();
    }
}
