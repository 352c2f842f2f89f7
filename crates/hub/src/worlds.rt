//! Two systems side by side, and what one operator is told by each: the isolation theorem as a call.
ghost use Rattle.std.specs.Prelude.{◌≡◌, ◌≢◌, ◌≤◌, ◌⊎◌, ℕ, List, [], ◌∷◌, ◌++◌, length, true, Err, IfOk, IfErr, OnOk, OnErr};
ghost use Rattle.std.specs.List.{AllByRecursion, AllWithin};
ghost use Rattle.hub_rows.specs.Failures.{Rose};
ghost use Rattle.hub_rows.specs.Reads.{IsCounted};
ghost use Rattle.hub_rows.specs.Grants.{grants_to};
ghost use Rattle.hub_rows.specs.declared.use_row.UseRow.{UseRow};
ghost use Rattle.hub.specs.Hub.{hub_view, world, setting, is_taken, is_clean, failures_of};
ghost use Rattle.hub.specs.View.{granted_to, seen, uses_of, view};
ghost use Rattle.hub.specs.WellFormed.{WellFormed};
ghost use Rattle.hub.specs.World.{Setting, World, outputs_of, run_outputs, world_run, world_step};
ghost use Rattle.hub.specs.TwoSystems.{AreAlike, AreSameTo, HasNotTaken, IsAfterSome, IsItsOwn, LeavesShown};
ghost use Rattle.hub.specs.Others.{AddsUse, IsOfAnother};
ghost use Rattle.hub.specs.Tells.{AgreeOn};
ghost use Rattle.hub_events.specs.declared.event.Event.{Event};
ghost use Rattle.hub_events.specs.declared.event.Event.TheVariants.{At};
ghost use Rattle.hub_events.specs.declared.event.What.{What};

use crate::hub::Hub;
use hub_events::{Event, Fault, Out};
use hub_rows::Store;
use station_calls::VendorHandler;

/// Runs two systems, each over its own events, and gives the outputs of one operator from each.
///
/// The clauses `same_outputs` and `same_views` are the isolation theorem: where the settings of the
/// two systems are alike, the operator has the same in both, and the events show it the same
/// (`AreSameTo`), the two lists are equal, and so is what the operator has afterwards. Each event
/// was of a hosted operator (`first_taken`, `second_taken`). A fault of either system is answered;
/// each system is then in the world after some number of its events, from the first on.
#[tactic(auto, using(crate::proofs::TwoSystems::same_outputs, crate::proofs::TwoSystems::same_views))]
pub fn isolated<S: Store + Drop, V: VendorHandler, T: Store + Drop, W: VendorHandler>(
    first: &mut Hub<S, V>,
    first_events: &[Event],
    second: &mut Hub<T, W>,
    second_events: &[Event],
    op: &str,
) -> Result<(Vec<Out>, Vec<Out>), Fault>
    ensures first_outputs { is_clean S.view first.new → IfOk result (λ r. r.0.items
        ≡ outputs_of op.now (run_outputs (setting V.view first.old) (world S.view first.old) first_events.now)) }
    ensures second_outputs { is_clean T.view second.new → IfOk result (λ r. r.1.items
        ≡ outputs_of op.now (run_outputs (setting W.view second.old) (world T.view second.old) second_events.now)) }
    ensures first_world { is_clean S.view first.new → OnOk result (world S.view first.new
        ≡ world_run (setting V.view first.old) (world S.view first.old) first_events.now) }
    ensures second_world { is_clean T.view second.new → OnOk result (world T.view second.new
        ≡ world_run (setting W.view second.old) (world T.view second.old) second_events.now) }
    ensures same_outputs { is_clean S.view first.new → is_clean T.view second.new
        → AreSameTo op.now (setting V.view first.old) (world S.view first.old) first_events.now
        (setting W.view second.old) (world T.view second.old) second_events.now
        → IfOk result (λ r. r.0.items ≡ r.1.items) }
    ensures same_views { is_clean S.view first.new → is_clean T.view second.new
        → AreSameTo op.now (setting V.view first.old) (world S.view first.old) first_events.now
        (setting W.view second.old) (world T.view second.old) second_events.now
        → OnOk result (view op.now (world S.view first.new) ≡ view op.now (world T.view second.new)) }
    ensures first_taken { OnOk result (AllWithin (λ e. is_taken (setting V.view first.old) e ≡ true) first_events.now 0 (length first_events.now)) }
    ensures second_taken { OnOk result (AllWithin (λ e. is_taken (setting W.view second.old) e ≡ true) second_events.now 0 (length second_events.now)) }
    ensures first_fault { is_clean S.view first.new → OnErr result (IsAfterSome (setting V.view first.old)
        (world S.view first.old) first_events.now (world S.view first.new)) }
    ensures second_fault { is_clean T.view second.new → OnErr result (IsAfterSome (setting W.view second.old)
        (world T.view second.old) second_events.now (world T.view second.new)) }
    ensures failed { IfErr result (λ f. f ≡ Fault.Store
        → Rose (failures_of S.view first.old) (failures_of S.view first.new)
        ⊎ Rose (failures_of T.view second.old) (failures_of T.view second.new)) }
    ensures not_hosted { IfErr result (λ f. f ≡ Fault.NoSuchOperator
        → HasNotTaken (setting V.view first.old) first_events.now
        ⊎ HasNotTaken (setting W.view second.old) second_events.now) }
    ensures first_clean { is_clean S.view first.new → is_clean S.view first.old }
    ensures second_clean { is_clean T.view second.new → is_clean T.view second.old }
    ensures first_count { failures_of S.view first.old ≤ failures_of S.view first.new }
    ensures second_count { failures_of T.view second.old ≤ failures_of T.view second.new }
    ensures first_setting { setting V.view first.new ≡ setting V.view first.old }
    ensures second_setting { setting W.view second.new ≡ setting W.view second.old }
{
    let of_first = outputs_for(first, first_events, op)?;
    let of_second = outputs_for(second, second_events, op)?;
    Ok((of_first, of_second))
}

/// How two lists of events come to show an operator the same, event by event: with no events they do. An
/// event of the operator, or a tick, may be added to both. An event of another operator may be added to
/// either of them, where the tags that are granted to the operator, and the uses of its own tags, are the
/// same after it. The call does nothing: its clauses are laws of `AreSameTo`, the premise of `isolated`.
///
/// `uses` and `tags` say what the two exceptions carry. Two stops of an operator at one moment, with the same tag and the
/// same energy, show the tag's owner the same, whatever else differs: station, connector, number, start, meter, readings,
/// reason. The same grants of tags that agree (`AgreeOn`) show the receiver the same, whatever else their owners have.
pub fn same_lists()
    ensures none { (a : List ℕ) (s t : Setting) (w v : World) → AreAlike s t → view a w ≡ view a v
        → AreSameTo a s w [] t v [] }
    ensures own { (a : List ℕ) (s t : Setting) (w v : World) (es fs : List Event) (e : Event)
        → AreSameTo a s w es t v fs → IsItsOwn a e → AreSameTo a s w (es ++ e ∷ []) t v (fs ++ e ∷ []) }
    ensures first { (a : List ℕ) (s t : Setting) (w v : World) (es fs : List Event) (e : Event)
        → AreSameTo a s w es t v fs → IsOfAnother a e → LeavesShown a s w es e → AreSameTo a s w (es ++ e ∷ []) t v fs }
    ensures second { (a : List ℕ) (s t : Setting) (w v : World) (es fs : List Event) (e : Event)
        → AreSameTo a s w es t v fs → IsOfAnother a e → LeavesShown a t v fs e → AreSameTo a s w es t v (fs ++ e ∷ []) }
    ensures uses { (a b : List ℕ) (m : ℕ) (s t : Setting) (w v : World) (d e : What) (x y : UseRow) → b ≢ a
        → uses_of a w ≡ uses_of a v → AddsUse a s w (At b m d) (world_step s w (At b m d)) x
        → AddsUse a t v (At b m e) (world_step t v (At b m e)) y → x.key ≡ y.key → x.wh ≡ y.wh
        → seen s a w (At b m d ∷ []) ≡ seen t a v (At b m e ∷ []) }
    ensures tags { (a : List ℕ) (w v : World) → grants_to a w.rows.grants ≡ grants_to a v.rows.grants
        → AllByRecursion (AgreeOn w.rows.tags v.rows.tags) (grants_to a w.rows.grants) → granted_to a w ≡ granted_to a v }
{}

/// Runs one system, and gives the outputs of one operator.
fn outputs_for<S: Store + Drop, V: VendorHandler>(
    hub: &mut Hub<S, V>,
    events: &[Event],
    op: &str,
) -> Result<Vec<Out>, Fault>
    ensures counted { IsCounted (hub_view S.view) hub.old hub.new (result ≡ Err Fault.Store) }
    ensures outputs { is_clean S.view hub.new → IfOk result (λ outs. outs.items
        ≡ outputs_of op.now (run_outputs (setting V.view hub.old) (world S.view hub.old) events.now)) }
    ensures world { is_clean S.view hub.new → OnOk result (world S.view hub.new
        ≡ world_run (setting V.view hub.old) (world S.view hub.old) events.now) }
    ensures good { is_clean S.view hub.new → WellFormed (world S.view hub.old) }
    ensures fault { is_clean S.view hub.new → OnErr result (IsAfterSome (setting V.view hub.old)
        (world S.view hub.old) events.now (world S.view hub.new)) }
    ensures taken { OnOk result (AllWithin (λ e. is_taken (setting V.view hub.old) e ≡ true) events.now 0 (length events.now)) }
    ensures not_hosted { IfErr result (λ f. f ≡ Fault.NoSuchOperator
        → HasNotTaken (setting V.view hub.old) events.now) }
    ensures setting { setting V.view hub.new ≡ setting V.view hub.old }
{
    let (mut outs, _taken, fault) = hub.run(events);
    match fault {
        Some(fault) => Err(fault),
        None => {
            keep_for(&mut outs, op);
            Ok(outs)
        }
    }
}

/// Leaves the outputs of one operator.
fn keep_for(outs: &mut Vec<Out>, op: &str)
    ensures { outs.new.items ≡ outputs_of op.now outs.old.items }
{
    outs.retain(|out| out.op.as_str() == op);
}
