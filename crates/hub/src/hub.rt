//! The hub: one event is one step.
ghost use Rattle.std.specs.Prelude.{◌≡◌, ◌≢◌, ◌&&◌, ◌⊎◌, ◌+◌, ◌≤◌, is_some, IsSome, Some, Ok, Err, ◌↔◌, ◌<◌, ◌++◌, ℕ, List, [], ◌∷◌, length, take, slice_index_or, true, false, IsOk, IfOk, IfErr, IfNone, IfSome, OnOk, OnErr};
ghost use Rattle.std.specs.List.{AllWithin};
ghost use Rattle.hub_rows.specs.Reads.{IsCounted};
ghost use Rattle.hub_rows.specs.Operators.{are_operators};
ghost use Rattle.hub_rows.specs.Readers.{reader_in};
ghost use Rattle.hub_rows.specs.Failures.{Rose};
ghost use Rattle.hub_rows.specs.Rows.{registration_at};
ghost use Rattle.hub_rows.specs.declared.store.Recovered.TheVariants as recovered;
ghost use Rattle.hub.specs.Effects.{edit_of};

use crate::commit::commit;
use crate::tick::expire_all;
use event_plans::plan_event;
use hub_events::{Event, Fault, OperatorEvent, Out};
use hub_rows::{Flush, Reader, Recovered, Store, are_operators, is_hosted};
use ocpp_frame::FrameReader;
use ocpp_types::{Boxed, Listed, Text};
use operator_cmds::Command;
use pending_calls::Slots;
use plans::{Effect, Plan};
use station_calls::{Book, VendorHandler};
use std::alloc::Global;
use thiserror::Error;

/// Records and connections of all hosted operators.
///
/// Contracts speak of it by two definitions: `world` (the rows of its store and the slots of its
/// stations) and `setting` (which operators are hosted, and the answers to vendors' messages).
#[derive(Drop)]
pub struct Hub<S, V> {
    alloc: Global,
    reader: FrameReader,
    book: Book<S, V>,
    hosted: Vec<Text>,
    pub(crate) slots: Slots<Boxed<Command>>,
}

/// What one event is to say and change, as `Hub::prepare` finds it. A tick's says and changes nothing: which calls end is found
/// as it is committed.
#[derive(Drop)]
pub struct Step {
    plan: Plan,
}

impl Step {
    /// Whether it changes records.
    pub fn has_change(&self) -> bool
        ensures { result ≡ is_some (edit_of self.now.plan.effect) }
    {
        match &self.plan.effect {
            Effect::Edit(_) => true,
            Effect::Answer { edit, .. } => edit.is_some(),
            _ => false,
        }
    }
}

/// These operators can't be hosted: there is none, one comes twice, or a name isn't of 1 to 32
/// ASCII letters, digits, `-` and `_`.
#[derive(Clone, Copy, Debug, PartialEq, Eq, Drop, Error)]
#[error("BadOperators")]
pub struct BadOperators;

impl<S: Store + Drop, V: VendorHandler> Hub<S, V> {
    ghost use Rattle.hub_rows.specs.Rows.{Rows};
    ghost use Rattle.hub_rows.specs.Stops.{IsKept, FindsOld, FindsOldOr, PutsOnRecord, Records, Recovers, StaysOnRecord};
    ghost use Rattle.hub.specs.Hub.{hub_view, store_of, world, setting, setting_of, is_taken, is_clean, failures_of};
    ghost use Rattle.hub_rows.specs.Operators.{is_hosted};
    ghost use Rattle.hub.specs.World.{outputs_of, world_outputs, world_step, run_outputs, world_run};
    ghost use Rattle.hub.specs.Others.{IsOfAnother, LeavesAlone};
    ghost use Rattle.hub.specs.Steps.{IsPlanned};
    ghost use Rattle.hub.specs.View.{view, seen, operator_run_outputs, operator_run};
    ghost use Rattle.hub.specs.WellFormed.{ConnectedAreOnRecord};
    ghost use Rattle.hub_events.specs.declared.event.Event.{Event};
    ghost use Rattle.hub_events.specs.declared.event.Event.TheVariants as event;

    /// A hub over a store, with no station connected. It takes no memory. Where the operators
    /// can't be hosted the store and the handlers are dropped.
    #[tactic(auto, unfolding(crate::specs::Hub::setting, crate::specs::Hub::setting_of))]
    pub fn new(
        alloc: Global,
        store: S,
        operators: Vec<Text>,
        vendors: Vec<V>,
    ) -> Result<Hub<S, V>, BadOperators>
        ensures succeeds { IsOk result ↔ (are_operators operators.items ≡ true) }
        ensures world { IfOk result (λ h. world S.view h ≡ record { rows = (S.view store).rows; slots = [] }) }
        ensures setting { IfOk result (λ h. setting V.view h ≡ setting_of V.view operators.items vendors.items) }
        ensures clean { IfOk result (λ h. is_clean S.view h ↔ (S.view store).clean) }
        ensures failures { IfOk result (λ h. failures_of S.view h ≡ (S.view store).failures) }
        ensures stations { IfOk result (λ h. ConnectedAreOnRecord (world S.view h)) }
        ensures found { IfOk result (λ h. (r : Rows) → (hub_view S.view h).may_find r ↔ (S.view store).may_find r) }
        ensures kept { IsKept (S.view store) → IfOk result (λ h. IsKept (hub_view S.view h)) }
    {
        if !are_operators(&operators) {
            return Err(BadOperators);
        }
        Ok(Hub {
            alloc,
            reader: FrameReader::new(alloc),
            book: Book::new(store, vendors),
            hosted: operators,
            slots: Slots::new(alloc, 1),
        })
    }

    /// Its store. The connections and calls of its stations are gone.
    pub fn into_store(self) -> S
        ensures { result ≡ store_of self }
    {
        let book = self.book;
        book.store
    }

    /// The hosted operators.
    #[tactic(auto, unfolding(crate::specs::Hub::setting, crate::specs::Hub::setting_of))]
    pub fn hosted(&self) -> &[Text]
        ensures { is_hosted result.now ≡ (setting V.view self.now).is_hosted }
    {
        &self.hosted
    }

    /// Whether an operator is hosted.
    #[tactic(auto, unfolding(crate::specs::Hub::setting))]
    pub fn hosts(&self, op: &str) -> bool
        ensures { result ≡ (setting V.view self.now).is_hosted op.now }
    {
        is_hosted(self.hosted.as_slice(), op)
    }

    /// Whether an operator is hosted and has a station of that name.
    #[tactic(auto, unfolding(crate::specs::Hub::setting))]
    pub fn knows(&mut self, op: &str, station: &str) -> Result<bool, Fault>
        ensures counted { IsCounted (hub_view S.view) self.old self.new (result ≡ Err Fault.Store) }
        ensures known { is_clean S.view self.new → IfOk result (λ k. k ≡ (setting V.view self.old).is_hosted op.now
            && is_some (registration_at op.now station.now (world S.view self.old).rows)) }
        ensures world { is_clean S.view self.new → world S.view self.new ≡ world S.view self.old }
        ensures stopped { FindsOld (hub_view S.view self.old) (hub_view S.view self.new) }
        ensures stays { OnOk result (StaysOnRecord (hub_view S.view self.old) (hub_view S.view self.new)) }
        ensures setting { setting V.view self.new ≡ setting V.view self.old }
        ensures fault { IfErr result (λ f. f ≢ Fault.NoSuchOperator) }
    {
        if !self.hosts(op) {
            return Ok(false);
        }
        Ok(self.book.store.station(op, station)?.is_some())
    }

    /// How the requests of a station are read.
    #[tactic(auto, unfolding(crate::specs::Hub::setting))]
    pub fn reader(&mut self, op: &str, station: &str) -> Result<Reader, Fault>
        ensures counted { IsCounted (hub_view S.view) self.old self.new (result ≡ Err Fault.Store) }
        ensures reader { is_clean S.view self.new → IfOk result (λ r. r ≡ reader_in op.now station.now (world S.view self.old).rows.readers) }
        ensures world { is_clean S.view self.new → world S.view self.new ≡ world S.view self.old }
        ensures stopped { FindsOld (hub_view S.view self.old) (hub_view S.view self.new) }
        ensures stays { OnOk result (StaysOnRecord (hub_view S.view self.old) (hub_view S.view self.new)) }
        ensures setting { setting V.view self.new ≡ setting V.view self.old }
        ensures fault { IfErr result (λ f. f ≢ Fault.NoSuchOperator) }
    {
        Ok(self.book.store.reader(op, station)?)
    }

    /// Takes one event and gives its outputs. An event that ends in a fault has changed nothing,
    /// and may be handed again.
    ///
    /// The clauses `outputs` and `world` say that the step is that of the written table over the
    /// records and connections of all operators. The clauses `isolated_outputs` and
    /// `isolated_view` are the isolation theorem for one event: to each operator, the outputs and
    /// what it has afterwards are what its own machine gives for what it was shown. The clause
    /// `others` says the same of an event of another operator in plain words: it tells the operator
    /// nothing, and can change nothing of it but the list of the tags that are granted to it, and the
    /// uses of its own tags, which gain the one that the event settles.
    ///
    /// Where the work stops during the call and the store of a kept hub is opened again, its records are those before the
    /// event or those after it, whole (`stopped`); once the call is Ok, those after it alone (`done`).
    pub fn handle(&mut self, event: &Event) -> Result<Vec<Out>, Fault>
        ensures counted { IsCounted (hub_view S.view) self.old self.new (result ≡ Err Fault.Store) }
        ensures outputs { is_clean S.view self.new → IfOk result (λ outs. outs.items
            ≡ world_outputs (setting V.view self.old) (world S.view self.old) event.now) }
        ensures world { is_clean S.view self.new → OnOk result (world S.view self.new
            ≡ world_step (setting V.view self.old) (world S.view self.old) event.now) }
        ensures isolated_outputs { is_clean S.view self.new → IfOk result (λ outs. (a : List ℕ)
            → outputs_of a outs.items ≡ operator_run_outputs (setting V.view self.old) a
            (view a (world S.view self.old)) (seen (setting V.view self.old) a (world S.view self.old) (event.now ∷ []))) }
        ensures isolated_view { is_clean S.view self.new → OnOk result ((a : List ℕ)
            → view a (world S.view self.new) ≡ operator_run (setting V.view self.old) a
            (view a (world S.view self.old)) (seen (setting V.view self.old) a (world S.view self.old) (event.now ∷ []))) }
        ensures others { is_clean S.view self.new → IfOk result (λ outs. (a : List ℕ) → IsOfAnother a event.now
            → LeavesAlone a (setting V.view self.old) (world S.view self.old) event.now outs.items (world S.view self.new)) }
        ensures fault { is_clean S.view self.new
            → OnErr result (world S.view self.new ≡ world S.view self.old) }
        ensures fault_slots { OnErr result ((world S.view self.new).slots ≡ (world S.view self.old).slots) }
        ensures stations { is_clean S.view self.new
            → ConnectedAreOnRecord (world S.view self.old) → ConnectedAreOnRecord (world S.view self.new) }
        ensures stopped { FindsOldOr (world_step (setting V.view self.old) (world S.view self.old) event.now).rows
            (hub_view S.view self.old) (hub_view S.view self.new) }
        ensures kept { IsKept (hub_view S.view self.old) → OnOk result (IsKept (hub_view S.view self.new)) }
        ensures done { IsKept (hub_view S.view self.old) → OnOk result ((r : Rows) → (hub_view S.view self.new).may_find r
            → r ≡ (world_step (setting V.view self.old) (world S.view self.old) event.now).rows) }
        ensures setting { setting V.view self.new ≡ setting V.view self.old }
        ensures taken { OnOk result (is_taken (setting V.view self.old) event.now ≡ true) }
        ensures not_hosted { IfErr result (λ f. f ≡ Fault.NoSuchOperator
            → is_taken (setting V.view self.old) event.now ≡ false) }
    {
        let mut outs = Vec::new(self.alloc);
        self.take(event, &mut outs, Flush::AtOnce)?;
        Ok(outs)
    }

    /// Takes one event as `handle` does. Its change is flushed at once, or waits for `flush`.
    pub fn handle_by(&mut self, event: &Event, when: Flush) -> Result<Vec<Out>, Fault>
        ensures counted { IsCounted (hub_view S.view) self.old self.new (result ≡ Err Fault.Store) }
        ensures outputs { is_clean S.view self.new → IfOk result (λ outs. outs.items
            ≡ world_outputs (setting V.view self.old) (world S.view self.old) event.now) }
        ensures world { is_clean S.view self.new → OnOk result (world S.view self.new
            ≡ world_step (setting V.view self.old) (world S.view self.old) event.now) }
        ensures fault { is_clean S.view self.new
            → OnErr result (world S.view self.new ≡ world S.view self.old) }
        ensures records { Records when (world_step (setting V.view self.old) (world S.view self.old) event.now).rows
            (hub_view S.view self.old) (hub_view S.view self.new) result }
        ensures setting { setting V.view self.new ≡ setting V.view self.old }
        ensures taken { OnOk result (is_taken (setting V.view self.old) event.now ≡ true) }
        ensures not_hosted { IfErr result (λ f. f ≡ Fault.NoSuchOperator
            → is_taken (setting V.view self.old) event.now ≡ false) }
    {
        let mut outs = Vec::new(self.alloc);
        self.take(event, &mut outs, when)?;
        Ok(outs)
    }

    /// Takes events until the first fault: the outputs of those taken, how many were taken, and
    /// the fault, if there was one. Nothing of the event that met it has happened.
    ///
    /// The clauses `isolated_outputs` and `isolated_view` are the isolation theorem: to each
    /// operator, the outputs and what it has afterwards are what its own machine gives for what
    /// it was shown of the events taken.
    ///
    /// Where the work stops during the call and the store of a kept hub is opened again, its records are those after the
    /// events taken, or those after one more (`stopped`). With no fault the hub is kept, so its records are those after
    /// all events (`kept`).
    pub fn run(&mut self, events: &[Event]) -> (Vec<Out>, usize, Option<Fault>)
        ensures counted { IsCounted (hub_view S.view) self.old self.new (result.2 ≡ Some Fault.Store) }
        ensures outputs { is_clean S.view self.new → result.0.items
            ≡ run_outputs (setting V.view self.old) (world S.view self.old) (take result.1 events.now) }
        ensures world { is_clean S.view self.new → world S.view self.new
            ≡ world_run (setting V.view self.old) (world S.view self.old) (take result.1 events.now) }
        ensures isolated_outputs { is_clean S.view self.new → (a : List ℕ)
            → outputs_of a result.0.items ≡ operator_run_outputs (setting V.view self.old) a
            (view a (world S.view self.old)) (seen (setting V.view self.old) a (world S.view self.old) (take result.1 events.now)) }
        ensures isolated_view { is_clean S.view self.new → (a : List ℕ)
            → view a (world S.view self.new) ≡ operator_run (setting V.view self.old) a
            (view a (world S.view self.old)) (seen (setting V.view self.old) a (world S.view self.old) (take result.1 events.now)) }
        ensures stations { is_clean S.view self.new
            → ConnectedAreOnRecord (world S.view self.old) → ConnectedAreOnRecord (world S.view self.new) }
        ensures stopped { IsKept (hub_view S.view self.old) → (r : Rows) → (hub_view S.view self.new).may_find r
            → (r ≡ (world_run (setting V.view self.old) (world S.view self.old) (take result.1 events.now)).rows)
            ⊎ (IsSome result.2 × (r ≡ (world_run (setting V.view self.old) (world S.view self.old) (take (result.1 + 1) events.now)).rows)) }
        ensures kept { IsKept (hub_view S.view self.old) → IfNone result.2 (IsKept (hub_view S.view self.new)) }
        ensures setting { setting V.view self.new ≡ setting V.view self.old }
        ensures taken { AllWithin (λ e. is_taken (setting V.view self.old) e ≡ true) events.now 0 result.1 }
        ensures all { IfNone result.2 (result.1 ≡ length events.now) }
        ensures fault { IfSome result.2 (λ _. result.1 < length events.now) }
        ensures not_hosted { IfSome result.2 (λ f. f ≡ Fault.NoSuchOperator
            → (e : Event) → is_taken (setting V.view self.old) (slice_index_or events.now result.1 e) ≡ false) }
    {
        let mut outs = Vec::new(self.alloc);
        let mut taken = 0;
        for event in events {
            match self.take(event, &mut outs, Flush::AtOnce) {
                Ok(()) => {
                    taken += 1;
                }
                Err(fault) => return (outs, taken, Some(fault)),
            }
        }
        (outs, taken, None)
    }

    /// What an event is to say and change. Nothing changes. `commit` takes it, as long as the hub is as it is now.
    pub fn prepare(&mut self, event: &Event) -> Result<Step, Fault>
        ensures counted { IsCounted (hub_view S.view) self.old self.new (result ≡ Err Fault.Store) }
        ensures planned { IfOk result (λ step. IsPlanned S.view V.view self.new event.now step.plan) }
        ensures world { is_clean S.view self.new → world S.view self.new ≡ world S.view self.old }
        ensures slots { (world S.view self.new).slots ≡ (world S.view self.old).slots }
        ensures stopped { FindsOld (hub_view S.view self.old) (hub_view S.view self.new) }
        ensures stays { OnOk result (StaysOnRecord (hub_view S.view self.old) (hub_view S.view self.new)) }
        ensures setting { setting V.view self.new ≡ setting V.view self.old }
        ensures taken { OnOk result (is_taken (setting V.view self.old) event.now ≡ true) }
        ensures not_taken { IfErr result (λ f. f ≡ Fault.NoSuchOperator
            → is_taken (setting V.view self.old) event.now ≡ false) }
    {
        match event {
            Event::At { op, moment, what } => {
                let moment = *moment;
                let plan = self.plan_at(&OperatorEvent { op, moment, what })?;
                Ok(Step { plan })
            }
            Event::Tick { .. } => Ok(Step {
                plan: Plan {
                    said: Listed::new(self.alloc),
                    effect: Effect::Nothing,
                },
            }),
        }
    }

    /// The plan of an event of an operator.
    #[tactic(auto, unfolding(crate::specs::Hub::setting))]
    fn plan_at(&mut self, lent: &OperatorEvent<'_>) -> Result<Plan, Fault>
        ensures counted { IsCounted (hub_view S.view) self.old self.new (result ≡ Err Fault.Store) }
        ensures planned { IfOk result (λ plan. IsPlanned S.view V.view self.new (event.At lent.now.op.now lent.now.moment lent.now.what.now) plan) }
        ensures world { is_clean S.view self.new → world S.view self.new ≡ world S.view self.old }
        ensures slots { self.new.slots ≡ self.old.slots }
        ensures stopped { FindsOld (hub_view S.view self.old) (hub_view S.view self.new) }
        ensures stays { OnOk result (StaysOnRecord (hub_view S.view self.old) (hub_view S.view self.new)) }
        ensures setting { setting V.view self.new ≡ setting V.view self.old }
        ensures taken { OnOk result ((setting V.view self.old).is_hosted lent.now.op.now ≡ true) }
        ensures not_taken { IfErr result (λ f. f ≡ Fault.NoSuchOperator
            → (setting V.view self.old).is_hosted lent.now.op.now ≡ false) }
    {
        let hosted = self.hosted.as_slice();
        if !is_hosted(hosted, lent.op.as_str()) {
            return Err(Fault::NoSuchOperator);
        }
        let plan = plan_event(
            self.alloc,
            &mut self.reader,
            &mut self.book,
            &self.slots,
            hosted,
            lent,
        )?;
        Ok(plan)
    }

    /// Takes an event that was prepared, and adds its outputs at the end of `outs`. Its change is flushed at once, or waits
    /// for `flush`.
    pub fn commit(
        &mut self,
        event: &Event,
        step: Step,
        outs: &mut Vec<Out>,
        when: Flush,
    ) -> Result<(), Fault>
        requires { IsPlanned S.view V.view self.old event.now step.plan }
        ensures counted { IsCounted (hub_view S.view) self.old self.new (result ≡ Err Fault.Store) }
        ensures outs { is_clean S.view self.new → OnOk result (outs.new.items ≡ outs.old.items
            ++ world_outputs (setting V.view self.old) (world S.view self.old) event.now) }
        ensures world { is_clean S.view self.new → OnOk result (world S.view self.new
            ≡ world_step (setting V.view self.old) (world S.view self.old) event.now) }
        ensures err_outs { OnErr result (outs.new.items ≡ outs.old.items) }
        ensures err_world { is_clean S.view self.new
            → OnErr result (world S.view self.new ≡ world S.view self.old) }
        ensures err_slots { OnErr result ((world S.view self.new).slots ≡ (world S.view self.old).slots) }
        ensures records { Records when (world_step (setting V.view self.old) (world S.view self.old) event.now).rows
            (hub_view S.view self.old) (hub_view S.view self.new) result }
        ensures setting { setting V.view self.new ≡ setting V.view self.old }
        ensures hosted { IfErr result (λ f. f ≢ Fault.NoSuchOperator) }
    {
        match event {
            Event::At { op, moment, what } => {
                let moment = *moment;
                let lent = OperatorEvent { op, moment, what };
                self.commit_at(&lent, step.plan, outs, when)
            }
            Event::Tick { moment } => {
                expire_all(&mut self.slots, *moment, outs)?;
                Ok(())
            }
        }
    }

    /// Puts on record the changes that wait, all of them or none.
    #[tactic(auto, unfolding(crate::specs::Hub::setting))]
    pub fn flush(&mut self) -> Result<(), Fault>
        ensures counted { IsCounted (hub_view S.view) self.old self.new (result ≡ Err Fault.Store) }
        ensures world { is_clean S.view self.new → world S.view self.new ≡ world S.view self.old }
        ensures stopped { FindsOldOr (world S.view self.old).rows (hub_view S.view self.old) (hub_view S.view self.new) }
        ensures kept { OnOk result (PutsOnRecord (hub_view S.view self.old) (hub_view S.view self.new)) }
        ensures setting { setting V.view self.new ≡ setting V.view self.old }
        ensures hosted { IfErr result (λ f. f ≢ Fault.NoSuchOperator) }
    {
        self.book.store.flush()?;
        Ok(())
    }

    /// Looks for the changes that wait, after a call that ended in a fault. Where they are gone the hub has the rows that are
    /// on record, and no station is connected to it.
    #[tactic(auto, unfolding(crate::specs::Hub::setting))]
    pub fn recover(&mut self) -> Result<Recovered, Fault>
        ensures recovers { Recovers (hub_view S.view self.old) (hub_view S.view self.new) result }
        ensures whole { result ≡ Ok recovered.Whole → (world S.view self.new).slots ≡ (world S.view self.old).slots }
        ensures renewed { result ≡ Ok recovered.Renewed → (world S.view self.new).slots ≡ [] }
        ensures failed { result ≡ Err Fault.Store → Rose (failures_of S.view self.old) (failures_of S.view self.new) }
        ensures count { failures_of S.view self.old ≤ failures_of S.view self.new }
        ensures setting { setting V.view self.new ≡ setting V.view self.old }
        ensures hosted { IfErr result (λ f. f ≢ Fault.NoSuchOperator) }
    {
        let recovered = self.book.store.recover()?;
        if recovered == Recovered::Renewed {
            self.slots.clear();
        }
        Ok(recovered)
    }

    /// Carries out the plan of an event of an operator. Room for all that grows is made before the one change of the
    /// store.
    #[tactic(auto, unfolding(crate::specs::Hub::setting))]
    fn commit_at(
        &mut self,
        lent: &OperatorEvent<'_>,
        plan: Plan,
        outs: &mut Vec<Out>,
        when: Flush,
    ) -> Result<(), Fault>
        requires { IsPlanned S.view V.view self.old (event.At lent.now.op.now lent.now.moment lent.now.what.now) plan }
        ensures counted { IsCounted (hub_view S.view) self.old self.new (result ≡ Err Fault.Store) }
        ensures outs { is_clean S.view self.new → OnOk result (outs.new.items ≡ outs.old.items
            ++ world_outputs (setting V.view self.old) (world S.view self.old) (event.At lent.now.op.now lent.now.moment lent.now.what.now)) }
        ensures world { is_clean S.view self.new → OnOk result (world S.view self.new
            ≡ world_step (setting V.view self.old) (world S.view self.old) (event.At lent.now.op.now lent.now.moment lent.now.what.now)) }
        ensures err_outs { OnErr result (outs.new.items ≡ outs.old.items) }
        ensures err_world { is_clean S.view self.new
            → OnErr result (world S.view self.new ≡ world S.view self.old) }
        ensures err_slots { OnErr result ((world S.view self.new).slots ≡ (world S.view self.old).slots) }
        ensures records { Records when (world_step (setting V.view self.old) (world S.view self.old) (event.At lent.now.op.now lent.now.moment lent.now.what.now)).rows
            (hub_view S.view self.old) (hub_view S.view self.new) result }
        ensures setting { setting V.view self.new ≡ setting V.view self.old }
        ensures hosted { IfErr result (λ f. f ≢ Fault.NoSuchOperator) }
    {
        commit(
            &mut self.book.store,
            &mut self.slots,
            lent,
            plan,
            outs,
            when,
        )
    }

    /// Takes one event, and adds its outputs at the end of `outs`.
    fn take(&mut self, event: &Event, outs: &mut Vec<Out>, when: Flush) -> Result<(), Fault>
        ensures counted { IsCounted (hub_view S.view) self.old self.new (result ≡ Err Fault.Store) }
        ensures outs { is_clean S.view self.new → OnOk result (outs.new.items ≡ outs.old.items
            ++ world_outputs (setting V.view self.old) (world S.view self.old) event.now) }
        ensures world { is_clean S.view self.new → OnOk result (world S.view self.new
            ≡ world_step (setting V.view self.old) (world S.view self.old) event.now) }
        ensures err_outs { OnErr result (outs.new.items ≡ outs.old.items) }
        ensures err_world { is_clean S.view self.new
            → OnErr result (world S.view self.new ≡ world S.view self.old) }
        ensures err_slots { OnErr result ((world S.view self.new).slots ≡ (world S.view self.old).slots) }
        ensures records { Records when (world_step (setting V.view self.old) (world S.view self.old) event.now).rows
            (hub_view S.view self.old) (hub_view S.view self.new) result }
        ensures setting { setting V.view self.new ≡ setting V.view self.old }
        ensures taken { OnOk result (is_taken (setting V.view self.old) event.now ≡ true) }
        ensures not_taken { IfErr result (λ f. f ≡ Fault.NoSuchOperator
            → is_taken (setting V.view self.old) event.now ≡ false) }
    {
        let step = self.prepare(event)?;
        self.commit(event, step, outs, when)
    }
}
