//! What the decisions on stations' calls promise.
ghost use Rattle.std.specs.Prelude.{◌≡◌, IfOk};
ghost use Rattle.hub_rows.specs.Reads.{OnlyReads};
ghost use Rattle.hub_rows.specs.Lookups.{lookups_at};
ghost use Rattle.hub_rows.specs.StoreView.{StoreView};
ghost use Rattle.registry.specs.Boot.{boot_rule, heartbeat_rule};
ghost use Rattle.registry.specs.Status.{status_rule};
ghost use Rattle.registry.specs.Report.{report_rule};
ghost use Rattle.hub_rows.specs.declared.report_row.ReportedStatus.TheVariants as reported;
ghost use Rattle.charging.specs.MeterValues.{meter_values_rule};
ghost use Rattle.charging.specs.Start.{start_rule};
ghost use Rattle.charging.specs.Stop.{stop_rule};
ghost use Rattle.station_calls.specs.Authorized.{authorize_rule};
ghost use Rattle.station_calls.specs.Transfer.{transfer_rule};
ghost use Rattle.station_calls.specs.Vendors.{Answers};

use hub_rows::{Registration, StoreFault};
use ocpp_payload::{
    Authorize, DataTransfer, DiagnosticsStatusNotification, FirmwareStatusNotification,
    MeterValues, StartTransaction, StatusNotification, StopTransaction,
};
use ocpp_types::{BootNotification, Boxed};
use registry::{Decision, StationAt};
use std::alloc::Global;

/// Decides the calls of registered stations, one for each action: the reply, and an edit of the
/// records of the station's operator, which is for the caller to make. A decision leaves the
/// records. Each call takes the station that it is of, and the moment.
pub trait CoreHandler {
    /// The records that it decides by, as contracts see their store.
    ghost view: { Self → StoreView };

    /// What vendors' messages are answered.
    ghost answers: { Self → Answers };

    /// A question for an id tag (OCPP 1.6, section 4.1).
    fn on_authorize(
        &mut self,
        alloc: Global,
        at: &StationAt<'_>,
        request: Authorize,
    ) -> Result<Decision, StoreFault>
        ensures reads { OnlyReads view self.old self.new result }
        ensures decision { (view self.new).clean → IfOk result (λ d. d
            ≡ authorize_rule request at.now.moment (lookups_at at.now.op.now (view self.old).rows)) }
        ensures answers { answers self.new ≡ answers self.old };

    /// A boot, of a station that is registered so (OCPP 1.6, section 4.2).
    fn on_boot_notification(
        &mut self,
        alloc: Global,
        at: &StationAt<'_>,
        registration: Registration,
        request: Boxed<BootNotification>,
    ) -> Result<Decision, StoreFault>
        ensures reads { OnlyReads view self.old self.new result }
        ensures decision { IfOk result (λ d. d ≡ boot_rule at.now.station.now registration request at.now.moment) }
        ensures answers { answers self.new ≡ answers self.old };

    /// A vendor's message (OCPP 1.6, section 4.3).
    fn on_data_transfer(
        &mut self,
        alloc: Global,
        at: &StationAt<'_>,
        request: DataTransfer,
    ) -> Result<Decision, StoreFault>
        ensures reads { OnlyReads view self.old self.new result }
        ensures decision { IfOk result (λ d. d ≡ transfer_rule (answers self.old) request) }
        ensures answers { answers self.new ≡ answers self.old };

    /// What became of an upload of diagnostics (OCPP 1.6, section 4.4).
    fn on_diagnostics_status_notification(
        &mut self,
        alloc: Global,
        at: &StationAt<'_>,
        request: DiagnosticsStatusNotification,
    ) -> Result<Decision, StoreFault>
        ensures reads { OnlyReads view self.old self.new result }
        ensures decision { IfOk result (λ d. d ≡ report_rule at.now.station.now (reported.Diagnostics request.status) at.now.moment) }
        ensures answers { answers self.new ≡ answers self.old };

    /// What became of a firmware update (OCPP 1.6, section 4.5).
    fn on_firmware_status_notification(
        &mut self,
        alloc: Global,
        at: &StationAt<'_>,
        request: FirmwareStatusNotification,
    ) -> Result<Decision, StoreFault>
        ensures reads { OnlyReads view self.old self.new result }
        ensures decision { IfOk result (λ d. d ≡ report_rule at.now.station.now (reported.Firmware request.status) at.now.moment) }
        ensures answers { answers self.new ≡ answers self.old };

    /// A heartbeat (OCPP 1.6, section 4.6).
    fn on_heartbeat(&mut self, alloc: Global, at: &StationAt<'_>) -> Result<Decision, StoreFault>
        ensures reads { OnlyReads view self.old self.new result }
        ensures decision { IfOk result (λ d. d ≡ heartbeat_rule at.now.moment) }
        ensures answers { answers self.new ≡ answers self.old };

    /// Readings of a meter (OCPP 1.6, section 4.7).
    fn on_meter_values(
        &mut self,
        alloc: Global,
        at: &StationAt<'_>,
        request: MeterValues,
    ) -> Result<Decision, StoreFault>
        ensures reads { OnlyReads view self.old self.new result }
        ensures decision { (view self.new).clean → IfOk result (λ d. d
            ≡ meter_values_rule at.now.station.now request (lookups_at at.now.op.now (view self.old).rows)) }
        ensures answers { answers self.new ≡ answers self.old };

    /// A transaction has begun (OCPP 1.6, section 4.8).
    fn on_start_transaction(
        &mut self,
        alloc: Global,
        at: &StationAt<'_>,
        request: StartTransaction,
    ) -> Result<Decision, StoreFault>
        ensures reads { OnlyReads view self.old self.new result }
        ensures decision { (view self.new).clean → IfOk result (λ d. d
            ≡ start_rule at.now.station.now request at.now.moment (lookups_at at.now.op.now (view self.old).rows)) }
        ensures answers { answers self.new ≡ answers self.old };

    /// A report on a connector (OCPP 1.6, section 4.9).
    fn on_status_notification(
        &mut self,
        alloc: Global,
        at: &StationAt<'_>,
        request: Boxed<StatusNotification>,
    ) -> Result<Decision, StoreFault>
        ensures reads { OnlyReads view self.old self.new result }
        ensures decision { IfOk result (λ d. d ≡ status_rule at.now.station.now request at.now.moment) }
        ensures answers { answers self.new ≡ answers self.old };

    /// A transaction has ended (OCPP 1.6, section 4.10).
    fn on_stop_transaction(
        &mut self,
        alloc: Global,
        at: &StationAt<'_>,
        request: StopTransaction,
    ) -> Result<Decision, StoreFault>
        ensures reads { OnlyReads view self.old self.new result }
        ensures decision { (view self.new).clean → IfOk result (λ d. d
            ≡ stop_rule at.now.station.now request at.now.moment (lookups_at at.now.op.now (view self.old).rows)) }
        ensures answers { answers self.new ≡ answers self.old };
}
