//! What readings measure.

use crate::named::Named;

/// What a reading measures (OCPP 1.6, type Measurand).
#[derive(Clone, Copy, Debug, PartialEq, Eq)]
pub enum Measurand {
    CurrentExport,
    CurrentImport,
    CurrentOffered,
    EnergyActiveExportRegister,
    EnergyActiveImportRegister,
    EnergyReactiveExportRegister,
    EnergyReactiveImportRegister,
    EnergyActiveExportInterval,
    EnergyActiveImportInterval,
    EnergyReactiveExportInterval,
    EnergyReactiveImportInterval,
    Frequency,
    PowerActiveExport,
    PowerActiveImport,
    PowerFactor,
    PowerOffered,
    PowerReactiveExport,
    PowerReactiveImport,
    RPM,
    SoC,
    Temperature,
    Voltage,
}

impl Named for Measurand {
    ghost use Rattle.ocpp_types.specs.Measurand.{measurand_name, measurands};

    ghost name_of = { measurand_name };

    ghost names = { measurands };

    fn table() -> &'static [(&'static str, Self)] {
        crate::table! {
            "Current.Export" => CurrentExport, "Current.Import" => CurrentImport,
            "Current.Offered" => CurrentOffered,
            "Energy.Active.Export.Register" => EnergyActiveExportRegister,
            "Energy.Active.Import.Register" => EnergyActiveImportRegister,
            "Energy.Reactive.Export.Register" => EnergyReactiveExportRegister,
            "Energy.Reactive.Import.Register" => EnergyReactiveImportRegister,
            "Energy.Active.Export.Interval" => EnergyActiveExportInterval,
            "Energy.Active.Import.Interval" => EnergyActiveImportInterval,
            "Energy.Reactive.Export.Interval" => EnergyReactiveExportInterval,
            "Energy.Reactive.Import.Interval" => EnergyReactiveImportInterval,
            "Frequency" => Frequency, "Power.Active.Export" => PowerActiveExport,
            "Power.Active.Import" => PowerActiveImport, "Power.Factor" => PowerFactor,
            "Power.Offered" => PowerOffered, "Power.Reactive.Export" => PowerReactiveExport,
            "Power.Reactive.Import" => PowerReactiveImport, "RPM" => RPM, "SoC" => SoC,
            "Temperature" => Temperature, "Voltage" => Voltage
        }
    }

    fn index(&self) -> usize {
        *self as usize
    }
}
