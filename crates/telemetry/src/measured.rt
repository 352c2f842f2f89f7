//! What is measured as the metrics are asked for.

use crate::metrics_page::Now;
use ocpp_types::Mem;
use std::fs;
use std::time::CpuClock;

/// The size of the file at a path, 0 where there is none.
pub fn size_of(rt: &HostRuntime, path: &str) -> u64 {
    match fs::metadata(rt, path) {
        Ok(found) => found.len(),
        Err(_) => 0,
    }
}

/// The sizes of the file of the records and of its log, and the time of processors. The rest is to be set.
pub fn now_of(rt: &HostRuntime, db: &str) -> Mem<Now> {
    let log = format!(in rt.alloc(); "{db}-wal")?;
    let processor = rt
        .process_cpu_time()
        .map_or(0, |time| u64::try_from(time.as_nanos()).unwrap_or(0));
    Ok(Now {
        file: size_of(rt, db),
        log: size_of(rt, log.as_str()),
        processor,
        ..Now::default()
    })
}
