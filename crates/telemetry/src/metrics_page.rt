//! The metrics as a page of text (Prometheus, Exposition formats, Text-based format, version 0.0.4).

use crate::causes::NAMES;
use crate::metrics::{Counts, FAULT_NAMES, Metrics};
use ocpp_types::Mem;
use std::alloc::Global;
use std::fmt;
use std::fmt::{Display, Formatter, Write};
use ws_peers::Route;

/// What is measured as a page is asked for.
#[derive(Clone, Copy, Default, Drop)]
pub struct Now {
    /// Connections that wait for their admission.
    pub waiting: u64,
    /// The bytes that wait until peers take them.
    pub unsent: u64,
    /// The bytes of the file of the records.
    pub file: u64,
    /// The bytes of its log.
    pub log: u64,
    /// The nanoseconds since the start.
    pub since_start: u64,
    /// The nanoseconds of processors.
    pub processor: u64,
    /// The lines that standard error didn't take, or that were too many.
    pub left_out: u64,
}

/// What is counted of an operator as a page is asked for.
#[derive(Clone, Copy, Default, Drop)]
pub struct Connected {
    /// The connections of its stations.
    pub stations: u64,
    /// Its own.
    pub consoles: u64,
    /// Stations at which a command is in flight.
    pub in_flight: u64,
}

impl Connected {
    /// Counts a connection.
    pub fn add(&mut self, route: Option<&Route>) {
        match route {
            Some(Route::Station(_, _)) => self.stations = self.stations.saturating_add(1),
            Some(Route::Operator(_)) => self.consoles = self.consoles.saturating_add(1),
            None => {}
        }
    }
}

/// A number of nanoseconds, shown in seconds.
#[derive(Clone, Copy, Drop)]
struct Seconds(u64);

impl Display for Seconds {
    fn fmt<W: Write>(&self, f: &mut Formatter<W>) -> fmt::Result {
        let whole = self.0 / 1_000_000_000;
        let rest = self.0 % 1_000_000_000;
        write!(f, "{whole}.{rest:09}")
    }
}

/// A page as it is written.
#[derive(Drop)]
struct Page {
    alloc: Global,
    text: String,
}

impl Page {
    /// Begins a family of samples.
    fn family(&mut self, name: &str, kind: &str, help: &str) -> Mem<()> {
        let lines = format!(in self.alloc;
            "# HELP doxeguir_{name} {help}\n# TYPE doxeguir_{name} {kind}\n"
        )?;
        self.text.push_str(lines.as_str())?;
        Ok(())
    }

    /// A family of one sample.
    fn single<D: Display + Drop>(
        &mut self,
        name: &str,
        kind: &str,
        help: &str,
        value: D,
    ) -> Mem<()> {
        self.family(name, kind, help)?;
        let line = format!(in self.alloc; "doxeguir_{name} {value}\n")?;
        self.text.push_str(line.as_str())?;
        Ok(())
    }

    /// A sample with these labels.
    fn sample<D: Display + Drop>(
        &mut self,
        name: &str,
        labels: &[(&str, &str)],
        value: D,
    ) -> Mem<()> {
        let shown = shown_labels(self.alloc, labels)?;
        let line = format!(in self.alloc; "doxeguir_{name}{{{shown}}} {value}\n")?;
        self.text.push_str(line.as_str())?;
        Ok(())
    }
}

/// Labels as a sample shows them, parted by commas.
fn shown_labels(alloc: Global, labels: &[(&str, &str)]) -> Mem<String> {
    let mut shown = String::new(alloc);
    for (label, of) in labels {
        if !shown.is_empty() {
            shown.push(',')?;
        }
        push_label(&mut shown, label, of)?;
    }
    Ok(shown)
}

fn push_label(shown: &mut String, label: &str, of: &str) -> Mem<()> {
    shown.push_str(label)?;
    shown.push_str("=\"")?;
    shown.push_str(of)?;
    shown.push('"')?;
    Ok(())
}

/// The page of a program of that version. `connected` has what is counted of each operator, in their order.
pub fn page_of(
    alloc: Global,
    version: &str,
    metrics: &Metrics,
    connected: &[Connected],
    now: &Now,
) -> Mem<String> {
    let mut page = Page {
        alloc,
        text: String::new(alloc),
    };
    page.family("info", "gauge", "The version of the program.")?;
    page.sample("info", &[("version", version)], 1)?;
    print_times(&mut page, metrics, now)?;
    print_sizes(&mut page, now)?;
    print_connected(&mut page, metrics, connected)?;
    print_counts(&mut page, metrics)?;
    print_faults(&mut page, metrics)?;
    print_refused(&mut page, metrics)?;
    Ok(page.text)
}

fn print_times(page: &mut Page, metrics: &Metrics, now: &Now) -> Mem<()> {
    let busy = now.since_start.saturating_sub(metrics.idle);
    let blocked = busy.saturating_sub(now.processor);
    page.single(
        "uptime_seconds",
        "gauge",
        "The time since the start.",
        Seconds(now.since_start),
    )?;
    page.single(
        "busy_seconds_total",
        "counter",
        "The time in which turns ran or waited for the disk.",
        Seconds(busy),
    )?;
    page.single(
        "processor_seconds_total",
        "counter",
        "The time of processors.",
        Seconds(now.processor),
    )?;
    page.single(
        "blocked_seconds_total",
        "counter",
        "The time in which turns had no processor: they waited for syncs and reads of the disk, or others ran.",
        Seconds(blocked),
    )?;
    page.single(
        "longest_turn_seconds",
        "gauge",
        "The longest turn of the last one to two minutes.",
        Seconds(metrics.turn.get()),
    )?;
    page.single(
        "longest_event_seconds",
        "gauge",
        "The longest time in which one connection was served, of the last one to two minutes.",
        Seconds(metrics.event.get()),
    )
}

fn print_sizes(page: &mut Page, now: &Now) -> Mem<()> {
    page.single(
        "file_bytes",
        "gauge",
        "The size of the file of the records.",
        now.file,
    )?;
    page.single(
        "log_bytes",
        "gauge",
        "The size of its write-ahead log.",
        now.log,
    )?;
    page.single(
        "unsent_bytes",
        "gauge",
        "What waits until peers take it.",
        now.unsent,
    )?;
    page.single(
        "waiting_connections",
        "gauge",
        "Connections whose handshake isn't done.",
        now.waiting,
    )?;
    page.single(
        "left_out_lines_total",
        "counter",
        "Lines of the log that weren't written.",
        now.left_out,
    )
}

fn print_connected(page: &mut Page, metrics: &Metrics, connected: &[Connected]) -> Mem<()> {
    page.family(
        "connections",
        "gauge",
        "Connections, of stations and of the operator itself.",
    )?;
    for (operator, now) in metrics.operators.iter().zip(connected) {
        let operator = operator.as_str();
        page.sample(
            "connections",
            &[("operator", operator), ("kind", "station")],
            now.stations,
        )?;
        page.sample(
            "connections",
            &[("operator", operator), ("kind", "operator")],
            now.consoles,
        )?;
    }
    page.family(
        "commands_in_flight",
        "gauge",
        "Stations at which a command is in flight.",
    )?;
    for (operator, now) in metrics.operators.iter().zip(connected) {
        page.sample(
            "commands_in_flight",
            &[("operator", operator.as_str())],
            now.in_flight,
        )?;
    }
    Ok(())
}

fn print_counts(page: &mut Page, metrics: &Metrics) -> Mem<()> {
    print_events(page, metrics)?;
    print_served(page, metrics)?;
    print_ends(page, metrics)
}

fn print_events(page: &mut Page, metrics: &Metrics) -> Mem<()> {
    page.family(
        "events_total",
        "counter",
        "Texts of connections that were taken.",
    )?;
    for (operator, counts) in metrics.operators.iter().zip(&metrics.counts) {
        let operator = operator.as_str();
        page.sample(
            "events_total",
            &[("operator", operator), ("kind", "frame")],
            counts.frames,
        )?;
        page.sample(
            "events_total",
            &[("operator", operator), ("kind", "order")],
            counts.orders,
        )?;
    }
    Ok(())
}

fn print_served(page: &mut Page, metrics: &Metrics) -> Mem<()> {
    page.family(
        "served_seconds_total",
        "counter",
        "The time in which connections were served.",
    )?;
    for (operator, counts) in metrics.operators.iter().zip(&metrics.counts) {
        page.sample(
            "served_seconds_total",
            &[("operator", operator.as_str())],
            Seconds(counts.served),
        )?;
    }
    Ok(())
}

fn print_ends(page: &mut Page, metrics: &Metrics) -> Mem<()> {
    page.family(
        "connected_total",
        "counter",
        "Connections that were admitted.",
    )?;
    for (operator, counts) in metrics.operators.iter().zip(&metrics.counts) {
        page.sample(
            "connected_total",
            &[("operator", operator.as_str())],
            counts.connected,
        )?;
    }
    page.family("ended_total", "counter", "Connections that have ended.")?;
    for (operator, counts) in metrics.operators.iter().zip(&metrics.counts) {
        page.sample(
            "ended_total",
            &[("operator", operator.as_str())],
            counts.ended,
        )?;
    }
    Ok(())
}

fn print_faults(page: &mut Page, metrics: &Metrics) -> Mem<()> {
    page.family("faults_total", "counter", "Events that ended in a fault.")?;
    for (operator, counts) in metrics.operators.iter().zip(&metrics.counts) {
        for (fault, count) in FAULT_NAMES.iter().zip(&counts.faults) {
            page.sample(
                "faults_total",
                &[("operator", operator.as_str()), ("kind", *fault)],
                *count,
            )?;
        }
    }
    Ok(())
}

fn print_refused(page: &mut Page, metrics: &Metrics) -> Mem<()> {
    page.family(
        "refused_total",
        "counter",
        "Connections that weren't admitted.",
    )?;
    for (cause, count) in NAMES.iter().zip(&metrics.refused) {
        page.sample("refused_total", &[("cause", *cause)], *count)?;
    }
    Ok(())
}
