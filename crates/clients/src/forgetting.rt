//! History that an operator forgets, at all its stations.
ghost use Rattle.std.specs.Prelude.{◌≡◌};
ghost use Rattle.clients.specs.Days.{days_of};

use crate::clock::now;
use crate::export::{Export, Written};
use crate::fault::ClientFault;
use crate::orders::Orders;
use crate::reply::{Forgotten, Reply, forgotten_of, reply_of, station_of};
use ocpp_types::{Text, number_of_digits};

/// The most digits of a number of days.
const MAX_DIGITS: usize = 5;

const SECONDS_A_DAY: u64 = 86_400;

/// What an operator forgets.
#[derive(Drop)]
pub struct ForgetOptions {
    pub port: u16,
    pub operator: Text,
    /// What is older than so many days goes.
    pub days: u64,
    /// The name of two files to which rows are written before they go.
    pub export: Option<Text>,
}

/// The days of a text such as `90d`: one to five digits and a `d`.
pub fn days_of(text: &str) -> Option<u64>
    ensures { result ≡ days_of text.now }
{
    let (days, rest) = text.split_once('d')?;
    if rest.is_empty() {
        number_of_digits(days, MAX_DIGITS)
    } else {
        None
    }
}

/// An operator's stations, whose history is forgotten.
#[derive(Drop)]
struct Forgetting<'a> {
    rt: &'a HostRuntime,
    operator: &'a Text,
    orders: Orders<'a>,
    export: Option<Export>,
    /// The history before that moment, in seconds since 1970.
    until: u64,
    /// What went so far.
    gone: Forgotten,
}

/// Forgets what is so old, at each station of the operator, and prints how many rows went of each and of all. Whether
/// all orders were taken. Errors: no connection, one that ends, an answer that doesn't come, a clock that gives no
/// moment, an export that can't be written.
pub fn forget(rt: &HostRuntime, options: &ForgetOptions) -> Result<bool, ClientFault> {
    let moment = now(rt).ok_or(ClientFault::Clock)?;
    let age = options.days.saturating_mul(SECONDS_A_DAY);
    let mut forgetting = Forgetting {
        rt,
        operator: &options.operator,
        orders: Orders::to(rt, options.port, options.operator.as_str())?,
        export: export_of(rt, &options.export)?,
        until: moment.seconds().saturating_sub(age),
        gone: Forgotten::default(),
    };
    let stations = forgetting.stations()?;
    forgetting.all(stations.as_slice())
}

fn export_of(rt: &HostRuntime, name: &Option<Text>) -> Result<Option<Export>, ClientFault> {
    match name {
        Some(name) => Ok(Some(Export::to(rt, name.as_str())?)),
        None => Ok(None),
    }
}

impl Forgetting<'_> {
    /// The names of the operator's stations.
    fn stations(&mut self) -> Result<Vec<Text>, ClientFault> {
        let alloc = self.rt.alloc();
        let mut stations = Vec::new(alloc);
        self.orders.send("list stations")?;
        for _ in 0..u64::MAX {
            let Some(text) = self.orders.answer()? else {
                return Ok(stations);
            };
            if let Some(station) = station_of(self.operator.as_str(), text.as_str()) {
                stations.push(Text::copy_of(alloc, station)?)?;
            }
        }
        Err(self.orders.silent())
    }

    /// Forgets at each of these stations. Whether all orders were taken.
    fn all(&mut self, stations: &[Text]) -> Result<bool, ClientFault> {
        let mut all_taken = true;
        for station in stations {
            if !self.at(station.as_str())? {
                all_taken = false;
            }
        }
        let Forgotten {
            transactions,
            readings,
        } = self.gone;
        println!(self.rt; "all {transactions} {readings}")?;
        Ok(all_taken)
    }

    /// Gives orders at one station until nothing is left to go. Whether each was taken.
    fn at(&mut self, station: &str) -> Result<bool, ClientFault> {
        if self.export.is_some() {
            return self.export_all(station);
        }
        let until = self.until;
        let line = format!(in self.rt.alloc(); "forget {station} {until}")?;
        for _ in 0..u64::MAX {
            let Some(gone) = self.order(station, line.as_str())? else {
                return Ok(false);
            };
            if gone == Forgotten::default() {
                return Ok(true);
            }
            self.add(station, gone)?;
        }
        Err(self.orders.silent())
    }

    /// The same. Each order takes only rows that were written before.
    fn export_all(&mut self, station: &str) -> Result<bool, ClientFault> {
        let until = self.until;
        for _ in 0..u64::MAX {
            let Some(written) = self.write(station)? else {
                return Ok(false);
            };
            if written == Written::default() {
                return Ok(true);
            }
            let Written {
                reading,
                transaction,
            } = written;
            let line = format!(in self.rt.alloc();
                "forget {station} {until} {reading} {transaction}"
            )?;
            let Some(gone) = self.order(station, line.as_str())? else {
                return Ok(false);
            };
            self.add(station, gone)?;
        }
        Err(self.orders.silent())
    }

    /// Writes what may go to the files of the export and to the disk. `None` where the listing was refused, which is
    /// printed.
    fn write(&mut self, station: &str) -> Result<Option<Written>, ClientFault> {
        let Some(export) = &mut self.export else {
            return Ok(None);
        };
        let alloc = self.rt.alloc();
        let until = self.until;
        let line = format!(in alloc; "list forgettable {station} {until}")?;
        let operator = self.operator.as_str();
        let mut written = Written::default();
        let mut is_taken = true;
        self.orders.send(line.as_str())?;
        for _ in 0..u64::MAX {
            let Some(text) = self.orders.answer()? else {
                export.sync()?;
                return Ok(is_taken.then_some(written));
            };
            if is_refusal(operator, text.as_str()) {
                println!(self.rt; "{text}")?;
                is_taken = false;
            }
            export.add(alloc, operator, station, text.as_str(), &mut written)?;
        }
        Err(self.orders.silent())
    }

    /// Gives an order once. What went; `None` where it was refused, which is printed.
    fn order(&mut self, station: &str, line: &str) -> Result<Option<Forgotten>, ClientFault> {
        let operator = self.operator.as_str();
        let mut gone = None;
        self.orders.send(line)?;
        for _ in 0..u64::MAX {
            let Some(text) = self.orders.answer()? else {
                return Ok(gone);
            };
            if is_refusal(operator, text.as_str()) {
                println!(self.rt; "{text}")?;
            }
            if let Some(rows) = forgotten_of(operator, station, text.as_str()) {
                gone = Some(rows);
            }
        }
        Err(self.orders.silent())
    }

    /// Counts and prints what went of a station.
    fn add(&mut self, station: &str, gone: Forgotten) -> Result<(), ClientFault> {
        let Forgotten {
            transactions,
            readings,
        } = gone;
        self.gone = self.gone.with(gone);
        println!(self.rt; "{station} {transactions} {readings}")?;
        Ok(())
    }
}

/// Whether a text says that the operator's line isn't taken.
fn is_refusal(operator: &str, text: &str) -> bool {
    matches!(reply_of(operator, text), Reply::Refused | Reply::Bad)
}
