//! The pairs of stations between which no transfer is possible.

ghost use Rattle.std.specs.Prelude.{◌≡◌, ◌++◌, true, false, List, IfOk, OnOk};
ghost use Rattle.gtfs_tables.specs.declared.tables.Transfer.{Transfer as TheTransfer};
ghost use Rattle.transfers.specs.Bans.{AreBans, HasBans, IsBan, ban_between, bans_in};

use gtfs_tables::{Transfer, TransferEnd, TransferKind};
use std::alloc::{AllocError, Global};

/// No transfer is possible from the stops of one station to those of another (or the same), except by transfers
/// that name both stops themselves.
#[derive(Clone, Copy, PartialEq, Eq, PartialOrd, Ord)]
pub(crate) struct Ban {
    pub to: u32,
    pub from: u32,
}

// Returns the ban between two ends, if both are stations.
fn ban_between(from: TransferEnd, to: TransferEnd) -> Option<Ban>
    ensures { result ≡ ban_between from to }
{
    match (from, to) {
        (TransferEnd::Station(from), TransferEnd::Station(to)) => Some(Ban { to, from }),
        (TransferEnd::Station(_), TransferEnd::Stop(_)) => None,
        (TransferEnd::Stop(_), _) => None,
    }
}

// Adds the ban that a transfer states, if it states one.
fn add_ban(bans: &mut Vec<Ban>, row: &Transfer) -> Result<(), AllocError>
    ensures { OnOk result (bans.new.items ≡ bans.old.items ++ bans_in row.now) }
{
    match row.kind {
        TransferKind::Impossible => match ban_between(row.from, row.to) {
            Some(ban) => {
                bans.push(ban)?;
                Ok(())
            }
            None => Ok(()),
        },
        TransferKind::Recommended => Ok(()),
        TransferKind::Timed => Ok(()),
        TransferKind::Minimum => Ok(()),
        TransferKind::Skipped => Ok(()),
    }
}

// Returns the bans that transfers state, in the order of the transfers.
fn bans_made(alloc: Global, rows: &[Transfer]) -> Result<Vec<Ban>, AllocError>
    ensures { IfOk result (λ bans. HasBans rows.now bans.items) }
{
    let mut bans = Vec::new(alloc);
    for row in rows {
        add_ban(&mut bans, row)?;
    }
    Ok(bans)
}

/// Returns the bans that transfers state, sorted.
pub(crate) fn bans_of(alloc: Global, rows: &[Transfer]) -> Result<Vec<Ban>, AllocError>
    ensures { IfOk result (λ bans. AreBans rows.now bans.items) }
{
    let mut bans = bans_made(alloc, rows)?;
    bans.sort()?;
    Ok(bans)
}

/// Returns whether a transfer from one station to another is banned.
pub(crate) fn is_ban(bans: &[Ban], from: u32, to: u32) -> bool
    ensures found { (rows : List TheTransfer) → AreBans rows bans.now → result ≡ true → IsBan rows from to }
    ensures none { (rows : List TheTransfer) → AreBans rows bans.now → result ≡ false → ¬ IsBan rows from to }
{
    bans.binary_search(&Ban { to, from }).is_ok()
}
