//! A grant list of records that are at hand.

use crate::reports::record;
use cn_ledger::EpochRecord;
use cn_report::render_grants;
use std::alloc::Global;

/// The grant list of one epoch.
fn listed(alloc: Global, epoch: EpochRecord) -> Option<Vec<u8>> {
    if epoch.holders.len() as u64 != epoch.clients {
        return None;
    }
    render_grants(alloc, &[epoch]).ok()
}

const SECOND: &[u8] = b"epoch,client,name\n9,5,0\n9,17,1\n";

/// Whether this is the grant list of the epoch.
fn is_listed(alloc: Global) -> Option<bool> {
    let second = record(alloc, 9, &[1, 1], &[5, 17])?;
    Some(listed(alloc, second)?.as_slice() == SECOND)
}

#[test]
fn an_epoch_is_listed_at_once(rt: HostRuntime) {
    assert_eq!(rt; is_listed(rt.alloc()), Some(true));
}
