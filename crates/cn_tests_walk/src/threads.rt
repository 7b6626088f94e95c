//! A lane can be sent to a thread, and a floor can be shared by threads: that this file compiles shows it.

use cn_floor::{Floor, Lane};
use cn_tree::tree;
use std::alloc::Global;
use std::test::Fail;

fn sent<T: Send>(_value: &T) -> bool {
    true
}

fn shared<T: Send + Sync>(_value: &T) -> bool {
    true
}

fn crosses(alloc: Global) -> Option<bool> {
    let network = tree(alloc, 2).ok()?;
    let (floor, lane) = Floor::open(alloc, &network, 0).ok()?;
    Some(sent::<Lane>(&lane) && shared::<Floor<'_>>(&floor))
}

#[test]
fn lanes_and_floors_cross_threads(rt: HostRuntime) -> Result<(), Fail> {
    assert_eq!(rt; crosses(rt.alloc()), Some(true));
    Ok(())
}
