//! The records of a yard.

ghost use Rattle.std.specs.Prelude.{◌<◌, length};
ghost use Rattle.cn_yard.specs.Records.{IsClient, IsLink, IsPut};

/// A record: its neighbours on its line, the number of the line, and the token's client.
///
/// What `prev` says of the first record of a line and `next` of the last has no meaning, nor has the client of a free
/// record.
#[derive(Clone, Copy, Debug)]
pub(crate) struct Record {
    pub(crate) prev: u32,
    pub(crate) next: u32,
    pub(crate) wire: u32,
    pub(crate) client: u64,
}

/// Links two records: `to` comes after `from`.
pub(crate) fn link(records: &mut [Record], from: u32, to: u32)
    requires from { from < length records.old }
    requires to { to < length records.old }
    ensures { IsLink records.old records.new from to }
{
    records[from as usize].next = to;
    records[to as usize].prev = from;
}

/// Writes the number of a record's line.
pub(crate) fn set_wire(records: &mut [Record], number: u32, wire: u32)
    requires { number < length records.old }
    ensures { IsPut records.old records.new number wire }
{
    records[number as usize].wire = wire;
}

/// Writes the client of a record.
pub(crate) fn set_client(records: &mut [Record], number: u32, client: u64)
    requires { number < length records.old }
    ensures { IsClient records.old records.new number client }
{
    records[number as usize].client = client;
}
