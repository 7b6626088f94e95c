//! The limits of the service.

/// The greatest level of a network: its width is 2 to the power of the level, and the least level is 1.
pub const MOST_LEVEL: u32 = 8;

/// The most entries that a wiring may have, and the most exits.
pub const MOST_ENDS: u32 = 4_096;

/// The most balancers of a wiring.
pub const MOST_BALANCERS: u32 = 65_536;

/// The most clients of one epoch, unless its batch is a large one.
pub const MOST_CLIENTS: u64 = 262_144;

/// The most names that a floor gives to lanes, which keep a list of them. So it is the most clients of one epoch of a
/// large batch, and the most records of a large batch or a large grant list, its header aside.
pub const MOST_NAMED: u64 = 2_147_483_648;

/// The most clients that may have come before an epoch, and before a floor with lanes, that goes on from the counts of
/// earlier ones.
pub const MOST_CARRIED: u64 = 2_147_483_648;

/// The most names that a floor gives to takers, which keep no list of them, and the most clients that may have come
/// before it.
pub const MOST_TAKEN: u64 = 4_611_686_018_427_387_904;

/// The most records of a schedule, and of a batch or a grant list that is not a large one, its header aside.
pub const MOST_RECORDS: u64 = 1_048_576;

/// The most arrivals at one balancer, and the most visits of one exit.
pub const MOST_ARRIVALS: u64 = 4_294_967_296;

/// The most digits of a number field.
pub const MOST_DIGITS: usize = 20;

/// The most records of one yard, live and free: two fewer than their numbers could count.
pub const MOST_TOKENS: u32 = 4_294_967_294;

/// The most clients for which a call of the library has a lane take room at once.
pub const MOST_ROOM: u64 = 1_048_576;

/// The most workers of one epoch.
pub const MOST_WORKERS: u32 = 64;

/// The most tokens that one worker has in hand.
pub const MOST_HAND: u32 = 64;
