//! The caller of the page of cn_yard.

use cn_yard::Yard;

/// The client of the first token on a wire, if one stands there.
pub fn first_client(yard: &Yard, wire: u32) -> Option<u64> {
    if wire >= yard.wires() {
        return None;
    }
    let token = yard.first(wire)?;
    if yard.is_live(token) {
        Some(yard.client_of(token))
    } else {
        None
    }
}
