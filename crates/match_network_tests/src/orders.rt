//! Three elements that come and go in every order.

use crate::transcript::replayed;
use std::test::Fail;

/// The elements are alike, and each stands at both places, so that these are all orders. The network agrees
/// with the tests after each change.
const ORDERS: &str = "
rules (literalize a x)(p pair (a ^x <v>) (a ^x <v>) -->)
a 0 1; both 0; a 0 1; both 0; a 0 1; both 0; r 1; both 0; r 2; both 0; r 3; both 0 => 1; same; 2; same; 3; same; -; same; -; same; -; same
a 0 1; both 0; a 0 1; both 0; a 0 1; both 0; r 1; both 0; r 3; both 0; r 2; both 0 => 1; same; 2; same; 3; same; -; same; -; same; -; same
a 0 1; both 0; a 0 1; both 0; a 0 1; both 0; r 2; both 0; r 1; both 0; r 3; both 0 => 1; same; 2; same; 3; same; -; same; -; same; -; same
a 0 1; both 0; a 0 1; both 0; a 0 1; both 0; r 2; both 0; r 3; both 0; r 1; both 0 => 1; same; 2; same; 3; same; -; same; -; same; -; same
a 0 1; both 0; a 0 1; both 0; a 0 1; both 0; r 3; both 0; r 1; both 0; r 2; both 0 => 1; same; 2; same; 3; same; -; same; -; same; -; same
a 0 1; both 0; a 0 1; both 0; a 0 1; both 0; r 3; both 0; r 2; both 0; r 1; both 0 => 1; same; 2; same; 3; same; -; same; -; same; -; same
a 0 1; both 0; a 0 1; both 0; r 1; both 0; a 0 1; both 0; r 2; both 0; r 3; both 0 => 1; same; 2; same; -; same; 3; same; -; same; -; same
a 0 1; both 0; a 0 1; both 0; r 1; both 0; a 0 1; both 0; r 3; both 0; r 2; both 0 => 1; same; 2; same; -; same; 3; same; -; same; -; same
a 0 1; both 0; a 0 1; both 0; r 1; both 0; r 2; both 0; a 0 1; both 0; r 3; both 0 => 1; same; 2; same; -; same; -; same; 3; same; -; same
a 0 1; both 0; a 0 1; both 0; r 2; both 0; a 0 1; both 0; r 1; both 0; r 3; both 0 => 1; same; 2; same; -; same; 3; same; -; same; -; same
a 0 1; both 0; a 0 1; both 0; r 2; both 0; a 0 1; both 0; r 3; both 0; r 1; both 0 => 1; same; 2; same; -; same; 3; same; -; same; -; same
a 0 1; both 0; a 0 1; both 0; r 2; both 0; r 1; both 0; a 0 1; both 0; r 3; both 0 => 1; same; 2; same; -; same; -; same; 3; same; -; same
a 0 1; both 0; r 1; both 0; a 0 1; both 0; a 0 1; both 0; r 2; both 0; r 3; both 0 => 1; same; -; same; 2; same; 3; same; -; same; -; same
a 0 1; both 0; r 1; both 0; a 0 1; both 0; a 0 1; both 0; r 3; both 0; r 2; both 0 => 1; same; -; same; 2; same; 3; same; -; same; -; same
a 0 1; both 0; r 1; both 0; a 0 1; both 0; r 2; both 0; a 0 1; both 0; r 3; both 0 => 1; same; -; same; 2; same; -; same; 3; same; -; same
";

#[test]
fn elements_come_and_go_in_every_order(rt: HostRuntime) -> Result<(), Fail> {
    assert_eq!(rt; replayed(rt.alloc(), ORDERS)?.as_str(), ORDERS);
    Ok(())
}
