//! Batches, and the grant lists that serving them writes.

use crate::serving::{BITONIC_FOUR, Row};
use cn_wiring::Kind;

/// What a run is asked for, a batch, and the grant list that is written of it.
pub(crate) const ROWS: [Row; 10] = [
    (
        BITONIC_FOUR,
        b"epoch,client,entry\n",
        b"epoch,client,name\n",
    ),
    (
        (Kind::Bitonic, 2, 1, 1),
        b"epoch,client,entry\n1,17,1\n",
        b"epoch,client,name\n1,17,0\n",
    ),
    (
        BITONIC_FOUR,
        b"epoch,client,entry\n1,17,3\n1,5,3\n1,99,3\n1,23,3\n1,42,3\n",
        b"epoch,client,name\n1,17,0\n1,5,1\n1,99,2\n1,23,3\n1,42,4\n",
    ),
    (
        BITONIC_FOUR,
        b"epoch,client\n1,9\n1,10\n",
        b"epoch,client,name\n1,9,0\n1,10,1\n",
    ),
    (
        BITONIC_FOUR,
        b"epoch,client,entry\n1,8,0\n1,9,2\n",
        b"epoch,client,name\n1,8,0\n1,9,1\n",
    ),
    (
        (Kind::Periodic, 4, 1, 1),
        b"epoch,client,entry\n1,8,0\n1,9,0\n",
        b"epoch,client,name\n1,8,0\n1,9,1\n",
    ),
    (
        BITONIC_FOUR,
        b"epoch,client,entry\n1,100,2\n1,200,0\n",
        b"epoch,client,name\n1,100,0\n1,200,1\n",
    ),
    (
        (Kind::Bitonic, 4, 1, 2),
        b"epoch,client,entry\n1,100,2\n1,200,0\n",
        b"epoch,client,name\n1,200,0\n1,100,1\n",
    ),
    (
        BITONIC_FOUR,
        b"epoch,client,entry\n1,17,0\n2,17,0\n",
        b"epoch,client,name\n1,17,0\n2,17,0\n",
    ),
    (
        (Kind::Bitonic, 2, 1, 1),
        b"epoch,client,entry\n1,18446744073709551615,0\n",
        b"epoch,client,name\n1,18446744073709551615,0\n",
    ),
];
