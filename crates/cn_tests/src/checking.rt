//! Grant lists, and what a check says of them.

pub(crate) const TWO_EPOCHS: &[u8] = b"epoch,client,name\n\
      1,11,1\n\
      1,10,0\n\
      2,10,0\n";

pub(crate) const TWO_EPOCHS_TIGHT: &[u8] = b"epoch 1 clients 2 counts 1 1 0 0\n\
      epoch 2 clients 1 counts 1 0 0 0\n\
      tight epochs 2 grants 3\n";

/// Lists and what is written of them.
pub(crate) const TIGHT: [(&[u8], &[u8]); 3] = [
    (TWO_EPOCHS, TWO_EPOCHS_TIGHT),
    (b"epoch,client,name\n", b"tight epochs 0 grants 0\n"),
    (
        b"epoch,client,name\n1,17,0\n1,5,1\n1,99,2\n1,23,3\n1,42,4\n",
        b"epoch 1 clients 5 counts 2 1 1 1\ntight epochs 1 grants 5\n",
    ),
];
