//! Inputs of jobs, and what the jobs write of them.

pub(crate) const ONE_CLIENT: &[u8] = b"op,client,wire\n\
      enter,7,0\n\
      step,7,\n";

pub(crate) const ONE_CLIENT_ON_BITONIC_FOUR: &[u8] =
    b"network bitonic width 4 balancers 6 depth 3\n\
      enter 7 wire 0\n\
      pass 7 balancer 0 number 0 wire 4\n\
      end epoch 0 entered 1 inside 1\n";

pub(crate) const ONE_CLIENT_ON_PERIODIC_TWO: &[u8] =
    b"network periodic width 2 balancers 1 depth 1\n\
      enter 7 wire 0\n\
      pass 7 balancer 0 number 0 wire 2\n\
      end epoch 0 entered 1 inside 1\n";

pub(crate) const ONE_CLIENT_ON_TREE_FOUR: &[u8] = b"network tree width 4 balancers 3 depth 2\n\
      enter 7 wire 0\n\
      pass 7 balancer 0 number 0 wire 1\n\
      end epoch 0 entered 1 inside 1\n";

pub(crate) const BATCH: &[u8] = b"epoch,client,entry\n\
      1,17,1\n";

pub(crate) const BATCH_ON_BITONIC_TWO: &[u8] = b"network bitonic width 2 balancers 1 depth 1\n\
      epoch 1 clients 1\n\
      exit 0 count 1\n\
      exit 1 count 0\n\
      name 0 client 17\n\
      end epochs 1 grants 1\n";

pub(crate) const TWO_CLIENTS: &[u8] = b"epoch,client,entry\n\
      1,100,2\n\
      1,200,0\n";

pub(crate) const HAND_OF_TWO_AS_GRANTS: &[u8] = b"epoch,client,name\n\
      1,200,0\n\
      1,100,1\n";

pub(crate) const GRANTS: &[u8] = b"epoch,client,name\n\
      1,17,0\n";

pub(crate) const GRANTS_OF_WIDTH_TWO: &[u8] = b"epoch 1 clients 1 counts 1 0\n\
      tight epochs 1 grants 1\n";

pub(crate) const TREE_TWO: &[u8] = b"network tree width 2 balancers 1 depth 1\n\
      wire 0 balancer 0\n\
      wire 1 exit 0\n\
      wire 2 exit 1\n\
      end wires 3\n";
