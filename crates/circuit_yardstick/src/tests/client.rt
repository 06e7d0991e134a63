//! The client's end of a circuit.

use crate::tests::cells::first_four;
use aes_ctr::Stream;
use kdf_tor::LayerKeys;
use relay_cell::{command, put_digest};
use run_digest::Running;
use std::alloc::{AllocError, Global};
use std::collections::VecDeque;
use std::process::Abort;

/// A client with cipher and running digests of its own.
#[derive(Drop)]
pub struct Client {
    cipher: Stream,
    forward_digest: Running,
    backward_digest: Running,
    /// The DATA that came back.
    data_count: u64,
    /// The proofs that it owes the relay: the backward running digest after each 100th DATA that isn't
    /// acknowledged, oldest first.
    owed_proofs: VecDeque<[u8; 20]>,
}

impl Client {
    pub fn new(alloc: Global, keys: &LayerKeys) -> Client {
        Client {
            cipher: Stream::of(&keys.kf),
            forward_digest: Running::seeded(&keys.df),
            backward_digest: Running::seeded(&keys.db),
            data_count: 0,
            owed_proofs: VecDeque::new(alloc),
        }
    }

    /// A body whose plain text at the relay is this one.
    pub fn encrypted(&mut self, rt: &impl Abort, plain: &[u8; 509]) -> [u8; 509] {
        let mut body = *plain;
        assert!(rt; self.cipher.position() < 1 << 90);
        self.cipher.apply(&mut body);
        body
    }

    /// A body that the relay recognises.
    pub fn sealed(&mut self, rt: &impl Abort, body: &[u8; 509]) -> [u8; 509] {
        let plain = self.digested(body);
        self.forward_digest.absorb(&plain);
        self.encrypted(rt, &plain)
    }

    /// The body with the Digest that is due to it. The running digest stays.
    pub fn digested(&self, body: &[u8; 509]) -> [u8; 509] {
        let mut plain = *body;
        put_digest(&mut plain, first_four(&self.forward_digest.look_with(body)));
        plain
    }

    /// A body that the relay packaged came back.
    pub fn came(&mut self, body: &[u8; 509]) -> Result<(), AllocError> {
        self.backward_digest.absorb(body);
        if body[0] != command::DATA {
            return Ok(());
        }
        self.data_count = self.data_count.saturating_add(1);
        if self.data_count % 100 == 0 {
            self.owed_proofs.push_back(self.backward_digest.digest())?;
        }
        Ok(())
    }

    /// The next proof that is owed.
    pub fn next_proof(&self) -> Option<[u8; 20]> {
        self.owed_proofs.front().copied()
    }

    /// The next proof was sent.
    pub fn proof_sent(&mut self) {
        let _proof = self.owed_proofs.pop_front();
    }
}
