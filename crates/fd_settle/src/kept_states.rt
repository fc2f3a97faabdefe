// Certified states that were computed before.
ghost use Rattle.std.specs.Prelude.{◌≡◌, ◌<◌, ◌≤◌, ◌^◌, [], IfNone, IfOk, IfSome, OnErr, OnOk, Ok, true};
ghost use Rattle.fd_cert.specs.fd_enclosure.Sound.{IsSound};
ghost use Rattle.fd_cert.specs.Claims.{claim_in};
ghost use Rattle.fd_settle.specs.Compute.{ComputeGives};
ghost use Rattle.fd_settle.specs.KeptStates.{IsKeptState, IsKeptStateAt, IsStored, IsTrimmed, bytes_in, bytes_of};

use fd_cert::Certified;
use fd_inject::{Limits, NetworkCopy, NetworkRows};
use std::alloc::{AllocError, Global};
use std::marker::Model;
use std::rc::Rc;

// How many bytes all states may count, and how many each counts at least.
const MOST_BYTES: u64 = 1 << 26;

const LEAST_BYTES: u64 = 1 << 16;

// The bytes of an entry of the inverse, and of the numbers of an unknown.
const ENTRY_BYTES: u64 = 8;

const UNKNOWN_BYTES: u64 = 64;

/// A certified state, and the network and the limits for which it was computed.
#[derive(Drop)]
pub struct KeptState {
    pub network: NetworkCopy,
    pub limits: Limits,
    pub certified: Rc<Certified>,
}

/// The certified states that were computed last, the oldest first: they count at most 2^26 bytes.
#[derive(Drop)]
pub struct KeptStates {
    states: Vec<KeptState>,
    bytes: u64,
}

impl Model for KeptStates {
    ghost use Rattle.std.specs.Prelude.{◌≡◌, ◌≤◌, ◌^◌, List, All};
    ghost use Rattle.fd_settle.specs.declared.kept_states.KeptState.{KeptState};
    ghost use Rattle.fd_settle.specs.KeptStates.{IsCertified, bytes_in};

    ghost Value = { List KeptState };

    ghost view = { λ k. k.states.items };

    ghost invariant = { λ k. (k.bytes ≡ bytes_in k.states.items)
        × ((bytes_in k.states.items ≤ 2 ^ 26) × All IsCertified k.states.items) };
}

impl KeptStates {
    /// No state. It takes no memory.
    pub fn empty(alloc: Global) -> KeptStates
        ensures { result ≡ [] }
    {
        KeptStates {
            states: Vec::new(alloc),
            bytes: 0,
        }
    }

    /// Where a state stands that was computed for this network and these limits.
    pub(crate) fn find(&self, net: &NetworkRows, limits: &Limits) -> Option<usize>
        ensures found { IfSome result (IsKeptStateAt limits.now net.now self.now) }
        ensures none { IfNone result (¬ (IsKeptState limits.now net.now self.now)) }
    {
        for place in 0..self.states.len() {
            if is_for(&self.states[place], net, limits) {
                return Some(place);
            }
        }
        None
    }

    /// The state at a place, shared.
    ///
    /// # Errors
    /// `AllocError` where it is shared too often to be counted.
    pub(crate) fn at(
        &self,
        net: &NetworkRows,
        limits: &Limits,
        place: usize,
    ) -> Result<Rc<Certified>, AllocError>
        requires { IsKeptStateAt limits.now net.now self.now place }
        ensures gives { IfOk result (λ m. ComputeGives limits.now net.now (Ok (claim_in m.value))) }
        ensures sound { IfOk result (λ m. IsSound net.now (claim_in m.value)) }
    {
        self.states[place].certified.clone()
    }

    /// Puts a state behind the others with the network and the limits for which it was computed, and drops the oldest
    /// while all count more than 2^26 bytes. One that counts more alone isn't kept.
    ///
    /// # Errors
    /// `AllocError` where memory is refused. Then nothing changes.
    pub(crate) fn store(
        &mut self,
        alloc: Global,
        net: &NetworkRows,
        limits: &Limits,
        certified: &Rc<Certified>,
    ) -> Result<(), AllocError>
        requires gives { ComputeGives limits.now net.now (Ok (claim_in certified.now.value)) }
        requires sound { IsSound net.now (claim_in certified.now.value) }
        ensures stored { OnOk result (bytes_of net.now ≤ 2 ^ 26
            → IsStored limits.now net.now (claim_in certified.now.value) self.old self.new) }
        ensures too_large { 2 ^ 26 < bytes_of net.now → self.new ≡ self.old }
        ensures as_before { OnErr result (self.new ≡ self.old) }
    {
        let network = NetworkCopy::of(alloc, net)?;
        let bytes = counted(&network);
        if bytes > MOST_BYTES {
            return Ok(());
        }
        let state = KeptState {
            network,
            limits: *limits,
            certified: certified.clone()?,
        };
        self.states.push(state)?;
        self.bytes = trimmed(&mut self.states, self.bytes + bytes);
        Ok(())
    }
}

// Whether a state was computed for this network and these limits.
fn is_for(state: &KeptState, net: &NetworkRows, limits: &Limits) -> bool
    ensures limits { result ≡ true → state.now.limits ≡ limits.now }
    ensures network { result ≡ true → state.now.network ≡ net.now }
    ensures only { state.now.limits ≡ limits.now → state.now.network ≡ net.now → result ≡ true }
{
    state.network.is(net) && state.limits == *limits
}

// The bytes that a state of this network counts.
fn counted(network: &NetworkCopy) -> u64
    ensures bytes { result ≡ bytes_of network.now }
    ensures few { result < 2 ^ 32 }
{
    let size = u64::from(network.size());
    let bytes = network.bytes() + ENTRY_BYTES * (size * size) + UNKNOWN_BYTES * size;
    if bytes < LEAST_BYTES {
        LEAST_BYTES
    } else {
        bytes
    }
}

// Drops the oldest while all count more than 2^26 bytes, and gives what those that are left count.
fn trimmed(states: &mut Vec<KeptState>, bytes: u64) -> u64
    requires { bytes ≡ bytes_in states.old.items }
    ensures trimmed { IsTrimmed states.old.items states.new.items }
    ensures bytes { result ≡ bytes_in states.new.items }
{
    let mut bytes = bytes;
    while bytes > MOST_BYTES {
        let oldest = states.remove(0);
        bytes -= counted(&oldest.network);
        drop(oldest);
    }
    bytes
}
