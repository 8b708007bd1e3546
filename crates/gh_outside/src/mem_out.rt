// An output in memory.
ghost use Rattle.std.specs.Prelude.{◌≡◌, [], ◌++◌, ◌+◌, ◌-◌, ◌<◌, ◌≤◌, min, length, take, drop, Contains, IfOk, IsOk, IsErr, OnOk, OnErr, IsErrOf, Some};
ghost use Rattle.gh_outside.specs.Outside.{Rose, AppendsFront, Counted};

use crate::failing::is_listed;
use crate::outside::{Out, OutFault};
use gh_base::{ListOf, NoMemory};
use std::alloc::Global;

/// An output with room for some bytes. The calls whose numbers, from 0, are among `failing` write nothing and fail;
/// a piece that passes the room is written as far as it fits, and fails.
#[derive(Drop)]
pub struct MemOut {
    buffer: Vec<u8>,
    used: usize,
    failing: ListOf<u32>,
    calls: u64,
    faults: u64,
    ghost within: { used ≤ length buffer.items },
}

impl MemOut {
    ghost use Rattle.gh_outside.specs.MemOut.{bytes_of, faults_of, room_of, failing_of, calls_of, left_of};

    /// An empty output with room for `room` bytes, which it takes at once.
    pub fn new(alloc: Global, room: u64, failing: ListOf<u32>) -> Result<MemOut, NoMemory>
        ensures empty { IfOk result (λ out. bytes_of out ≡ []) }
        ensures faultless { IfOk result (λ out. faults_of out ≡ 0) }
        ensures room { IfOk result (λ out. room_of out ≡ room) }
        ensures failing { IfOk result (λ out. failing_of out ≡ failing) }
        ensures calls { IfOk result (λ out. calls_of out ≡ 0) }
    {
        let buffer = vec![in alloc; 0; room as usize]?;
        Ok(MemOut {
            buffer,
            used: 0,
            failing,
            calls: 0,
            faults: 0,
        })
    }

    /// The bytes that were written.
    pub fn bytes(&self) -> &[u8]
        ensures { result.now ≡ bytes_of self.now }
    {
        &self.buffer[..self.used]
    }

    /// How often writing has failed.
    pub fn faults(&self) -> u64
        ensures { result ≡ faults_of self.now }
    {
        self.faults
    }
}

// Writes a piece at a place, as far as there is room, and says how much.
fn write(buffer: &mut Vec<u8>, at: usize, piece: &[u8]) -> usize
    requires { at ≤ length buffer.old.items }
    ensures count { result ≤ length piece.now }
    ensures within { at + result ≤ length buffer.new.items }
    ensures room { length buffer.new.items ≡ length buffer.old.items }
    ensures most { result ≡ min (length piece.now) (length buffer.old.items - at) }
    ensures written { take (at + result) buffer.new.items ≡ take at buffer.old.items ++ take result piece.now }
{
    let room = buffer.len() - at;
    let count = piece.len().min(room);
    buffer[at..at + count].copy_from_slice(&piece[..count]);
    count
}

impl Out for MemOut {
    ghost use Rattle.std.specs.Prelude.{Some};
    ghost use Rattle.gh_outside.specs.MemOut.{bytes_of, faults_of, room_of, failing_of, calls_of, left_of};

    ghost written = { λ o. Some (bytes_of o) };

    ghost faults = { λ o. faults_of o };

    fn put(&mut self, piece: &[u8]) -> Result<(), OutFault>
        ensures ok { OnOk result (bytes_of self.new ≡ bytes_of self.old ++ piece.now) }
        ensures err { OnErr result (AppendsFront (Some (bytes_of self.old)) piece.now (Some (bytes_of self.new))) }
        ensures failed { IsErrOf result OutFault.Failed → Rose (faults_of self.old) (faults_of self.new) }
        ensures later { faults_of self.old ≤ faults_of self.new }
        ensures room { room_of self.new ≡ room_of self.old }
        ensures failing { failing_of self.new ≡ failing_of self.old }
        ensures calls { Counted (calls_of self.old) (calls_of self.new) }
        // A listed call fails, and leaves what was written as it was.
        ensures listed { Contains (failing_of self.old) (calls_of self.old) → IsErr result }
        ensures silent { Contains (failing_of self.old) (calls_of self.old) → bytes_of self.new ≡ bytes_of self.old }
        // Every other call writes as far as there is room, and fails exactly where that is not the whole piece.
        ensures written { ¬ Contains (failing_of self.old) (calls_of self.old) → bytes_of self.new ≡ bytes_of self.old ++ take (left_of self.old) piece.now }
        ensures takes { ¬ Contains (failing_of self.old) (calls_of self.old) → length piece.now ≤ left_of self.old → IsOk result }
        ensures full { ¬ Contains (failing_of self.old) (calls_of self.old) → left_of self.old < length piece.now → IsErr result }
        ensures steady { OnOk result (faults_of self.new ≡ faults_of self.old) }
    {
        let call = self.calls;
        self.calls = call.saturating_add(1);
        if is_listed(self.failing.as_slice(), call) {
            self.faults = self.faults.saturating_add(1);
            return Err(OutFault::Failed);
        }
        let count = write(&mut self.buffer, self.used, piece);
        self.used += count;
        if count < piece.len() {
            self.faults = self.faults.saturating_add(1);
            return Err(OutFault::Failed);
        }
        Ok(())
    }
}
