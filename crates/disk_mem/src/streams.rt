// A source and a sink in memory.
ghost use Rattle.std.specs.Prelude.{◌≡◌, ◌≤◌, ◌<◌, ◌↔◌, ◌++◌, [], ℕ, List, IfOk, IsErr, Some, Contains, length, map, take, drop, min};
ghost use Rattle.std.specs.List.{concat};
ghost use Rattle.std.specs.Io.{ReadsAtMost, WritesAtMost};
ghost use Rattle.std.specs.Io.KnownBytes.{ReadConsumes, WriteAppends};
ghost use Rattle.mt_outside.specs.Causes.{HasCause};
ghost use Rattle.mt_outside.specs.Counts.{next};
ghost use Rattle.disk_mem.specs.Pieces.{ready, first, drop_first, left_pieces};
ghost use Rattle.disk_mem.specs.Streams.{count_after};

use mt_outside::{ReadFault, Sink, Source, WriteFault};
use std::alloc::Global;
use std::marker::Model;

/// Gives the bytes of its pieces, and fails at the reads that are listed.
#[derive(Drop)]
pub struct MemSource {
    pieces: Vec<Vec<u8>>,
    // Where the next byte is: this piece, and this place in it.
    piece: usize,
    place: usize,
    fail: Vec<u64>,
    calls: u64,
    failed: u64,
}

impl Model for MemSource {
    ghost use Rattle.std.specs.Prelude.{◌≤◌, length};
    ghost use Rattle.disk_mem.specs.Pieces.{first, left_pieces};
    ghost use Rattle.disk_mem.specs.Streams.{SourceState};

    ghost Value = { SourceState };

    ghost view = { λ s. record { pieces = left_pieces s.pieces.items s.piece s.place; fail = s.fail.items; calls = s.calls; failed = s.failed } };

    ghost invariant = { λ s. (s.piece ≤ length s.pieces.items) × (s.place ≤ length (first (left_pieces s.pieces.items s.piece 0))) };
}

impl MemSource {
    /// A source of these pieces. A read gives at most what is left of the first piece that isn't empty.
    /// The reads whose number, from 0, is listed fail and read nothing.
    pub fn new(pieces: Vec<Vec<u8>>, fail: Vec<u64>) -> Self
        ensures pieces { result.pieces ≡ map (λ p. p.items) pieces.items }
        ensures fail { result.fail ≡ fail.items }
        ensures none { (result.calls ≡ 0) × (result.failed ≡ 0) }
    {
        MemSource {
            pieces,
            piece: 0,
            place: 0,
            fail,
            calls: 0,
            failed: 0,
        }
    }
}

// The place of the next byte: past the pieces that end there.
fn next_place(pieces: &[Vec<u8>], piece: usize, place: usize) -> (usize, usize)
    requires within { piece ≤ length pieces.now }
    requires inside { place ≤ length (first (left_pieces pieces.now piece 0)) }
    ensures within { result.0 ≤ length pieces.now }
    ensures inside { result.1 ≤ length (first (left_pieces pieces.now result.0 0)) }
    ensures ready { left_pieces pieces.now result.0 result.1 ≡ ready
        (left_pieces pieces.now piece place) }
{
    let mut piece = piece;
    let mut place = place;
    while piece < pieces.len() {
        if place < pieces[piece].len() {
            return (piece, place);
        }
        piece += 1;
        place = 0;
    }
    (piece, place)
}

// Copies bytes from a place on, as many as there are and fit.
fn copy_from(bytes: &[u8], place: usize, buf: &mut [u8]) -> usize
    requires { place ≤ length bytes.now }
    ensures count { result ≡ min (length buf.new) (length (drop place bytes.now)) }
    ensures copied { take result buf.new ≡ take result (drop place bytes.now) }
{
    let rest = &bytes[place..];
    let count = rest.len().min(buf.len());
    buf[..count].copy_from_slice(&rest[..count]);
    count
}

impl Source for MemSource {
    ghost use Rattle.std.specs.Prelude.{Some};
    ghost use Rattle.std.specs.List.{concat};

    ghost left = { λ s. Some (concat s.pieces) };

    ghost failed = { λ s. s.failed };

    fn read(&mut self, buf: &mut [u8]) -> Result<usize, ReadFault>
        ensures bound { ReadsAtMost result buf.new }
        ensures bytes { ReadConsumes (Some (concat self.old.pieces)) (Some (concat self.new.pieces))
            result buf.new }
        ensures cause { HasCause self.old.failed self.new.failed result }
        ensures listed { IsErr result ↔ Contains self.old.fail self.old.calls }
        ensures count { self.new.failed ≡ count_after result self.old.failed }
        ensures calls { (self.new.calls ≡ next self.old.calls) × (self.new.fail ≡ self.old.fail) }
        ensures given { IfOk result (λ n.
            (n ≡ min (length buf.new) (length (first (ready self.old.pieces))))
            × (self.new.pieces ≡ drop_first n (ready self.old.pieces))) }
    {
        let call = self.calls;
        self.calls = call.saturating_add(1);
        if self.fail.contains(&call) {
            self.failed = self.failed.saturating_add(1);
            return Err(ReadFault);
        }
        let (piece, place) = next_place(&self.pieces, self.piece, self.place);
        self.piece = piece;
        self.place = place;
        if piece == self.pieces.len() {
            return Ok(0);
        }
        let count = copy_from(&self.pieces[piece], place, buf);
        self.place = place + count;
        Ok(count)
    }

    fn faults(&self) -> u64 {
        self.failed
    }
}

/// Keeps what is written, and fails at the writes that are listed.
#[derive(Drop)]
pub struct MemSink {
    written: Vec<u8>,
    fail: Vec<u64>,
    calls: u64,
    failed: u64,
    most: usize,
}

impl Model for MemSink {
    ghost use Rattle.std.specs.Prelude.{◌<◌};
    ghost use Rattle.disk_mem.specs.Streams.{SinkState};

    ghost Value = { SinkState };

    ghost view = { λ s. record { written = s.written.items; fail = s.fail.items; calls = s.calls; failed = s.failed; most = s.most } };

    ghost invariant = { λ s. 0 < s.most };
}

impl MemSink {
    /// A sink that takes whole pieces. The writes whose number, from 0, is listed fail and write nothing.
    pub fn new(alloc: Global, fail: Vec<u64>) -> Self
        ensures written { result.written ≡ [] }
        ensures fail { result.fail ≡ fail.items }
        ensures none { (result.calls ≡ 0) × (result.failed ≡ 0) }
        ensures most { result.most ≡ usize.MAX }
    {
        MemSink::with_most(alloc, fail, usize::MAX)
    }

    /// A sink that takes at most so many bytes a write.
    pub fn with_most(alloc: Global, fail: Vec<u64>, most: usize) -> Self
        requires { 0 < most }
        ensures written { result.written ≡ [] }
        ensures fail { result.fail ≡ fail.items }
        ensures none { (result.calls ≡ 0) × (result.failed ≡ 0) }
        ensures most { result.most ≡ most }
    {
        MemSink {
            written: Vec::new(alloc),
            fail,
            calls: 0,
            failed: 0,
            most,
        }
    }

    /// What was written so far.
    pub fn written(&self) -> &[u8]
        ensures { result.now ≡ self.now.written }
    {
        self.written.as_slice()
    }
}

impl Sink for MemSink {
    ghost use Rattle.std.specs.Prelude.{Some};

    ghost written = { λ s. Some s.written };

    ghost failed = { λ s. s.failed };

    /// A write that isn't listed fails only where an allocation failed, and writes nothing then.
    fn write(&mut self, bytes: &[u8]) -> Result<usize, WriteFault>
        ensures bound { WritesAtMost result bytes.now }
        ensures some { IfOk result (λ n. 0 < length bytes.now → 0 < n) }
        ensures bytes { WriteAppends (Some self.old.written) (Some self.new.written) result
            bytes.now }
        ensures cause { HasCause self.old.failed self.new.failed result }

        // Which calls fail.
        ensures listed { Contains self.old.fail self.old.calls → IsErr result }
        ensures count { self.new.failed ≡ count_after result self.old.failed }
        ensures calls { (self.new.calls ≡ next self.old.calls) × (self.new.fail ≡ self.old.fail) }
        ensures most { self.new.most ≡ self.old.most }
        ensures taken { IfOk result (λ n. n ≡ min (length bytes.now) self.old.most) }
    {
        let call = self.calls;
        self.calls = call.saturating_add(1);
        if self.fail.contains(&call) {
            self.failed = self.failed.saturating_add(1);
            return Err(WriteFault);
        }
        let count = bytes.len().min(self.most);
        match self.written.extend_from_slice(&bytes[..count]) {
            Ok(()) => Ok(count),
            Err(_) => {
                self.failed = self.failed.saturating_add(1);
                Err(WriteFault)
            }
        }
    }

    fn faults(&self) -> u64 {
        self.failed
    }
}
