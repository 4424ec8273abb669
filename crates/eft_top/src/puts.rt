// Puts on a sink.
ghost use Rattle.std.specs.Prelude.{◌≡◌, ◌++◌, ℕ, List, [], false};
ghost use Rattle.eft_top.specs.Delivery.{Delivers, IsWriting};

use arrayvec::ArrayVec;
use ports::{Failed, Sink};

/// Puts all bytes at once, if there are any.
pub fn put_all<K: Sink>(sink: &mut K, bytes: &[u8]) -> Result<(), Failed>
    ensures { Delivers K.puts K.faults sink.old sink.new bytes.now result }
{
    if bytes.is_empty() {
        return Ok(());
    }
    sink.put(bytes)
}

/// A line on its way to a sink: what of it is in hand, and whether a put has failed. It takes no memory, and a line that is not long
/// goes in one put.
#[derive(Drop)]
pub struct LineWriter {
    hand: ArrayVec<u8, 256>,
    failed: bool,
}

impl LineWriter {
    /// Nothing of a line.
    pub fn new<K: Sink>(sink: &mut K) -> LineWriter
        ensures same { sink.new ≡ sink.old }
        ensures begun { IsWriting K.puts K.faults sink.old [] sink.new result }
    {
        LineWriter {
            hand: ArrayVec::new(),
            failed: false,
        }
    }

    /// The next piece of the line.
    pub fn add<K: Sink>(&mut self, piece: &[u8], sink: &mut K)
        ensures { (begun : K) (line : List ℕ) → IsWriting K.puts K.faults begun line sink.old self.old → IsWriting K.puts K.faults begun (line ++ piece.now) sink.new self.new }
    {
        if self.failed {
            return;
        }
        match self.hand.try_extend_from_slice(piece) {
            Ok(()) => {}
            Err(_) => self.send(piece, sink),
        }
    }

    /// Puts what is in hand, and then a piece.
    fn send<K: Sink>(&mut self, piece: &[u8], sink: &mut K)
        requires { self.old.failed ≡ false }
        ensures { (begun : K) (line : List ℕ) → IsWriting K.puts K.faults begun line sink.old self.old → IsWriting K.puts K.faults begun (line ++ piece.now) sink.new self.new }
    {
        self.failed = put_both(&self.hand, piece, sink).is_err();
        self.hand.clear();
    }

    /// The line is whole.
    pub fn end<K: Sink>(self, sink: &mut K) -> Result<(), Failed>
        ensures { (begun : K) (line : List ℕ) → IsWriting K.puts K.faults begun line sink.old self → Delivers K.puts K.faults begun sink.new line result }
    {
        if self.failed {
            return Err(Failed);
        }
        put_all(sink, &self.hand)
    }
}

/// Puts two pieces.
fn put_both<K: Sink>(first: &[u8], second: &[u8], sink: &mut K) -> Result<(), Failed>
    ensures { Delivers K.puts K.faults sink.old sink.new (first.now ++ second.now) result }
{
    match put_all(sink, first) {
        Ok(()) => put_all(sink, second),
        Err(Failed) => Err(Failed),
    }
}
