//! What a session reads and writes.

ghost use Rattle.std.specs.Prelude.{◌≡◌, true, false, Err, OnOk};
ghost use Rattle.std.specs.Io.KnownBytes.{Keeps};
ghost use Rattle.ra_item.specs.declared.fault.ItemFault.TheVariants as item;
ghost use Rattle.ra_item.specs.declared.fault.NextFault.TheVariants.{Items};

use byte_streams::{Input, Output};
use ra_item::fault::NextFault;
use ra_item::item::Item;
use ra_item::stream::ItemStream;
use std::alloc::Global;
use std::io;
use std::io::{ErrorKind, Write};
use std::marker::PhantomData;

/// The items of a client that is told by an output of this type. The next one is awaited only where all that was written
/// is handed on: no other call takes an item.
#[derive(Drop)]
pub struct ClientItems<I: Input + Drop, O> {
    items: ItemStream<I>,
    told_by: PhantomData<O>,
}

impl<I: Input + Drop, O: Output> ClientItems<I, O> {
    ghost use Rattle.ra_item.specs.ItemStreams.{Fresh, is_spent, reader_of};
    ghost use Rattle.ra_serve.specs.Clients.{CountsOn, TakesNext};
    ghost use Rattle.ra_serve.specs.Outputs.{items_of};

    /// Before the input's next byte.
    pub fn new(alloc: Global, input: I) -> ClientItems<I, O>
        ensures reader { reader_of (items_of result) ≡ input }
        ensures begins { Fresh (items_of result) }
    {
        ClientItems {
            items: ItemStream::new(alloc, input),
            told_by: PhantomData,
        }
    }

    /// The stream.
    pub fn into_items(self) -> ItemStream<I>
        ensures { result ≡ items_of self }
    {
        let ClientItems { items, told_by: _ } = self;
        items
    }

    /// The next item, once the client has all that it was told.
    pub fn next(&mut self, out: &O) -> Result<Option<Item>, NextFault>
        requires handed { O.is_handed_on out.now }
        ensures answer { TakesNext self.old self.new result }
        ensures spent { is_spent (items_of self.old) ≡ true → result ≡ Err (Items item.Failed) }
        ensures goes_on { OnOk result (is_spent (items_of self.new) ≡ false) }
        ensures failures { CountsOn self.old self.new }
    {
        let _ = out;
        self.items.next()
    }
}

/// A writer over an output, which can hand on what it holds back.
pub(crate) trait HandsOn: Write {
    type Out: Output;

    /// Nothing that was written is held back.
    ghost is_handed_on: { Self → Type 0 };

    /// Hands on what is held back.
    fn hand_on(&mut self) -> io::Result<()>
        ensures kept { Keeps (Self.contents self.old) (Self.contents self.new) }
        ensures handed { OnOk result (is_handed_on self.new) };

    /// The output.
    fn output(&self) -> &Self::Out
        ensures handed { is_handed_on self.now → Self.Out.is_handed_on result.now };
}

/// An output that a session writes to. It goes back to its place when it is let go of, so it comes back behind a
/// refusal too.
pub(crate) struct SessionOut<'a, O: Output + Drop> {
    inner: O,
    back: &'a mut Option<O>,
}

impl<'a, O: Output + Drop> SessionOut<'a, O> {
    ghost use Rattle.ra_serve.specs.Outputs.{output_of};

    /// The output whose place is this.
    pub(crate) fn new(inner: O, back: &'a mut Option<O>) -> SessionOut<'a, O>
        ensures { output_of result ≡ inner }
    {
        SessionOut { inner, back }
    }

    /// The output, which the session is done with.
    pub(crate) fn into_inner(self) -> O
        ensures { result ≡ output_of self.entry }
    {
        let SessionOut { inner, back: _ } = self;
        inner
    }
}

impl<O: Output + Drop> Drop for SessionOut<'_, O> {
    fn drop(self) {
        let SessionOut { inner, back } = self;
        *back = Some(inner);
    }
}

impl<O: Output + Drop> Write for SessionOut<'_, O> {
    ghost contents = { λ out. O.contents out.inner };

    fn write(&mut self, buf: &[u8]) -> io::Result<usize> {
        match self.inner.write(buf) {
            Ok(n) => Ok(n),
            Err(_) => Err(io::Error::from(ErrorKind::Other)),
        }
    }

    fn flush(&mut self) -> io::Result<()> {
        match self.inner.flush() {
            Ok(()) => Ok(()),
            Err(_) => Err(io::Error::from(ErrorKind::Other)),
        }
    }
}

impl<O: Output + Drop> HandsOn for SessionOut<'_, O> {
    type Out = O;

    ghost is_handed_on = { λ out. O.is_handed_on out.inner };

    fn output(&self) -> &O {
        &self.inner
    }

    fn hand_on(&mut self) -> io::Result<()> {
        match self.inner.flush() {
            Ok(()) => Ok(()),
            Err(_) => Err(io::Error::from(ErrorKind::Other)),
        }
    }
}
