//! What was put out and isn't written yet.

ghost use Rattle.std.specs.Prelude.{◌≡◌, [], ◌∷◌};
ghost use Rattle.linux_model.specs.Effects.{Puts};
ghost use Rattle.linux_model.specs.State.{nothing};
ghost use Rattle.plain_machine.specs.Shown.{blank, Shows};

use kernel_objects::Stream;
use std::alloc::Global;
use std::marker::Model;

/// Bytes for standard output and for standard error that wait to be written. Where the host's memory runs out for them, they are
/// lost, which is kept.
#[derive(Drop)]
pub struct Output {
    out: Vec<u8>,
    err: Vec<u8>,
    lost: bool,
}

impl Model for Output {
    ghost use Rattle.plain_machine.specs.Shown.{Shown};

    ghost Value = { Shown };

    ghost view = { λ o. record { written = record { out = o.out.items; err = o.err.items }; lost = o.lost } };
}

impl Output {
    /// Nothing. Takes no memory.
    pub fn new(alloc: Global) -> Output
        ensures { result ≡ blank }
    {
        Output {
            out: Vec::new(alloc),
            err: Vec::new(alloc),
            lost: false,
        }
    }

    /// Adds bytes for a stream.
    pub fn put(&mut self, stream: Stream, bytes: &[u8])
        ensures { Shows (Puts stream bytes.now ∷ []) self.old self.new }
    {
        let put = match stream {
            Stream::Out => self.out.extend_from_slice(bytes),
            Stream::Err => self.err.extend_from_slice(bytes),
        };
        if let Err(_) = put {
            self.lost = true;
        }
    }

    /// The bytes for standard output.
    pub fn out(&self) -> &[u8]
        ensures { result.now ≡ self.now.written.out }
    {
        self.out.as_slice()
    }

    /// The bytes for standard error.
    pub fn err(&self) -> &[u8]
        ensures { result.now ≡ self.now.written.err }
    {
        self.err.as_slice()
    }

    /// Whether bytes were lost.
    pub fn is_lost(&self) -> bool
        ensures { result ≡ self.now.lost }
    {
        self.lost
    }

    /// Forgets the bytes, once they are written. Their room is used again.
    pub fn clear(&mut self)
        ensures { self.new ≡ record self.old { written = nothing } }
    {
        self.out.clear();
        self.err.clear();
    }
}
