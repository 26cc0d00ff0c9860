//! A source over a reader.

mod input_end;
mod long_context;

ghost use Rattle.std.specs.Prelude.{◌≡◌, ◌<◌, [], None, IfOk, IfErr, length, true, false};
ghost use Rattle.std.specs.Io.KnownBytes.{IsAtEnd};
ghost use Rattle.rb_source.specs.declared.framing.Framing.TheVariants.{Fixed};
ghost use Rattle.rb_source.specs.Form.{form_len, IsForm};
ghost use Rattle.rb_source.specs.Framing.{BeginsWithEnd, IsPartial};
ghost use Rattle.rb_source.specs.Piece.{room_for};
ghost use Rattle.rb_source.specs.Given.{HasGiven, OnEnd};
ghost use Rattle.rb_source.specs.Stream.{FailsAs, IsFresh, IsOver};
ghost use Rattle.rb_source.specs.declared.window.ReadOutcome.TheVariants.{End as ended};
ghost use Rattle.rb_source.specs.inner.Steps.{Appends, GivesNone, IsPartialSource, OnFront};

use crate::counts::ContextCounts;
use crate::delivery::emit;
use crate::form::Form;
use crate::framing::Framing;
use crate::long::Long;
use crate::piece::Piece;
use crate::portion_parser::{Opening, parse_portion};
use crate::source::{Filled, Source, SourceFault};
use crate::window::{ReadOutcome, WINDOW_SIZE, Window};
use std::alloc::{AllocError, Global};
use std::io::Read;
use std::marker::Model;

/// A source that parses contexts from the bytes of a reader. The contexts do not depend on how the reads cut the bytes.
///
/// A context that does not fit into the window of 128 KiB is skipped or cut without being held in memory: the source
/// holds at most a window of read bytes, and the first bytes of one such context. A fault loses nothing: the next call
/// continues to read.
#[derive(Drop)]
pub struct FramedReader<R> {
    reader: R,
    framing: Framing,
    form: Form,
    window: Window,
    // The context that does not fit into the window, if there is one. The window then holds the bytes after the part
    // that `Long` describes.
    long: Option<Long>,
    // The first bytes of that context, as many as are given.
    kept: Vec<u8>,
    counts: ContextCounts,
    over: bool,
}

impl<R> Model for FramedReader<R> {
    ghost use Rattle.std.specs.Prelude.{◌≡◌, ◌<◌, length};
    ghost use Rattle.rb_source.specs.declared.framing.Framing.TheVariants.{Fixed};
    ghost use Rattle.rb_source.specs.Form.{IsForm};
    ghost use Rattle.rb_source.specs.Stream.{FramedInput};
    ghost use Rattle.rb_source.specs.inner.Steps.{IsSource};

    ghost Value = { FramedInput R };

    ghost view = { λ s. record { reader = s.reader; framing = s.framing; form = s.form; rest = s.window; long = s.long; kept = s.kept.items; counts = s.counts; over = s.over } };

    ghost invariant = { λ s. IsSource s.framing s.form s.kept.items };
}

impl<R: Read> FramedReader<R> {
    /// Returns a source over the reader, from which nothing was read yet, or `AllocError` if its memory can't be
    /// allocated.
    pub fn new(
        alloc: Global,
        reader: R,
        framing: Framing,
        form: Form,
    ) -> Result<FramedReader<R>, AllocError>
    where
        R: Drop,
        requires lawful { IsForm form }
        requires some { framing ≡ Fixed → 0 < form.len }
        ensures fresh { IfOk result (λ s. IsFresh reader framing form s) }
    {
        let window = Window::new(alloc)?;
        let kept = vec![in alloc; 0; form.len as usize]?;
        Ok(FramedReader {
            reader,
            framing,
            form,
            window,
            long: None,
            kept,
            counts: ContextCounts::default(),
            over: false,
        })
    }

    /// Returns the counts of the contexts so far.
    pub fn counts(&self) -> ContextCounts
        ensures value { result ≡ self.now.counts }
    {
        self.counts
    }

    // Takes the portion at the front of the window. Returns whether to continue.
    fn take_front(&mut self, piece: &mut Piece) -> bool
        requires open { self.old.over ≡ false }
        requires short { self.old.long ≡ None }
        requires size { piece.old.ctx_len ≡ form_len self.old.form }
        requires room { length piece.old.contexts < room_for piece.old.ctx_len }
        ensures gave { Appends R.remaining self.old self.new piece.old piece.new }
        ensures short { self.new.long ≡ None }
        ensures left { OnFront result self.old self.new piece.new }
    {
        let bytes = self.window.bytes();
        match parse_portion(self.framing, self.form.len, bytes) {
            Opening::Partial => false,
            Opening::End => {
                self.over = true;
                false
            }
            Opening::Flush => {
                self.window.drop_front(4);
                piece.is_empty()
            }
            Opening::Whole(place) => {
                let came = &bytes[place.start..place.start + place.len];
                emit(&self.form, came, place.len as u32, piece, &mut self.counts);
                self.window.drop_front(place.span);
                !piece.is_full()
            }
        }
    }

    // Takes the portions at the front of the window until the piece is full, no whole portion is left, or a flush is
    // requested.
    fn take_fronts(&mut self, piece: &mut Piece)
        requires open { self.old.over ≡ false }
        requires short { self.old.long ≡ None }
        requires size { piece.old.ctx_len ≡ form_len self.old.form }
        requires room { length piece.old.contexts < room_for piece.old.ctx_len }
        ensures gave { Appends R.remaining self.old self.new piece.old piece.new }
        ensures short { self.new.long ≡ None }
        ensures over { self.new.over ≡ true → BeginsWithEnd self.new.framing self.new.rest }
        ensures partial { piece.new.contexts ≡ [] → self.new.over ≡ false → IsPartial self.new.framing self.new.form.len self.new.rest }
    {
        'portions: while self.take_front(piece) {}
    }

    // Takes the portions after a long context, if the piece has room.
    fn take_after_long(&mut self, piece: &mut Piece)
        requires open { self.old.over ≡ false }
        requires short { self.old.long ≡ None }
        requires size { piece.old.ctx_len ≡ form_len self.old.form }
        ensures gave { Appends R.remaining self.old self.new piece.old piece.new }
        ensures over { self.new.over ≡ true → IsOver R.remaining self.new }
        ensures partial { piece.new.contexts ≡ [] → self.new.over ≡ false → IsPartialSource self.new }
    {
        if piece.is_full() {
            return;
        }
        self.take_fronts(piece);
    }

    // Takes the portions that were read, as far as the piece has room.
    fn take(&mut self, piece: &mut Piece)
        requires open { self.old.over ≡ false }
        requires empty { piece.old.contexts ≡ [] }
        requires size { piece.old.ctx_len ≡ form_len self.old.form }
        ensures gave { Appends R.remaining self.old self.new piece.old piece.new }
        ensures over { self.new.over ≡ true → IsOver R.remaining self.new }
        ensures partial { piece.new.contexts ≡ [] → self.new.over ≡ false → IsPartialSource self.new }
    {
        match self.long {
            None => self.take_after_long(piece),
            Some(Long::Frame { total, missing }) => {
                if self.pass_frame(total, missing, piece) {
                    self.take_after_long(piece);
                }
            }
            Some(Long::Line { total }) => {
                if self.pass_line(total, piece) {
                    self.take_after_long(piece);
                }
            }
        }
    }

    // Makes room in the window. The window is full only if a context does not fit into it.
    fn make_room(&mut self)
        requires open { self.old.over ≡ false }
        requires partial { IsPartialSource self.old }
        ensures gave { GivesNone R.remaining self.old self.new }
        ensures open { self.new.over ≡ false }
        ensures partial { IsPartialSource self.new }
        ensures room { length self.new.rest < 131072 }
    {
        if self.window.bytes().len() < WINDOW_SIZE {
            return;
        }
        self.begin_long();
    }

    // Reads once. At the end of the input nothing has changed.
    fn read_once(&mut self) -> ReadOutcome
        requires open { self.old.over ≡ false }
        requires partial { IsPartialSource self.old }
        requires room { length self.old.rest < 131072 }
        ensures gave { GivesNone R.remaining self.old self.new }
        ensures open { self.new.over ≡ false }
        ensures end { result ≡ ended → IsPartialSource self.new × IsAtEnd (R.remaining self.new.reader) }
    {
        self.window.read_from(&mut self.reader)
    }

    // Fills the piece, unless the stream is over.
    fn fill_open(&mut self, piece: &mut Piece) -> Result<Filled, SourceFault>
        requires open { self.old.over ≡ false }
        requires empty { piece.old.contexts ≡ [] }
        requires size { piece.old.ctx_len ≡ form_len self.old.form }
        ensures gave { Appends R.remaining self.old self.new piece.old piece.new }
        ensures count { HasGiven piece.new.contexts result }
        ensures end { OnEnd result (self.new.over ≡ true) }
        ensures over { self.new.over ≡ true → IsOver R.remaining self.new }
        ensures fault { IfErr result (FailsAs R.remaining self.new) }
    {
        'reads: for _ in 0..u64::MAX {
            self.take(piece);
            if !piece.is_empty() {
                return Ok(Filled::More);
            }
            if self.over {
                return Ok(Filled::End);
            }
            self.make_room();
            match self.read_once() {
                ReadOutcome::Bytes => {}
                ReadOutcome::End => return self.end(piece),
                ReadOutcome::Fault => return Err(SourceFault::Read),
            }
        }
        Err(SourceFault::Read)
    }
}

impl<R: Read> Source for FramedReader<R> {
    ghost use Rattle.std.specs.Prelude.{◌≡◌, true};
    ghost use Rattle.rb_source.specs.Form.{form_len};
    ghost use Rattle.rb_source.specs.Stream.{FailsAs, Gives};
    ghost use Rattle.rb_source.specs.StreamLaws.{gives_nothing, gives_both};

    ghost ctx_len_of = { λ s. form_len s.form };

    ghost gives = { Gives R.remaining };

    ghost is_over = { λ s. s.over ≡ true };

    ghost fails = { FailsAs R.remaining };

    ghost gives_nothing = { gives_nothing R.remaining };

    ghost gives_both = { gives_both R.remaining };

    fn ctx_len(&self) -> u32 {
        self.form.ctx_len()
    }

    fn fill(&mut self, piece: &mut Piece) -> Result<Filled, SourceFault> {
        if self.over {
            return Ok(Filled::End);
        }
        self.fill_open(piece)
    }
}
